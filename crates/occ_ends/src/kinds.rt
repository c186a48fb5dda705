//! What kind of stop a run has come to.
ghost use Rattle.std.specs.Prelude.{◌≡◌, IfOk};
ghost use Rattle.occ_net_tables.specs.Holding.{HeldBy};
ghost use Rattle.occ_ends.specs.Kinds.{AreThoseIn, IsKindIn, IsLeftIn, halts_at, has_halted, is_at_channel, is_left_at, kind_of};

use crate::circling::circle;
use crate::endless::{again_in, endless_in, is_flagged};
use crate::ends::ends_due;
use crate::uses::ProcessUses;
use occ_machine::{Code, Wait};
use occ_net_tables::Tables;
use std::alloc::{AllocError, Global};

/// Of how many processes it is told at most.
const MOST: u32 = 4_294_967_294;

/// The kinds of a stop. A stop is of the first kind that fits.
#[derive(Clone, Copy, Debug, PartialEq, Eq)]
pub enum Kind {
    /// Processes wait in a circle, each for the next.
    Circle,
    /// A process was halted, or has met a fault.
    Halted,
    /// A process that was to come to its end offers a message, awaits one, or chooses.
    Unfinished,
    /// All that are left at channels are endless.
    Idle,
}

/// Who is left where no process can go on.
#[derive(Drop)]
pub struct Left {
    /// Processes each of which waits for the next, and the last one for the first; none where there are none.
    pub circle: Vec<u32>,
    /// Those that were halted, or have met a fault.
    pub halted: Vec<u32>,
    /// Those at channels that were to come to their ends.
    pub unfinished: Vec<u32>,
}

impl Left {
    /// What kind of stop it is.
    pub fn kind(&self) -> Kind
        ensures { result ≡ kind_of self.now }
    {
        if !self.circle.is_empty() {
            Kind::Circle
        } else if !self.halted.is_empty() {
            Kind::Halted
        } else if !self.unfinished.is_empty() {
            Kind::Unfinished
        } else {
            Kind::Idle
        }
    }
}

fn has_halted(wait: &Wait) -> bool
    ensures { result ≡ has_halted wait.now }
{
    match wait {
        Wait::Halted | Wait::Faulted(_) => true,
        Wait::Ready
        | Wait::Took { .. }
        | Wait::Offers { .. }
        | Wait::Awaits { .. }
        | Wait::Chooses { .. }
        | Wait::Joins { .. }
        | Wait::Done => false,
    }
}

pub(crate) fn is_at_channel(wait: &Wait) -> bool
    ensures { result ≡ is_at_channel wait.now }
{
    match wait {
        Wait::Offers { .. } | Wait::Awaits { .. } | Wait::Chooses { .. } => true,
        Wait::Ready
        | Wait::Took { .. }
        | Wait::Joins { .. }
        | Wait::Halted
        | Wait::Done
        | Wait::Faulted(_) => false,
    }
}

/// Whether the process with this number was halted.
fn is_halted(tables: &Tables, number: u32) -> bool
    ensures { HeldBy tables.now (λ net. result ≡ halts_at net.tasks number) }
{
    match tables.task(number) {
        Some(task) => has_halted(&task.wait),
        None => false,
    }
}

/// Whether the process with this number stands at a channel, and is none of those that are endless.
fn is_left(tables: &Tables, endless: &[bool], number: u32) -> bool
    ensures { HeldBy tables.now (λ net. result ≡ is_left_at endless.now net.tasks number) }
{
    if is_flagged(endless, number) {
        return false;
    }
    match tables.task(number) {
        Some(task) => is_at_channel(&task.wait),
        None => false,
    }
}

/// Those of the first so many processes that were halted.
fn halted_in(alloc: Global, tables: &Tables, count: u32) -> Result<Vec<u32>, AllocError>
    ensures { IfOk result (AreThoseIn tables.now halts_at count) }
{
    let mut numbers = Vec::new(alloc);
    for number in 0..count {
        if is_halted(tables, number) {
            numbers.push(number)?;
        }
    }
    Ok(numbers)
}

/// Those of the first so many processes that stand at channels and were to come to their ends.
fn unfinished_in(
    alloc: Global,
    tables: &Tables,
    endless: &[bool],
    count: u32,
) -> Result<Vec<u32>, AllocError>
    ensures { IfOk result (AreThoseIn tables.now (is_left_at endless.now) count) }
{
    let mut numbers = Vec::new(alloc);
    for number in 0..count {
        if is_left(tables, endless, number) {
            numbers.push(number)?;
        }
    }
    Ok(numbers)
}

/// Who is left of the processes of a program in these tables. `uses` has what each of them uses, as `process_uses` tells.
///
/// # Errors
///
/// A refused growth, or that there are 2 to the 32 less 2 processes.
pub fn left_in(
    alloc: Global,
    uses: &[ProcessUses],
    code: &Code,
    tables: &Tables,
) -> Result<Left, AllocError>
    ensures { IfOk result (IsLeftIn uses.now code.now tables.now) }
{
    let Ok(count) = u32::try_from(code.len()) else {
        return Err(AllocError);
    };
    if count > MOST {
        return Err(AllocError);
    }
    let channels = code.channels();
    let again = again_in(alloc, code, tables, count)?;
    let ends = ends_due(alloc, uses, tables, again.as_slice(), channels.len())?;
    let endless = endless_in(alloc, code, tables, count)?;
    let circle = circle(alloc, &ends, tables, count)?;
    let halted = halted_in(alloc, tables, count)?;
    let unfinished = unfinished_in(alloc, tables, &endless, count)?;
    Ok(Left {
        circle,
        halted,
        unfinished,
    })
}

/// What kind of stop these tables hold. `uses` has what each process of the program uses, as `process_uses` tells.
///
/// # Errors
///
/// As of `left_in`.
pub fn kind_in(
    alloc: Global,
    uses: &[ProcessUses],
    code: &Code,
    tables: &Tables,
) -> Result<Kind, AllocError>
    ensures { IfOk result (IsKindIn uses.now code.now tables.now) }
{
    let left = left_in(alloc, uses, code, tables)?;
    Ok(left.kind())
}
