//! Who may be at the ends of channels.
ghost use Rattle.std.specs.Prelude.{◌≡◌, IfOk, None, replicate, slice_get, true};
ghost use Rattle.occ_net_tables.specs.Holding.{HeldBy};
ghost use Rattle.occ_usage.specs.Noted.{between};
ghost use Rattle.occ_ends.specs.Endless.{flag};
ghost use Rattle.occ_ends.specs.Ends.{AreDueBy, AreEndsBy, Marks, MarksAll, MarksLast, MarksReaders, MarksWriters, is_standing, is_unended, marked, stands, task_is};

use crate::endless::is_flagged;
use crate::uses::ProcessUses;
use occ_machine::Wait;
use occ_net_tables::Tables;
use occ_usage::{Kind, Use};
use std::alloc::{AllocError, Global};

/// By channel, of the processes that are left: who may input from it, and who may output to it.
pub struct Ends {
    /// Who may input from each.
    pub readers: Vec<Option<u32>>,
    /// Who may output to each.
    pub writers: Vec<Option<u32>>,
}

impl Drop for Ends {
    fn drop(self) {
        let Ends {
            readers: _,
            writers: _,
        } = self;
    }
}

/// Whether a process that stands at this may still take a turn, other than behind its branches.
fn is_standing(wait: &Wait) -> bool
    ensures { result ≡ is_standing wait.now }
{
    match wait {
        Wait::Joins { .. } | Wait::Halted | Wait::Done | Wait::Faulted(_) => false,
        Wait::Ready
        | Wait::Took { .. }
        | Wait::Offers { .. }
        | Wait::Awaits { .. }
        | Wait::Chooses { .. } => true,
    }
}

/// Whether the process with this number stands so.
fn stands(tables: &Tables, number: u32) -> bool
    ensures { HeldBy tables.now (λ net. result ≡ stands net.tasks number) }
{
    match tables.task(number) {
        Some(task) => is_standing(&task.wait),
        None => false,
    }
}

/// Whether the process with this number has begun, and is not at its end.
pub(crate) fn is_unended(tables: &Tables, number: u32) -> bool
    ensures { HeldBy tables.now (λ net. result ≡ task_is is_unended (slice_get net.tasks number)) }
{
    match tables.task(number) {
        Some(task) => !matches!(task.wait, Wait::Done),
        None => false,
    }
}

/// Who is noted for a channel where this process is noted too.
fn first_of(end: Option<u32>, number: u32) -> Option<u32>
    ensures { result ≡ marked true number end }
{
    match end {
        Some(other) => Some(other),
        None => Some(number),
    }
}

/// Where nobody is noted at the ends of these channels, this process is.
fn mark(ends: &mut Vec<Option<u32>>, first: u64, end: u64, number: u32)
    ensures { Marks ends.old.items (between first end) number ends.new.items }
{
    let last = end.min(ends.len() as u64);
    let mut chan = first;
    while chan < last {
        let place = chan as usize;
        ends[place] = first_of(ends[place], number);
        chan += 1;
    }
}

/// The same where a process has these uses.
fn mark_uses(ends: &mut Ends, uses: &[Use], number: u32)
    ensures readers { MarksReaders ends.old uses.now number ends.new }
    ensures writers { MarksWriters ends.old uses.now number ends.new }
{
    for one in uses {
        match one.kind {
            Kind::Input => mark(&mut ends.readers, one.first, one.end, number),
            Kind::Output => mark(&mut ends.writers, one.first, one.end, number),
            Kind::Read | Kind::Write => {}
        }
    }
}

/// The same for each of these processes that stands, in their order.
fn mark_all(ends: &mut Ends, uses: &[ProcessUses], tables: &Tables)
    ensures readers { MarksAll
        tables.now (λ u. u.ins) uses.now ends.old.readers.items ends.new.readers.items }
    ensures writers { MarksAll
        tables.now (λ u. u.outs) uses.now ends.old.writers.items ends.new.writers.items }
{
    for process in uses {
        if stands(tables, process.number) {
            mark_uses(ends, process.uses.as_slice(), process.number);
        }
    }
}

/// The same for each of these processes that is flagged, the last one first.
fn mark_last(ends: &mut Ends, uses: &[ProcessUses], flags: &[bool])
    ensures readers { MarksLast (flag flags.now) (λ u. u.ins) uses.now
        ends.old.readers.items ends.new.readers.items }
    ensures writers { MarksLast (flag flags.now) (λ u. u.outs) uses.now
        ends.old.writers.items ends.new.writers.items }
{
    let mut count = uses.len();
    while count > 0 {
        count -= 1;
        let process = &uses[count];
        if is_flagged(flags, process.number) {
            mark_uses(ends, process.uses.as_slice(), process.number);
        }
    }
}

/// Nobody, of so many channels.
fn nobody(alloc: Global, channels: usize) -> Result<Vec<Option<u32>>, AllocError>
    ensures { IfOk result (λ ends. ends.items ≡ replicate channels None) }
{
    vec![in alloc; None; channels]
}

/// Who may be at the ends of so many channels, of the processes of a program that are left in these tables. `uses` has what
/// each process of the program uses, as `process_uses` tells.
///
/// # Errors
///
/// A refused growth.
pub fn ends_of(
    alloc: Global,
    uses: &[ProcessUses],
    tables: &Tables,
    channels: usize,
) -> Result<Ends, AllocError>
    ensures { IfOk result (AreEndsBy uses.now tables.now channels) }
{
    let readers = nobody(alloc, channels)?;
    let writers = nobody(alloc, channels)?;
    let mut ends = Ends { readers, writers };
    mark_all(&mut ends, uses, tables);
    Ok(ends)
}

/// The same, where for a channel at whose end nobody is that stands the innermost process is noted that is flagged and may use it.
pub(crate) fn ends_due(
    alloc: Global,
    uses: &[ProcessUses],
    tables: &Tables,
    flags: &[bool],
    channels: usize,
) -> Result<Ends, AllocError>
    ensures { IfOk result (AreDueBy uses.now tables.now (flag flags.now) channels) }
{
    let readers = nobody(alloc, channels)?;
    let writers = nobody(alloc, channels)?;
    let mut ends = Ends { readers, writers };
    mark_all(&mut ends, uses, tables);
    mark_last(&mut ends, uses, flags);
    Ok(ends)
}
