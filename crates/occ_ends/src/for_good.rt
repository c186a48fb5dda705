//! Which processes wait for good: whatever choices follow, they take no turn.
ghost use Rattle.std.specs.Prelude.{◌≡◌, IfOk, IsTrue, length, map};
ghost use Rattle.occ_net_tables.specs.Holding.{HeldBy};
ghost use Rattle.occ_term.specs.Frames.{is_held};
ghost use Rattle.occ_usage.specs.Noted.{between, use_of, uses_in};
ghost use Rattle.occ_ends.specs.Ends.{noted_for};
ghost use Rattle.occ_ends.specs.ForGood.{AreLeftBy, AreOutWithAll, AreStuckIn, AreWaitingIn, CirclesWaitForGood, ClearsWithin, ClosedSetsWaitForGood, IsClosedIn, IsGreatestIn, KeepsBeside, KeepsClosed, KeepsWhole, LeftBy, NoneWithin, OutWithAll, TaskLeftBy, amiss_by, arm_used, arms_used, branch_left, reads_outside, some_held, some_left, used_outside, waits_at, writes_outside};
ghost use Rattle.occ_ends.specs.Kinds.{AreThoseIn};

use crate::endless::is_flagged;
use crate::ends::is_unended;
use crate::kinds::{Left, is_at_channel, left_in};
use crate::uses::ProcessUses;
use occ_machine::{Arm, Code, Wait};
use occ_net_tables::Tables;
use occ_usage::{Kind, Use};
use std::alloc::{AllocError, Global};

/// A closed set of processes waits for good: none of it takes a turn, whatever choices follow.
pub fn closed_sets_wait_for_good()
    ensures { ClosedSetsWaitForGood }
{}

/// Processes that wait for one another at channels, as in a circle, wait for good, whatever choices follow.
pub fn circles_wait_for_good()
    ensures { CirclesWaitForGood }
{}

// ---- who is outside a set

/// Whether a use has this channel.
fn covers(one: &Use, chan: u32) -> bool
    ensures { result ≡ between one.now.first one.now.end chan }
{
    one.first <= chan as u64 && (chan as u64) < one.end
}

/// Whether a use is an input from this channel.
fn is_input(one: &Use, chan: u32) -> bool
    ensures { result ≡ (use_of one.now.kind (between one.now.first one.now.end)).ins chan }
{
    match one.kind {
        Kind::Input => covers(one, chan),
        Kind::Output | Kind::Read | Kind::Write => false,
    }
}

/// Whether a use is an output to this channel.
fn is_output(one: &Use, chan: u32) -> bool
    ensures { result ≡ (use_of one.now.kind (between one.now.first one.now.end)).outs chan }
{
    match one.kind {
        Kind::Output => covers(one, chan),
        Kind::Input | Kind::Read | Kind::Write => false,
    }
}

/// Whether one of these uses is an input from this channel.
fn inputs_from(uses: &[Use], chan: u32) -> bool
    ensures { result ≡ (uses_in uses.now).ins chan }
{
    for one in uses {
        if is_input(one, chan) {
            return true;
        }
    }
    false
}

/// Whether one of these uses is an output to this channel.
fn outputs_to(uses: &[Use], chan: u32) -> bool
    ensures { result ≡ (uses_in uses.now).outs chan }
{
    for one in uses {
        if is_output(one, chan) {
            return true;
        }
    }
    false
}

/// Whether a process is not flagged, and may input from this channel.
fn reads_outside(process: &ProcessUses, flags: &[bool], chan: u32) -> bool
    ensures { result ≡ reads_outside process.now flags.now chan }
{
    !is_flagged(flags, process.number) && inputs_from(process.uses.as_slice(), chan)
}

/// Whether a process is not flagged, and may output to this channel.
fn writes_outside(process: &ProcessUses, flags: &[bool], chan: u32) -> bool
    ensures { result ≡ writes_outside process.now flags.now chan }
{
    !is_flagged(flags, process.number) && outputs_to(process.uses.as_slice(), chan)
}

/// Whether some process outside the flagged ones may input from this channel.
fn is_read_outside(uses: &[ProcessUses], flags: &[bool], chan: u32) -> bool
    ensures { result ≡ used_outside (λ u. u.ins) (map noted_for uses.now) flags.now chan }
{
    for process in uses {
        if reads_outside(process, flags, chan) {
            return true;
        }
    }
    false
}

/// Whether some process outside the flagged ones may output to this channel.
fn is_written_outside(uses: &[ProcessUses], flags: &[bool], chan: u32) -> bool
    ensures { result ≡ used_outside (λ u. u.outs) (map noted_for uses.now) flags.now chan }
{
    for process in uses {
        if writes_outside(process, flags, chan) {
            return true;
        }
    }
    false
}

// ---- whether a set is closed

fn is_arm_used(uses: &[ProcessUses], flags: &[bool], chan: Option<u32>) -> bool
    ensures { result ≡ arm_used (map noted_for uses.now) flags.now chan }
{
    match chan {
        Some(chan) => is_written_outside(uses, flags, chan),
        None => false,
    }
}

/// Whether some process outside the flagged ones may output to the channel of one of these arms.
fn are_arms_used(uses: &[ProcessUses], flags: &[bool], arms: &[Arm]) -> bool
    ensures { result ≡ arms_used (map noted_for uses.now) flags.now arms.now }
{
    let mut rest = arms;
    while let Some((arm, others)) = rest.split_first() {
        if is_arm_used(uses, flags, arm.chan) {
            return true;
        }
        rest = others;
    }
    false
}

/// Whether the process with this number is flagged and not at its end.
fn is_left(tables: &Tables, flags: &[bool], number: u32) -> bool
    ensures { HeldBy tables.now (λ net. result ≡ branch_left net.tasks flags.now number) }
{
    is_flagged(flags, number) && is_unended(tables, number)
}

/// Whether one of these is so.
fn some_left(tables: &Tables, flags: &[bool], branches: &[u32]) -> bool
    ensures { HeldBy tables.now (λ net. result ≡ some_left net.tasks flags.now branches.now) }
{
    let mut rest = branches;
    while let Some((branch, others)) = rest.split_first() {
        if is_left(tables, flags, *branch) {
            return true;
        }
        rest = others;
    }
    false
}

/// Whether a process that stands at this is left, by those outside the flagged ones.
fn is_left_by(tables: &Tables, uses: &[ProcessUses], flags: &[bool], wait: &Wait) -> bool
    ensures { LeftBy tables.now uses.now flags.now wait.now result }
{
    match wait {
        Wait::Ready | Wait::Took { .. } => false,
        Wait::Offers { chan, .. } => !is_read_outside(uses, flags, *chan),
        Wait::Awaits { chan } => !is_written_outside(uses, flags, *chan),
        Wait::Chooses { arms, .. } => !are_arms_used(uses, flags, arms.as_slice()),
        Wait::Joins { branches } => some_left(tables, flags, branches.as_slice()),
        Wait::Halted | Wait::Done | Wait::Faulted(_) => true,
    }
}

/// The same of the process with this number.
fn task_is_left(tables: &Tables, uses: &[ProcessUses], flags: &[bool], number: u32) -> bool
    ensures { TaskLeftBy tables.now uses.now flags.now number result }
{
    match tables.task(number) {
        Some(task) => is_left_by(tables, uses, flags, &task.wait),
        None => true,
    }
}

/// Whether each flagged one of the first so many is left.
fn are_left(tables: &Tables, uses: &[ProcessUses], flags: &[bool], count: u32) -> bool
    ensures { IsTrue result → AreLeftBy tables.now uses.now flags.now count }
{
    for number in 0..count {
        if is_flagged(flags, number) && !task_is_left(tables, uses, flags, number) {
            return false;
        }
    }
    true
}

/// Whether none of so many behind that number is flagged.
fn none_within(flags: &[bool], number: u32, within: usize) -> bool
    ensures { IsTrue result → NoneWithin flags.now number within }
{
    let first = number as usize + 1;
    let last = first.saturating_add(within).min(flags.len());
    for place in first..last {
        if flags[place] {
            return false;
        }
    }
    true
}

/// The same where that number is not flagged.
fn is_whole(flags: &[bool], number: u32, within: usize) -> bool
    ensures { IsTrue result → OutWithAll flags.now number within }
{
    is_flagged(flags, number) || none_within(flags, number, within)
}

/// Whether with each process outside the flagged ones all within it are outside.
fn are_whole(uses: &[ProcessUses], flags: &[bool]) -> bool
    ensures { IsTrue result → AreOutWithAll uses.now flags.now }
{
    for process in uses {
        if !is_whole(flags, process.number, process.within) {
            return false;
        }
    }
    true
}

/// Whether the flagged ones are a closed set.
fn is_closed(uses: &[ProcessUses], code: &Code, tables: &Tables, flags: &[bool], count: u32) -> bool
    ensures { IsTrue result → IsClosedIn uses.now code.now tables.now flags.now }
{
    if flags.len() > count as usize {
        return false;
    }
    are_left(tables, uses, flags, count) && are_whole(uses, flags)
}

// ---- the greatest closed set

/// Leaves out the process with this number, where it is flagged and not left.
fn leave_out(tables: &Tables, uses: &[ProcessUses], flags: &mut Vec<bool>, number: u32)
    ensures { KeepsClosed uses.now tables.now flags.old flags.new }
{
    if !is_flagged(flags, number) {
        return;
    }
    if task_is_left(tables, uses, flags, number) {
        return;
    }
    let place = number as usize;
    if place < flags.len() {
        flags[place] = false;
    }
}

/// Leaves out so many flagged ones where they are not left, the first ones first, and then the last ones first.
fn leave_out_all(tables: &Tables, uses: &[ProcessUses], flags: &mut Vec<bool>, count: u32)
    ensures { KeepsClosed uses.now tables.now flags.old flags.new }
{
    for number in 0..count {
        leave_out(tables, uses, flags, number);
    }
    for behind in (0..count).rev() {
        leave_out(tables, uses, flags, behind);
    }
}

/// No process from the first place to the last one, which is not among them, is flagged any more.
fn clear(flags: &mut Vec<bool>, first: usize, last: usize)
    ensures { ClearsWithin first last flags.old.items flags.new.items }
{
    let end = last.min(flags.len());
    for place in first..end {
        flags[place] = false;
    }
}

/// Leaves out whoever is within this process, where it is outside.
fn leave_out_within(process: &ProcessUses, flags: &mut Vec<bool>)
    ensures { KeepsBeside process.now flags.old flags.new }
{
    if !is_flagged(flags, process.number) {
        let first = process.number as usize + 1;
        clear(flags, first, first.saturating_add(process.within));
    }
}

/// Leaves out whoever is within a process that is outside.
fn leave_out_insides(uses: &[ProcessUses], flags: &mut Vec<bool>)
    ensures { KeepsWhole uses.now flags.old flags.new }
{
    for process in uses {
        leave_out_within(process, flags);
    }
}

/// The greatest closed set: all processes, but for those that are left out until nobody is to be left out.
fn greatest_set(
    alloc: Global,
    uses: &[ProcessUses],
    code: &Code,
    tables: &Tables,
    count: u32,
) -> Result<Vec<bool>, AllocError>
    requires { count ≡ length code.now.bodies }
    ensures { IfOk result (IsGreatestIn uses.now code.now tables.now) }
{
    let mut flags = vec![in alloc; true; count as usize]?;
    for _ in 0..count.saturating_add(1) {
        if is_closed(uses, code, tables, flags.as_slice(), count) {
            return Ok(flags);
        }
        leave_out_all(tables, uses, &mut flags, count);
        leave_out_insides(uses, &mut flags);
    }
    Err(AllocError)
}

/// Whether a process is flagged and stands at a channel.
fn waits_at(tables: &Tables, flags: &[bool], number: u32) -> bool
    ensures { HeldBy tables.now (λ net. result ≡ waits_at flags.now net.tasks number) }
{
    if !is_flagged(flags, number) {
        return false;
    }
    match tables.task(number) {
        Some(task) => is_at_channel(&task.wait),
        None => false,
    }
}

/// Those of the flagged ones, of the first so many, that stand at channels.
fn waiting_among(
    alloc: Global,
    tables: &Tables,
    flags: &[bool],
    count: u32,
) -> Result<Vec<u32>, AllocError>
    ensures { IfOk result (AreThoseIn tables.now (waits_at flags.now) count) }
{
    let mut numbers = Vec::new(alloc);
    for number in 0..count {
        if waits_at(tables, flags, number) {
            numbers.push(number)?;
        }
    }
    Ok(numbers)
}

/// Processes that stand at channels in these tables and wait for good, though others may go on: those of the greatest closed set. That
/// nobody else waits for good is not claimed. `uses` has what each process of the program uses, as `process_uses` tells.
///
/// # Errors
///
/// A refused growth, or that there are 2 to the 32 processes.
pub fn waiting_in(
    alloc: Global,
    uses: &[ProcessUses],
    code: &Code,
    tables: &Tables,
) -> Result<Vec<u32>, AllocError>
    ensures { IfOk result (AreWaitingIn uses.now code.now tables.now) }
{
    let Ok(count) = u32::try_from(code.len()) else {
        return Err(AllocError);
    };
    let flags = greatest_set(alloc, uses, code, tables, count)?;
    let numbers = waiting_among(alloc, tables, flags.as_slice(), count)?;
    Ok(numbers)
}

// ---- who is stuck

fn is_among(numbers: &[u32], number: u32) -> bool
    ensures { result ≡ is_held numbers.now number }
{
    for one in numbers {
        if *one == number {
            return true;
        }
    }
    false
}

/// Whether one of the first numbers is among the others.
fn some_among(numbers: &[u32], others: &[u32]) -> bool
    ensures { result ≡ some_held numbers.now others.now }
{
    for number in numbers {
        if is_among(others, *number) {
            return true;
        }
    }
    false
}

/// Whether something is amiss where those that are left are these, and those wait for good.
fn is_amiss(left: &Left, waiting: &[u32]) -> bool
    ensures { result ≡ amiss_by left.now waiting.now }
{
    if !left.circle.is_empty() || !left.halted.is_empty() {
        return true;
    }
    some_among(waiting, left.unfinished.as_slice())
}

/// Those that `waiting_in` tells, where they are more than idle: processes wait in a circle, some were halted, or one of these was to come
/// to its end. Else nobody. `uses` has what each process of the program uses, as `process_uses` tells.
///
/// # Errors
///
/// A refused growth, or that there are 2 to the 32 less 2 processes.
pub fn stuck_in(
    alloc: Global,
    uses: &[ProcessUses],
    code: &Code,
    tables: &Tables,
) -> Result<Vec<u32>, AllocError>
    ensures { IfOk result (AreStuckIn uses.now code.now tables.now) }
{
    let waiting = waiting_in(alloc, uses, code, tables)?;
    if waiting.is_empty() {
        return Ok(waiting);
    }
    let left = left_in(alloc, uses, code, tables)?;
    if is_amiss(&left, waiting.as_slice()) {
        return Ok(waiting);
    }
    let nobody = Vec::new(alloc);
    Ok(nobody)
}
