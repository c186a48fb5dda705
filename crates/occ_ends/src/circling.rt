//! Circles of processes that wait for one another.
ghost use Rattle.std.specs.Prelude.{◌≡◌, ◌<◌, ◌≤◌, IfNone, IfOk, IfSome, OnOk, length, map, min, option_to_list, slice_get};
ghost use Rattle.occ_ends.specs.Ends.{AddsUnended, HoldWaits, HoldsCircle, IsAgain, IsFresh, IsRoot, LeadWithin, ListsOthers, ListsUnended, ListsWaits, MakesRing, arm_writer, arm_writers, edge_to, edges_to, end_noted};

use crate::ends::{Ends, is_unended};
use occ_explore_laws::{Edge, Fans, Lasting, lasting};
use occ_machine::{Arm, Wait};
use occ_net_replay::Choice;
use occ_net_tables::Tables;
use std::alloc::{AllocError, Global};

/// Of how many processes a circle is looked for at most.
const MOST: u32 = 4_294_967_294;

/// The process that is noted for a channel.
fn noted(ends: &[Option<u32>], chan: u32) -> Option<u32>
    ensures { result ≡ end_noted ends.now chan }
{
    match ends.get(chan as usize) {
        Some(end) => *end,
        None => None,
    }
}

/// Whom a process waits for at one channel.
fn alone(alloc: Global, end: Option<u32>) -> Result<Vec<u32>, AllocError>
    ensures { IfOk result (λ others. others.items ≡ option_to_list end) }
{
    let mut others = Vec::new(alloc);
    if let Some(other) = end {
        others.push(other)?;
    }
    Ok(others)
}

/// Who may output to the channels of these arms.
fn arm_writers(alloc: Global, writers: &[Option<u32>], arms: &[Arm]) -> Result<Vec<u32>, AllocError>
    ensures { IfOk result (λ others. others.items ≡ arm_writers (end_noted writers.now) arms.now) }
{
    let mut others = Vec::new(alloc);
    let mut rest = arms;
    while let Some((arm, later)) = rest.split_first() {
        if let Some(other) = arm_writer(writers, arm) {
            others.push(other)?;
        }
        rest = later;
    }
    Ok(others)
}

/// Who may output to the channel of an arm.
fn arm_writer(writers: &[Option<u32>], arm: &Arm) -> Option<u32>
    ensures { result ≡ arm_writer (end_noted writers.now) arm.now }
{
    match arm.chan {
        Some(chan) => noted(writers, chan),
        None => None,
    }
}

/// Adds a branch where it is not at its end.
fn add_unended(tables: &Tables, number: u32, others: &mut Vec<u32>) -> Result<(), AllocError>
    ensures { OnOk result (AddsUnended tables.now number others.old others.new) }
{
    if is_unended(tables, number) {
        others.push(number)?;
    }
    Ok(())
}

/// Those of these branches that are not at their ends.
fn unended_among(alloc: Global, tables: &Tables, branches: &[u32]) -> Result<Vec<u32>, AllocError>
    ensures { IfOk result (ListsUnended tables.now branches.now) }
{
    let mut others = Vec::new(alloc);
    let mut rest = branches;
    while let Some((branch, later)) = rest.split_first() {
        add_unended(tables, *branch, &mut others)?;
        rest = later;
    }
    Ok(others)
}

/// Whom a process waits for that stands at this. Its arms count where no process can go on.
fn waits_for(
    alloc: Global,
    ends: &Ends,
    tables: &Tables,
    still: bool,
    wait: &Wait,
) -> Result<Vec<u32>, AllocError>
    ensures { IfOk result (ListsWaits ends.now tables.now still wait.now) }
{
    match wait {
        Wait::Offers { chan, message: _ } => alone(alloc, noted(ends.readers.as_slice(), *chan)),
        Wait::Awaits { chan } => alone(alloc, noted(ends.writers.as_slice(), *chan)),
        Wait::Chooses { pri: _, arms } if still => {
            arm_writers(alloc, ends.writers.as_slice(), arms.as_slice())
        }
        Wait::Joins { branches } => unended_among(alloc, tables, branches.as_slice()),
        Wait::Ready
        | Wait::Took { .. }
        | Wait::Chooses { .. }
        | Wait::Halted
        | Wait::Done
        | Wait::Faulted(_) => Ok(Vec::new(alloc)),
    }
}

/// Whom the process with this number waits for.
fn others_of(
    alloc: Global,
    ends: &Ends,
    tables: &Tables,
    number: u32,
) -> Result<Vec<u32>, AllocError>
    ensures { IfOk result (ListsOthers ends.now tables.now number) }
{
    let still = tables.ready().is_empty();
    match tables.task(number) {
        Some(task) => waits_for(alloc, ends, tables, still, &task.wait),
        None => Ok(Vec::new(alloc)),
    }
}

/// The edges from a process to those that it waits for; node 0 is none.
fn fan_of(alloc: Global, number: u32, others: &[u32], below: u32) -> Result<Vec<Edge>, AllocError>
    requires { below ≤ 4294967294 }
    ensures { IfOk result (λ fan. fan.items ≡ edges_to number others.now below) }
{
    let mut fan = Vec::new(alloc);
    let mut rest = others;
    while let Some((other, later)) = rest.split_first() {
        if *other < below {
            fan.push(edge(number, *other))?;
        }
        rest = later;
    }
    Ok(fan)
}

/// An edge to a process, which tells who waits.
fn edge(number: u32, next: u32) -> Edge
    requires { next < 4294967294 }
    ensures { result ≡ edge_to number next }
{
    let choice = Choice {
        which: number,
        pick: 0,
    };
    Edge {
        to: next + 1,
        choice,
        behind: 0,
        tail: 0,
    }
}

/// The edges from node 0 to all processes.
fn root(alloc: Global, below: u32) -> Result<Vec<Edge>, AllocError>
    requires { below ≤ 4294967294 }
    ensures { IfOk result (λ fan. IsRoot below fan.items) }
{
    let mut fan = Vec::new(alloc);
    for number in 0..below {
        fan.push(edge(number, number))?;
    }
    Ok(fan)
}

/// The graph of who waits for whom. Node 0 leads to all processes, whose nodes have their numbers and one.
fn graph(alloc: Global, ends: &Ends, tables: &Tables, below: u32) -> Result<Fans, AllocError>
    requires { below ≤ 4294967294 }
    ensures waits { IfOk result (HoldWaits ends.now tables.now below) }
    ensures within { IfOk result (λ fans. LeadWithin below below fans) }
{
    let mut fans = Fans::new(alloc);
    let first = root(alloc, below)?;
    fans.push(&first)?;
    for number in 0..below {
        let others = others_of(alloc, ends, tables, number)?;
        let fan = fan_of(alloc, number, others.as_slice(), below)?;
        fans.push(&fan)?;
    }
    Ok(fans)
}

/// The processes that the edges of a way round tell.
fn members(alloc: Global, round: &[Edge]) -> Result<Vec<u32>, AllocError>
    ensures { IfOk result (λ numbers. numbers.items ≡ map (λ e. e.choice.which) round.now) }
{
    let mut numbers = Vec::new(alloc);
    for edge in round {
        numbers.push(edge.choice.which)?;
    }
    Ok(numbers)
}

/// Where the number at this place stands before it.
fn place_before(numbers: &[u32], place: usize) -> Option<usize>
    requires { place < length numbers.now }
    ensures before { IfSome result (λ first. first < place) }
    ensures some { IfSome result
        (λ first. slice_get numbers.now first ≡ slice_get numbers.now place) }
    ensures none { IfNone result (IsFresh numbers.now place) }
{
    for first in 0..place {
        if numbers[first] == numbers[place] {
            return Some(first);
        }
    }
    None
}

/// From where to where the first of these comes again that does; they are all where none does.
fn again(numbers: &[u32]) -> (usize, usize)
    requires { 0 < length numbers.now }
    ensures { IsAgain numbers.now result.0 result.1 }
{
    for place in 1..numbers.len() {
        if let Some(first) = place_before(numbers, place) {
            return (first, place);
        }
    }
    (0, numbers.len())
}

/// A circle among these, none of them twice, where some stand in one.
fn once_round(alloc: Global, numbers: &[u32]) -> Result<Vec<u32>, AllocError>
    ensures { IfOk result (λ ring. MakesRing numbers.now ring.items) }
{
    if numbers.is_empty() {
        return Ok(Vec::new(alloc));
    }
    let (first, end) = again(numbers);
    let ring = Vec::from_slice(alloc, &numbers[first..end])?;
    Ok(ring)
}

/// Processes each of which waits for the one behind it, and the last one for the first: for it to input what it offers, or to
/// output what it awaits, or what one of its arms does where no process can go on, or as for a branch; none of them twice. None where
/// there are none, among the first `count` processes.
/// The error is a refused growth.
pub(crate) fn circle(
    alloc: Global,
    ends: &Ends,
    tables: &Tables,
    count: u32,
) -> Result<Vec<u32>, AllocError>
    ensures { IfOk result (HoldsCircle ends.now tables.now (min count 4294967294)) }
{
    let below = count.min(MOST);
    let fans = graph(alloc, ends, tables, below)?;
    match &lasting(alloc, &fans)? {
        Lasting::Within(_) => Ok(Vec::new(alloc)),
        Lasting::Forever { way: _, round } => {
            let numbers = members(alloc, round.as_slice())?;
            let ring = once_round(alloc, numbers.as_slice())?;
            Ok(ring)
        }
    }
}
