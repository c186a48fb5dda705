//! Which processes have no column of their own.
ghost use Rattle.std.specs.Prelude.{◌≡◌, ◌&&◌, IfOk};
ghost use Rattle.std.specs.Option.{option_copied};
ghost use Rattle.occ_chart.specs.LeftOut.{count_others, is_between_others, is_left_out, is_other, seen_entry, seen_feet, stands_as};

use crate::stub::Stub;
use occ_board::Shown;
use occ_net_tables::Entry;
use occ_term::{End, Text};
use std::alloc::{AllocError, Global};

/// As which process those are drawn that are left out: none has this number.
pub(crate) const OTHERS: u32 = 4_294_967_295;

/// Whether a process has no column of its own.
fn is_left_out(left_out: &[bool], number: u32) -> bool
    ensures { result ≡ is_left_out left_out.now number }
{
    match left_out.get(number as usize) {
        Some(is) => *is,
        None => false,
    }
}

/// Whether an end is one of those processes.
fn is_other(left_out: &[bool], end: End) -> bool
    ensures { result ≡ is_other left_out.now end }
{
    match end {
        End::Process(number) => is_left_out(left_out, number),
        End::Keyboard => false,
        End::Screen => false,
        End::Error => false,
    }
}

/// How many those are.
pub(crate) fn count_others(left_out: &[bool]) -> usize
    ensures { result ≡ count_others left_out.now }
{
    let mut count = 0;
    let mut rest = left_out;
    while let Some((first, others)) = rest.split_first() {
        if *first {
            count += 1;
        }
        rest = others;
    }
    count
}

/// In which column an end stands: all those processes stand in one.
fn stands_as(left_out: &[bool], end: End) -> End
    ensures { result ≡ stands_as left_out.now end }
{
    if is_other(left_out, end) {
        End::Process(OTHERS)
    } else {
        end
    }
}

/// Whether both ends of a communication are such processes: then it is not drawn.
pub(crate) fn is_between_others(left_out: &[bool], communication: &Entry<'_>) -> bool
    ensures { result ≡ is_between_others left_out.now communication.now }
{
    is_other(left_out, communication.sender()) && is_other(left_out, communication.receiver())
}

/// The name of a tag, once more.
fn copied(tag: Option<&Text>) -> Result<Option<Text>, AllocError>
    ensures { IfOk result (λ copy. copy ≡ option_copied tag.entry) }
{
    match tag {
        Some(tag) => Ok(Some(tag.copy()?)),
        None => Ok(None),
    }
}

/// A communication with its ends in their columns.
pub(crate) fn seen(alloc: Global, shown: &Shown, left_out: &[bool]) -> Result<Shown, AllocError>
    ensures { IfOk result (λ seen. seen ≡ seen_entry left_out.now shown.now) }
{
    let name = shown.name().copy()?;
    let message = shown.message().copy(alloc)?;
    let tag = copied(shown.tag())?;
    Ok(Shown::new(
        shown.number(),
        shown.channel(),
        name,
        stands_as(left_out, shown.sender()),
        stands_as(left_out, shown.receiver()),
        tag,
        message,
    ))
}

/// Who stands at the foot, but for those processes.
pub(crate) fn seen_feet(
    alloc: Global,
    stubs: &[Stub],
    left_out: &[bool],
) -> Result<Vec<Stub>, AllocError>
    ensures { IfOk result (λ seen. seen.items ≡ seen_feet left_out.now stubs.now) }
{
    let mut seen = Vec::new(alloc);
    let mut rest = stubs;
    while let Some((first, others)) = rest.split_first() {
        if !is_left_out(left_out, first.process()) {
            let words = Vec::from_slice(alloc, first.words())?;
            seen.push(Stub::new(first.process(), words))?;
        }
        rest = others;
    }
    Ok(seen)
}
