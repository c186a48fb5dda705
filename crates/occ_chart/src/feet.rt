//! Who stands at the foot of its column.
ghost use Rattle.std.specs.Prelude.{◌≡◌, ◌++◌, ◌≤◌, ◌^◌, IfOk, OnOk, length};
ghost use Rattle.occ_chart.specs.Charts.{drawn_reasons, drawn_stubs, reason_at, stub_at};
ghost use Rattle.occ_chart.specs.Places.{AreNear};
ghost use Rattle.occ_chart.specs.Labels.{foot_words, await_words, offer_words};
ghost use Rattle.occ_chart.specs.Shapes.{stub};
ghost use Rattle.occ_chart.specs.Xml.{AddsElement, AddsElements};
ghost use Rattle.occ_term.specs.Endings.{ending_text};
ghost use Rattle.occ_shown.specs.Answers.{names_of, HasWords};

use crate::columns::place_of;
use crate::labels::write_grounded;
use crate::messages::write_message;
use crate::places::Layout;
use crate::stub::Stub;
use crate::xml::{Style, write_path};
use occ_machine::Wait;
use occ_shown::write_name;
use occ_term::{Channel, End, Ending, Fault, Message};
use std::alloc::{AllocError, Global};

fn offer_words(
    alloc: Global,
    channels: &[Channel],
    chan: u32,
    message: &Message,
) -> Result<Option<Vec<u8>>, AllocError>
    ensures { IfOk result (HasWords (Some (offer_words channels.now chan message.now))) }
{
    let mut words = Vec::new(alloc);
    write_name(alloc, &mut words, channels, chan)?;
    words.extend_from_slice(b" ! ")?;
    write_message(alloc, &mut words, message, chan, channels)?;
    words.extend_from_slice(b" waits")?;
    Ok(Some(words))
}

fn await_words(
    alloc: Global,
    channels: &[Channel],
    chan: u32,
) -> Result<Option<Vec<u8>>, AllocError>
    ensures { IfOk result (HasWords (Some (await_words channels.now chan))) }
{
    let mut words = Vec::new(alloc);
    write_name(alloc, &mut words, channels, chan)?;
    words.extend_from_slice(b" ? waits")?;
    Ok(Some(words))
}

fn fault_words(alloc: Global, fault: Fault) -> Result<Option<Vec<u8>>, AllocError>
    ensures { IfOk result (HasWords (Some (ending_text (Ending.Fault fault)))) }
{
    let ending = Ending::Fault(fault);
    let text = format!(in alloc; "{ending}")?;
    words_of(alloc, text.as_bytes())
}

/// These words.
fn words_of(alloc: Global, words: &[u8]) -> Result<Option<Vec<u8>>, AllocError>
    ensures { IfOk result (HasWords (Some words.now)) }
{
    Ok(Some(Vec::from_slice(alloc, words)?))
}

/// What a process waits for, or why it never goes on; none for one that can go on, that waits for its branches, or is done.
///
/// # Errors
///
/// A refused growth.
pub fn foot_of(
    alloc: Global,
    wait: &Wait,
    channels: &[Channel],
) -> Result<Option<Vec<u8>>, AllocError>
    ensures { IfOk result (HasWords (foot_words (names_of channels.now) wait.now)) }
{
    match wait {
        Wait::Offers { chan, message } => offer_words(alloc, channels, *chan, message),
        Wait::Awaits { chan } => await_words(alloc, channels, *chan),
        Wait::Chooses { .. } => words_of(alloc, b"ALT waits"),
        Wait::Halted => words_of(alloc, b"halted"),
        Wait::Faulted(fault) => fault_words(alloc, *fault),
        Wait::Ready => Ok(None),
        Wait::Took { .. } => Ok(None),
        Wait::Joins { .. } => Ok(None),
        Wait::Done => Ok(None),
    }
}

/// The course of a stub at the foot of a column, and of a line down so far to the words below it.
#[tactic(auto, unfolding(crate::specs::Shapes::stub))]
fn stub(alloc: Global, x: u64, bottom: u64, depth: u64) -> Result<String, AllocError>
    ensures { IfOk result (λ text. text.bytes.items ≡ stub x bottom depth) }
{
    let text = format!(in alloc; "M {x} {bottom} v 14 m -7 0 h 14 m -7 0 v {depth}")?;
    Ok(text)
}

fn write_stub(
    alloc: Global,
    out: &mut Vec<u8>,
    layout: &Layout,
    bottom: u64,
    column: usize,
) -> Result<(), AllocError>
    requires { AreNear layout.now.places }
    ensures { OnOk result (AddsElement out.old out.new (stub_at layout.now bottom column)) }
{
    let depth = layout.foot_depth(column);
    let course = stub(alloc, layout.column(column), bottom, depth)?;
    write_path(out, course.as_bytes(), b"red")
}

/// A line down to each that stands at the foot.
pub(crate) fn write_stubs(
    alloc: Global,
    out: &mut Vec<u8>,
    layout: &Layout,
    columns: &[End],
    bottom: u64,
    stubs: &[Stub],
) -> Result<(), AllocError>
    requires { AreNear layout.now.places }
    ensures { OnOk result
        (AddsElements out.old out.new (drawn_stubs layout.now columns.now bottom stubs.now)) }
{
    let mut rest = stubs;
    while let Some((first, others)) = rest.split_first() {
        let column = place_of(columns, End::Process(first.process()));
        write_stub(alloc, out, layout, bottom, column)?;
        rest = others;
    }
    Ok(())
}

fn write_reason(
    alloc: Global,
    out: &mut Vec<u8>,
    layout: &Layout,
    bottom: u64,
    column: usize,
    words: &[u8],
) -> Result<(), AllocError>
    requires places { AreNear layout.now.places }
    requires bottom { bottom ≤ 2 ^ 40 }
    ensures { OnOk result
        (AddsElements out.old out.new (reason_at layout.now bottom column words.now)) }
{
    let height = bottom + layout.foot_depth(column) + 28;
    let middle = layout.column(column);
    write_grounded(alloc, out, Style::Red, middle, height, 24, words)
}

/// Why each stands there.
pub(crate) fn write_reasons(
    alloc: Global,
    out: &mut Vec<u8>,
    layout: &Layout,
    columns: &[End],
    bottom: u64,
    stubs: &[Stub],
) -> Result<(), AllocError>
    requires places { AreNear layout.now.places }
    requires bottom { bottom ≤ 2 ^ 40 }
    ensures { OnOk result
        (AddsElements out.old out.new (drawn_reasons layout.now columns.now bottom stubs.now)) }
{
    let mut rest = stubs;
    while let Some((first, others)) = rest.split_first() {
        let column = place_of(columns, End::Process(first.process()));
        write_reason(alloc, out, layout, bottom, column, first.words())?;
        rest = others;
    }
    Ok(())
}
