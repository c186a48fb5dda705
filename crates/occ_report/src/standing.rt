//! What a process stands at, in bytes.
ghost use Rattle.std.specs.Prelude.{◌≡◌, IfOk, OnOk, Some, codes, slice_get};
ghost use Rattle.occ_net_tables.specs.Holding.{HeldBy};
ghost use Rattle.occ_term.specs.Endings.{ending_text};
ghost use Rattle.occ_shown.specs.Answers.{AddsText, HasWords};
ghost use Rattle.occ_report.specs.Reports.{awaited_told, branches_text, choosing_ones, halted_text, halting_text, task_chooses, process_text, AddsOffer, AddsChoosing, AddsCircle, ListsChoosing, joining_text, reader_at, standing_told, writer_at, ring_head, ring_text};

use crate::arms::write_choosing;
use crate::kinds::by_number;
use crate::source_lines::{write_channel, written_at};
use crate::{Kind, Stop};
use occ_machine::Wait;
use occ_net_tables::Tables;
use occ_shown::write_message;
use occ_term::{Channel, Ending, Fault, KEYBOARD, Message};
use std::alloc::{AllocError, Global};

/// Where a process stands in the source: its stops, and the one that it stands at, where they are known.
#[derive(Clone, Copy)]
pub(crate) struct Spot<'a> {
    pub(crate) source: &'a [u8],
    pub(crate) stops: &'a [Stop],
    pub(crate) stop: Option<Stop>,
}

/// By channel, of the processes that are left: who may input from it, and who may output to it.
#[derive(Clone, Copy)]
pub(crate) struct Ends<'a> {
    pub(crate) readers: &'a [Option<u32>],
    pub(crate) writers: &'a [Option<u32>],
}

pub(crate) fn write_process(alloc: Global, out: &mut Vec<u8>, number: u32) -> Result<(), AllocError>
    ensures { OnOk result (AddsText out.old out.new (process_text number)) }
{
    let text = format!(in alloc; "p{number}")?;
    out.extend_from_slice(text.as_bytes())
}

/// Who reads a channel, if anybody does.
fn write_reader(
    alloc: Global,
    out: &mut Vec<u8>,
    readers: &[Option<u32>],
    chan: u32,
) -> Result<(), AllocError>
    ensures { OnOk result (AddsText out.old out.new (reader_at readers.now chan)) }
{
    match readers.get(chan as usize) {
        Some(Some(number)) => {
            let text = format!(in alloc; ", which p{number} reads")?;
            out.extend_from_slice(text.as_bytes())
        }
        _ => out.extend_from_slice(b", which nobody reads now"),
    }
}

/// Who writes a channel, if anybody does.
fn write_writer(
    alloc: Global,
    out: &mut Vec<u8>,
    writers: &[Option<u32>],
    chan: u32,
) -> Result<(), AllocError>
    ensures { OnOk result (AddsText out.old out.new (writer_at writers.now chan)) }
{
    if chan == KEYBOARD {
        return out.extend_from_slice(b", whose bytes are used up");
    }
    match writers.get(chan as usize) {
        Some(Some(number)) => {
            let text = format!(in alloc; ", which p{number} writes")?;
            out.extend_from_slice(text.as_bytes())
        }
        _ => out.extend_from_slice(b", which nobody writes now"),
    }
}

/// A channel from which a message is awaited, by the name that is written there.
pub(crate) fn write_awaited(
    alloc: Global,
    out: &mut Vec<u8>,
    channels: &[Channel],
    writers: &[Option<u32>],
    written: &[u8],
    chan: u32,
) -> Result<(), AllocError>
    ensures { OnOk result
        (AddsText out.old out.new (awaited_told channels.now writers.now written.now chan)) }
{
    out.extend_from_slice(b"awaits ")?;
    write_channel(alloc, out, channels, written, chan)?;
    write_writer(alloc, out, writers, chan)
}

pub(crate) fn write_branches(
    alloc: Global,
    out: &mut Vec<u8>,
    branches: &[u32],
) -> Result<(), AllocError>
    ensures { OnOk result (AddsText out.old out.new (branches_text branches.now)) }
{
    let mut rest = branches;
    while let Some((branch, others)) = rest.split_first() {
        out.push(b' ')?;
        write_process(alloc, out, *branch)?;
        rest = others;
    }
    Ok(())
}

/// Whether the process with this number chooses.
fn is_choosing(tables: &Tables, number: u32) -> bool
    ensures { HeldBy tables.now (λ net. result ≡ task_chooses (slice_get net.tasks number)) }
{
    match tables.task(number) {
        Some(task) => matches!(task.wait, Wait::Chooses { .. }),
        None => false,
    }
}

/// Adds a process where it chooses.
fn add_choosing(tables: &Tables, number: u32, choosing: &mut Vec<u32>) -> Result<(), AllocError>
    ensures { OnOk result (AddsChoosing tables.now number choosing.old choosing.new) }
{
    if is_choosing(tables, number) {
        choosing.push(number)?;
    }
    Ok(())
}

/// Those of these processes that choose.
fn choosing_among(alloc: Global, tables: &Tables, numbers: &[u32]) -> Result<Vec<u32>, AllocError>
    ensures { IfOk result (ListsChoosing tables.now numbers.now) }
{
    let mut choosing = Vec::new(alloc);
    let mut rest = numbers;
    while let Some((number, others)) = rest.split_first() {
        add_choosing(tables, *number, &mut choosing)?;
        rest = others;
    }
    Ok(choosing)
}

/// Those that wait by one of several arms, where there are some.
fn write_choosing_ones(alloc: Global, out: &mut Vec<u8>, choosing: &[u32]) -> Result<(), AllocError>
    ensures { OnOk result (AddsText out.old out.new (choosing_ones choosing.now)) }
{
    if choosing.is_empty() {
        return Ok(());
    }
    let tail = by_number(choosing, b" by one of its arms", b" by one of their arms");
    out.push(b',')?;
    write_branches(alloc, out, choosing)?;
    out.extend_from_slice(tail)
}

/// How a circle is told, in which these choose.
fn write_ring_head(alloc: Global, out: &mut Vec<u8>, choosing: &[u32]) -> Result<(), AllocError>
    ensures { OnOk result (AddsText out.old out.new (ring_head choosing.now)) }
{
    out.extend_from_slice(b"  in a circle, each waits for the next")?;
    write_choosing_ones(alloc, out, choosing)?;
    out.extend_from_slice(b":")
}

/// Processes that wait in a circle, where there are some, those of them that choose before them.
fn write_ring(
    alloc: Global,
    out: &mut Vec<u8>,
    choosing: &[u32],
    circle: &[u32],
) -> Result<(), AllocError>
    ensures { OnOk result (AddsText out.old out.new (ring_text choosing.now circle.now)) }
{
    if circle.is_empty() {
        return Ok(());
    }
    write_ring_head(alloc, out, choosing)?;
    write_branches(alloc, out, circle)?;
    out.extend_from_slice(b"\n")
}

/// Processes that wait in a circle, where there are some.
pub(crate) fn write_circle(
    alloc: Global,
    out: &mut Vec<u8>,
    tables: &Tables,
    circle: &[u32],
) -> Result<(), AllocError>
    ensures { OnOk result (AddsCircle tables.now circle.now out.old out.new) }
{
    let choosing = choosing_among(alloc, tables, circle)?;
    write_ring(alloc, out, choosing.as_slice(), circle)?;
    Ok(())
}

fn write_offer(
    alloc: Global,
    out: &mut Vec<u8>,
    channels: &[Channel],
    readers: &[Option<u32>],
    written: &[u8],
    chan: u32,
    message: &Message,
) -> Result<(), AllocError>
    ensures { OnOk result
        (AddsOffer channels.now readers.now written.now chan message.now out.old out.new) }
{
    out.extend_from_slice(b"offers ")?;
    write_message(out, message, chan, channels)?;
    out.extend_from_slice(b" on ")?;
    write_channel(alloc, out, channels, written, chan)?;
    write_reader(alloc, out, readers, chan)
}

fn write_fault(alloc: Global, out: &mut Vec<u8>, fault: Fault) -> Result<(), AllocError>
    ensures { OnOk result (AddsText out.old out.new (ending_text (Ending.Fault fault))) }
{
    let ending = Ending::Fault(fault);
    let text = format!(in alloc; "{ending}")?;
    out.extend_from_slice(text.as_bytes())
}

/// A text of these bytes.
fn text_of(alloc: Global, text: &[u8]) -> Result<Option<Vec<u8>>, AllocError>
    ensures { IfOk result (HasWords (Some text.now)) }
{
    Ok(Some(Vec::from_slice(alloc, text)?))
}

/// For what a process halted, by what stands in the source there.
fn halting_text(kind: Kind) -> &'static [u8]
    ensures { result.now ≡ halting_text kind }
{
    match kind {
        Kind::Stop => b"halted by STOP",
        Kind::If => b"halted, since no condition of the IF is TRUE",
        Kind::Case => b"halted, since the CASE has no option for the value",
        Kind::Variants => b"halted, since no variant has the tag",
        Kind::Alt => b"halted, since every arm of the ALT is closed",
        Kind::Output | Kind::Input | Kind::Arm | Kind::Par | Kind::Loop => b"halted",
    }
}

/// For what a process halted, as far as it is known.
fn halted_text(stop: Option<Stop>) -> &'static [u8]
    ensures { result.now ≡ halted_text stop }
{
    match stop {
        Some(stop) => halting_text(stop.kind),
        None => b"halted",
    }
}

/// What a process stands at, of whose stops this is known; nothing where it is at its end.
pub(crate) fn standing(
    alloc: Global,
    channels: &[Channel],
    ends: Ends<'_>,
    spot: Spot<'_>,
    wait: &Wait,
) -> Result<Option<Vec<u8>>, AllocError>
    ensures { IfOk result (HasWords (standing_told channels.now ends.entry spot.entry wait.now)) }
{
    let stop = spot.stop;
    let written = written_at(spot.source, stop);
    let mut out = Vec::new(alloc);
    match wait {
        Wait::Ready => return text_of(alloc, b"can go on"),
        Wait::Took { .. } => return text_of(alloc, b"can go on"),
        Wait::Halted => return text_of(alloc, halted_text(stop)),
        Wait::Done => return Ok(None),
        Wait::Offers { chan, message } => {
            write_offer(
                alloc,
                &mut out,
                channels,
                ends.readers,
                written,
                *chan,
                message,
            )?
        }
        Wait::Awaits { chan } => {
            write_awaited(alloc, &mut out, channels, ends.writers, written, *chan)?
        }
        Wait::Chooses { arms, .. } => {
            write_choosing(
                alloc,
                &mut out,
                channels,
                ends.writers,
                spot,
                arms.as_slice(),
            )?
        }
        Wait::Joins { branches } => write_joining(alloc, &mut out, branches.as_slice())?,
        Wait::Faulted(fault) => write_fault(alloc, &mut out, *fault)?,
    }
    Ok(Some(out))
}

fn write_joining(alloc: Global, out: &mut Vec<u8>, branches: &[u32]) -> Result<(), AllocError>
    ensures { OnOk result (AddsText out.old out.new (joining_text branches.now)) }
{
    out.extend_from_slice(b"waits for")?;
    write_branches(alloc, out, branches)
}
