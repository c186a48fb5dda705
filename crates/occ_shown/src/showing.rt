//! The answer's bytes, whole.
ghost use Rattle.std.specs.Prelude.{◌≡◌, ◌∷◌, [], ◌<◌, ◌+◌, IfOk, OnOk};
ghost use Rattle.std.specs.Option.{option_copied};
ghost use Rattle.occ_term.specs.Runs.{bytes_in, entries};
ghost use Rattle.occ_shown.specs.Answers.{AreByteMessages, IsByteMessage, answer_text, part_text, later_text, items_text, end_text, ends_text, line_text, trace_text, report_of, HasBytes, all_shown, channel_bytes, bytes_sent, channel_head, communication_text, entries_in, entry_at, items_on, with_report, AddsText};
ghost use Rattle.occ_net_tables.specs.Views.{part_viewed};

use crate::values::{tag_name, write_array, write_name, write_number, write_value};
use occ_net_tables::{Entries, Entry, MessageView, PartView, PartViews, Trace};
use occ_term::{Channel, ERROR, End, Ending, Primitive, Protocol, SCREEN};
use std::alloc::{AllocError, Global};

/// Ends a line.
pub(crate) const LINE_FEED: u8 = 10;

pub(crate) fn write_part(out: &mut Vec<u8>, part: &PartView<'_>) -> Result<(), AllocError>
    ensures { OnOk result (AddsText out.old out.new (part_text (part_viewed part.now))) }
{
    match part {
        PartView::One(primitive, value) => write_value(out, *primitive, *value),
        PartView::Many(primitive, values) => write_array(out, *primitive, values),
        PartView::Counted(primitive, values) => {
            write_number(out, values.len() as u64)?;
            out.extend_from_slice(b"::")?;
            write_array(out, *primitive, values)
        }
    }
}

/// Items, each after a semicolon and a space.
fn write_later(out: &mut Vec<u8>, parts: PartViews<'_>) -> Result<(), AllocError>
    ensures { OnOk result (AddsText out.old out.new (later_text parts.entry)) }
{
    for part in parts {
        out.extend_from_slice(b"; ")?;
        write_part(out, &part)?;
    }
    Ok(())
}

/// The items of a message, of which a tag's name is the first.
fn write_items(
    out: &mut Vec<u8>,
    tag: Option<&[u8]>,
    mut parts: PartViews<'_>,
) -> Result<(), AllocError>
    ensures { OnOk result
        (AddsText out.old out.new (items_text (option_copied tag.entry) parts.entry)) }
{
    match tag {
        Some(name) => {
            out.extend_from_slice(name)?;
            write_later(out, parts)
        }
        None => match parts.next() {
            Some(first) => {
                write_part(out, &first)?;
                write_later(out, parts)
            }
            None => Ok(()),
        },
    }
}

/// The name of an end: `p` and a process's number, or what else it is.
pub(crate) fn write_end(out: &mut Vec<u8>, end: End) -> Result<(), AllocError>
    ensures { OnOk result (AddsText out.old out.new (end_text end)) }
{
    match end {
        End::Process(number) => {
            out.push(b'p')?;
            write_number(out, u64::from(number))
        }
        End::Keyboard => out.extend_from_slice(b"keyboard"),
        End::Screen => out.extend_from_slice(b"screen"),
        End::Error => out.extend_from_slice(b"error"),
    }
}

/// The number, the channel's number and its name.
fn write_head(
    alloc: Global,
    out: &mut Vec<u8>,
    number: u64,
    chan: u32,
    channels: &[Channel],
) -> Result<(), AllocError>
    ensures { OnOk result (AddsText out.old out.new (channel_head channels.now number chan)) }
{
    write_number(out, number)?;
    out.extend_from_slice(b" c")?;
    write_number(out, u64::from(chan))?;
    out.push(b' ')?;
    write_name(alloc, out, channels, chan)
}

/// The two ends of a communication, between spaces.
pub(crate) fn write_ends(out: &mut Vec<u8>, sender: End, receiver: End) -> Result<(), AllocError>
    ensures { OnOk result (AddsText out.old out.new (ends_text sender receiver)) }
{
    out.push(b' ')?;
    write_end(out, sender)?;
    out.push(b'>')?;
    write_end(out, receiver)?;
    out.push(b' ')?;
    Ok(())
}

/// The tag's name and the items of a message on this channel.
fn write_message(
    out: &mut Vec<u8>,
    message: &MessageView<'_>,
    chan: u32,
    channels: &[Channel],
) -> Result<(), AllocError>
    ensures { OnOk result (AddsText out.old out.new (items_on channels.now chan message.now)) }
{
    let items = message.items();
    match message.tag() {
        Some(tag) => write_items(out, Some(tag_name(channels, chan, tag)), items),
        None => write_items(out, None, items),
    }
}

/// The channel's name and the message of a communication.
pub(crate) fn write_label(
    alloc: Global,
    out: &mut Vec<u8>,
    communication: &Entry<'_>,
    channels: &[Channel],
) -> Result<(), AllocError>
    ensures { OnOk result
        (AddsText out.old out.new (communication_text channels.now communication.now)) }
{
    let chan = communication.chan();
    write_name(alloc, out, channels, chan)?;
    out.push(b' ')?;
    write_message(out, &communication.message(), chan, channels)
}

/// Puts the line of a communication, which has this number, behind these bytes.
///
/// # Errors
///
/// A refused growth.
pub fn write_line(
    alloc: Global,
    out: &mut Vec<u8>,
    number: u64,
    communication: &Entry<'_>,
    channels: &[Channel],
) -> Result<(), AllocError>
    ensures { OnOk result
        (AddsText out.old out.new (line_text (entry_at channels.now number communication.now))) }
{
    let chan = communication.chan();
    write_head(alloc, out, number, chan, channels)?;
    write_ends(out, communication.sender(), communication.receiver())?;
    write_message(out, &communication.message(), chan, channels)?;
    out.push(LINE_FEED)?;
    Ok(())
}

/// The lines of all communications, numbered from 1.
fn write_trace(
    alloc: Global,
    out: &mut Vec<u8>,
    trace: &Trace,
    channels: &[Channel],
) -> Result<(), AllocError>
    ensures { OnOk result
        (AddsText out.old out.new (trace_text (entries_in channels.now trace.now))) }
{
    let mut number = 0;
    for communication in trace.entries() {
        number += 1;
        write_line(alloc, out, number, &communication, channels)?;
    }
    Ok(())
}

/// The byte that a message is.
fn byte_of(message: &MessageView<'_>) -> u8
    requires { IsByteMessage message.now }
    ensures { bytes_in message.now.items ≡ result ∷ [] }
{
    match message.items().next() {
        Some(PartView::One(_, value)) => value as u8,
        _ => unreachable!(),
    }
}

/// Puts the bytes of these communications' messages on one channel behind the others, each of one byte.
///
/// # Errors
///
/// A refused growth.
pub fn write_bytes(
    out: &mut Vec<u8>,
    communications: Entries<'_>,
    chan: u32,
) -> Result<(), AllocError>
    requires { AreByteMessages chan communications }
    ensures { OnOk result (AddsText out.old out.new (channel_bytes chan communications.entry)) }
{
    let mut entries = communications;
    while let Some(communication) = entries.next_on(chan) {
        out.push(byte_of(&communication.message()))?;
    }
    Ok(())
}

/// The bytes of the messages of a channel, each of one byte.
///
/// # Errors
///
/// A refused growth.
pub fn channel_bytes(alloc: Global, trace: &Trace, chan: u32) -> Result<Vec<u8>, AllocError>
    requires { AreByteMessages chan trace.now }
    ensures { IfOk result (HasBytes (channel_bytes chan trace.now)) }
{
    let mut bytes = Vec::new(alloc);
    write_bytes(&mut bytes, trace.entries(), chan)?;
    Ok(bytes)
}

/// The trace's lines and the ending's line; without the trace the ending's line alone, and nothing where the run ended.
fn report(
    alloc: Global,
    trace: Option<&Trace>,
    channels: &[Channel],
    ending: Ending,
) -> Result<Vec<u8>, AllocError>
    ensures { IfOk result (HasBytes (report_of channels.now (option_copied trace.entry) ending)) }
{
    let mut bytes = Vec::new(alloc);
    if let Some(communications) = trace {
        write_trace(alloc, &mut bytes, communications, channels)?;
    }
    if trace.is_some() || ending != Ending::Ended {
        let line = format!(in alloc; "{ending}\n")?;
        bytes.extend_from_slice(line.as_bytes())?;
    }
    Ok(bytes)
}

/// The bytes, and then the report, which stands on lines of its own.
fn joined(bytes: &mut Vec<u8>, report: &[u8]) -> Result<(), AllocError>
    ensures { OnOk result (bytes.new.items ≡ with_report bytes.old.items report.now) }
{
    if !report.is_empty() && bytes.last().is_some_and(|last| *last != LINE_FEED) {
        bytes.push(LINE_FEED)?;
    }
    bytes.extend_from_slice(report)
}

/// The answer of a run: the screen's bytes, the error channel's bytes and the report, which has a line for each
/// communication where the trace is wanted.
///
/// # Errors
///
/// A refused growth.
pub fn answer(
    alloc: Global,
    trace: &Trace,
    channels: &[Channel],
    ending: Ending,
    with_trace: bool,
) -> Result<Vec<u8>, AllocError>
    requires screen { AreByteMessages SCREEN trace.now }
    requires error { AreByteMessages ERROR trace.now }
    ensures { IfOk result
        (HasBytes (answer_text (all_shown channels.now trace.now) ending with_trace)) }
{
    let lines = if with_trace { Some(trace) } else { None };
    let report = report(alloc, lines, channels, ending)?;
    let mut bytes = Vec::new(alloc);
    write_bytes(&mut bytes, trace.entries(), SCREEN)?;
    write_bytes(&mut bytes, trace.entries(), ERROR)?;
    joined(&mut bytes, report.as_slice())?;
    Ok(bytes)
}
