//! What watchers are shown of a run, and how that is written.
ghost use Rattle.std.specs.Prelude.{◌≡◌, ◌↔◌, IfOk, IsTrue, OnOk, slice_get};
ghost use Rattle.std.specs.Option.{option_copied};
ghost use Rattle.occ_term.specs.Runs.{entries, tag_shown};
ghost use Rattle.occ_shown.specs.Answers.{items_text, later_text, line_text, name_of_channel, names_of, part_text, trace_text, entries_in, entry_at, entry_head, AddsText};
ghost use Rattle.occ_net_tables.specs.Views.{part_viewed};

use crate::showing::{LINE_FEED, write_ends, write_part};
use crate::values::{tag_name, write_number};
use occ_board::Shown;
use occ_net_tables::{Entry, PartView, Trace};
use occ_term::{Channel, Name, Part, Text};
use std::alloc::{AllocError, Global};

/// The name of a channel; empty where there is no such channel.
fn name_of(alloc: Global, channels: &[Channel], chan: u32) -> Result<Name, AllocError>
    ensures { IfOk result (λ name. name ≡ name_of_channel (slice_get channels.now chan)) }
{
    match channels.get(chan as usize) {
        Some(channel) => channel.name.copy(),
        None => Name::new(alloc, b""),
    }
}

/// A text of these letters, of which there are fewer than 2 to the 32.
fn text_of(alloc: Global, letters: &[u8]) -> Result<Text, AllocError>
    ensures { IfOk result (λ text. text ≡ letters.now) }
{
    if letters.len() > u32::MAX as usize {
        return Err(AllocError);
    }
    Text::new(alloc, letters)
}

/// The name of a channel's tag, where there is a tag.
fn tag_of(
    alloc: Global,
    channels: &[Channel],
    chan: u32,
    tag: Option<u32>,
) -> Result<Option<Text>, AllocError>
    ensures { IfOk result (λ text. text ≡ tag_shown (names_of channels.now) chan tag) }
{
    match tag {
        Some(tag) => {
            let text = text_of(alloc, tag_name(channels, chan, tag))?;
            Ok(Some(text))
        }
        None => Ok(None),
    }
}

/// A communication of a trace as a board shows it, with this number and the names that it has in these channels.
///
/// # Errors
///
/// A refused growth.
pub fn shown_as(
    alloc: Global,
    number: u64,
    communication: &Entry<'_>,
    channels: &[Channel],
) -> Result<Shown, AllocError>
    ensures { IfOk result (λ s. s ≡ entry_at channels.now number communication.now) }
{
    let chan = communication.chan();
    let view = communication.message();
    let name = name_of(alloc, channels, chan)?;
    let tag = tag_of(alloc, channels, chan, view.tag())?;
    let message = view.copy(alloc)?;
    Ok(Shown::new(
        number,
        chan,
        name,
        communication.sender(),
        communication.receiver(),
        tag,
        message,
    ))
}

/// Whether a board shows this communication so.
///
/// # Errors
///
/// A refused growth.
fn is_shown_as(
    alloc: Global,
    shown: &Shown,
    number: u64,
    communication: &Entry<'_>,
    channels: &[Channel],
) -> Result<bool, AllocError>
    ensures { IfOk result
        (λ same. IsTrue same ↔ (shown.now ≡ entry_at channels.now number communication.now)) }
{
    let wanted = shown_as(alloc, number, communication, channels)?;
    shown.is_same(alloc, &wanted)
}

/// Whether a board shows just the communications of this trace, numbered from 1.
///
/// # Errors
///
/// A refused growth.
pub fn is_shown(
    alloc: Global,
    list: &[Shown],
    trace: &Trace,
    channels: &[Channel],
) -> Result<bool, AllocError>
    ensures { IfOk result (λ same. IsTrue same ↔ (list.now ≡ entries_in channels.now trace.now)) }
{
    let mut rest = list;
    let mut number = 0;
    for communication in trace.entries() {
        number += 1;
        let Some((shown, others)) = rest.split_first() else {
            return Ok(false);
        };
        if !is_shown_as(alloc, shown, number, &communication, channels)? {
            return Ok(false);
        }
        rest = others;
    }
    Ok(rest.is_empty())
}

/// A view of an item.
fn view_of(part: &Part) -> PartView<'_>
    ensures { part_viewed result ≡ part.now }
{
    match part {
        Part::One(primitive, value) => PartView::One(*primitive, *value),
        Part::Many(primitive, values) => PartView::Many(*primitive, values.as_slice()),
        Part::Counted(primitive, values) => PartView::Counted(*primitive, values.as_slice()),
    }
}

/// An item.
fn write_owned(out: &mut Vec<u8>, part: &Part) -> Result<(), AllocError>
    ensures { OnOk result (AddsText out.old out.new (part_text part.now)) }
{
    write_part(out, &view_of(part))
}

/// Items, each after a semicolon and a space.
fn write_others(out: &mut Vec<u8>, parts: &[Part]) -> Result<(), AllocError>
    ensures { OnOk result (AddsText out.old out.new (later_text parts.now)) }
{
    for part in parts {
        out.extend_from_slice(b"; ")?;
        write_owned(out, part)?;
    }
    Ok(())
}

/// The items of a message, of which a tag's name is the first.
fn write_all(out: &mut Vec<u8>, tag: Option<&Text>, parts: &[Part]) -> Result<(), AllocError>
    ensures { OnOk result
        (AddsText out.old out.new (items_text (option_copied tag.entry) parts.now)) }
{
    match tag {
        Some(name) => {
            out.extend_from_slice(name.as_slice())?;
            write_others(out, parts)
        }
        None => match parts.split_first() {
            Some((first, others)) => {
                write_owned(out, first)?;
                write_others(out, others)
            }
            None => Ok(()),
        },
    }
}

/// The number, the channel's number and its name.
fn write_beginning(alloc: Global, out: &mut Vec<u8>, shown: &Shown) -> Result<(), AllocError>
    ensures { OnOk result (AddsText out.old out.new (entry_head shown.now)) }
{
    write_number(out, shown.number())?;
    out.extend_from_slice(b" c")?;
    write_number(out, u64::from(shown.channel()))?;
    out.push(b' ')?;
    shown.name().write(alloc, out)
}

/// The line of a communication.
fn write_shown(alloc: Global, out: &mut Vec<u8>, shown: &Shown) -> Result<(), AllocError>
    ensures { OnOk result (AddsText out.old out.new (line_text shown.now)) }
{
    write_beginning(alloc, out, shown)?;
    write_ends(out, shown.sender(), shown.receiver())?;
    write_all(out, shown.tag(), shown.message().items.as_slice())?;
    out.push(LINE_FEED)?;
    Ok(())
}

/// The lines of what a board shows, as the answer has them of a trace.
///
/// # Errors
///
/// A refused growth.
pub fn watch_lines(alloc: Global, list: &[Shown]) -> Result<Vec<u8>, AllocError>
    ensures { IfOk result (λ lines. lines.items ≡ trace_text list.now) }
{
    let mut lines = Vec::new(alloc);
    for shown in list {
        write_shown(alloc, &mut lines, shown)?;
    }
    Ok(lines)
}
