//! Communications and endings as lines of JSON.
ghost use Rattle.std.specs.Prelude.{◌≡◌, IfOk, OnOk};
ghost use Rattle.occ_term.specs.Endings.{ending_text};
ghost use Rattle.occ_term.specs.Runs.{tag_shown};
ghost use Rattle.occ_shown.specs.Answers.{AddsText, end_text, entry_at, names_of};
ghost use Rattle.occ_shown.specs.Json.{ending_json, ends_json, line_json, message_named, named_head, quoted, tag_json};

use crate::json_values::{write_parts, write_quoted};
use crate::values::{tag_name, write_name, write_number};
use occ_net_tables::{Entry, MessageView};
use occ_term::{Channel, End, Ending};
use std::alloc::{AllocError, Global};

/// The name of a channel, between quotes.
fn write_quoted_name(
    alloc: Global,
    out: &mut Vec<u8>,
    channels: &[Channel],
    chan: u32,
) -> Result<(), AllocError>
    ensures { OnOk result
        (AddsText out.old out.new (quoted ((names_of channels.now).channel_name chan))) }
{
    let mut letters = Vec::new(alloc);
    write_name(alloc, &mut letters, channels, chan)?;
    write_quoted(out, letters.as_slice())
}

/// The letters of an end: `p` and a process's number, or what else it is.
fn end_letters(alloc: Global, end: End) -> Result<String, AllocError>
    ensures { IfOk result (λ text. text.bytes.items ≡ end_text end) }
{
    match end {
        End::Process(number) => format!(in alloc; "p{number}"),
        End::Keyboard => String::from_str(alloc, "keyboard"),
        End::Screen => String::from_str(alloc, "screen"),
        End::Error => String::from_str(alloc, "error"),
    }
}

/// An end, between quotes.
fn write_end(alloc: Global, out: &mut Vec<u8>, end: End) -> Result<(), AllocError>
    ensures { OnOk result (AddsText out.old out.new (quoted (end_text end))) }
{
    let letters = end_letters(alloc, end)?;
    write_quoted(out, letters.as_bytes())
}

/// The number, the channel's number and its name.
#[tactic(auto, unfolding(crate::specs::Json::head_json))]
fn write_head(
    alloc: Global,
    out: &mut Vec<u8>,
    number: u64,
    chan: u32,
    channels: &[Channel],
) -> Result<(), AllocError>
    ensures { OnOk result (AddsText out.old out.new (named_head channels.now number chan)) }
{
    out.extend_from_slice(b"{\"number\":")?;
    write_number(out, number)?;
    out.extend_from_slice(b",\"channel\":")?;
    write_number(out, u64::from(chan))?;
    out.extend_from_slice(b",\"name\":")?;
    write_quoted_name(alloc, out, channels, chan)
}

/// Who sent it, and who received it.
#[tactic(auto, unfolding(crate::specs::Json::ends_json))]
fn write_ends(
    alloc: Global,
    out: &mut Vec<u8>,
    sender: End,
    receiver: End,
) -> Result<(), AllocError>
    ensures { OnOk result (AddsText out.old out.new
        (ends_json (end_text sender) (end_text receiver))) }
{
    out.extend_from_slice(b",\"sender\":")?;
    write_end(alloc, out, sender)?;
    out.extend_from_slice(b",\"receiver\":")?;
    write_end(alloc, out, receiver)
}

/// The name of the tag of a message on this channel, where it has one.
fn write_tag(
    out: &mut Vec<u8>,
    tag: Option<u32>,
    chan: u32,
    channels: &[Channel],
) -> Result<(), AllocError>
    ensures { OnOk result
        (AddsText out.old out.new (tag_json (tag_shown (names_of channels.now) chan tag))) }
{
    match tag {
        Some(tag) => write_quoted(out, tag_name(channels, chan, tag)),
        None => out.extend_from_slice(b"null"),
    }
}

/// The tag and the items of a message on this channel.
#[tactic(auto, unfolding(crate::specs::Json::message_json))]
fn write_message(
    out: &mut Vec<u8>,
    message: &MessageView<'_>,
    chan: u32,
    channels: &[Channel],
) -> Result<(), AllocError>
    ensures { OnOk result (AddsText out.old out.new (message_named channels.now chan message.now)) }
{
    out.extend_from_slice(b",\"tag\":")?;
    write_tag(out, message.tag(), chan, channels)?;
    out.extend_from_slice(b",\"message\":[")?;
    write_parts(out, message.items())?;
    out.extend_from_slice(b"]}\n")
}

/// Puts a communication, which has this number, behind these bytes as a line of JSON: an object with its number, its channel's number
/// and name, its ends, its tag and its items.
///
/// # Errors
///
/// A refused growth.
pub fn write_object(
    alloc: Global,
    out: &mut Vec<u8>,
    number: u64,
    communication: &Entry<'_>,
    channels: &[Channel],
) -> Result<(), AllocError>
    ensures { OnOk result
        (AddsText out.old out.new (line_json (entry_at channels.now number communication.now))) }
{
    let chan = communication.chan();
    write_head(alloc, out, number, chan, channels)?;
    write_ends(alloc, out, communication.sender(), communication.receiver())?;
    write_message(out, &communication.message(), chan, channels)?;
    Ok(())
}

/// Puts an ending behind these bytes as a line of JSON.
///
/// # Errors
///
/// A refused growth.
pub fn write_ending(alloc: Global, out: &mut Vec<u8>, ending: Ending) -> Result<(), AllocError>
    ensures { OnOk result (AddsText out.old out.new (ending_json ending)) }
{
    out.extend_from_slice(b"{\"ending\":")?;
    let words = format!(in alloc; "{ending}")?;
    write_quoted(out, words.as_bytes())?;
    out.extend_from_slice(b"}\n")
}
