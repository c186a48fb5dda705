//! The lines of the source, and the names that stand in them.
ghost use Rattle.std.specs.Prelude.{◌≡◌, ◌∷◌, ◌<◌, ◌≤◌, ◌==◌, IfOk, OnOk, length, position};
ghost use Rattle.std.specs.Str.Lines.{lines, strip_carriage_return};
ghost use Rattle.occ_text.specs.Spelling.{is_name_part};
ghost use Rattle.occ_shown.specs.Answers.{AddsText, names_of};
ghost use Rattle.occ_report.specs.Written.{behind_guard, called_text, channel_told, hides, name_in_front, numbered_line, plain_byte, plain_text, unspaced, written_at, written_in_arm};

use crate::stop::Stop;
use occ_shown::write_name;
use occ_term::Channel;
use std::alloc::{AllocError, Global};

/// The line without the carriage return at its end, if it has one.
fn without_return(line: &[u8]) -> &[u8]
    ensures { result.now ≡ strip_carriage_return line.now }
{
    match line {
        [front @ .., b'\r'] => front,
        _ => line,
    }
}

/// The place of the first line feed.
fn line_feed(text: &[u8]) -> Option<usize>
    ensures { result ≡ position (λ byte. byte == 10) text.now }
{
    text.iter().position(|byte| *byte == b'\n')
}

/// The first physical line, and the text after it.
fn first_line(text: &[u8]) -> (&[u8], &[u8])
    requires { 0 < length text.now }
    ensures value { lines text.now ≡ result.0.now ∷ lines result.1.now }
    ensures shorter { length result.1.now < length text.now }
{
    match line_feed(text) {
        Some(end) => (without_return(&text[..end]), &text[end + 1..]),
        None => (text, &text[text.len()..]),
    }
}

/// The line of this number; no byte where there is none.
pub(crate) fn numbered_line(source: &[u8], number: u32) -> &[u8]
    ensures { result.now ≡ numbered_line source.now number }
{
    let mut before = number.saturating_sub(1);
    let mut rest = source;
    while !rest.is_empty() {
        let (line, others) = first_line(rest);
        if before == 0 {
            return line;
        }
        before -= 1;
        rest = others;
    }
    &[]
}

/// A line without the spaces that it begins with.
pub(crate) fn unspaced(mut line: &[u8]) -> &[u8]
    ensures { result.now ≡ unspaced line.entry.now }
{
    while let [b' ', rest @ ..] = line {
        line = rest;
    }
    line
}

/// Whether a name may have this byte.
pub(crate) fn is_name_part(byte: u8) -> bool
    ensures { result ≡ is_name_part byte }
{
    byte.is_ascii_alphanumeric() || byte == b'.'
}

/// How long the name is with which some bytes begin.
fn front_length(mut bytes: &[u8]) -> usize
    ensures value { result ≡ length (name_in_front bytes.entry.now) }
    ensures within { result ≤ length bytes.entry.now }
{
    let mut count = 0;
    while let [byte, rest @ ..] = bytes {
        if !is_name_part(*byte) {
            break;
        }
        count += 1;
        bytes = rest;
    }
    count
}

/// The name with which some bytes begin.
#[tactic(auto, using(crate::proofs::Fronts::front_is))]
pub(crate) fn name_in_front(bytes: &[u8]) -> &[u8]
    ensures { result.now ≡ name_in_front bytes.now }
{
    let count = front_length(bytes);
    &bytes[..count]
}

/// The name with which the line of a stop begins, where that is known.
pub(crate) fn written_at(source: &[u8], stop: Option<Stop>) -> &[u8]
    ensures { result.now ≡ written_at source.now stop }
{
    match stop {
        Some(stop) => name_in_front(unspaced(numbered_line(source, stop.line))),
        None => &[],
    }
}

/// Whether a quote or a comment begins with this byte, before these.
pub(crate) fn hides(byte: u8, rest: &[u8]) -> bool
    ensures { result ≡ hides byte rest.now }
{
    match byte {
        b'"' | b'\'' => true,
        b'-' => matches!(rest, [b'-', ..]),
        _ => false,
    }
}

/// What stands behind the guard of an arm in its line; nothing where that isn't known.
fn behind_guard(line: &[u8]) -> &[u8]
    ensures { result.now ≡ behind_guard line.now line.now }
{
    let mut rest = line;
    while let [byte, others @ ..] = rest {
        if *byte == b'&' {
            return others;
        }
        if *byte == b'?' {
            return line;
        }
        if hides(*byte, others) {
            return &[];
        }
        rest = others;
    }
    &[]
}

/// The name of the channel from which an arm inputs, as its line has it.
pub(crate) fn written_in_arm(source: &[u8], stop: Option<Stop>) -> &[u8]
    ensures { result.now ≡ written_in_arm source.now stop }
{
    match stop {
        Some(stop) => name_in_front(unspaced(behind_guard(numbered_line(source, stop.line)))),
        None => &[],
    }
}

/// The name of a channel; where another one is written there, that and what it stands for.
fn write_called(out: &mut Vec<u8>, written: &[u8], name: &[u8]) -> Result<(), AllocError>
    ensures { OnOk result (AddsText out.old out.new (called_text written.now name.now)) }
{
    if written.is_empty() || written == name_in_front(name) {
        return out.extend_from_slice(name);
    }
    out.extend_from_slice(written)?;
    out.extend_from_slice(b" (")?;
    out.extend_from_slice(name)?;
    out.extend_from_slice(b")")
}

/// The same of the channel of this number.
pub(crate) fn write_channel(
    alloc: Global,
    out: &mut Vec<u8>,
    channels: &[Channel],
    written: &[u8],
    chan: u32,
) -> Result<(), AllocError>
    ensures { OnOk result
        (AddsText out.old out.new (channel_told (names_of channels.now) written.now chan)) }
{
    let mut name = Vec::new(alloc);
    write_name(alloc, &mut name, channels, chan)?;
    write_called(out, written, name.as_slice())
}

/// The byte, but a question mark for one that would move a terminal or is no ASCII.
fn plain_byte(byte: u8) -> u8
    ensures { result ≡ plain_byte byte }
{
    if byte < b' ' || byte > b'~' {
        b'?'
    } else {
        byte
    }
}

/// The bytes so.
pub(crate) fn plain_text(alloc: Global, bytes: &[u8]) -> Result<Vec<u8>, AllocError>
    ensures { IfOk result (λ v. v.items ≡ plain_text bytes.now) }
{
    bytes.iter().map(|byte| plain_byte(*byte)).collect(alloc)
}
