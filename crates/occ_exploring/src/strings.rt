//! Writes bytes as a string of the language.
ghost use Rattle.std.specs.Prelude.{◌≡◌, ◌<◌, OnOk};
ghost use Rattle.std.specs.Fmt.{decimal};
ghost use Rattle.occ_exploring.specs.Strings.{capital_digit, as_character, as_characters, more, as_string, string_text};
ghost use Rattle.occ_shown.specs.Answers.{AddsText};

use std::alloc::{AllocError, Global};

/// How many bytes of a string are written.
const MOST_LETTERS: usize = 60;

/// A hexadecimal digit.
fn digit(value: u8) -> u8
    requires { value < 16 }
    ensures { result ≡ capital_digit value }
{
    if value < 10 { b'0' + value } else { 55 + value }
}

/// A byte, by its escape where it is no printed ASCII or means something in a string.
fn write_letter(out: &mut Vec<u8>, byte: u8) -> Result<(), AllocError>
    ensures { OnOk result (AddsText out.old out.new (as_character byte)) }
{
    match byte {
        b'\t' => out.extend_from_slice(b"*t"),
        b'\n' => out.extend_from_slice(b"*n"),
        b'\r' => out.extend_from_slice(b"*c"),
        b'"' => out.extend_from_slice(b"*\""),
        b'*' => out.extend_from_slice(b"**"),
        b' '..=b'~' => {
            out.push(byte)?;
            Ok(())
        }
        _ => out.extend_from_slice(&[b'*', b'#', digit(byte / 16), digit(byte % 16)]),
    }
}

fn write_letters(out: &mut Vec<u8>, bytes: &[u8]) -> Result<(), AllocError>
    ensures { OnOk result (AddsText out.old out.new (as_characters bytes.now)) }
{
    for i in 0..bytes.len() {
        write_letter(out, bytes[i])?;
    }
    Ok(())
}

/// Bytes between quotes.
fn write_quoted(out: &mut Vec<u8>, bytes: &[u8]) -> Result<(), AllocError>
    ensures { OnOk result (AddsText out.old out.new (as_string bytes.now)) }
{
    out.push(b'"')?;
    write_letters(out, bytes)?;
    out.push(b'"')?;
    Ok(())
}

/// How many there were beyond those that are written.
pub(crate) fn write_more(alloc: Global, out: &mut Vec<u8>, count: usize) -> Result<(), AllocError>
    ensures { OnOk result (AddsText out.old out.new (more count)) }
{
    let text = format!(in alloc; " and {count} more")?;
    out.extend_from_slice(text.as_bytes())
}

/// The bytes as a string, or the first ones and how many more there were.
pub(crate) fn write_string(alloc: Global, out: &mut Vec<u8>, bytes: &[u8]) -> Result<(), AllocError>
    ensures { OnOk result (AddsText out.old out.new (string_text bytes.now)) }
{
    if bytes.len() > MOST_LETTERS {
        write_quoted(out, &bytes[..MOST_LETTERS])?;
        write_more(alloc, out, bytes.len() - MOST_LETTERS)
    } else {
        write_quoted(out, bytes)
    }
}
