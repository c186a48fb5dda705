//! Byte literals and strings.

ghost use Rattle.std.specs.Prelude.{◌≡◌, IfErr};
ghost use Rattle.occ_text.specs.Faults.{Names};
ghost use Rattle.occ_text.specs.Words.{word};
ghost use Rattle.occ_text.specs.Spelling.{escape_of, is_plain};
ghost use Rattle.occ_text.specs.Reading.{byte_at, char_at, chars_from, code_at, escape_at, string_at, ReadsBytes};

use crate::class::digit;
use crate::fault::TextFault;
use crate::token::Token;
use occ_held::letters::Letters;
use std::alloc::Global;

/// The byte that an escape of one byte stands for.
#[tactic(auto, unfolding(crate::specs::Spelling::escape_of))]
fn escaped(code: u8) -> Option<u8>
    ensures { result ≡ escape_of code }
{
    match code {
        b'c' => Some(b'\r'),
        b'n' => Some(b'\n'),
        b't' => Some(b'\t'),
        b's' => Some(b' '),
        b'\'' => Some(b'\''),
        b'"' => Some(b'"'),
        b'*' => Some(b'*'),
        _ => None,
    }
}

/// Whether the byte stands for itself in a literal with this quote.
fn stands_for_itself(quote: u8, byte: u8) -> bool
    ensures { result ≡ is_plain quote byte }
{
    (byte == b'\t' || (32 <= byte && byte <= 126)) && byte != b'*' && byte != quote
}

/// Two hexadecimal digits.
fn byte_code(line: u32, bytes: &[u8]) -> Result<(u8, &[u8]), TextFault>
    ensures value { ReadsBytes (λ b. b) result code_at bytes.now }
    ensures line { IfErr result (Names line) }
{
    match bytes {
        [high, low, rest @ ..] if high.is_ascii_hexdigit() && low.is_ascii_hexdigit() => {
            Ok((16 * digit(*high) + digit(*low), rest))
        }
        _ => Err(TextFault::BadEscape { line }),
    }
}

/// What stands behind the `*` of an escape.
#[tactic(auto, unfolding(crate::specs::Reading::escape_at))]
fn escape(line: u32, bytes: &[u8]) -> Result<(u8, &[u8]), TextFault>
    ensures value { ReadsBytes (λ b. b) result escape_at bytes.now }
    ensures line { IfErr result (Names line) }
{
    match bytes {
        [b'#', rest @ ..] => byte_code(line, rest),
        [code, rest @ ..] => match escaped(*code) {
            Some(byte) => Ok((byte, rest)),
            None => Err(TextFault::BadEscape { line }),
        },
        [] => Err(TextFault::BadEscape { line }),
    }
}

/// The byte that a character or an escape at the front stands for.
#[tactic(auto, unfolding(crate::specs::Reading::char_at))]
fn character(line: u32, quote: u8, bytes: &[u8]) -> Result<(u8, &[u8]), TextFault>
    ensures value { ReadsBytes (λ b. b) result (char_at quote) bytes.now }
    ensures line { IfErr result (Names line) }
{
    match bytes {
        [b'*', rest @ ..] => escape(line, rest),
        [byte, rest @ ..] if stands_for_itself(quote, *byte) => Ok((*byte, rest)),
        [byte, ..] if *byte != quote => Err(TextFault::BadByte { line }),
        _ => Err(TextFault::BadLiteral { line }),
    }
}

/// A byte literal, behind its first quote.
#[tactic(auto, unfolding(crate::specs::Reading::byte_at))]
pub fn byte_literal(line: u32, bytes: &[u8]) -> Result<(Token, &[u8]), TextFault>
    ensures value { ReadsBytes word result byte_at bytes.now }
    ensures line { IfErr result (Names line) }
{
    let (byte, rest) = character(line, b'\'', bytes)?;
    match rest {
        [b'\'', rest @ ..] => Ok((Token::Byte(byte), rest)),
        _ => Err(TextFault::BadLiteral { line }),
    }
}

/// The bytes of a string, behind its first quote.
fn characters(alloc: Global, line: u32, bytes: &[u8]) -> Result<(Vec<u8>, &[u8]), TextFault>
    ensures value { ReadsBytes (λ v. v.items) result (chars_from 0) bytes.now }
    ensures line { IfErr result (Names line) }
{
    let mut text = Vec::new(alloc);
    let mut rest = bytes;
    while let [first, after @ ..] = rest {
        if *first == b'"' {
            return Ok((text, after));
        }
        let (byte, after) = character(line, b'"', rest)?;
        text.push(byte)?;
        rest = after;
    }
    Err(TextFault::OpenString { line })
}

/// A string, behind its first quote.
#[tactic(auto, unfolding(crate::specs::Reading::string_at))]
pub fn string(alloc: Global, line: u32, bytes: &[u8]) -> Result<(Token, &[u8]), TextFault>
    ensures value { ReadsBytes word result string_at bytes.now }
    ensures line { IfErr result (Names line) }
{
    let (text, rest) = characters(alloc, line, bytes)?;
    let text = Letters::from_vec(alloc, text)?;
    Ok((Token::Str(text), rest))
}
