//! The words of a physical line.

ghost use Rattle.std.specs.Prelude.{◌≡◌, IfErr};
ghost use Rattle.occ_text.specs.declared.fault.TextFault.TheVariants.{Memory};
ghost use Rattle.occ_text.specs.Faults.{Names};
ghost use Rattle.occ_text.specs.Words.{word, words};
ghost use Rattle.occ_text.specs.Lines.{begins_comment};
ghost use Rattle.occ_text.specs.Reading.{Gives, name_at, word_at, words_from, ReadsBytes};

use crate::class::{Class, split_run};
use crate::fault::TextFault;
use crate::keyword::keyword;
use crate::literal::{byte_literal, string};
use crate::number::{decimal, pattern};
use crate::symbol::symbol;
use crate::token::Token;
use occ_held::letters::Letters;
use std::alloc::Global;

/// A name or a reserved word.
#[tactic(auto, unfolding(crate::specs::Reading::name_at))]
fn name_or_key(alloc: Global, bytes: &[u8]) -> Result<(Token, &[u8]), TextFault>
    ensures value { ReadsBytes word result name_at bytes.now }
    ensures memory { IfErr result (λ e. e ≡ Memory) }
{
    let (letters, rest) = split_run(Class::NamePart, bytes);
    match keyword(letters) {
        Some(key) => Ok((Token::Key(key), rest)),
        None => Ok((Token::Name(Letters::new(alloc, letters)?), rest)),
    }
}

/// The word at the front, and what follows it.
#[tactic(auto, unfolding(crate::specs::Reading::word_at))]
fn next_word(alloc: Global, line: u32, bytes: &[u8]) -> Result<(Token, &[u8]), TextFault>
    ensures value { ReadsBytes word result word_at bytes.now }
    ensures line { IfErr result (Names line) }
{
    let [first, rest @ ..] = bytes else {
        return Err(TextFault::BadByte { line });
    };
    if first.is_ascii_alphabetic() {
        return name_or_key(alloc, bytes);
    }
    if first.is_ascii_digit() {
        return decimal(line, bytes);
    }
    match first {
        b'#' => pattern(line, rest),
        b'\'' => byte_literal(line, rest),
        b'"' => string(alloc, line, rest),
        _ => symbol(line, bytes),
    }
}

fn is_comment(bytes: &[u8]) -> bool
    ensures { result ≡ begins_comment bytes.now }
{
    matches!(bytes, [b'-', b'-', ..])
}

/// The words of a physical line. `line` is the number that a fault carries.
pub fn words_of(alloc: Global, line: u32, bytes: &[u8]) -> Result<Vec<Token>, TextFault>
    ensures value { Gives (λ v. words v.items) result (words_from 0 bytes.now) }
    ensures line { IfErr result (Names line) }
{
    let mut tokens = Vec::new(alloc);
    let mut rest = bytes;
    while let [first, after @ ..] = rest {
        if *first == b' ' {
            rest = after;
            continue;
        }
        if is_comment(rest) {
            break;
        }
        let (token, after) = next_word(alloc, line, rest)?;
        tokens.push(token)?;
        rest = after;
    }
    Ok(tokens)
}
