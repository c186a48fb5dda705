//! What is found out about a refusal: a place, what is wrong there, and how it is mended.

ghost use Rattle.std.specs.Prelude.{◌≡◌, ◌≤◌, ◌+◌, IfOk, length};
ghost use Rattle.occ_explain.specs.Causes.{TellsCause, cause_of, is_told_closer};
ghost use mathlib.Core.List.{IsPrefix};

use crate::breaks::break_finding;
use crate::calls::call_finding;
use crate::causes::{cause_of, heading_of};
use crate::class::Class;
use crate::context::{line_index, start_of};
use crate::hints::{BREAK_BEHIND, Met, is_operator};
use crate::kinds::{constant_finding, kind_finding, main_finding, subscript_finding};
use crate::large::large_finding;
use crate::leaving::{leaving_of, place_of};
use crate::levels::{level_finding, missing_finding};
use crate::messages::{message_finding, tag_finding};
use crate::mismatch::mismatch;
use crate::names::{base, shared_finding, twice, unknown};
use crate::odd::odd_finding;
use crate::refusal::{Reader, Refusal};
use crate::scan::{Text, Word};
use crate::sentence::{Nothing, Piece, Told};
use crate::telling::written;
use crate::words::class_at;
use std::alloc::{AllocError, Global};

/// A place behind so many bytes of a physical line.
#[derive(Clone, Copy)]
pub(crate) struct Spot {
    pub(crate) line: u32,
    pub(crate) before: usize,
}

/// What is found out about a refusal.
#[derive(Drop)]
pub(crate) struct Finding {
    pub(crate) spot: Spot,
    pub(crate) wrong: Vec<u8>,
    pub(crate) hint: Vec<u8>,
}

/// Where a word begins; behind the last word, where that ends.
pub(crate) fn spot_at(words: &[Word<'_>], at: usize) -> Spot {
    if let Some(word) = words.get(at) {
        return Spot {
            line: word.line,
            before: word.before,
        };
    }
    match words.last() {
        Some(word) => Spot {
            line: word.line,
            before: word.before.saturating_add(word.bytes.len()),
        },
        None => Spot { line: 1, before: 0 },
    }
}

/// The number of words up to the first of this class, and all where there is none.
pub(crate) fn index_of(words: &[Word<'_>], class: Class) -> usize {
    for i in 0..words.len() {
        if words[i].class == class {
            return i;
        }
    }
    words.len()
}

/// The sign of an output or an input; the number of words where a line has none.
pub(crate) fn sign_of(words: &[Word<'_>]) -> usize {
    index_of(words, Class::Exclamation).min(index_of(words, Class::Question))
}

/// What is found out about a refusal of a text.
pub(crate) fn finding_of(
    alloc: Global,
    text: &Text<'_>,
    refusal: &Refusal<'_>,
) -> Result<Finding, AllocError>
    ensures cause { IfOk result (λ f. TellsCause refusal.now.number f.wrong.items) }
    ensures some { IfOk result (λ f. 1 ≤ length f.wrong.items) }
{
    let told = told_of(alloc, text, refusal)?;
    let spot = spot_at(text.words_at(told.line), told.at);
    let hint = written(alloc, text, refusal.name, &told, told.hint)?;
    let wrong = written(alloc, text, refusal.name, &told, told.wrong)?;
    let wrong = headed(alloc, refusal.number, wrong.as_slice())?;
    Ok(Finding { spot, wrong, hint })
}

/// Whether what is found out may be told in place of the cause.
fn is_closer(number: u32) -> bool
    ensures { result ≡ is_told_closer number }
{
    number == 2
        || number == 4
        || number == 5
        || number == 6
        || number == 20
        || number == 21
        || number == 22
        || number == 30
        || number == 31
        || number == 50
        || number == 51
        || number == 52
}

/// What is found out of a refusal, behind its heading where it has one; the cause where nothing is, or may be told in its place.
fn headed(alloc: Global, number: u32, wrong: &[u8]) -> Result<Vec<u8>, AllocError>
    ensures cause { IfOk result (λ v. TellsCause number v.items) }
    ensures some { IfOk result (λ v. 1 ≤ length v.items) }
{
    let heading = heading_of(number);
    if wrong.is_empty() || heading.is_empty() && !is_closer(number) {
        return Vec::from_slice(alloc, cause_of(number).as_bytes());
    }
    with_heading(alloc, heading, wrong)
}

/// What is found out, behind a heading.
fn with_heading(alloc: Global, heading: &str, wrong: &[u8]) -> Result<Vec<u8>, AllocError>
    ensures begun { IfOk result (λ v. IsPrefix heading.now v.items) }
    ensures longer { IfOk result (λ v. length heading.now + length wrong.now ≤ length v.items) }
{
    let mut told = Vec::from_slice(alloc, heading.as_bytes())?;
    told.extend_from_slice(wrong)?;
    Ok(told)
}

/// A semicolon that ends its physical line before the word in this place, or a comma that does so right before it.
fn break_before(words: &[Word<'_>], at: usize) -> Option<usize> {
    let mut last = words.get(at)?.line;
    for i in (0..at).rev() {
        let word = words.get(i)?;
        let is_right_before = i.saturating_add(1) == at;
        let is_break = word.class == Class::Semicolon
            || is_right_before && word.class == Class::Comma;
        if word.line < last && is_break {
            return Some(i);
        }
        last = word.line;
    }
    None
}

/// A line that leaves the grammar, where the refusal tells the place.
fn unexpected(text: &Text<'_>, line: usize, reader: Reader) -> Option<Told> {
    let Reader::Stop(stop) = reader else {
        return None;
    };
    let words = text.words_at(line);
    let leaving = leaving_of(words, start_of(text, line), stop);
    if let Some(at) = break_before(words, leaving.at) {
        return Some(Told {
            line,
            at,
            wrong: "`@1` at the end of a line, which then goes on in the next one",
            hint: if class_at(words, at) == Class::Semicolon {
                "write the parts of a SEQ in lines of their own, with nothing between them"
            } else {
                "end a declaration with a colon, or go on with its next name"
            },
            pieces: [Piece::Short(line, at), Nothing, Nothing, Nothing],
        });
    }
    let met = Met {
        line,
        words,
        leaving,
    };
    Some(met.told())
}

/// Where a refusal points to whose cause is told, as far as the words tell, and a hint beside it.
fn beside_cause(words: &[Word<'_>], number: u32) -> (usize, &'static str) {
    let (sign, hint) = match number {
        3 if is_operator(class_at(words, 0)) => (usize::MAX, BREAK_BEHIND),
        3 => (usize::MAX, "each level is two spaces"),
        32 => (usize::MAX, "@1"),
        33 => (index_of(words, Class::Assign), "@1"),
        34 => (index_of(words, Class::For), ""),
        35 => (
            index_of(words, Class::For),
            "a size is 1 at least; the count of a replicated PAR is 0 at least",
        ),
        36 => (index_of(words, Class::OpenBracket), ""),
        37 => (sign_of(words), "@1"),
        38 => (sign_of(words), ""),
        39 => (index_of(words, Class::OpenParen), "@1"),
        40 => (
            index_of(words, Class::OpenParen),
            "copy one of them first, and hand the copy over",
        ),
        41 => (usize::MAX, "assign one after the other, in a SEQ"),
        60 => (
            usize::MAX,
            "each call, and each copy of a replicated PAR, has code of its own: make the copies fewer, or loop within one",
        ),
        _ => (usize::MAX, ""),
    };
    if sign < words.len() {
        (sign.saturating_add(1), hint)
    } else {
        (0, hint)
    }
}

/// What is told of a refusal: what is found out by the words of its line, or of the text, or else the cause at a place of the line.
fn told_of(alloc: Global, text: &Text<'_>, refusal: &Refusal<'_>) -> Result<Told, AllocError> {
    let number = refusal.number;
    let nothing = Told {
        line: usize::MAX,
        at: 0,
        wrong: "",
        hint: "",
        pieces: [Nothing, Nothing, Nothing, Nothing],
    };
    let Some(line) = line_index(text, refusal) else {
        return Ok(nothing);
    };
    let words = text.words_at(line);
    let found = match number {
        2 | 4 | 5 | 6 => Some(odd_finding(text, line)),
        7 => break_finding(text, line),
        20 => unexpected(text, line, refusal.reader),
        21 => Some(level_finding(text, line, refusal.reader)),
        22 => Some(missing_finding(text, line, refusal.reader)),
        30 => Some(unknown(text, line, base(refusal.name))),
        31 => Some(twice(words, line, refusal.name)),
        32 => kind_finding(text, line),
        33 => mismatch(text, line),
        34 => constant_finding(text, line),
        36 => subscript_finding(text, line),
        37 => message_finding(text, line),
        38 => tag_finding(text, line),
        39 => call_finding(text, line),
        42 => Some(main_finding(text, line)),
        43 => large_finding(alloc, text)?,
        50 | 51 | 52 => Some(shared_finding(text, line, number, refusal.name)),
        _ => None,
    };
    if let Some(found) = found {
        return Ok(found);
    }
    let (at, hint) = match refusal.reader {
        // the bracket that is one too many
        Reader::Stop(stop) => (place_of(words, stop).saturating_sub(1), ""),
        _ => beside_cause(words, number),
    };
    Ok(Told {
        line,
        at,
        hint,
        pieces: [Piece::Types(line), Nothing, Nothing, Nothing],
        ..nothing
    })
}
