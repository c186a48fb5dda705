//! The logical lines of a text.

ghost use Rattle.std.specs.Prelude.{◌≡◌, ◌<◌, ◌≤◌, ◌==◌, ℕ, IfErr, IfOk, OnOk, ◌∷◌, length, position};
ghost use Rattle.std.specs.Str.Lines.{lines, strip_carriage_return};
ghost use Rattle.occ_text.specs.declared.fault.TextFault.TheVariants.{Memory};
ghost use Rattle.occ_text.specs.Faults.{BeginsUpTo, Names, NamesLineOf};
ghost use Rattle.occ_text.specs.Words.{logical_lines, word, words};
ghost use Rattle.occ_text.specs.Lines.{LinesOf, leads_on, goes_on};
ghost use Rattle.occ_text.specs.Sources.{HasOnlyLinesOf};
ghost use Rattle.occ_text.specs.Reading.{Gives, finished, joined_with, lines_at, unfinished, pending_line, AddsFinished, all_lines};

use crate::class::{Class, run_len};
use crate::fault::TextFault;
use crate::token::{Key, Line, Source, Sym, Token};
use crate::words::words_of;
use std::alloc::Global;

/// The most bytes that a text may have.
const MOST_BYTES: usize = 1_048_576;

/// The line without the carriage return at its end, if it has one.
fn without_return(line: &[u8]) -> &[u8]
    ensures { result.now ≡ strip_carriage_return line.now }
{
    match line {
        [front @ .., b'\r'] => front,
        _ => line,
    }
}

/// The place of the first line feed.
fn line_feed(text: &[u8]) -> Option<usize>
    ensures { result ≡ position (λ byte. byte == 10) text.now }
{
    text.iter().position(|byte| *byte == b'\n')
}

/// The first physical line, and the text after it.
fn first_line(text: &[u8]) -> (&[u8], &[u8])
    requires { 0 < length text.now }
    ensures value { lines text.now ≡ result.0.now ∷ lines result.1.now }
    ensures within { length result.0.now ≤ length text.now }
    ensures shorter { length result.1.now < length text.now }
{
    match line_feed(text) {
        Some(end) => (without_return(&text[..end]), &text[end + 1..]),
        None => (text, &text[text.len()..]),
    }
}

/// Whether a line whose last word this is goes on.
#[tactic(auto, unfolding(crate::specs::Lines::leads_on))]
fn is_unfinished(token: &Token) -> bool
    ensures { result ≡ leads_on (word token.now) }
{
    match token {
        Token::Key(key) => matches!(
            key,
            Key::After
                | Key::And
                | Key::BitAnd
                | Key::BitOr
                | Key::For
                | Key::Is
                | Key::Minus
                | Key::Or
                | Key::Plus
                | Key::Rem
                | Key::Times
        ),
        Token::Sym(symbol) => matches!(
            symbol,
            Sym::Assign
                | Sym::Semicolon
                | Sym::Comma
                | Sym::Equal
                | Sym::NotEqual
                | Sym::LessEqual
                | Sym::GreaterEqual
                | Sym::ShiftLeft
                | Sym::ShiftRight
                | Sym::BitXor
                | Sym::Less
                | Sym::Greater
                | Sym::Plus
                | Sym::Minus
                | Sym::Times
                | Sym::BitAnd
                | Sym::Divide
                | Sym::BitOr
                | Sym::Remainder
        ),
        _ => false,
    }
}

/// Whether the line goes on in the next one.
fn has_more(tokens: &[Token]) -> bool
    ensures { result ≡ goes_on (words tokens.now) }
{
    match tokens {
        [.., last] => is_unfinished(last),
        [] => false,
    }
}

/// The logical line that goes on, if any, with the words of one more physical line.
fn join(
    pending: Option<Line>,
    number: u32,
    indent: u32,
    mut tokens: Vec<Token>,
) -> Result<Option<Line>, TextFault>
    requires counted { 1 ≤ number }
    requires before { BeginsUpTo number pending }
    ensures value { Gives pending_line result
        (joined_with (pending_line pending) number indent (words tokens.items)) }
    ensures line { IfErr result (Names number) }
    ensures first { IfOk result (BeginsUpTo number) }
{
    if tokens.is_empty() {
        return Ok(pending);
    }
    match pending {
        None => {
            if indent % 2 != 0 {
                return Err(TextFault::OddIndent { line: number });
            }
            Ok(Some(Line {
                number,
                level: indent / 2,
                words: tokens,
            }))
        }
        Some(mut line) => {
            if indent / 2 < line.level {
                return Err(TextFault::BadBreak { line: number });
            }
            line.words.append(&mut tokens)?;
            Ok(Some(line))
        }
    }
}

/// Moves the line to the others, unless it goes on.
fn settle(lines: &mut Vec<Line>, pending: Option<Line>) -> Result<Option<Line>, TextFault>
    ensures finished { OnOk result (AddsFinished lines.old pending lines.new) }
    ensures unfinished { IfOk result (λ p. pending_line p ≡ unfinished (pending_line pending)) }
    ensures memory { IfErr result (λ e. e ≡ Memory) }
    ensures first { (n : ℕ) → BeginsUpTo n pending → IfOk result (BeginsUpTo n) }
{
    match pending {
        None => Ok(None),
        Some(line) => {
            if has_more(&line.words) {
                return Ok(Some(line));
            }
            lines.push(line)?;
            Ok(None)
        }
    }
}

/// The number that a fault in the words of a physical line carries.
fn fault_line(pending: &Option<Line>, number: u32) -> u32
    requires counted { 1 ≤ number }
    requires before { BeginsUpTo number pending.now }
    ensures { (1 ≤ result) × (result ≤ number) }
{
    match pending {
        Some(line) => line.number,
        None => number,
    }
}

/// The logical lines of a text that is not too long.
fn lines_of(alloc: Global, text: &[u8]) -> Result<Vec<Line>, TextFault>
    requires { length text.now ≤ MOST_BYTES }
    ensures value { Gives (λ v. logical_lines v.items) result (all_lines text.now) }
    ensures line { IfErr result (NamesLineOf text.now) }
{
    let mut finished = Vec::new(alloc);
    let mut pending = None;
    let mut number = 0;
    let mut rest = text;
    while !rest.is_empty() {
        let (line, after) = first_line(rest);
        number += 1;
        let tokens = words_of(alloc, fault_line(&pending, number), line)?;
        let indent = run_len(Class::Space, line) as u32;
        let joined = join(pending, number, indent, tokens)?;
        pending = settle(&mut finished, joined)?;
        rest = after;
    }
    match pending {
        None => Ok(finished),
        Some(line) => Err(TextFault::BadBreak { line: line.number }),
    }
}

#[tactic(auto, unfolding(crate::specs::Reading::lines_at))]
fn source_of(alloc: Global, text: &[u8]) -> Result<Source, TextFault>
    ensures value { Gives (λ s. logical_lines s.lines.items) result (lines_at text.now) }
    ensures line { IfErr result (NamesLineOf text.now) }
{
    if text.len() > MOST_BYTES {
        return Err(TextFault::TooLong);
    }
    Ok(Source {
        lines: lines_of(alloc, text)?,
    })
}

/// The logical lines of a text, with their words.
///
/// # Errors
///
/// A [`TextFault`] other than [`TextFault::Memory`] where the text has no logical lines.
pub fn read_lines(alloc: Global, text: &[u8]) -> Result<Source, TextFault>
    ensures found { IfOk result (λ s. LinesOf text.now (logical_lines s.lines.items)) }
    ensures only { HasOnlyLinesOf text.now result }
    ensures line { IfErr result (NamesLineOf text.now) }
{
    source_of(alloc, text)
}
