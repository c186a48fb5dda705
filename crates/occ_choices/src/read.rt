//! Reads files of choices.
ghost use Rattle.std.specs.Prelude.{◌≡◌, ◌∷◌, ◌<◌, ◌≤◌, IfErr, IfNone, IfOk, IfSome, Some, None, drop, length, take};
ghost use Rattle.occ_net_replay.specs.declared.choice.Choice as choice;
ghost use Rattle.occ_choices.specs.Lines.{ChoiceLines, IsLine, RefusesLines, lines_of, most_choices};
ghost use Rattle.occ_choices.specs.Reading.{AreDigits, ends_line, leading, spelled};

use crate::fault::ChoiceFault;
use occ_net_replay::Choice;
use std::alloc::Global;

/// The most choices that a file may have.
pub const MOST_CHOICES: u32 = 10_000_000;

/// The most digits of a number.
const MOST_DIGITS: usize = 10;

/// Reads a file of choices: a line for each, which is two numbers with one space between them, the
/// `which` and the `pick`, of 1 to 10 decimal digits and below 2 to the 32. LF or CR LF ends a line,
/// and the last one may lack its end.
///
/// # Errors
///
/// `BadChoice` for the first line that is none, `TooMany` past 10,000,000 lines, and `Memory`.
pub fn read_choices(alloc: Global, text: &[u8]) -> Result<Vec<Choice>, ChoiceFault>
    ensures found { IfOk result (λ cs. ChoiceLines text.now cs.items) }
    ensures few { IfOk result (λ cs. length cs.items ≤ most_choices) }
    ensures refused { IfErr result (RefusesLines text.now) }
{
    let mut choices = Vec::new(alloc);
    let mut rest = text;
    for number in 0..MOST_CHOICES {
        if rest.is_empty() {
            return Ok(choices);
        }
        let (line, others) = first_line(rest);
        let Some(choice) = choice_of(line) else {
            return Err(ChoiceFault::BadChoice { line: number + 1 });
        };
        choices.push(choice)?;
        rest = others;
    }
    if rest.is_empty() {
        Ok(choices)
    } else {
        Err(ChoiceFault::TooMany)
    }
}

/// The first line, with its end, and what follows it.
fn first_line(text: &[u8]) -> (&[u8], &[u8])
    requires { 0 < length text.now }
    ensures { lines_of text.now ≡ result.0.now ∷ lines_of result.1.now }
{
    for i in 0..text.len() {
        if text[i] == b'\n' {
            return text.split_at(i + 1);
        }
    }
    text.split_at(text.len())
}

/// The choice of a line.
fn choice_of(line: &[u8]) -> Option<Choice>
    ensures some { IfSome result (λ c. IsLine line.now c) }
    ensures none { IfNone result ((c : choice.Choice) → IsLine line.now c → ⊥) }
{
    let (which, rest) = number_at(line)?;
    let (first, rest) = rest.split_first()?;
    if *first != b' ' {
        return None;
    }
    let (pick, rest) = number_at(rest)?;
    if is_end(rest) {
        Some(Choice { which, pick })
    } else {
        None
    }
}

/// The number that the first digits stand for, and what follows them.
fn number_at(text: &[u8]) -> Option<(u32, &[u8])>
    ensures some { IfSome result (λ r. spelled (take (leading text.now) text.now) ≡ Some r.0) }
    ensures rest { IfSome result (λ r. r.1.now ≡ drop (leading text.now) text.now) }
    ensures none { IfNone result (spelled (take (leading text.now) text.now) ≡ None) }
{
    let (digits, rest) = text.split_at(digits_in(text));
    let number = number(digits)?;
    Some((number, rest))
}

/// How many digits stand first.
fn digits_in(text: &[u8]) -> usize
    ensures { result ≡ leading text.now }
{
    for i in 0..text.len() {
        if !text[i].is_ascii_digit() {
            return i;
        }
    }
    text.len()
}

/// The number that digits stand for.
fn number(digits: &[u8]) -> Option<u32>
    requires { AreDigits digits.now }
    ensures { result ≡ spelled digits.now }
{
    if digits.is_empty() || digits.len() > MOST_DIGITS {
        return None;
    }
    let mut number = 0;
    for digit in digits {
        number = number * 10 + u64::from(*digit - b'0');
        if number > u64::from(u32::MAX) {
            return None;
        }
    }
    Some(number as u32)
}

/// Whether a line ends here.
fn is_end(text: &[u8]) -> bool
    ensures { result ≡ ends_line text.now }
{
    match text.len() {
        0 => true,
        1 => text[0] == b'\n',
        2 => text[0] == b'\r' && text[1] == b'\n',
        _ => false,
    }
}
