//! The logical lines of the text that a tree is of, by which is checked what is told.
ghost use Rattle.std.specs.Prelude.{◌≡◌, IsTrue, option_map, slice_get};
ghost use Rattle.std.specs.List.{list_any};
ghost use Rattle.occ_text.specs.Words.{logical_line_of, logical_lines, word, words};
ghost use Rattle.occ_report.specs.Calls.{IsCallLine, begins_call};
ghost use Rattle.occ_report.specs.Places.{IsLineOf, IsProcOf, begins_proc, is_word_of};

use crate::stop::Kind;
use occ_text::{Key, Line, Sym, Token};

/// Whether a line with this word may have what stands in the source.
fn is_word_of(kind: Kind, token: &Token) -> bool
    ensures { result ≡ is_word_of kind (word token.now) }
{
    match (kind, token) {
        (Kind::Output, Token::Sym(Sym::Exclamation)) => true,
        (Kind::Input | Kind::Arm | Kind::Variants, Token::Sym(Sym::Question)) => true,
        (Kind::Alt, Token::Key(Key::Alt)) => true,
        (Kind::Par, Token::Key(Key::Par)) => true,
        (Kind::Loop, Token::Key(Key::While | Key::Seq)) => true,
        (Kind::Stop, Token::Key(Key::Stop)) => true,
        (Kind::If, Token::Key(Key::If)) => true,
        (Kind::Case, Token::Key(Key::Case)) => true,
        _ => false,
    }
}

/// Whether one of these words is such a word.
fn has_word(kind: Kind, mut tokens: &[Token]) -> bool
    ensures { result ≡ list_any (is_word_of kind) (words tokens.entry.now) }
{
    while let [token, rest @ ..] = tokens {
        if is_word_of(kind, token) {
            return true;
        }
        tokens = rest;
    }
    false
}

/// Where the last line stands whose number is at most this one, as lines have rising numbers.
fn place_of(lines: &[Line], number: u32) -> Option<usize> {
    let (mut low, mut high) = (0, lines.len());
    while low < high {
        let middle = low + (high - low) / 2;
        if lines[middle].number <= number {
            low = middle + 1;
        } else {
            high = middle;
        }
    }
    low.checked_sub(1)
}

/// The line in this place.
fn line_at(lines: &[Line], place: usize) -> Option<&Line>
    ensures { option_map (λ l. logical_line_of l.now) result
        ≡ slice_get (logical_lines lines.now) place }
{
    lines.get(place)
}

/// Whether one of the lines has this number and such a word.
#[tactic(auto, using(crate::proofs::PlaceLines::line_found))]
pub(crate) fn has_line(lines: &[Line], kind: Kind, number: u32) -> bool
    ensures { IsTrue result → IsLineOf (logical_lines lines.now) kind number }
{
    let Some(place) = place_of(lines, number) else {
        return false;
    };
    match line_at(lines, place) {
        Some(line) => line.number == number && has_word(kind, line.words.as_slice()),
        None => false,
    }
}

/// Whether a line of these words begins a PROC of this name.
fn begins_proc(name: &[u8], tokens: &[Token]) -> bool
    ensures { result ≡ begins_proc name.now (words tokens.now) }
{
    match tokens {
        [Token::Key(Key::Proc), Token::Name(own), ..] => own.as_slice() == name,
        _ => false,
    }
}

/// Whether the line in this place begins a PROC of this name.
#[tactic(auto, using(crate::proofs::PlaceLines::proc_found))]
fn begins_at(lines: &[Line], place: usize, name: &[u8]) -> bool
    ensures { IsTrue result → IsProcOf (logical_lines lines.now) name.now }
{
    match line_at(lines, place) {
        Some(line) => begins_proc(name, line.words.as_slice()),
        None => false,
    }
}

/// Whether a line of these words calls a PROC.
fn begins_call(tokens: &[Token]) -> bool
    ensures { result ≡ begins_call (words tokens.now) }
{
    matches!(tokens, [Token::Name(_), Token::Sym(Sym::OpenParen), ..])
}

/// Whether one of the lines has this number and calls a PROC.
#[tactic(auto, using(crate::proofs::PlaceLines::call_found))]
pub(crate) fn has_call(lines: &[Line], number: u32) -> bool
    ensures { IsTrue result → IsCallLine (logical_lines lines.now) number }
{
    let Some(place) = place_of(lines, number) else {
        return false;
    };
    match line_at(lines, place) {
        Some(line) => line.number == number && begins_call(line.words.as_slice()),
        None => false,
    }
}

/// Whether one of the lines begins a PROC of this name.
pub(crate) fn has_proc(lines: &[Line], name: &[u8]) -> bool
    ensures { IsTrue result → IsProcOf (logical_lines lines.now) name.now }
{
    for place in 0..lines.len() {
        if begins_at(lines, place, name) {
            return true;
        }
    }
    false
}
