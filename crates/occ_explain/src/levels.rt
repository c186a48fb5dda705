//! Lines at a level where none may stand, and texts that end too early.

use crate::class::Class;
use crate::context::takes_variants;
use crate::hints::{BREAK_BEHIND, LAST_COLON, is_operator};
use crate::refusal::Reader;
use crate::scan::{Text, Word};
use crate::sentence::{Nothing, Piece, Told};
use crate::words::class_at;

/// Whether lines stand under a line, as many as there are.
fn takes_many(words: &[Word<'_>]) -> bool {
    match class_at(words, 0) {
        Class::Seq | Class::Par | Class::If | Class::Alt | Class::Pri | Class::Case => true,
        _ => takes_variants(words),
    }
}

/// Whether a line has to follow that stands deeper than this one.
fn has_to_follow(text: &Text<'_>, index: usize, reader: Reader) -> bool {
    match reader {
        Reader::Level(level) => text.indent_at(index) / 2 < level as usize,
        _ => false,
    }
}

/// A line at a level where none may stand.
pub(crate) fn level_finding(text: &Text<'_>, line: usize, reader: Reader) -> Told {
    let last = line.saturating_sub(1);
    let is_under = has_to_follow(text, last, reader);
    let deeper = text.indent_at(line) > text.indent_at(last);
    let is_beside = text.indent_at(line) == text.indent_at(last);
    let first = class_at(text.words_at(line), 0);
    let is_colon = first == Class::Colon;
    let second = "a second process, where only one may stand";
    let under_proc = "write the colon under the first letter of its PROC";
    let (wrong, hint) = match class_at(text.words_at(last), 0) {
        _ if line == 0 => ("the first line is indented", "begin it in the first column"),
        _ if deeper && !is_under && !takes_many(text.words_at(last)) => (
            "a line below `@1`, which takes nothing below it",
            if is_colon {
                under_proc
            } else {
                "begin all parts of a SEQ or a PAR in one column"
            },
        ),
        _ if deeper => (
            "a line more than one level deeper than the line before",
            "write two spaces for each level",
        ),
        _ if is_under => (
            "line @2 needs a process below it",
            "write it in the next line, two spaces deeper; SKIP is a process that does nothing",
        ),
        _ if has_to_follow(text, line, reader) => (
            "a line too far to the left: a process must follow the declarations above it",
            "write the process in the column of its declarations",
        ),
        _ if is_colon => (
            "`:` does not stand under the first letter of a PROC or a PROTOCOL",
            under_proc,
        ),
        _ if first == Class::Else => (
            second,
            "ELSE stands two spaces deeper than its CASE; for IF write TRUE there, its last condition",
        ),
        Class::Seq | Class::Par if is_beside => (
            second,
            "write the parts of a SEQ or a PAR two spaces deeper than it",
        ),
        _ => (
            second,
            "write SEQ or PAR above the processes, and both two spaces deeper",
        ),
    };
    Told {
        line,
        at: 0,
        wrong,
        hint: if is_operator(first) {
            BREAK_BEHIND
        } else {
            hint
        },
        pieces: [Piece::Short(last, 0), Piece::Line(last), Nothing, Nothing],
    }
}

/// A text that ends where a line must follow.
pub(crate) fn missing_finding(text: &Text<'_>, line: usize, reader: Reader) -> Told {
    let (wrong, hint) = if has_to_follow(text, line, reader) {
        (
            "the program ends where a process must follow",
            "write it in the next line, two spaces deeper",
        )
    } else {
        ("the program ends where `:` must follow", LAST_COLON)
    };
    Told {
        line,
        at: text.words_at(line).len(),
        wrong,
        hint,
        pieces: [Nothing, Nothing, Nothing, Nothing],
    }
}
