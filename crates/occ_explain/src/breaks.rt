//! Lines that go on, where none follows or one too far to the left.

use crate::class::Class;
use crate::scan::Text;
use crate::sentence::{Nothing, Piece, Told};
use crate::words::class_at;

/// A line that goes on: which one, and the word that it ends with.
pub(crate) fn break_finding(text: &Text<'_>, index: usize) -> Option<Told> {
    let words = text.words_at(index);
    let end = words.last()?;
    let last = words.len().saturating_sub(1);
    // the last word that stands in a physical line before the one in which the line ends; the last word of all where there is none
    let mut at = last;
    for i in (0..last).rev() {
        if words[i].line < end.line {
            at = i;
            break;
        }
    }
    let is_last = at == last;
    let hint = match class_at(words, at) {
        Class::Semicolon => {
            "leave `;` out: each process stands in a line of its own, with nothing behind it"
        }
        Class::Comma => "leave `,` out, or write the rest of the list behind it",
        Class::Dyadic if class_at(words, at.saturating_sub(1)) == Class::Dyadic => {
            "write x := x + 1 to add one"
        }
        _ => {
            "write the rest behind it, or in the next line, as far to the right as this one or further"
        }
    };
    Some(Told {
        line: index,
        at: if is_last { at } else { at.saturating_add(1) },
        wrong: if is_last {
            "line @1 ends with `@2`, so it goes on, and no line follows"
        } else {
            "line @1 ends with `@2`, so it goes on here, where a line begins too far to the left"
        },
        hint,
        pieces: [
            Piece::Count(words.get(at)?.line as usize),
            Piece::Word(index, at),
            Nothing,
            Nothing,
        ],
    })
}
