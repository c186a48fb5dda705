//! What a line stands under.

use crate::class::Class;
use crate::finding::index_of;
use crate::refusal::Refusal;
use crate::scan::{Text, Word};
use crate::words::class_at;

/// What a line may be.
#[derive(Clone, Copy)]
pub(crate) enum Start {
    Top,
    Process,
    Choice,
    Arm,
    Option,
    Variant,
    Cases,
    Tag,
}

/// The last PROC at the left margin, and the first line where there is none.
pub(crate) fn last_proc(text: &Text<'_>) -> usize {
    for i in (0..text.lines.len()).rev() {
        if text.indent_at(i) == 0 && class_at(text.words_at(i), 0) == Class::Proc {
            return i;
        }
    }
    0
}

/// The line that a refusal names; that of the main process for one of a whole program. There is none in a text without words.
pub(crate) fn line_index(text: &Text<'_>, refusal: &Refusal<'_>) -> Option<usize> {
    if text.lines.is_empty() {
        return None;
    }
    if refusal.line == 0 {
        return if matches!(refusal.number, 42 | 43 | 60) {
            Some(last_proc(text))
        } else {
            None
        };
    }
    let mut found = None;
    for (i, line) in text.lines.iter().enumerate() {
        if line.number > refusal.line {
            break;
        }
        found = Some(i);
    }
    found
}

/// The line that a line stands under: the last one before it that begins further to the left.
pub(crate) fn parent_of(text: &Text<'_>, index: usize) -> Option<usize> {
    let indent = text.indent_at(index);
    for i in (0..index).rev() {
        if text.indent_at(i) < indent {
            return Some(i);
        }
    }
    None
}

/// Whether the line ends with `? CASE`.
pub(crate) fn takes_variants(words: &[Word<'_>]) -> bool {
    let last = words.len().saturating_sub(1);
    class_at(words, last) == Class::Case && index_of(words, Class::Question) < words.len()
}

/// What a line begins with, by the line that it stands under.
pub(crate) fn start_of(text: &Text<'_>, index: usize) -> Start {
    let Some(parent) = parent_of(text, index) else {
        return Start::Top;
    };
    let words = text.words_at(parent);
    match class_at(words, 0) {
        Class::If => Start::Choice,
        Class::Alt | Class::Pri => Start::Arm,
        Class::Protocol => Start::Cases,
        Class::Case if words.len() == 1 => match parent_of(text, parent) {
            Some(round) if class_at(text.words_at(round), 0) == Class::Protocol => Start::Tag,
            _ => Start::Option,
        },
        Class::Case => Start::Option,
        _ if takes_variants(words) => Start::Variant,
        _ => Start::Process,
    }
}
