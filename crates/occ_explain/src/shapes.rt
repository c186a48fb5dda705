//! Types as they are written, with their sizes.

use crate::class::Class;
use crate::scan::{Text, Word};
use crate::scope::declaration_of;
use crate::types::{Typed, expression_end};
use crate::words::bytes_at;

/// How a type is written: as it is called, as an array of so many letters, or as the words of a declaration, which stand in a line
/// from one place up to another.
#[derive(Clone, Copy)]
pub(crate) enum Shape {
    Called,
    Letters(usize),
    Spelled(usize, usize, usize),
}

/// How many characters a string has.
fn characters(literal: &[u8]) -> usize {
    let mut count: usize = 0;
    let mut code: usize = 0;
    for (i, byte) in literal.iter().enumerate() {
        if i == 0 {
            continue;
        }
        match code {
            // behind a star, and in its two digits
            3 if *byte == b'#' => code = 2,
            3 => code = 0,
            0 if *byte == b'"' => return count,
            0 => {
                count = count.saturating_add(1);
                code = if *byte == b'*' { 3 } else { 0 };
            }
            _ => code = code.saturating_sub(1),
        }
    }
    count
}

/// How the type of an expression is written: with its sizes where it is a name or a string alone.
pub(crate) fn shape_of(text: &Text<'_>, typed: Typed) -> Shape {
    let words = text.words_at(typed.line);
    let is_alone = expression_end(words, typed.from) == typed.from.saturating_add(1);
    if typed.found.sizes == 0 || !is_alone {
        return Shape::Called;
    }
    match words.get(typed.from) {
        Some(word) if word.class == Class::Text => Shape::Letters(characters(word.bytes)),
        Some(word) => match declaration_of(text, typed.line, word.bytes) {
            Some(found) if found.spec.of < text.words_at(found.line).len() => {
                Shape::Spelled(found.line, found.spec.from, found.spec.to)
            }
            _ => Shape::Called,
        },
        None => Shape::Called,
    }
}

/// Whether a word stands right behind the one before it.
pub(crate) fn is_beside(words: &[Word<'_>], at: usize) -> bool {
    match (words.get(at.saturating_sub(1)), words.get(at)) {
        (Some(first), Some(word)) => {
            first.line == word.line && first.before.saturating_add(first.bytes.len()) == word.before
        }
        _ => true,
    }
}

/// Whether two types are written alike.
pub(crate) fn are_alike(text: &Text<'_>, one: Shape, other: Shape) -> bool {
    match (one, other) {
        (Shape::Called, Shape::Called) => true,
        (Shape::Letters(size), Shape::Letters(count)) => size == count,
        (Shape::Spelled(line, from, to), Shape::Letters(size))
        | (Shape::Letters(size), Shape::Spelled(line, from, to)) => {
            let words = text.words_at(line);
            to == from.saturating_add(4)
                && number_of(bytes_at(words, from.saturating_add(1))) == Some(size)
        }
        (Shape::Spelled(line, from, to), Shape::Spelled(second, begin, end)) => {
            let (words, others) = (text.words_at(line), text.words_at(second));
            for i in 0..words.len() {
                let (at, place) = (from.saturating_add(i), begin.saturating_add(i));
                if at >= to || place >= end {
                    break;
                }
                if bytes_at(words, at) != bytes_at(others, place)
                    || i > 0 && is_beside(words, at) != is_beside(others, place)
                {
                    return false;
                }
            }
            to.saturating_sub(from) == end.saturating_sub(begin)
        }
        _ => false,
    }
}

/// Digits as a number, as far as the machine's words go.
pub(crate) fn number_of(digits: &[u8]) -> Option<usize> {
    let mut value: usize = 0;
    for digit in digits {
        if !digit.is_ascii_digit() {
            return None;
        }
        let digit = usize::from(digit.wrapping_sub(b'0'));
        value = value.saturating_mul(10).saturating_add(digit);
    }
    Some(value)
}
