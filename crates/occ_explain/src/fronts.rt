//! What stands at the front of a line.

use crate::class::{Class, class_of, class_of_one, class_of_two};
use crate::shapes::number_of;

/// What stands at the front of a line, from one byte up to another. It has no class where it is no word.
#[derive(Clone, Copy)]
pub(crate) struct Front {
    pub(crate) begin: usize,
    pub(crate) end: usize,
    pub(crate) class: Option<Class>,
}

/// The first so many bytes, as a word of this class.
fn word(end: usize, class: Class) -> Front {
    Front {
        begin: 0,
        end,
        class: Some(class),
    }
}

/// How many bytes at the front are digits of this base, which are zeros for 1; for 36, how many are letters, digits or dots.
fn size_of(bytes: &[u8], base: u32) -> usize {
    for (i, byte) in bytes.iter().enumerate() {
        let is_in = match base {
            1 => *byte == b'0',
            10 => byte.is_ascii_digit(),
            16 => byte.is_ascii_hexdigit(),
            _ => byte.is_ascii_alphanumeric() || *byte == b'.',
        };
        if !is_in {
            return i;
        }
    }
    bytes.len()
}

/// The first so many bytes.
fn first(bytes: &[u8], count: usize) -> &[u8] {
    &bytes[..count.min(bytes.len())]
}

fn decimal(bytes: &[u8]) -> Front {
    let end = size_of(bytes, 10);
    match number_of(first(bytes, end)) {
        Some(value) if value > 2_147_483_647 => word(end, Class::BadLiteral),
        _ => word(end, Class::Number),
    }
}

/// A number in hexadecimal digits. `digits` is what follows the `#`.
fn pattern(digits: &[u8]) -> Front {
    match size_of(digits, 16) {
        0 => word(size_of(digits, 36).saturating_add(1), Class::BadLiteral),
        // `09ABCDEF` has eight digits, and zeros may lead
        count if count.saturating_sub(size_of(digits, 1)) > 8 => {
            word(count.saturating_add(1), Class::BadLiteral)
        }
        count => word(count.saturating_add(1), Class::Number),
    }
}

/// Where a literal stands: between characters, or within an escape that began at a place.
#[derive(Clone, Copy)]
enum Within {
    Between,
    Escape(usize),
    Code(usize, u8),
}

/// A mistake at a place of a literal.
fn mistake(begin: usize, end: usize, class: Class) -> Front {
    Front {
        begin,
        end: end.saturating_add(1),
        class: Some(class),
    }
}

/// A literal whose closing quote is missing.
fn unended(quote: u8, within: Within, size: usize) -> Front {
    match (within, quote) {
        (Within::Escape(begin) | Within::Code(begin, _), _) => {
            mistake(begin, size, Class::BadEscape)
        }
        (Within::Between, b'"') => word(size, Class::OpenText),
        (Within::Between, _) => word(size, Class::BadLiteral),
    }
}

/// A byte that may not stand at a place, with those of the same character where it is no ASCII.
fn bad_byte(begin: usize, bytes: &[u8]) -> Front {
    let mut end = begin;
    for i in begin..begin.saturating_add(4).min(bytes.len()) {
        if bytes[i] < 128 {
            break;
        }
        end = i;
    }
    mistake(begin, end, Class::BadByte)
}

/// A literal, or the first mistake in it. `bytes` begins with its quote.
fn literal(quote: u8, bytes: &[u8]) -> Front {
    let mut within = Within::Between;
    let mut characters: usize = 0;
    for (i, byte) in bytes.iter().enumerate() {
        if i == 0 {
            continue;
        }
        within = match within {
            Within::Between if *byte == quote => {
                let class = match (quote, characters) {
                    (b'"', _) => Class::Text,
                    (_, 1) => Class::ByteLiteral,
                    _ => Class::BadLiteral,
                };
                return word(i.saturating_add(1), class);
            }
            Within::Between if *byte == b'*' => Within::Escape(i),
            Within::Between if *byte == b'\t' || (b' '..=b'~').contains(byte) => {
                characters = characters.saturating_add(1);
                Within::Between
            }
            Within::Between => return bad_byte(i, bytes),
            Within::Escape(begin) if *byte == b'#' => Within::Code(begin, 2),
            Within::Escape(_) if b"cnts*'\"".contains(byte) => {
                characters = characters.saturating_add(1);
                Within::Between
            }
            Within::Escape(begin) => return mistake(begin, i, Class::BadEscape),
            Within::Code(begin, left) if byte.is_ascii_hexdigit() && left > 1 => {
                Within::Code(begin, left - 1)
            }
            Within::Code(_, _) if byte.is_ascii_hexdigit() => {
                characters = characters.saturating_add(1);
                Within::Between
            }
            Within::Code(begin, _) => return mistake(begin, i, Class::BadEscape),
        };
    }
    unended(quote, within, bytes.len())
}

/// A symbol, or a byte that begins no word.
fn symbol(bytes: &[u8]) -> Front {
    if let [one, other, ..] = bytes
        && let Some(class) = class_of_two(*one, *other)
    {
        return word(2, class);
    }
    match bytes {
        [byte, ..] if *byte < 128 => word(1, class_of_one(*byte)),
        _ => bad_byte(0, bytes),
    }
}

/// What stands at the front of a line: a word, a space, or a comment up to the line's end.
pub(crate) fn front_of(bytes: &[u8]) -> Front {
    match bytes {
        [] | [b' ', ..] => Front {
            begin: 0,
            end: 1,
            class: None,
        },
        [b'-', b'-', ..] => Front {
            begin: 0,
            end: bytes.len(),
            class: None,
        },
        [b'#', digits @ ..] => pattern(digits),
        [b'\'', ..] => literal(b'\'', bytes),
        [b'"', ..] => literal(b'"', bytes),
        [first_byte, ..] if first_byte.is_ascii_alphabetic() => {
            let end = size_of(bytes, 36);
            word(end, class_of(first(bytes, end)))
        }
        [first_byte, ..] if first_byte.is_ascii_digit() => decimal(bytes),
        _ => symbol(bytes),
    }
}
