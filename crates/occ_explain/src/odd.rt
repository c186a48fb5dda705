//! Bytes and literals that stand for nothing.

use crate::class::Class;
use crate::scan::{Text, Word};
use crate::sentence::{Nothing, Piece, Told};
use crate::words::{bytes_at, class_at};

/// What a byte or a character that begins no word is called, and what is written in its place.
static BYTES: &str = "\
\t a tab / write two spaces for each level
\r a carriage return within a line / end a line with LF, or with CR and LF
\0 a byte 0 / save the program as plain text
\u{FEFF} a byte order mark / save the program as UTF-8 without a mark
\u{201C} a curly quote / write a straight one: \"
\u{201D} a curly quote / write a straight one: \"
\u{2018} a curly quote / write a straight one: '
\u{2019} a curly quote / write a straight one: '
\u{2013} a dash / write - for minus, and -- to begin a comment
\u{2014} a dash / write - for minus, and -- to begin a comment
\u{A0} a no-break space / write a plain space
_ `_` / a name has letters, digits and dots: write my.var
{ `{` / indent what belongs together, by two spaces for each level
} `}` / indent what belongs together, by two spaces for each level
| `|` / write OR for conditions, and \\/ for bits
% `%` / write \\ or REM for the remainder
^ `^` / write >< for exclusive or; there is no power";

/// What these bytes are called, and what is written in their place; nothing where they have no name of their own.
fn called(bytes: &[u8]) -> (&'static str, &'static str) {
    for row in BYTES.lines() {
        if let Some((begin, behind)) = row.split_once(' ')
            && bytes.starts_with(begin.as_bytes())
            && let Some((called, hint)) = behind.split_once(" / ")
        {
            return (called, hint);
        }
    }
    ("", "")
}

/// The first word that stands for nothing.
fn first_odd(words: &[Word<'_>]) -> usize {
    for i in 0..words.len() {
        if matches!(
            words[i].class,
            Class::BadByte | Class::BadLiteral | Class::BadEscape | Class::OpenText
        ) {
            return i;
        }
    }
    0
}

/// A text in which a byte or a literal stands for nothing.
pub(crate) fn odd_finding(text: &Text<'_>, line: usize) -> Told {
    let words = text.words_at(line);
    let at = first_odd(words);
    let bytes = bytes_at(words, at);
    let before = at.wrapping_sub(1);
    let (name, hint) = called(bytes);
    let is_real = bytes == b".".as_slice() && class_at(words, before) == Class::Number;
    let is_digits = class_at(words, at.saturating_add(1)) == Class::Number;
    let to = at.saturating_add(if is_digits { 2 } else { 1 });
    let byte = match bytes {
        [byte, ..] => *byte,
        [] => b' ',
    };
    let (wrong, hint) = match class_at(words, at) {
        Class::End => ("", ""),
        Class::BadByte if is_real => (
            "`@4` is a real number, and this profile of occam 2 has none",
            "use INT, for example in hundredths",
        ),
        Class::BadByte if !name.is_empty() => ("@2, which begins no word", hint),
        Class::BadByte if byte.is_ascii_graphic() => (
            "`@1`, which begins no word",
            "occam has no such sign: it may stand in comments and strings alone",
        ),
        Class::BadByte => (
            "a byte that is no ASCII character: @3",
            "write ASCII alone, but for comments",
        ),
        class => literal_text(class, bytes),
    };
    Told {
        line,
        at: if is_real { before } else { at },
        wrong,
        hint,
        pieces: [
            Piece::Short(line, at),
            Piece::Text(name),
            Piece::Count(usize::from(byte)),
            Piece::Brief(line, before, to),
        ],
    }
}

/// Whether a literal between single quotes has its second one.
fn is_closed(bytes: &[u8]) -> bool {
    match bytes {
        [.., b'*', b'*', b'\''] => true,
        [.., b'*', b'\''] => false,
        [_, .., b'\''] => true,
        _ => false,
    }
}

/// What is wrong with a literal, and what is written in its place.
fn literal_text(class: Class, bytes: &[u8]) -> (&'static str, &'static str) {
    match (class, bytes) {
        (Class::BadEscape, _) => (
            "`@1` is no escape",
            "escapes are *c *n *t *s *' *\" ** and *# with two hexadecimal digits",
        ),
        (Class::OpenText, _) => (
            "`@1` is a string that does not end on its line",
            "end it with a double quote; write *\" for one within it",
        ),
        (_, [b'\'', b'\\', ..]) => (
            "`@1` is not one character",
            "an escape begins with a star: '*n' ends a line",
        ),
        (_, [b'\'', b'\'']) => (
            "`@1` holds no character",
            "write one character between the quotes: ' ' is a space",
        ),
        (_, [b'\'', ..]) if !is_closed(bytes) => (
            "`@1` has no closing quote",
            "write a single quote on both sides of the character: 'a'",
        ),
        (_, [b'\'', ..]) => (
            "`@1` is more than one character",
            "write a string between double quotes: \"abc\"",
        ),
        (_, [b'#', digit, ..]) if digit.is_ascii_hexdigit() && bytes.len() > 9 => (
            "`@1` has more than eight digits",
            "a hexadecimal number has 1 to 8 digits: #FF",
        ),
        (_, [b'#', name @ ..]) if name == b"USE".as_slice() || name == b"INCLUDE".as_slice() => (
            "`@1` is not read",
            "name the file that has it before yours: `occam lib.occ my.occ`",
        ),
        (_, [b'#', name @ ..]) if name == b"PRAGMA".as_slice() => {
            ("`@1` is not read", "leave the line out")
        }
        (_, [b'#', ..]) => (
            "`@1` is no hexadecimal number",
            "a hexadecimal number has 1 to 8 digits: #FF",
        ),
        _ => (
            "`@1` is too large for an INT",
            "the largest INT is 2147483647",
        ),
    }
}
