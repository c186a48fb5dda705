//! Names that stand for nothing, stand twice, or are used by two branches.

use crate::class::{Class, reserved_like};
use crate::context::last_proc;
use crate::finding::index_of;
use crate::hints::IN_CAPITALS;
use crate::scan::{Text, Word};
use crate::scope::{declares, formal_count, formal_of};
use crate::sentence::{Nothing, Piece, Told};
use crate::types::{operand_begin, operand_end};
use crate::uses::is_in_row;
use crate::words::{bytes_at, class_at, word_from};

/// A name without subscripts.
pub(crate) fn base(name: &[u8]) -> &[u8] {
    for i in 0..name.len() {
        if name[i] == b'[' {
            return &name[..i];
        }
    }
    name
}

/// A name that stands twice in a list, or a constant that does in a CASE, which may be written otherwise than it is told.
pub(crate) fn twice(words: &[Word<'_>], line: usize, name: &[u8]) -> Told {
    let first = word_from(words, 0, name);
    let second = word_from(words, first.saturating_add(1), name);
    let is_constant = match name {
        [first, ..] => *first == b'-' || first.is_ascii_digit(),
        [] => false,
    };
    Told {
        line,
        at: if second < words.len() {
            second
        } else if first < words.len() {
            first
        } else {
            0
        },
        wrong: "`@1` stands twice",
        hint: if is_constant {
            "write each constant of a CASE once; it may be spelled in several ways"
        } else {
            "give one of them another name"
        },
        pieces: [Piece::Name, Nothing, Nothing, Nothing],
    }
}

/// A name of the text that differs from this one in capitals alone.
fn like_name(text: &Text<'_>, name: &[u8]) -> Option<Piece> {
    for line in 0..text.lines.len() {
        let words = text.words_at(line);
        for at in 0..words.len() {
            let other = words[at].bytes;
            if words[at].class == Class::Name && other != name && other.eq_ignore_ascii_case(name) {
                return Some(Piece::Short(line, at));
            }
        }
    }
    None
}

/// Whether a line stands in the body of a PROC of this name.
fn is_within(text: &Text<'_>, index: usize, name: &[u8]) -> bool {
    let mut inner = index;
    for i in (0..index).rev() {
        if text.indent_at(i) < text.indent_at(inner) {
            inner = i;
            let words = text.words_at(i);
            if class_at(words, 0) == Class::Proc && bytes_at(words, 1) == name {
                return true;
            }
        }
    }
    false
}

/// The line that declares a name, the last one before a line or else the first one.
fn declaring_line(text: &Text<'_>, index: usize, name: &[u8]) -> Option<usize> {
    let mut found = None;
    for i in 0..text.lines.len() {
        if i != index && declares(text.words_at(i), name) && (i < index || found.is_none()) {
            found = Some(i);
        }
    }
    found
}

/// A name that stands for nothing.
pub(crate) fn unknown(text: &Text<'_>, line: usize, name: &[u8]) -> Told {
    let words = text.words_at(line);
    let at = word_from(words, 0, name);
    let (hint, piece) = unknown_hint(text, line, name);
    let behind = if at > 0 && class_at(words, at.saturating_sub(1)) == Class::Of {
        Class::Of
    } else {
        class_at(words, operand_end(words, at))
    };
    let hint = match behind {
        _ if !hint.is_empty() => hint,
        Class::Of => "declare the protocol above: `PROTOCOL @1 IS INT:`",
        Class::OpenParen => {
            "write this PROC above, or name the file that has it before yours: `occam lib.occ my.occ`"
        }
        Class::Exclamation | Class::Question => "declare the channel above: `CHAN OF INT @1:`",
        _ => "declare it above, with its type: `INT @1:`",
    };
    Told {
        line,
        at,
        wrong: "`@1` is not declared here",
        hint,
        pieces: [Piece::Base, Nothing, piece, Nothing],
    }
}

/// A hint for a name that stands for nothing, and a piece of it; nothing where no line declares the name.
fn unknown_hint(text: &Text<'_>, line: usize, name: &[u8]) -> (&'static str, Piece) {
    if let Some((reserved, _)) = reserved_like(name) {
        return (IN_CAPITALS, Piece::Text(reserved));
    }
    if is_within(text, line, name) {
        return ("a PROC cannot call itself: there is no recursion", Nothing);
    }
    if let Some(other) = like_name(text, name) {
        return ("capitals and small letters differ: `@3` is declared", other);
    }
    match declaring_line(text, line, name) {
        Some(other) if other < line => (
            "the declaration in line @3 holds for the process behind it alone: put a SEQ there, round all that uses the name",
            Piece::Line(other),
        ),
        Some(other) => (
            "the declaration in line @3 comes too late: write it above",
            Piece::Line(other),
        ),
        None => ("", Nothing),
    }
}

/// A variable or a channel's end that two branches use.
pub(crate) fn shared_finding(text: &Text<'_>, line: usize, number: u32, name: &[u8]) -> Told {
    if let Some(told) = stream_finding(text, line, number, name) {
        return told;
    }
    let (wrong, hint) = match number {
        50 => (
            "`@1` is written in one branch of a PAR and used in another",
            "@2give each branch a variable of its own, or send the value over a channel",
        ),
        51 => (
            "two branches of a PAR input from `@1`",
            "@2give each pair of processes a channel of its own",
        ),
        _ if name == b"screen".as_slice() => (
            "two branches of a PAR output to `@1`",
            "@2let one process output to the screen, and send it what the others have to say",
        ),
        _ => (
            "two branches of a PAR output to `@1`",
            "@2give each pair of processes a channel of its own",
        ),
    };
    Told {
        line,
        at: word_from(text.words_at(line), 0, base(name)),
        wrong,
        hint: if is_in_row(name) {
            "@2declare an array of one dimension for each branch"
        } else {
            hint
        },
        pieces: [Piece::Name, Piece::Uses(line), Nothing, Nothing],
    }
}

/// The PROC called `main`, where that is not the last one at the left margin.
pub(crate) fn has_other_main(text: &Text<'_>, head: usize) -> bool {
    for i in 0..head {
        let words = text.words_at(i);
        if class_at(words, 0) == Class::Proc
            && text.indent_at(i) == 0
            && bytes_at(words, 1) == b"main".as_slice()
        {
            return true;
        }
    }
    false
}

/// A program that outputs to the keyboard, or inputs from the screen or the error channel: it uses the name in the direction that the
/// stream has itself, and declares no channel of that name.
fn stream_finding(text: &Text<'_>, line: usize, number: u32, name: &[u8]) -> Option<Told> {
    let (formal, wrong) = match number {
        52 if name == b"keyboard".as_slice() => (
            0,
            "`@1` is the first formal of the last PROC, so it is the keyboard, which only gives input",
        ),
        51 if name == b"screen".as_slice() => (
            1,
            "`@1` is the second formal of the last PROC, so it is the screen, which only takes output",
        ),
        51 if name == b"error".as_slice() => (
            2,
            "`@1` is the third formal of the last PROC, so it is the error channel, which only takes output",
        ),
        _ => return None,
    };
    for i in 0..text.lines.len() {
        let words = text.words_at(i);
        if class_at(words, 0) != Class::Proc && declares(words, name) {
            return None;
        }
    }
    let head = last_proc(text);
    let (place, _) = formal_of(text.words_at(head), b"", formal)?;
    let words = text.words_at(line);
    let sign = index_of(
        words,
        if formal == 0 {
            Class::Exclamation
        } else {
            Class::Question
        },
    );
    Some(Told {
        line,
        at: if sign < words.len() {
            operand_begin(words, sign)
        } else {
            0
        },
        wrong,
        hint: if has_other_main(text, head) {
            "the last PROC is the main process: move `@2` above `main`"
        } else if formal_count(text.words_at(head)) == 1 {
            "the keyboard comes first, and the screen second: `PROC @2 (CHAN OF BYTE keyboard, screen)`"
        } else {
            "the main process inputs from its first formal, and outputs to the others"
        },
        pieces: [
            Piece::Short(head, place),
            Piece::Short(head, 1),
            Nothing,
            Nothing,
        ],
    })
}
