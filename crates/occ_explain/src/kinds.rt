//! Names that are used as what they are not, and constants that are none or stand outside their range.

use crate::class::Class;
use crate::context::{Start, start_of};
use crate::finding::{index_of, sign_of};
use crate::names::has_other_main;
use crate::scan::{Text, Word};
use crate::scope::{Declared, Kind, declaration_of, formal_at, formal_count, index_at, untyped};
use crate::sentence::{Nothing, Piece, Told};
use crate::shapes::number_of;
use crate::types::operand_begin;
use crate::words::{bytes_at, class_at};

/// What a name has to be at its place.
#[derive(Clone, Copy)]
enum Role {
    /// It is set.
    Target,
    /// It is called.
    Called,
    /// It is output to, or input from.
    End,
    /// It is what a channel carries.
    Carried,
    /// Its value is used.
    Read,
    /// It may be anything.
    Any,
}

/// How many brackets are open behind a word, where so many are before it.
fn depth_behind(depth: usize, class: Class) -> usize {
    match class {
        Class::OpenBracket | Class::OpenParen => depth.saturating_add(1),
        Class::CloseBracket | Class::CloseParen => depth.saturating_sub(1),
        _ => depth,
    }
}

/// What decides which names of a line have to be what: where its signs stand, and whether the line is of a tag or a variant.
#[derive(Clone, Copy)]
struct Signs {
    is: usize,
    assign: usize,
    input: usize,
    /// The sign of an output or an input.
    sign: usize,
    is_tagged: bool,
}

fn signs_of(text: &Text<'_>, index: usize) -> Signs {
    let words = text.words_at(index);
    Signs {
        is: index_of(words, Class::Is),
        assign: index_of(words, Class::Assign),
        input: index_of(words, Class::Question),
        sign: sign_of(words),
        is_tagged: matches!(start_of(text, index), Start::Tag | Start::Variant),
    }
}

/// What a name has to be at its place in a line, under so many brackets.
fn role_of(text: &Text<'_>, index: usize, at: usize, depth: usize, signs: Signs) -> Role {
    let words = text.words_at(index);
    let last = words.len().saturating_sub(1);
    let first = class_at(words, 0);
    let assign = signs.assign;
    // a line that declares something
    if class_at(words, last) == Class::Colon || first == Class::Proc {
        return if class_at(words, at.wrapping_sub(1)) == Class::Of {
            Role::Carried
        } else if depth > 0 && first != Class::Proc || signs.is < at {
            Role::Read
        } else {
            Role::Any
        };
    }
    if index_at(words) == at || signs.is_tagged {
        return Role::Any;
    }
    if class_at(words, 1) == Class::OpenParen {
        if at == 0 && assign == words.len() {
            return Role::Called;
        }
        if first == Class::Name && depth == 1 {
            return Role::Any;
        }
    }
    let is_input = signs.input < words.len();
    let sign = if is_input { signs.input } else { signs.sign };
    if depth > 0 {
        return Role::Read;
    }
    if sign == words.len() {
        return if at < assign && assign < words.len() {
            Role::Target
        } else {
            Role::Read
        };
    }
    let behind = sign.saturating_add(1);
    let is_tag = if is_input {
        at == sign.saturating_add(2) && class_at(words, behind) == Class::Case
    } else {
        at == behind && has_protocol(text, index, sign)
    };
    if at == operand_begin(words, sign) {
        Role::End
    } else if is_tag {
        Role::Any
    } else if is_input && at > sign {
        Role::Target
    } else {
        Role::Read
    }
}

/// Whether the channel of an output has a protocol with a name, or is none.
fn has_protocol(text: &Text<'_>, index: usize, sign: usize) -> bool {
    let words = text.words_at(index);
    let name = bytes_at(words, operand_begin(words, sign));
    match declaration_of(text, index, name) {
        Some(found) => class_at(text.words_at(found.line), found.spec.of) == Class::Name,
        None => true,
    }
}

/// What is said of a name that is no such thing, and what to do; nothing of one that is.
fn refused_role(role: Role, kind: Kind) -> (&'static str, &'static str) {
    let wrong = match (role, kind) {
        (Role::Target, Kind::Variable)
        | (Role::End, Kind::Channel)
        | (Role::Called, Kind::Procedure)
        | (Role::Carried, Kind::Protocol)
        | (Role::Read, Kind::Variable | Kind::Value | Kind::Index)
        | (Role::Any, _) => "",
        (Role::Target, _) => "`@1` is @2, and cannot be assigned",
        (Role::End, _) => "`@1` is @2, and no channel",
        (Role::Called, _) => "`@1` is @2, and only a PROC can be called",
        (Role::Carried, _) => "`@1` is @2, and no protocol",
        (Role::Read, _) => "`@1` is @2, and has no value",
    };
    let hint = match (role, kind) {
        (Role::Target, Kind::Value) => "declare a variable, and assign to that",
        (Role::Target, Kind::Index) => "use a WHILE and a variable to count in another way",
        (Role::Target, Kind::Channel) => "output to a channel with `!`: c ! x",
        (Role::End, _) => "`?` inputs from a channel, and `!` outputs to one: CHAN OF INT c:",
        (Role::Carried, _) => "a channel carries BOOL, BYTE, INT, arrays of them, or a protocol",
        (Role::Read, Kind::Channel) => "input from it first: c ? x",
        (Role::Read, Kind::Procedure) => "a PROC gives its result by a formal that it sets",
        _ => "",
    };
    (wrong, hint)
}

/// A name of a line, what it is declared as, and something of it.
fn told_of(
    index: usize,
    at: usize,
    found: Declared,
    wrong: &'static str,
    hint: &'static str,
) -> Option<Told> {
    Some(Told {
        line: index,
        at,
        wrong,
        hint,
        pieces: [
            Piece::Word(index, at),
            Piece::Declared(found),
            Nothing,
            Nothing,
        ],
    })
}

/// What does not fit in a line that is refused for the kind of a name; nothing where the words do not tell.
pub(crate) fn kind_finding(text: &Text<'_>, index: usize) -> Option<Told> {
    let words = text.words_at(index);
    if class_at(words, 0) == Class::Else {
        return Some(Told {
            line: index,
            at: 0,
            wrong: "a second ELSE in one CASE",
            hint: "a CASE has one ELSE, for all values without an option",
            pieces: [Nothing, Nothing, Nothing, Nothing],
        });
    }
    let is_call = class_at(words, 0) == Class::Name && class_at(words, 1) == Class::OpenParen;
    let signs = signs_of(text, index);
    for is_handed in [false, true] {
        let mut behind: usize = 0;
        for at in 0..words.len() {
            let word = words[at];
            let depth = behind;
            behind = depth_behind(depth, word.class);
            let Some(found) = declaration_of(text, index, word.bytes) else {
                continue;
            };
            let kind = found.spec.kind;
            let (wrong, hint) = if !is_handed {
                refused_role(role_of(text, index, at, depth, signs), kind)
            } else if is_call && depth == 1 && matches!(kind, Kind::Index | Kind::Value) {
                (
                    "`@1` is @2, and its formal is a variable, which the PROC may assign",
                    "write VAL before the formal, or hand over a variable",
                )
            } else {
                ("", "")
            };
            let is_sized = kind == Kind::Channel
                && bytes_at(words, at.wrapping_sub(1)) == b"SIZE".as_slice();
            if !wrong.is_empty() && !is_sized {
                return told_of(index, at, found, wrong, hint);
            }
        }
    }
    None
}

/// A name that stands for no constant where one is wanted.
pub(crate) fn constant_finding(text: &Text<'_>, index: usize) -> Option<Told> {
    let words = text.words_at(index);
    // where it is wanted, and what for
    let (from, hint) = match class_at(words, 0) {
        Class::Par => (
            3,
            "the base and the count of a replicated PAR are known before the run: write a number, or name one by VAL",
        ),
        Class::OpenBracket | Class::Chan | Class::Protocol | Class::Proc | Class::Val => (
            0,
            "a size is known before the run: write a number, or name one by VAL",
        ),
        _ => (
            0,
            "a constant of a CASE is known before the run: write a number or a byte, or name one by VAL",
        ),
    };
    for at in from..words.len() {
        if let Some(found) = declaration_of(text, index, words[at].bytes)
            && found.spec.kind == Kind::Variable
        {
            return told_of(index, at, found, "`@1` is @2, and may change", hint);
        }
    }
    None
}

/// The number that stands alone in brackets at a place.
fn bracketed(words: &[Word<'_>], at: usize) -> Option<usize> {
    let place = at.saturating_add(1);
    let is_alone = class_at(words, at) == Class::OpenBracket
        && class_at(words, place) == Class::Number
        && class_at(words, at.saturating_add(2)) == Class::CloseBracket;
    if is_alone {
        number_of(bytes_at(words, place))
    } else {
        None
    }
}

/// A subscript that is outside the size of its array.
pub(crate) fn subscript_finding(text: &Text<'_>, index: usize) -> Option<Told> {
    let words = text.words_at(index);
    for at in 0..words.len() {
        if let Some(subscript) = bracketed(words, at.saturating_add(1))
            && let Some(found) = declaration_of(text, index, words[at].bytes)
            && let Some(size) = bracketed(text.words_at(found.line), found.spec.from)
            && subscript >= size
        {
            return Some(Told {
                line: index,
                at: at.saturating_add(2),
                wrong: "`@1` is @2",
                hint: "its first subscript is from 0 to below @3",
                pieces: [
                    Piece::Word(index, at),
                    Piece::Declared(found),
                    Piece::Short(found.line, found.spec.from.saturating_add(1)),
                    Nothing,
                ],
            });
        }
    }
    None
}

/// The last PROC, which is no main process.
pub(crate) fn main_finding(text: &Text<'_>, index: usize) -> Told {
    let words = text.words_at(index);
    let count = formal_count(words);
    let mut told = Told {
        line: index,
        at: 1,
        wrong: if count == 0 {
            "the last PROC, `@1`, has no formals"
        } else {
            "the last PROC, `@1`, has more than three formals"
        },
        hint: if has_other_main(text, index) {
            "the last PROC is the main process: move `@1` above `main`"
        } else {
            "the main process comes last, with one to three formals: (CHAN OF BYTE keyboard, screen, error)"
        },
        pieces: [Piece::Short(index, 1), Nothing, Nothing, Nothing],
    };
    if class_at(words, 0) != Class::Proc {
        told.at = 0;
        told.wrong = "there is no PROC";
        return told;
    }
    let (mut place, mut before) = (3, untyped(Kind::Variable));
    for _ in 0..count {
        let Some((at, spec)) = formal_at(words, place, before) else {
            return told;
        };
        if spec.kind != Kind::Channel
            || spec.sizes > 0
            || spec.to != spec.of.saturating_add(1)
            || bytes_at(words, spec.of) != b"BYTE".as_slice()
        {
            let found = Declared {
                line: index,
                at,
                spec,
            };
            told.at = at;
            told.wrong = "the last PROC, `@1`, has the formal `@2`, which is @3";
            told.pieces[1] = Piece::Short(index, at);
            told.pieces[2] = Piece::Declared(found);
            return told;
        }
        before = spec;
        place = at.saturating_add(2);
    }
    told
}
