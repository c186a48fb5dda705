//! Types that do not fit: of operands, of sides, of conditions and of subscripts.

use crate::class::Class;
use crate::context::{Start, parent_of, start_of};
use crate::finding::{index_of, sign_of};
use crate::hints::is_operator;
use crate::scan::{Text, Word};
use crate::scope::{Kind, behind_sizes, declaration_of, index_at};
use crate::sentence::{Nothing, Piece, Told};
use crate::shapes::{are_alike, number_of, shape_of};
use crate::types::{
    Primitive, Type, Typed, called, expression_end, operand_begin, operand_end, spelled_type,
    type_of, typed_at,
};
use crate::words::{bytes_at, class_at};

/// Which single values may stand somewhere.
#[derive(Clone, Copy, PartialEq)]
enum Takes {
    Truth,
    Int,
    Number,
    Any,
}

fn is_taken(found: Type, takes: Takes) -> bool {
    found.sizes == 0
        && match takes {
            Takes::Truth => found.primitive == Primitive::Bool,
            Takes::Int => found.primitive == Primitive::Int,
            Takes::Number => found.primitive != Primitive::Bool,
            Takes::Any => true,
        }
}

/// Whether the expression at a place is one number.
fn is_number(words: &[Word<'_>], at: usize) -> bool {
    class_at(words, at) == Class::Number && operand_end(words, at) == at.saturating_add(1)
}

/// How a value of another primitive type is made of the words that are the first piece.
pub(crate) fn conversion(words: &[Word<'_>], typed: Typed, to: Primitive) -> &'static str {
    if typed.found.sizes > 0 || typed.found.primitive == to {
        return "";
    }
    let is_operand = operand_end(words, typed.from) >= typed.to;
    match to {
        Primitive::Bool => "compare it, as in `@1 <> 0`",
        Primitive::Byte if is_operand && is_number(words, typed.from) => {
            "write it with its type: `@1 (BYTE)`"
        }
        Primitive::Byte if is_operand => "convert it: `BYTE @1`",
        Primitive::Byte => "convert it: `BYTE (@1)`",
        Primitive::Int if is_operand => "convert it: `INT @1`",
        Primitive::Int => "convert it: `INT (@1)`",
    }
}

/// What type words have, with its sizes where they are a whole expression.
fn kind_of(text: &Text<'_>, typed: Typed) -> Piece {
    if expression_end(text.words_at(typed.line), typed.from) == typed.to {
        Piece::Typed(typed)
    } else {
        Piece::Text(called(typed.found))
    }
}

/// Words that have another type than is said behind.
fn unfit(text: &Text<'_>, typed: Typed, says: &'static str, hint: &'static str) -> Told {
    Told {
        line: typed.line,
        at: typed.from,
        wrong: "`@1` is @2@3",
        hint,
        pieces: [
            Piece::Said(typed),
            kind_of(text, typed),
            Piece::Text(says),
            Nothing,
        ],
    }
}

/// Words that do not fit to others before them.
fn beside(text: &Text<'_>, left: Typed, right: Typed, hint: &'static str, is_left: bool) -> Told {
    // the first piece is what the hint speaks of
    let (odd, other) = if is_left {
        (left, right)
    } else {
        (right, left)
    };
    Told {
        line: right.line,
        at: right.from,
        wrong: if is_left {
            "`@1` is @2, but `@3` is @4"
        } else {
            "`@3` is @4, but `@1` is @2"
        },
        hint,
        pieces: [
            Piece::Said(odd),
            kind_of(text, odd),
            Piece::Said(other),
            kind_of(text, other),
        ],
    }
}

/// An expression that has another type than is wanted at its place.
fn unwanted(
    text: &Text<'_>,
    index: usize,
    at: usize,
    takes: Takes,
    says: &'static str,
) -> Option<Told> {
    let typed = typed_at(text, index, at, false)?;
    if is_taken(typed.found, takes) {
        return None;
    }
    let to = if takes == Takes::Truth {
        Primitive::Bool
    } else {
        Primitive::Int
    };
    let hint = conversion(text.words_at(index), typed, to);
    Some(unfit(text, typed, says, hint))
}

/// Which operands an operator takes, and how that is said.
fn operands_of(words: &[Word<'_>], at: usize) -> (Takes, Takes, &'static str) {
    match bytes_at(words, at) {
        [b'A', b'N', ..] | [b'O', ..] => (
            Takes::Truth,
            Takes::Truth,
            ", but AND and OR join values of BOOL",
        ),
        [b'A', ..] => (Takes::Int, Takes::Int, ", but AFTER compares two of INT"),
        [b'<', b'<'] | [b'>', b'>'] => (
            Takes::Number,
            Takes::Int,
            ", but a shift takes a number, and an INT for the count",
        ),
        [b'='] | [b'<', b'>'] => (Takes::Any, Takes::Any, ", and arrays are not compared"),
        _ => (
            Takes::Number,
            Takes::Number,
            ", but the operator takes an INT or a BYTE",
        ),
    }
}

/// Whether the word at a place stands between two operands.
fn is_between(words: &[Word<'_>], at: usize) -> bool {
    is_operator(class_at(words, at))
        && matches!(
            class_at(words, at.wrapping_sub(1)),
            Class::ByteLiteral
                | Class::CloseBracket
                | Class::CloseParen
                | Class::Name
                | Class::Number
                | Class::Text
                | Class::Truth
        )
}

/// Two operands of different types.
fn different(text: &Text<'_>, left: Typed, right: Typed) -> Told {
    let words = text.words_at(left.line);
    // a number is written with the other's type, and else the smaller type becomes an INT
    let (is_left, to) = match (left.found.primitive, right.found.primitive) {
        (Primitive::Byte, Primitive::Int) if is_number(words, right.from) => (
            false,
            Primitive::Byte,
        ),
        (Primitive::Int, Primitive::Byte) if is_number(words, left.from) => (true, Primitive::Byte),
        (Primitive::Int, _) => (false, Primitive::Int),
        (_, to) => (true, to),
    };
    let odd = if is_left { left } else { right };
    let hint = if odd.found.primitive == Primitive::Byte && to == Primitive::Int {
        "convert it: `(INT @1)`"
    } else if to == Primitive::Byte {
        conversion(words, odd, to)
    } else {
        ""
    };
    beside(text, left, right, hint, is_left)
}

/// An operator at a place whose operands do not fit it.
fn operator_finding(text: &Text<'_>, index: usize, at: usize) -> Option<Told> {
    let words = text.words_at(index);
    if !is_between(words, at) || index_at(words).saturating_add(1) == at {
        return None;
    }
    let left = typed_at(text, index, operand_begin(words, at), true);
    let right = typed_at(text, index, at.saturating_add(1), true);
    let (first, second, says) = operands_of(words, at);
    for (typed, takes) in [(left, first), (right, second)] {
        if let Some(typed) = typed
            && !is_taken(typed.found, takes)
        {
            let hint = if typed.found.sizes > 0 {
                "use its components one by one"
            } else if takes == Takes::Int {
                conversion(words, typed, Primitive::Int)
            } else {
                ""
            };
            return Some(unfit(text, typed, says, hint));
        }
    }
    let (left, right) = (left?, right?);
    if first == second && left.found.primitive != right.found.primitive {
        Some(different(text, left, right))
    } else {
        None
    }
}

/// What may stand behind a place of a line, by the word there, and how that is said.
fn wanted_behind(words: &[Word<'_>], at: usize) -> Option<(Takes, &'static str)> {
    let before = class_at(words, at.wrapping_sub(1));
    match class_at(words, at) {
        Class::OpenBracket if class_at(words, at.saturating_add(1)) != Class::CloseBracket => {
            Some((Takes::Int, ", but a subscript or a size is an INT"))
        }
        Class::Equal if index_at(words).saturating_add(1) == at => {
            Some((Takes::Int, ", but the base of a replicator is an INT"))
        }
        Class::For => Some((Takes::Int, ", but the count of a replicator is an INT")),
        Class::While => Some((Takes::Truth, ", but the condition of a WHILE is a BOOL")),
        Class::Case if at == 0 && words.len() > 1 => {
            Some((Takes::Number, ", but a CASE selects by an INT or a BYTE"))
        }
        Class::Monadic | Class::Minus if !is_between(words, at) => match bytes_at(words, at) {
            [b'S', ..] => None,
            [b'N', ..] => Some((Takes::Truth, ", but NOT takes a BOOL")),
            _ => Some((Takes::Number, ", but the operator takes an INT or a BYTE")),
        },
        // a type that is no part of a declaration
        Class::Primitive
            if !matches!(
                before,
                Class::CloseBracket | Class::DoubleColon | Class::End | Class::Of | Class::Val
            ) && !matches!(class_at(words, 0), Class::Proc | Class::Protocol) => {
            Some((Takes::Any, ", but a conversion takes a single value"))
        }
        _ => None,
    }
}

/// An expression behind a place that has another type than is wanted there; at the first place also the one that begins the line.
fn place_finding(text: &Text<'_>, index: usize, at: usize) -> Option<Told> {
    let words = text.words_at(index);
    if at == 0 {
        let says = match start_of(text, index) {
            Start::Choice
                if class_at(words, 0) != Class::If
                    && index_of(words, Class::Colon) == words.len() => {
                ", but a condition of an IF is a BOOL"
            }
            Start::Arm if index_of(words, Class::Ampersand) < words.len() => {
                ", but the condition of a guard is a BOOL"
            }
            _ => "",
        };
        if !says.is_empty()
            && let Some(found) = unwanted(text, index, 0, Takes::Truth, says)
        {
            return Some(found);
        }
    }
    let (takes, says) = wanted_behind(words, at)?;
    unwanted(text, index, at.saturating_add(1), takes, says)
}

/// How many expressions stand between two places, with a comma between two.
pub(crate) fn expression_count(words: &[Word<'_>], from: usize, to: usize) -> usize {
    let mut at = from;
    for count in 1..words.len().saturating_add(1) {
        at = expression_end(words, at);
        if at >= to || class_at(words, at) != Class::Comma {
            return count;
        }
        at = at.saturating_add(1);
    }
    0
}

/// The sides of an assignment.
fn sides(text: &Text<'_>, index: usize) -> Option<Told> {
    let words = text.words_at(index);
    let sign = index_of(words, Class::Assign);
    if sign == words.len() {
        return None;
    }
    let (mut from, mut behind) = (0, sign.saturating_add(1));
    let targets = expression_count(words, 0, sign);
    let values = expression_count(words, behind, words.len());
    if targets != values {
        return Some(Told {
            line: index,
            at: sign,
            wrong: "`:=` has @1 on its left and @2 on its right",
            hint: "write as many values as variables, with commas between them",
            pieces: [
                Piece::Count(targets),
                Piece::Count(values),
                Nothing,
                Nothing,
            ],
        });
    }
    for _ in 0..targets {
        if let (Some(left), Some(right)) = (
            typed_at(text, index, from, false),
            typed_at(text, index, behind, false),
        )
            && (left.found != right.found
                || !are_alike(text, shape_of(text, left), shape_of(text, right)))
        {
            let hint = match (left.found.sizes, right.found.sizes) {
                (0, 0) => conversion(words, right, left.found.primitive),
                (0, _) => "an array goes into an array of its size",
                (_, 0) => "set the components one by one",
                _ => "both sides of an assignment have one size",
            };
            return Some(beside(text, left, right, hint, false));
        }
        from = expression_end(words, from).saturating_add(1);
        behind = expression_end(words, behind).saturating_add(1);
    }
    None
}

/// A named value of another type than is given.
fn named_value(text: &Text<'_>, index: usize) -> Option<Told> {
    let words = text.words_at(index);
    let is = index_of(words, Class::Is);
    if class_at(words, 0) != Class::Val || is < 3 {
        return None;
    }
    let given = spelled_type(words, 1)?;
    let value = typed_at(text, index, is.saturating_add(1), false)?;
    if given == value.found {
        return None;
    }
    Some(Told {
        line: index,
        at: value.from,
        wrong: "`@1` is @2, but `@3` is declared as @4",
        hint: if given.sizes == 0 {
            conversion(words, value, given.primitive)
        } else {
            ""
        },
        pieces: [
            Piece::Said(value),
            kind_of(text, value),
            Piece::Short(index, is.saturating_sub(1)),
            Piece::Text(called(given)),
        ],
    })
}

/// A number at a place that is outside the type that stands behind it.
fn outside(text: &Text<'_>, index: usize, at: usize) -> Option<Told> {
    let words = text.words_at(index);
    if class_at(words, at) != Class::Number || operand_end(words, at) != at.saturating_add(4) {
        return None;
    }
    let (range, most) = match bytes_at(words, at.saturating_add(2)) {
        [b'I', ..] => ("an INT is at most 2147483647", 2_147_483_647),
        [_, b'O', ..] => ("a BOOL is made of 0 or 1", 1),
        _ => ("a BYTE is 0 to 255", 255),
    };
    if number_of(bytes_at(words, at))? <= most {
        return None;
    }
    Some(Told {
        line: index,
        at,
        wrong: "`@1` is too large for its type",
        hint: range,
        pieces: [Piece::Short(index, at), Nothing, Nothing, Nothing],
    })
}

/// More subscripts behind a place than the array there has sizes.
fn too_many(text: &Text<'_>, index: usize, at: usize) -> Option<Told> {
    let words = text.words_at(index);
    let behind = at.saturating_add(1);
    if class_at(words, at) != Class::Name || class_at(words, behind) != Class::OpenBracket {
        return None;
    }
    let found = declaration_of(text, index, bytes_at(words, at))?;
    let (_, subscripts) = behind_sizes(words, behind);
    if found.spec.of == usize::MAX || subscripts <= found.spec.sizes {
        return None;
    }
    Some(Told {
        line: index,
        at: behind,
        wrong: "`@1` is @2, and stands under @3 subscripts; it takes @4",
        hint: "",
        pieces: [
            Piece::Word(index, at),
            Piece::Declared(found),
            Piece::Count(subscripts),
            Piece::Count(found.spec.sizes),
        ],
    })
}

/// A constant of an option that has another type than the value of its CASE.
fn options(text: &Text<'_>, index: usize) -> Option<Told> {
    let parent = parent_of(text, index)?;
    let Start::Option = start_of(text, index) else {
        return None;
    };
    let words = text.words_at(index);
    let selector = type_of(text, parent, 1, false)?;
    let mut at = 0;
    for _ in 0..words.len() {
        if let Some(option) = typed_at(text, index, at, false)
            && option.found != selector
        {
            return Some(Told {
                line: index,
                at,
                wrong: "`@1` is @2, but the CASE selects by @3",
                hint: conversion(words, option, selector.primitive),
                pieces: [
                    Piece::Said(option),
                    kind_of(text, option),
                    Piece::Text(called(selector)),
                    Nothing,
                ],
            });
        }
        at = expression_end(words, at).saturating_add(1);
    }
    None
}

/// An array of channels in the place of one.
fn channels(text: &Text<'_>, index: usize) -> Option<Told> {
    let words = text.words_at(index);
    let sign = sign_of(words);
    let at = operand_begin(words, sign);
    let found = declaration_of(text, index, bytes_at(words, at))?;
    let (_, subscripts) = behind_sizes(words, at.saturating_add(1));
    if sign == words.len() || found.spec.kind != Kind::Channel || subscripts >= found.spec.sizes {
        return None;
    }
    Some(Told {
        line: index,
        at,
        wrong: "`@1` is @2, and a message goes over one of them",
        hint: "write a subscript for each size: `@1[0]`",
        pieces: [
            Piece::Short(index, at),
            Piece::Declared(found),
            Nothing,
            Nothing,
        ],
    })
}

/// What does not fit in a line that is refused for its types; nothing where the words do not tell.
pub(crate) fn mismatch(text: &Text<'_>, index: usize) -> Option<Told> {
    for look in 0..8 {
        for at in 0..text.words_at(index).len() {
            let found = match look {
                0 => operator_finding(text, index, at),
                1 => place_finding(text, index, at),
                4 => outside(text, index, at),
                5 => too_many(text, index, at),
                _ if at > 0 => break,
                2 => sides(text, index),
                3 => named_value(text, index),
                6 => channels(text, index),
                _ => options(text, index),
            };
            if found.is_some() {
                return found;
            }
        }
    }
    None
}
