//! Types: those with which names are declared, and those of expressions, as far as the words of a text tell.

use crate::class::Class;
use crate::scan::{Text, Word};
use crate::scope::{Kind, behind_bracket, behind_sizes, declaration_of};
use crate::words::{bytes_at, class_at};

#[derive(Clone, Copy, PartialEq)]
pub(crate) enum Primitive {
    Bool,
    Byte,
    Int,
}

/// A primitive type, or an array of so many dimensions.
#[derive(Clone, Copy, PartialEq)]
pub(crate) struct Type {
    pub(crate) primitive: Primitive,
    pub(crate) sizes: usize,
}

/// Words of a line, from one place up to another, and their type.
#[derive(Clone, Copy)]
pub(crate) struct Typed {
    pub(crate) line: usize,
    pub(crate) from: usize,
    pub(crate) to: usize,
    pub(crate) found: Type,
}

/// The most steps from an expression to one that shows its type.
const MOST_STEPS: u32 = 64;

/// The primitive type that a word spells.
fn primitive_of(words: &[Word<'_>], at: usize) -> Option<Primitive> {
    match (class_at(words, at), bytes_at(words, at)) {
        (Class::Primitive, [b'I', ..]) => Some(Primitive::Int),
        (Class::Primitive, [_, b'O', ..]) => Some(Primitive::Bool),
        (Class::Primitive, _) => Some(Primitive::Byte),
        _ => None,
    }
}

/// The place behind the operand at this place.
pub(crate) fn operand_end(words: &[Word<'_>], at: usize) -> usize {
    let next = at.saturating_add(1);
    match class_at(words, at) {
        Class::Name => behind_sizes(words, next).0,
        Class::OpenParen => behind_bracket(words, at),
        Class::Number | Class::ByteLiteral | Class::Text if has_type(words, at) => {
            at.saturating_add(4)
        }
        _ => next,
    }
}

/// Whether a type in brackets stands behind a literal.
fn has_type(words: &[Word<'_>], at: usize) -> bool {
    class_at(words, at.saturating_add(1)) == Class::OpenParen
        && class_at(words, at.saturating_add(2)) == Class::Primitive
}

/// The place where an operand begins that ends before this place. Behind `a := b + c[i]` it is that of `c`: in front of it stands
/// an operator, at which the search ends.
pub(crate) fn operand_begin(words: &[Word<'_>], end: usize) -> usize {
    let mut found = end.saturating_sub(1);
    let mut depth: usize = 0;
    for i in (0..end.min(words.len())).rev() {
        match words[i].class {
            Class::CloseBracket | Class::CloseParen => depth = depth.saturating_add(1),
            Class::OpenBracket | Class::OpenParen => depth = depth.saturating_sub(1),
            _ => {}
        }
        if depth > 0 {
            continue;
        }
        if is_operand(words[i].class) && operand_end(words, i) == end {
            found = i;
        } else if words[i].class != Class::OpenBracket {
            return found;
        }
    }
    found
}

fn is_operand(class: Class) -> bool {
    matches!(
        class,
        Class::ByteLiteral
            | Class::Name
            | Class::Number
            | Class::OpenParen
            | Class::Text
            | Class::Truth
    )
}

/// Whether an operator with two operands gives a BOOL.
pub(crate) fn gives_truth(words: &[Word<'_>], at: usize) -> bool {
    match class_at(words, at) {
        Class::And | Class::Equal | Class::Or => true,
        Class::Dyadic => matches!(
            bytes_at(words, at),
            [b'A', ..] | [b'<' | b'>'] | [b'<' | b'>', b'='] | [b'<', b'>']
        ),
        _ => false,
    }
}

/// The primitive type of a literal.
fn literal(words: &[Word<'_>], at: usize, primitive: Primitive) -> Option<Primitive> {
    if has_type(words, at) {
        primitive_of(words, at.saturating_add(2))
    } else {
        Some(primitive)
    }
}

/// The type of the expression at a place of a line, or of its first operand alone, where the words tell it.
pub(crate) fn type_of(text: &Text<'_>, line: usize, at: usize, is_alone: bool) -> Option<Type> {
    let (mut line, mut at, mut is_alone) = (line, at, is_alone);
    let mut subscripts: usize = 0;
    for _ in 0..MOST_STEPS {
        let words = text.words_at(line);
        let word = words.get(at)?;
        let next = at.saturating_add(1);
        // a primitive type, and how many sizes it has under no subscript
        let (primitive, sizes) = match word.class {
            Class::Most => (Some(Primitive::Int), subscripts),
            Class::Primitive => (primitive_of(words, at), subscripts),
            Class::Monadic if word.bytes.starts_with(b"N") => (Some(Primitive::Bool), subscripts),
            Class::Monadic if word.bytes.starts_with(b"S") => (Some(Primitive::Int), subscripts),
            Class::Monadic | Class::Minus => {
                (at, is_alone) = (next, true);
                continue;
            }
            _ if !is_alone && gives_truth(words, operand_end(words, at)) => {
                (Some(Primitive::Bool), subscripts)
            }
            Class::OpenParen => {
                (at, is_alone) = (next, false);
                continue;
            }
            Class::ByteLiteral => (literal(words, at, Primitive::Byte), 0),
            Class::Number => (literal(words, at, Primitive::Int), 0),
            Class::Text => (Some(Primitive::Byte), 1),
            Class::Truth => (Some(Primitive::Bool), 0),
            Class::Name => {
                let found = declaration_of(text, line, word.bytes)?;
                subscripts = subscripts.saturating_add(behind_sizes(words, next).1);
                let declaring = text.words_at(found.line);
                match found.spec.kind {
                    Kind::Index => (Some(Primitive::Int), 0),
                    Kind::Value if found.spec.of >= declaring.len() => {
                        line = found.line;
                        (at, is_alone) = (found.at.saturating_add(2), false);
                        continue;
                    }
                    Kind::Value | Kind::Variable => {
                        (primitive_of(declaring, found.spec.of), found.spec.sizes)
                    }
                    _ => return None,
                }
            }
            _ => return None,
        };
        return Some(Type {
            primitive: primitive?,
            sizes: sizes.checked_sub(subscripts)?,
        });
    }
    None
}

/// The expression at a place, or the operand, where its type is known.
pub(crate) fn typed_at(text: &Text<'_>, line: usize, from: usize, is_alone: bool) -> Option<Typed> {
    let words = text.words_at(line);
    let found = type_of(text, line, from, is_alone)?;
    let to = if is_alone {
        operand_end(words, from)
    } else {
        expression_end(words, from)
    };
    Some(Typed {
        line,
        from,
        to,
        found,
    })
}

/// The type that is spelled at this place: sizes, and a primitive type.
pub(crate) fn spelled_type(words: &[Word<'_>], at: usize) -> Option<Type> {
    let (of, sizes) = behind_sizes(words, at);
    let primitive = primitive_of(words, of)?;
    Some(Type { primitive, sizes })
}

/// The place where an expression that begins here ends.
pub(crate) fn expression_end(words: &[Word<'_>], at: usize) -> usize {
    let mut depth: usize = 0;
    for i in at..words.len() {
        match words[i].class {
            Class::OpenBracket | Class::OpenParen => depth = depth.saturating_add(1),
            Class::CloseBracket | Class::CloseParen if depth == 0 => return i,
            Class::CloseBracket | Class::CloseParen => depth = depth.saturating_sub(1),
            Class::Ampersand
            | Class::Assign
            | Class::Colon
            | Class::Comma
            | Class::DoubleColon
            | Class::Exclamation
            | Class::For
            | Class::Is
            | Class::Question
            | Class::Semicolon
                if depth == 0 => return i,
            _ => {}
        }
    }
    words.len()
}

/// How a type is called.
pub(crate) fn called(found: Type) -> &'static str {
    match (found.primitive, found.sizes) {
        (Primitive::Bool, 0) => "a BOOL",
        (Primitive::Byte, 0) => "a BYTE",
        (Primitive::Int, 0) => "an INT",
        (Primitive::Bool, _) => "an array of BOOL",
        (Primitive::Byte, _) => "an array of BYTE",
        (Primitive::Int, _) => "an array of INT",
    }
}

/// Whether what is spelled from one word up to another begins with INT.
pub(crate) fn begins_int(words: &[Word<'_>], from: usize, to: usize) -> bool {
    from < to && bytes_at(words, from).starts_with(b"INT")
}
