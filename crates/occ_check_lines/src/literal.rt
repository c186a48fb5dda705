//! Literals.

ghost use Rattle.std.specs.Prelude.{◌≡◌, IfOk, length, map, pos};
ghost use Rattle.occ_tree_grammar.specs.Expressions.Trees as trees;
ghost use Rattle.occ_check_meaning.specs.Expressions as meant;
ghost use Rattle.occ_check_lines.specs.View.{Gives, Makes, typed_of};

use crate::fault::CheckFault;
use crate::operators::primitive_of;
use crate::typed::Typed;
use occ_term::operator::is_of;
use occ_term::{Array, Primitive, Sizes, TermExpr, Text};
use occ_tree_grammar::tree::expr::{Literal, Primitive as PrimitiveTree};
use std::alloc::{AllocError, Global};

/// What a literal stands for. A number is an INT and a byte is a BYTE where no type is given; none can be given to
/// a string.
///
/// # Errors
///
/// `WrongType` for a value outside its type, and for a string with a type, and `Memory`.
pub fn typed_literal(
    alloc: Global,
    line: u32,
    literal: &Literal,
    primitive: Option<PrimitiveTree>,
) -> Result<Typed, CheckFault>
    ensures { Gives typed_of result (meant.typed_literal (trees.lit_of literal.now) primitive) }
{
    match literal {
        Literal::Number(value) => match primitive {
            None => constant_typed(line, Primitive::Int, i64::from(*value)),
            Some(primitive) => constant_typed(line, primitive_of(primitive), i64::from(*value)),
        },
        Literal::Byte(value) => match primitive {
            None => constant_typed(line, Primitive::Byte, i64::from(*value)),
            Some(primitive) => constant_typed(line, primitive_of(primitive), i64::from(*value)),
        },
        Literal::Text(bytes) => match primitive {
            None => {
                string_size(line, bytes.as_slice())?;
                let bytes = Text::of(bytes.copy()?);
                let string = whole_string(alloc, bytes)?;
                Ok(string)
            }
            Some(_) => Err(CheckFault::WrongType { line }),
        },
    }
}

/// A constant of the type.
///
/// # Errors
///
/// `WrongType` for a value outside of it.
pub fn constant_typed(line: u32, primitive: Primitive, value: i64) -> Result<Typed, CheckFault>
    ensures { Gives typed_of result (meant.constant_of primitive value) }
{
    if is_of(primitive, value) {
        Ok(Typed::Single(primitive, TermExpr::Constant(value)))
    } else {
        Err(CheckFault::WrongType { line })
    }
}

/// The size of a string.
///
/// # Errors
///
/// `WrongType` where it is no INT.
pub fn string_size(line: u32, bytes: &[u8]) -> Result<u32, CheckFault>
    ensures string { Gives (λ n. map pos bytes.now) result (meant.string_of (map pos bytes.now)) }
    ensures size { IfOk result (λ n. n ≡ length bytes.now) }
{
    let size = bytes.len();
    if size <= 2_147_483_647 {
        Ok(size as u32)
    } else {
        Err(CheckFault::WrongType { line })
    }
}

/// A string as an array.
pub fn whole_string(alloc: Global, bytes: Text) -> Result<Typed, AllocError>
    ensures { Makes typed_of result (meant.whole_string (map pos bytes)) }
{
    let sizes = Sizes::new(alloc, &[bytes.len()])?;
    Ok(Typed::Whole(Primitive::Byte, sizes, Array::Text(bytes)))
}
