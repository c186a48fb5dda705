//! The operators of the tree as those of the term, and the types of their operands and results.

ghost use Rattle.std.specs.Prelude.{◌≡◌};
ghost use Rattle.occ_term.specs.Typing.{is_number};
ghost use Rattle.occ_check_meaning.specs.Operators as meant;
ghost use Rattle.occ_check_meaning.specs.Scope.{keep};
ghost use Rattle.occ_check_lines.specs.View.{Answers};

use crate::fault::CheckFault;
use occ_term::{Monadic, Operator, Primitive};
use occ_tree_grammar::tree::expr::{Dyadic, Primitive as PrimitiveTree};

/// The primitive type that a tree names.
pub fn primitive_of(primitive: PrimitiveTree) -> Primitive
    ensures { result ≡ meant.primitive_of primitive }
{
    match primitive {
        PrimitiveTree::Bool => Primitive::Bool,
        PrimitiveTree::Byte => Primitive::Byte,
        PrimitiveTree::Int => Primitive::Int,
    }
}

/// Whether two types are one.
pub fn is_same_type(a: Primitive, b: Primitive) -> bool
    ensures { result ≡ meant.is_same_type a b }
{
    match a {
        Primitive::Bool => matches!(b, Primitive::Bool),
        Primitive::Byte => matches!(b, Primitive::Byte),
        Primitive::Int => matches!(b, Primitive::Int),
    }
}

/// The operator that a spelling stands for.
pub fn operator_of(spelling: Dyadic) -> Operator
    ensures { result ≡ meant.operator_of spelling }
{
    match spelling {
        Dyadic::Add => Operator::Add,
        Dyadic::Subtract => Operator::Subtract,
        Dyadic::Multiply => Operator::Multiply,
        Dyadic::Divide => Operator::Divide,
        Dyadic::Remainder => Operator::Remainder,
        Dyadic::Rem => Operator::Remainder,
        Dyadic::Plus => Operator::Plus,
        Dyadic::Minus => Operator::Minus,
        Dyadic::Times => Operator::Times,
        Dyadic::BitAndSign => Operator::BitAnd,
        Dyadic::BitAnd => Operator::BitAnd,
        Dyadic::BitOrSign => Operator::BitOr,
        Dyadic::BitOr => Operator::BitOr,
        Dyadic::BitXor => Operator::BitXor,
        Dyadic::ShiftLeft => Operator::ShiftLeft,
        Dyadic::ShiftRight => Operator::ShiftRight,
        Dyadic::After => Operator::After,
        Dyadic::Equal => Operator::Equal,
        Dyadic::Unequal => Operator::Unequal,
        Dyadic::Less => Operator::Less,
        Dyadic::Greater => Operator::Greater,
        Dyadic::AtMost => Operator::AtMost,
        Dyadic::AtLeast => Operator::AtLeast,
    }
}

/// The type of what an operator gives, from the types of its operands.
///
/// # Errors
///
/// `WrongType` where it does not take them.
pub fn result_of(
    line: u32,
    operator: Operator,
    a: Primitive,
    b: Primitive,
) -> Result<Primitive, CheckFault>
    ensures { Answers result (meant.result_of operator a b) }
{
    match operator {
        Operator::Add
        | Operator::Subtract
        | Operator::Multiply
        | Operator::Divide
        | Operator::Remainder
        | Operator::Plus
        | Operator::Minus
        | Operator::Times
        | Operator::BitAnd
        | Operator::BitOr
        | Operator::BitXor => typed_if(line, is_number(a) && is_same_type(a, b), a),
        Operator::ShiftLeft | Operator::ShiftRight => {
            typed_if(line, is_number(a) && is_same_type(b, Primitive::Int), a)
        }
        Operator::Equal | Operator::Unequal => {
            typed_if(line, is_same_type(a, b), Primitive::Bool)
        }
        Operator::Less | Operator::Greater | Operator::AtMost | Operator::AtLeast => {
            typed_if(line, is_number(a) && is_same_type(a, b), Primitive::Bool)
        }
        Operator::After => {
            let both = is_same_type(a, Primitive::Int) && is_same_type(b, Primitive::Int);
            typed_if(line, both, Primitive::Bool)
        }
    }
}

/// The type where the test holds.
fn typed_if(line: u32, test: bool, primitive: Primitive) -> Result<Primitive, CheckFault>
    ensures { Answers result (keep test primitive) }
{
    if test {
        Ok(primitive)
    } else {
        Err(CheckFault::WrongType { line })
    }
}

/// Whether a type is one of numbers.
pub fn is_number(primitive: Primitive) -> bool
    ensures { result ≡ is_number primitive }
{
    match primitive {
        Primitive::Bool => false,
        Primitive::Byte => true,
        Primitive::Int => true,
    }
}

/// Whether an operator takes an operand of the type.
pub fn takes_operand(operator: Monadic, primitive: Primitive) -> bool
    ensures { result ≡ meant.takes_operand operator primitive }
{
    match operator {
        Monadic::Negate => is_number(primitive),
        Monadic::BitNot => is_number(primitive),
        Monadic::Not => is_same_type(primitive, Primitive::Bool),
    }
}
