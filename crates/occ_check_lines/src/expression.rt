//! Expressions under a scope: their types, and what they unfold to.

ghost use Rattle.std.specs.Prelude.{◌∷◌, [], IfOk, IsTrue, map, pos};
ghost use Rattle.occ_tree_grammar.specs.Expressions.Trees.{alone, one, operand_of, expression_of as tree_of};
ghost use Rattle.occ_term.specs.Messages.{is_of};
ghost use Rattle.occ_term.specs.Terms.{Conversion};
ghost use Rattle.occ_term.specs.View.{expression_of, subscripts};
ghost use Rattle.occ_term.specs.declared.primitive.Primitive.TheVariants.{Bool as Boolean, Int};
ghost use Rattle.occ_check_meaning.specs.Expressions as meant;
ghost use Rattle.occ_check_meaning.specs.Scope.{keep};
ghost use Rattle.occ_check_lines.specs.View.{Answers, Gives, Makes, known_of, names_in, one_value, subscripts_of, typed_of};
ghost use Rattle.occ_check_lines.specs.Reading.{name_under, read_in};
ghost use Rattle.occ_check_lines.specs.Typing.{chain_in, constant_in, operand_in, size_in, subscripts_in, typed_as_in, typed_in, literal_size};

use crate::constant::constant_of;
use crate::context::Context;
use crate::fault::{CheckFault, unknown};
use crate::known::Known;
use crate::literal::{constant_typed, string_size, typed_literal};
use crate::operators::{is_same_type, operator_of, primitive_of, result_of, takes_operand};
pub use crate::reading::under;
use crate::reading::{read, size_of_known};
use crate::scope::Found;
use crate::typed::Typed;
use occ_held::letters::Letters;
use occ_held::parts::{Listed, Nested};
use occ_term::operator::is_of;
use occ_term::{Monadic, Operator, Primitive, TermExpr};
use occ_tree_grammar::tree::expr::{Expr, Literal, Logic, Monadic as Sign, Operand};
use std::alloc::{AllocError, Global};

/// What an expression unfolds to.
///
/// # Errors
///
/// `Unknown`, `WrongKind`, `WrongType` and `Subscript` refuse it, `Memory` tells of a refused growth.
#[cycle(typing)]
#[tactic(auto, unfolding(occ_check_meaning::specs::Expressions::typed))]
pub fn typed(context: Context<'_, '_>, e: &Expr) -> Result<Typed, CheckFault>
    ensures { Gives typed_of result (typed_in context.entry e.now) }
{
    match e {
        Expr::Operand(a) => typed_operand(context, a),
        Expr::Two(a, spelling, b) => {
            let x = as_single(context.line, typed_operand(context, a)?)?;
            let y = as_single(context.line, typed_operand(context, b)?)?;
            two_typed(context.alloc, context.line, operator_of(*spelling), x, y)
        }
        Expr::One(sign, a) => typed_one(context, *sign, a),
        Expr::Convert(to, a) => {
            let x = as_single(context.line, typed_operand(context, a)?)?;
            let e = converted(context.alloc, context.line, primitive_of(*to), x)?;
            Ok(e)
        }
        Expr::MostPos => Ok(Typed::Single(Primitive::Int, TermExpr::Constant(2_147_483_647))),
        Expr::MostNeg => Ok(Typed::Single(Primitive::Int, TermExpr::Constant(-2_147_483_648))),
        Expr::Chain(logic, a, b, others) => {
            let x = typed_truth(context, a)?;
            let y = typed_truth(context, b)?;
            let left = logic_of(context.alloc, *logic, x, y)?;
            match typed_chain(context, *logic, others, left) {
                Ok(e) => Ok(Typed::Single(Primitive::Bool, e)),
                Err(e) => Err(e),
            }
        }
    }
}

/// An operator and its operand.
#[cycle(typing)]
#[tactic(auto, unfolding(occ_check_meaning::specs::Expressions::typed))]
fn typed_one(context: Context<'_, '_>, sign: Sign, a: &Operand) -> Result<Typed, CheckFault>
    ensures { Gives typed_of result
        (read_in context.entry meant.typed (one sign (operand_of a.now))) }
{
    match sign {
        Sign::Negate => {
            let x = as_single(context.line, typed_operand(context, a)?)?;
            one_typed(context.alloc, context.line, Monadic::Negate, x)
        }
        Sign::Tilde => {
            let x = as_single(context.line, typed_operand(context, a)?)?;
            one_typed(context.alloc, context.line, Monadic::BitNot, x)
        }
        Sign::BitNot => {
            let x = as_single(context.line, typed_operand(context, a)?)?;
            one_typed(context.alloc, context.line, Monadic::BitNot, x)
        }
        Sign::Not => {
            let x = as_single(context.line, typed_operand(context, a)?)?;
            one_typed(context.alloc, context.line, Monadic::Not, x)
        }
        Sign::Size => {
            let size = size_of_operand(context, a)?;
            size_typed(context.line, size)
        }
    }
}

/// An operand of type BOOL.
#[cycle(typing)]
#[tactic(auto, unfolding(occ_check_meaning::specs::Expressions::typed))]
fn typed_truth(context: Context<'_, '_>, a: &Operand) -> Result<TermExpr, CheckFault>
    ensures { Gives expression_of result
        (read_in context.entry meant.typed_as Boolean (alone (operand_of a.now))) }
{
    of_type(context.line, Primitive::Bool, typed_operand(context, a)?)
}

/// Further operands of a chain, which groups to the left.
///
/// # Errors
///
/// The first fault of an operand, and `Memory`.
#[cycle(typing)]
fn typed_chain(
    context: Context<'_, '_>,
    logic: Logic,
    operands: &[Operand],
    first: TermExpr,
) -> Result<TermExpr, CheckFault>
    ensures { Gives expression_of result
        (chain_in context.entry logic first (map operand_of operands.now)) }
{
    let mut left = first;
    for operand in operands {
        left = match chained(context, logic, operand, left) {
            Ok(e) => e,
            Err(e) => return Err(e),
        };
    }
    Ok(left)
}

/// One operand more.
#[cycle(typing)]
#[tactic(auto, unfolding(occ_check_meaning::specs::Expressions::typed, occ_check_meaning::specs::Expressions::typed_chain))]
fn chained(
    context: Context<'_, '_>,
    logic: Logic,
    operand: &Operand,
    left: TermExpr,
) -> Result<TermExpr, CheckFault>
    ensures { Gives expression_of result
        (chain_in context.entry logic left (operand_of operand.now ∷ [])) }
{
    let right = typed_truth(context, operand)?;
    let e = logic_of(context.alloc, logic, left, right)?;
    Ok(e)
}

/// What an operand unfolds to.
#[cycle(typing)]
#[tactic(auto, unfolding(occ_check_meaning::specs::Expressions::typed_operand))]
fn typed_operand(context: Context<'_, '_>, a: &Operand) -> Result<Typed, CheckFault>
    ensures { Gives typed_of result (operand_in context.entry (operand_of a.now)) }
{
    match a {
        Operand::Variable(name, subscripts) => { typed_variable(context, name, subscripts) }
        Operand::Literal(literal, primitive) => typed_literal(
            context.alloc,
            context.line,
            literal,
            *primitive,
        ),
        Operand::Truth(truth) => Ok(Typed::Single(
            Primitive::Bool,
            TermExpr::Constant(i64::from(*truth)),
        )),
        Operand::Parens(e) => typed(context, e),
    }
}

/// A name with its subscripts, which is read.
#[cycle(typing)]
#[tactic(auto, unfolding(occ_check_meaning::specs::Expressions::typed_operand))]
fn typed_variable(
    context: Context<'_, '_>,
    name: &Letters,
    subscripts: &[Expr],
) -> Result<Typed, CheckFault>
    ensures { Gives typed_of result
        (operand_in context.entry (name_under name.now subscripts.now)) }
{
    let known = known_name(context, name)?;
    let subscripts = typed_subscripts(context, subscripts)?;
    read(context.alloc, context.line, known, subscripts)
}

/// What subscripts unfold to, in order.
///
/// # Errors
///
/// As `typed_as` of an INT.
#[cycle(typing)]
pub fn typed_subscripts(
    context: Context<'_, '_>,
    es: &[Expr],
) -> Result<Listed<TermExpr>, CheckFault>
    ensures { Gives subscripts_of result (subscripts_in context.entry es.now) }
{
    let mut made = Listed::new(context.alloc);
    for e in es {
        let subscript = match typed_as(context, Primitive::Int, e) {
            Ok(subscript) => subscript,
            Err(e) => return Err(e),
        };
        made.push(subscript)?;
    }
    Ok(made)
}

/// The SIZE of an operand. It reads nothing, but the subscripts under it are checked.
#[cycle(typing)]
#[tactic(auto, unfolding(occ_check_meaning::specs::Expressions::size_of_operand))]
fn size_of_operand(context: Context<'_, '_>, a: &Operand) -> Result<u64, CheckFault>
    ensures { Answers result (size_in context.entry (operand_of a.now)) }
{
    match a {
        Operand::Variable(name, subscripts) => { size_of_variable(context, name, subscripts) }
        Operand::Literal(literal, None) => size_of_literal(context.line, literal),
        Operand::Literal(_, Some(_)) => Err(CheckFault::WrongType { line: context.line }),
        Operand::Truth(_) => Err(CheckFault::WrongType { line: context.line }),
        Operand::Parens(e) => size_of_expression(context, e),
    }
}

/// The SIZE of what a name under subscripts stands for.
#[cycle(typing)]
#[tactic(auto, unfolding(occ_check_meaning::specs::Expressions::size_of_operand))]
fn size_of_variable(
    context: Context<'_, '_>,
    name: &Letters,
    subscripts: &[Expr],
) -> Result<u64, CheckFault>
    ensures { Answers result (size_in context.entry (name_under name.now subscripts.now)) }
{
    let known = known_name(context, name)?;
    let subscripts = typed_subscripts(context, subscripts)?;
    size_of_known(context.line, known, subscripts.as_slice())
}

/// The SIZE of an array in parentheses.
#[cycle(typing)]
#[tactic(auto, unfolding(occ_check_meaning::specs::Expressions::size_of_expression))]
fn size_of_expression(context: Context<'_, '_>, e: &Expr) -> Result<u64, CheckFault>
    ensures { Answers result
        (read_in context.entry meant.size_of_expression (tree_of e.now)) }
{
    match e {
        Expr::Operand(a) => size_of_operand(context, a),
        Expr::Two(_, _, _) => Err(CheckFault::WrongType { line: context.line }),
        Expr::One(_, _) => Err(CheckFault::WrongType { line: context.line }),
        Expr::Convert(_, _) => Err(CheckFault::WrongType { line: context.line }),
        Expr::MostPos => Err(CheckFault::WrongType { line: context.line }),
        Expr::MostNeg => Err(CheckFault::WrongType { line: context.line }),
        Expr::Chain(_, _, _, _) => Err(CheckFault::WrongType { line: context.line }),
    }
}

/// What an expression of this type unfolds to.
///
/// # Errors
///
/// As `typed`, and `WrongType` for another type or an array.
#[cycle(typing)]
pub fn typed_as(
    context: Context<'_, '_>,
    primitive: Primitive,
    e: &Expr,
) -> Result<TermExpr, CheckFault>
    ensures { Gives expression_of result (typed_as_in context.entry primitive e.now) }
{
    of_type(context.line, primitive, typed(context, e)?)
}

/// The value of a constant of this type.
///
/// # Errors
///
/// As `typed_as`, `NotConstant`, and `WrongType` for a value outside the type.
pub fn constant_as(
    context: Context<'_, '_>,
    primitive: Primitive,
    e: &Expr,
) -> Result<i64, CheckFault>
    ensures value { Answers result (constant_in context.entry primitive e.now) }
    ensures range { IfOk result (λ v. IsTrue (is_of primitive v)) }
{
    let e = typed_as(context, primitive, e)?;
    match constant_of(&e) {
        Some(value) => within_type(context.line, primitive, value),
        None => Err(CheckFault::NotConstant { line: context.line }),
    }
}

/// A value that is in the type.
///
/// # Errors
///
/// `WrongType` for any other.
fn within_type(line: u32, primitive: Primitive, value: i64) -> Result<i64, CheckFault>
    ensures value { Answers result (keep (is_of primitive value) value) }
    ensures range { IfOk result (λ v. IsTrue (is_of primitive v)) }
{
    if is_of(primitive, value) {
        Ok(value)
    } else {
        Err(CheckFault::WrongType { line })
    }
}

/// What a name stands for.
///
/// # Errors
///
/// `Unknown` where it stands for nothing, `WrongKind` where it is a procedure's, and `Memory`.
#[tactic(auto, using(crate::proofs::Refusals::refused))]
pub fn known_name<'a>(context: Context<'a, '_>, name: &Letters) -> Result<&'a Known, CheckFault>
    ensures { Gives (λ k. known_of k.now) result (names_in context.entry.scope name.now) }
{
    match context.scope.known(name) {
        Some(known) => Ok(known),
        None => Err(no_value(context, name)),
    }
}

/// The fault of a name that stands for no value.
fn no_value(context: Context<'_, '_>, name: &Letters) -> CheckFault {
    match context.scope.find(name) {
        Some(Found::Procedure(_, _)) => CheckFault::WrongKind { line: context.line },
        _ => unknown(context.alloc, context.line, name),
    }
}

/// One value with its type.
///
/// # Errors
///
/// `WrongType` for an array.
pub fn as_single(line: u32, typed: Typed) -> Result<(Primitive, TermExpr), CheckFault>
    ensures { Gives one_value result (meant.as_single (typed_of typed)) }
{
    match typed {
        Typed::Single(primitive, e) => Ok((primitive, e)),
        Typed::Whole(_, _, _) => Err(CheckFault::WrongType { line }),
    }
}

/// One value of this type.
///
/// # Errors
///
/// `WrongType` for another type or an array.
fn of_type(line: u32, primitive: Primitive, typed: Typed) -> Result<TermExpr, CheckFault>
    ensures { Gives expression_of result (meant.of_type primitive (typed_of typed)) }
{
    match typed {
        Typed::Single(t, e) => {
            if is_same_type(t, primitive) {
                Ok(e)
            } else {
                Err(CheckFault::WrongType { line })
            }
        }
        Typed::Whole(_, _, _) => Err(CheckFault::WrongType { line }),
    }
}

/// Two operands and the operator between them.
fn two_typed(
    alloc: Global,
    line: u32,
    operator: Operator,
    a: (Primitive, TermExpr),
    b: (Primitive, TermExpr),
) -> Result<Typed, CheckFault>
    ensures { Gives typed_of result
        (meant.two_typed line operator (one_value a) (one_value b)) }
{
    let (own, left) = a;
    let (other, right) = b;
    let primitive = result_of(line, operator, own, other)?;
    let left = Nested::new(alloc, left)?;
    let right = Nested::new(alloc, right)?;
    let e = TermExpr::Binary(operator, own, line, left, right);
    Ok(Typed::Single(primitive, e))
}

/// An operator before its operand.
fn one_typed(
    alloc: Global,
    line: u32,
    operator: Monadic,
    a: (Primitive, TermExpr),
) -> Result<Typed, CheckFault>
    ensures { Gives typed_of result (meant.one_typed line operator (one_value a)) }
{
    if !takes_operand(operator, a.0) {
        return Err(CheckFault::WrongType { line });
    }
    let operand = Nested::new(alloc, a.1)?;
    let e = TermExpr::Unary(operator, a.0, line, operand);
    Ok(Typed::Single(a.0, e))
}

/// A conversion of one value.
fn converted(
    alloc: Global,
    line: u32,
    to: Primitive,
    a: (Primitive, TermExpr),
) -> Result<Typed, AllocError>
    ensures { Makes typed_of result (meant.single to (Conversion to line (expression_of a.1))) }
{
    let operand = Nested::new(alloc, a.1)?;
    Ok(Typed::Single(to, TermExpr::Conversion(to, line, operand)))
}

/// AND or OR of two values.
fn logic_of(alloc: Global, logic: Logic, a: TermExpr, b: TermExpr) -> Result<TermExpr, AllocError>
    ensures { Makes expression_of result
        (meant.logic_of logic (expression_of a) (expression_of b)) }
{
    let a = Nested::new(alloc, a)?;
    let b = Nested::new(alloc, b)?;
    match logic {
        Logic::And => Ok(TermExpr::And(a, b)),
        Logic::Or => Ok(TermExpr::Or(a, b)),
    }
}

/// A SIZE as an INT.
fn size_typed(line: u32, size: u64) -> Result<Typed, CheckFault>
    ensures { Gives typed_of result (meant.constant_of Int (pos size)) }
{
    if size <= 2_147_483_647 {
        constant_typed(line, Primitive::Int, size as i64)
    } else {
        Err(CheckFault::WrongType { line })
    }
}

/// The SIZE of a literal without a type, which must be a string.
#[tactic(auto, unfolding(occ_check_meaning::specs::Expressions::size_of_operand))]
fn size_of_literal(line: u32, literal: &Literal) -> Result<u64, CheckFault>
    ensures { Answers result (literal_size line literal.now) }
{
    match literal {
        Literal::Number(_) => Err(CheckFault::WrongType { line }),
        Literal::Byte(_) => Err(CheckFault::WrongType { line }),
        Literal::Text(bytes) => Ok(u64::from(string_size(line, bytes.as_slice())?)),
    }
}
