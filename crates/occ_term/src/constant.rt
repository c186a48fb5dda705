//! Constants and their values.
ghost use Rattle.std.specs.Prelude.{◌≡◌, IsTrue};
ghost use Rattle.occ_term.specs.Uses as uses;
ghost use Rattle.occ_term.specs.Evaluation.{evaluated};
ghost use Rattle.occ_term.specs.Chains.{chosen_from, constant_value};
ghost use Rattle.occ_term.specs.View.{expression_of};
ghost use Rattle.occ_term.specs.Values.{binary};
ghost use Rattle.occ_term.specs.Operands.{after_both};

use crate::operator::{binary, converted, unary};
use crate::{Fault, Operator, Primitive, TermExpr};

/// Whether no cell, no component and no letter of a string stands in an expression. A chain of AND and OR is a loop.
#[tactic(auto, using(crate::proofs::Chained::both, crate::proofs::Chained::one_is_none))]
pub fn is_constant(e: &TermExpr) -> bool
    ensures { result ≡ uses.is_constant (expression_of e.now) }
{
    let mut rest = e;
    loop {
        match rest {
            TermExpr::Constant(_) => return true,
            TermExpr::Cell(_, _) => return false,
            TermExpr::Component(_) => return false,
            TermExpr::Letter(_, _, _) => return false,
            TermExpr::Binary(_, _, _, left, right) => {
                return is_constant(left.get()) && is_constant(right.get());
            }
            TermExpr::Unary(_, _, _, operand) => return is_constant(operand.get()),
            TermExpr::And(left, right) => {
                if !is_constant(right.get()) {
                    return false;
                }
                rest = left.get();
            }
            TermExpr::Or(left, right) => {
                if !is_constant(right.get()) {
                    return false;
                }
                rest = left.get();
            }
            TermExpr::Conversion(_, _, operand) => return is_constant(operand.get()),
        }
    }
}

/// The value of a constant, or its first fault from the left.
#[cycle(constant)]
#[tactic(auto, using(crate::proofs::Chained::first_of_both, crate::proofs::Chained::second_of_both))]
pub fn value_of_constant(e: &TermExpr) -> Result<i64, Fault>
    requires { IsTrue (uses.is_constant (expression_of e.now)) }
    ensures { evaluated result ≡ constant_value e.now }
{
    match e {
        TermExpr::Constant(value) => Ok(*value),
        TermExpr::Cell(_, _) => unreachable!(),
        TermExpr::Component(_) => unreachable!(),
        TermExpr::Letter(_, _, _) => unreachable!(),
        TermExpr::Binary(operator, primitive, line, left, right) => {
            let a = value_of_constant(left.get());
            let b = value_of_constant(right.get());
            of_two(*operator, *primitive, *line, a, b)
        }
        TermExpr::Unary(operator, primitive, line, operand) => {
            let a = value_of_constant(operand.get())?;
            unary(*operator, *primitive, *line, a)
        }
        TermExpr::And(left, right) => {
            let right = value_of_constant(right.get());
            chain_value(left.get(), right, Ok(0))
        }
        TermExpr::Or(left, right) => {
            let right = value_of_constant(right.get());
            chain_value(left.get(), Ok(1), right)
        }
        TermExpr::Conversion(to, line, operand) => {
            let a = value_of_constant(operand.get())?;
            converted(*to, *line, a)
        }
    }
}

/// What an operator is worth whose operands are worth so much.
fn of_two(
    operator: Operator,
    primitive: Primitive,
    line: u32,
    a: Result<i64, Fault>,
    b: Result<i64, Fault>,
) -> Result<i64, Fault>
    ensures { evaluated result ≡ after_both (evaluated a) (evaluated b)
        (binary operator primitive line) }
{
    binary(operator, primitive, line, a?, b?)
}

/// What a chain is worth whose first operands are this expression, where the others are worth so much after TRUE, and so
/// much after FALSE. The operands are taken from the last to the first, in a loop, as a chain may be long.
#[cycle(constant)]
#[tactic(auto, using(crate::proofs::Chained::first_of_both, crate::proofs::Chained::second_of_both))]
fn chain_value(
    first: &TermExpr,
    after_true: Result<i64, Fault>,
    after_false: Result<i64, Fault>,
) -> Result<i64, Fault>
    requires { IsTrue (uses.is_constant (expression_of first.now)) }
    ensures { evaluated result ≡ chosen_from (constant_value first.now) after_true after_false }
{
    let mut rest = first;
    let mut on_true = after_true;
    let mut on_false = after_false;
    loop {
        match rest {
            TermExpr::And(left, right) => {
                let right = value_of_constant(right.get());
                on_true = chosen(right, on_true, on_false);
                rest = left.get();
            }
            TermExpr::Or(left, right) => {
                let right = value_of_constant(right.get());
                on_false = chosen(right, on_true, on_false);
                rest = left.get();
            }
            _ => {
                let value = value_of_constant(rest);
                return chosen(value, on_true, on_false);
            }
        }
    }
}

/// The one where a value is TRUE, and the other where it is FALSE.
fn chosen(
    value: Result<i64, Fault>,
    on_true: Result<i64, Fault>,
    on_false: Result<i64, Fault>,
) -> Result<i64, Fault>
    ensures { evaluated result ≡ chosen_from (evaluated value) on_true on_false }
{
    match value {
        Ok(value) => { if value == 0 { on_false } else { on_true } }
        Err(fault) => Err(fault),
    }
}
