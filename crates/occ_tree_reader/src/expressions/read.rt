//! Reading an expression from the front of the words of a line.

ghost use Rattle.std.specs.Prelude.{length};
ghost use Rattle.occ_tree_grammar.specs.Fronts.{each_as, ReadsWords};
ghost use Rattle.occ_tree_grammar.specs.Expressions.Trees.{expression_of, operand_of};
ghost use Rattle.occ_tree_grammar.specs.Expressions.Chains.{operands_behind};
ghost use Rattle.occ_tree_grammar.specs.Expressions.Reading.{type_mark_at, index_with, indices_with, operand_with, after_operand, expression_with, expression_at};

use crate::expressions::symbol::{close, close_bracket, int, joined, open_bracket, prim};
use occ_text::{Key, Sym, Token};
use occ_tree_grammar::expressions::start::{Link, Start, link_to, start_with};
use occ_tree_grammar::tree::expr::{Expr, Literal, Logic, Operand, Prim};
use occ_tree_grammar::{ParseFault, Stop, Wanted};
use std::alloc::Global;

/// How many subscripts a name may have, and how many sizes a type.
pub const DIMENSIONS: usize = 4;

/// The type of a literal, where it is given.
fn type_mark(line: u32, tokens: &[Token]) -> Result<(Option<Prim>, &[Token]), ParseFault>
    ensures { ReadsWords (λ p. p) result type_mark_at tokens.now }
{
    match tokens {
        [Token::Sym(Sym::OpenParen), rest @ ..] => {
            let (prim, rest) = prim(line, Wanted::Primitive, rest)?;
            let rest = close(line, Wanted::CloseParen, rest)?;
            Ok((Some(prim), rest))
        }
        rest => Ok((None, rest)),
    }
}

/// What stands in a bracket that was opened, and the bracket that closes.
#[cycle(reading)]
pub fn index(
    alloc: Global,
    left: u32,
    line: u32,
    tokens: &[Token],
) -> Result<(Expr, &[Token]), ParseFault>
    ensures { ReadsWords expression_of result (index_with (expression_at left)) tokens.now }
{
    let (index, rest) = expr(alloc, left, line, tokens)?;
    let rest = close_bracket(line, rest)?;
    Ok((index, rest))
}

/// Expressions, each in brackets of its own. At most `left` brackets more may stand open.
#[cycle(reading)]
pub fn indices(
    alloc: Global,
    left: u32,
    line: u32,
    tokens: &[Token],
) -> Result<(Vec<Expr>, &[Token]), ParseFault>
    ensures { ReadsWords
        (each_as expression_of) result (indices_with (expression_at left)) tokens.now }
{
    let mut all = Vec::new(alloc);
    let mut rest = tokens;
    for _ in 0..DIMENSIONS {
        let Some(after) = open_bracket(rest) else {
            break;
        };
        let (next, after) = index(alloc, left, line, after)?;
        all.push(next)?;
        rest = after;
    }
    Ok((all, rest))
}

#[cycle(reading)]
#[tactic(auto, unfolding(occ_tree_grammar::specs::Expressions::Reading::operand_with))]
fn operand(
    alloc: Global,
    left: u32,
    line: u32,
    tokens: &[Token],
) -> Result<(Operand, &[Token]), ParseFault>
    ensures { ReadsWords operand_of result (operand_with (expression_at left)) tokens.now }
{
    match tokens {
        [Token::Name(name), rest @ ..] => {
            let (subscripts, rest) = indices(alloc, left, line, rest)?;
            let name = name.copy()?;
            Ok((Operand::Variable(name, subscripts), rest))
        }
        [Token::Number(n), rest @ ..] => {
            let (of, rest) = type_mark(line, rest)?;
            Ok((Operand::Literal(Literal::Number(*n), of), rest))
        }
        [Token::Byte(b), rest @ ..] => {
            let (of, rest) = type_mark(line, rest)?;
            Ok((Operand::Literal(Literal::Byte(*b), of), rest))
        }
        [Token::Str(text), rest @ ..] => {
            let (of, rest) = type_mark(line, rest)?;
            let text = text.copy()?;
            Ok((Operand::Literal(Literal::Text(text), of), rest))
        }
        [Token::Key(Key::True), rest @ ..] => Ok((Operand::Truth(true), rest)),
        [Token::Key(Key::False), rest @ ..] => Ok((Operand::Truth(false), rest)),
        [Token::Sym(Sym::OpenParen), rest @ ..] => {
            let (inside, rest) = expr(alloc, left, line, rest)?;
            let rest = close(line, Wanted::CloseParen, rest)?;
            let inside = Box::new(alloc, inside)?;
            Ok((Operand::Parens(inside), rest))
        }
        _ => Err(ParseFault::Unexpected(line, Stop::before(tokens, Wanted::Operand))),
    }
}

/// The operands that the operator joins to those before.
#[cycle(reading)]
fn operands(
    alloc: Global,
    left: u32,
    line: u32,
    logic: Logic,
    tokens: &[Token],
) -> Result<(Vec<Operand>, &[Token]), ParseFault>
    ensures { ReadsWords (each_as operand_of) result
        (operands_behind logic left (length tokens.now)) tokens.now }
{
    let mut all = Vec::new(alloc);
    let mut rest = tokens;
    for _ in 0..tokens.len() {
        let Some(after) = joined(logic, rest) else {
            break;
        };
        let (next, after) = operand(alloc, left, line, after)?;
        all.push(next)?;
        rest = after;
    }
    Ok((all, rest))
}

/// An expression. With the brackets that it stands in, fewer than `left` stand open at one place.
#[cycle(reading)]
pub fn expr(
    alloc: Global,
    left: u32,
    line: u32,
    tokens: &[Token],
) -> Result<(Expr, &[Token]), ParseFault>
    ensures { ReadsWords expression_of result (expression_at left) tokens.now }
{
    if left == 0 {
        return Err(ParseFault::TooDeep(line, Stop::before(tokens, Wanted::Operand)));
    }
    inside(alloc, left - 1, line, tokens)
}

#[cycle(reading)]
#[tactic(auto, unfolding(occ_tree_grammar::specs::Expressions::Reading::expression_with))]
fn inside(
    alloc: Global,
    left: u32,
    line: u32,
    tokens: &[Token],
) -> Result<(Expr, &[Token]), ParseFault>
    ensures { ReadsWords expression_of result (expression_with (expression_at left)) tokens.now }
{
    let [first, after @ ..] = tokens else {
        return Err(ParseFault::Unexpected(line, Stop::before(tokens, Wanted::Operand)));
    };
    match start_with(first) {
        Start::Monadic(sign) => {
            let (of, rest) = operand(alloc, left, line, after)?;
            Ok((Expr::One(sign, of), rest))
        }
        Start::Convert(to) => {
            let (of, rest) = operand(alloc, left, line, after)?;
            Ok((Expr::Convert(to, of), rest))
        }
        Start::MostPos => {
            let rest = int(line, after)?;
            Ok((Expr::MostPos, rest))
        }
        Start::MostNeg => {
            let rest = int(line, after)?;
            Ok((Expr::MostNeg, rest))
        }
        Start::Operand => {
            let (first, rest) = operand(alloc, left, line, tokens)?;
            linked(alloc, left, line, first, rest)
        }
    }
}

/// What follows the first operand.
#[cycle(reading)]
fn linked(
    alloc: Global,
    left: u32,
    line: u32,
    first: Operand,
    tokens: &[Token],
) -> Result<(Expr, &[Token]), ParseFault>
    ensures { ReadsWords
        expression_of result (after_operand (expression_at left) (operand_of first)) tokens.now }
{
    let [word, after @ ..] = tokens else {
        return Ok((Expr::Operand(first), tokens));
    };
    match link_to(word) {
        Link::Dyadic(sign) => {
            let (second, rest) = operand(alloc, left, line, after)?;
            Ok((Expr::Two(first, sign, second), rest))
        }
        Link::Logic(logic) => {
            let (second, rest) = operand(alloc, left, line, after)?;
            let (others, rest) = operands(alloc, left, line, logic, rest)?;
            Ok((Expr::Chain(logic, first, second, others), rest))
        }
        Link::End => Ok((Expr::Operand(first), tokens)),
    }
}
