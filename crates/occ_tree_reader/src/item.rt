//! Variables, targets and items of a line.

ghost use Rattle.occ_text.specs.Words.{words};
ghost use Rattle.occ_tree_grammar.specs.Many.{ended};
ghost use Rattle.occ_tree_grammar.specs.Fronts.{ReadsWords};
ghost use Rattle.occ_tree_grammar.specs.Expressions.Trees.{expression_of};
ghost use Rattle.occ_tree_grammar.specs.Expressions.Reading.{Gives, expression_at};
ghost use Rattle.occ_tree_grammar.specs.Lines.Views.{var_of, target_of, out_of, received_of, replicator_of, optional_replicator_of, actuals_of};
ghost use Rattle.occ_tree_grammar.specs.Lines.Reading.{var_named, var_at, target_at, out_at, received_at, targets_whole, replicator_at, actuals_at};
ghost use Rattle.occ_tree_grammar.specs.Limits.{brackets};

use crate::expressions::read::{expr, indices};
use crate::expressions::symbol::close;
use crate::list::further;
use crate::word::{for_count, stop_behind};
use occ_held::letters::Letters;
use occ_text::{Key, Sym, Token};
use occ_tree_grammar::limits::MOST_LEVELS;
use occ_tree_grammar::lines::head::Received;
use occ_tree_grammar::lines::separator::Separator;
use occ_tree_grammar::tree::expr::Expr;
use occ_tree_grammar::tree::line::{Input, OneOrMore, Out, Replicator, Target, Var};
use occ_tree_grammar::{ParseFault, Stop, Wanted};
use std::alloc::Global;

/// An expression that stands in no bracket.
pub fn expression(
    alloc: Global,
    line: u32,
    tokens: &[Token],
) -> Result<(Expr, &[Token]), ParseFault>
    ensures { ReadsWords expression_of result (expression_at brackets) tokens.now }
{
    expr(alloc, MOST_LEVELS + 1, line, tokens)
}

/// The rest of a variable or a channel, behind its name.
pub fn var_behind<'a>(
    alloc: Global,
    line: u32,
    name: &Letters,
    tokens: &'a [Token],
) -> Result<(Var, &'a [Token]), ParseFault>
    ensures { ReadsWords var_of result (var_named brackets name.now) tokens.now }
{
    let (subscripts, rest) = indices(alloc, MOST_LEVELS, line, tokens)?;
    let name = name.copy()?;
    Ok((Var { name, subscripts }, rest))
}

/// A name with its subscripts.
#[tactic(auto, unfolding(occ_tree_grammar::specs::Lines::Reading::var_at))]
pub fn var(alloc: Global, line: u32, tokens: &[Token]) -> Result<(Var, &[Token]), ParseFault>
    ensures { ReadsWords var_of result (var_at brackets) tokens.now }
{
    match tokens {
        [Token::Name(name), rest @ ..] => var_behind(alloc, line, name, rest),
        _ => Err(ParseFault::Unexpected(line, Stop::before(tokens, Wanted::Variable))),
    }
}

/// What an input puts an item into.
#[tactic(auto, unfolding(occ_tree_grammar::specs::Lines::Reading::target_at))]
pub fn target(alloc: Global, line: u32, tokens: &[Token]) -> Result<(Target, &[Token]), ParseFault>
    ensures { ReadsWords target_of result (target_at brackets) tokens.now }
{
    let (first, rest) = var(alloc, line, tokens)?;
    match rest {
        [Token::Sym(Sym::DoubleColon), rest @ ..] => {
            let (array, rest) = var(alloc, line, rest)?;
            Ok((Target::Counted(first, array), rest))
        }
        _ => Ok((Target::Whole(first), rest)),
    }
}

/// An item of an output.
#[tactic(auto, unfolding(occ_tree_grammar::specs::Lines::Reading::out_at))]
pub fn out(alloc: Global, line: u32, tokens: &[Token]) -> Result<(Out, &[Token]), ParseFault>
    ensures { ReadsWords out_of result (out_at brackets) tokens.now }
{
    let (first, rest) = expression(alloc, line, tokens)?;
    match rest {
        [Token::Sym(Sym::DoubleColon), rest @ ..] => {
            let (array, rest) = expression(alloc, line, rest)?;
            Ok((Out::Counted(first, array), rest))
        }
        _ => Ok((Out::Whole(first), rest)),
    }
}

fn items(alloc: Global, line: u32, channel: Var, tokens: &[Token]) -> Result<Received, ParseFault>
    ensures { Gives received_of result
        (targets_whole brackets (var_of channel) (words tokens.now)) }
{
    if let [Token::Key(Key::Case), rest @ ..] = tokens {
        return Err(ParseFault::Unexpected(line, Stop::before(rest, Wanted::End)));
    }
    let (first, rest) = target(alloc, line, tokens)?;
    let (others, rest) = further::<Target>(alloc, Separator::Semicolon, line, rest)?;
    match rest {
        [] => { Ok(Received::Input(Input::Items(channel, OneOrMore { first, others }))) }
        _ => Err(ParseFault::Unexpected(line, Stop::before(rest, Wanted::End))),
    }
}

/// The rest of the line behind the question mark of an input.
#[tactic(auto, unfolding(occ_tree_grammar::specs::Lines::Reading::received_at))]
pub fn behind_question(
    alloc: Global,
    line: u32,
    channel: Var,
    tokens: &[Token],
) -> Result<Received, ParseFault>
    ensures { Gives received_of result (received_at brackets (var_of channel) (words tokens.now)) }
{
    match tokens {
        [Token::Key(Key::Case)] => Ok(Received::Variants(channel)),
        [Token::Key(Key::Case), Token::Name(tag), rest @ ..] => {
            let (into, rest) = further::<Target>(alloc, Separator::Semicolon, line, rest)?;
            let tag = tag.copy()?;
            match rest {
                [] => Ok(Received::Input(Input::Tagged(channel, tag, into))),
                _ => Err(ParseFault::Unexpected(line, Stop::before(rest, Wanted::End))),
            }
        }
        _ => items(alloc, line, channel, tokens),
    }
}

/// The replicator, where nothing follows it.
fn only_replicator(
    alloc: Global,
    line: u32,
    replicator: Replicator,
    rest: &[Token],
) -> Result<Option<Box<Replicator>>, ParseFault>
    ensures { Gives optional_replicator_of result
        (ended (Some (replicator_of replicator)) (words rest.now)) }
{
    match rest {
        [] => Ok(Some(Box::new(alloc, replicator)?)),
        _ => Err(ParseFault::Unexpected(line, Stop::before(rest, Wanted::ExpressionEnd))),
    }
}

/// The rest of a line in which a replicator may stand.
#[tactic(auto, unfolding(occ_tree_grammar::specs::Lines::Reading::replicator_at))]
pub fn replicator(
    alloc: Global,
    line: u32,
    tokens: &[Token],
) -> Result<Option<Box<Replicator>>, ParseFault>
    ensures { Gives optional_replicator_of result (replicator_at brackets (words tokens.now)) }
{
    match tokens {
        [] => Ok(None),
        [Token::Name(name), Token::Sym(Sym::Equal), rest @ ..] => {
            let (base, rest) = expression(alloc, line, rest)?;
            let rest = for_count(line, rest)?;
            let (count, rest) = expression(alloc, line, rest)?;
            let name = name.copy()?;
            only_replicator(alloc, line, Replicator { name, base, count }, rest)
        }
        _ => Err(ParseFault::Unexpected(line, stop_behind(Wanted::Equal, Wanted::End, tokens))),
    }
}

/// The actuals of a call, behind the bracket that opens, and the bracket that closes.
#[tactic(auto, unfolding(occ_tree_grammar::specs::Lines::Reading::actuals_at))]
pub fn actuals(
    alloc: Global,
    line: u32,
    tokens: &[Token],
) -> Result<(Option<OneOrMore<Expr>>, &[Token]), ParseFault>
    ensures { ReadsWords actuals_of result (actuals_at brackets) tokens.now }
{
    match tokens {
        [Token::Sym(Sym::CloseParen), rest @ ..] => Ok((None, rest)),
        _ => {
            let (first, rest) = expression(alloc, line, tokens)?;
            let (others, rest) = further::<Expr>(alloc, Separator::Comma, line, rest)?;
            let rest = close(line, Wanted::Actuals, rest)?;
            Ok((Some(OneOrMore { first, others }), rest))
        }
    }
}
