//! Reading the lines at the head of processes and of their parts.

ghost use Rattle.std.specs.Prelude.{◌≡◌, ◌∷◌, Some, option_map};
ghost use Rattle.occ_text.specs.Words.{key, words};
ghost use Rattle.occ_tree_grammar.specs.Many.{ended};
ghost use Rattle.occ_tree_grammar.specs.Fronts.{words_found};
ghost use Rattle.occ_tree_grammar.specs.Expressions.Trees.{expression_of};
ghost use Rattle.occ_tree_grammar.specs.Expressions.Reading.{Gives};
ghost use Rattle.occ_tree_grammar.specs.Lines.Views.{var_of, received_of};
ghost use Rattle.occ_tree_grammar.specs.Lines.Heads.{act, chosen, guarded, on_skip};
ghost use Rattle.occ_tree_grammar.specs.Lines.HeadViews.{action_of, process_head_of, arm_head_of, variant_head_of, values_head};
ghost use Rattle.occ_tree_grammar.specs.Lines.HeadReading.{received_head as head_received, assignment_at, after_var, var_first, after_open, name_first, process_head_at, choice_head_at, option_head_at, reception_at, boolean_at, after_and, channel_first, after_condition, by_priority, guard_at, arm_head_at, variant_head_at};
ghost use Rattle.occ_tree_grammar.specs.Limits.{brackets};
ghost use Rattle.occ_tree_reader.specs.Reads.{ReadsProcessHead, ReadsChoiceHead, ReadsOptionHead, ReadsArmHead, arm_behind};

use crate::item::{actuals, behind_question, expression, out, replicator, var, var_behind};
use crate::list::further;
use crate::read_decl::stop_of_line;
use crate::word::{assign, question};
use occ_held::letters::Letters;
use occ_text::{Key, Sym, Token};
use occ_tree_grammar::lines::head::{
    ArmHead, ChoiceHead, OptionHead, ProcessHead, Received, VariantHead,
};
use occ_tree_grammar::lines::separator::Separator;
use occ_tree_grammar::tree::expr::Expr;
use occ_tree_grammar::tree::line::{Action, Guard, OneOrMore, Out, Target, Var, VariantGuard};
use occ_tree_grammar::{ParseFault, Stop, Wanted};
use std::alloc::Global;

/// Where a line that goes on behind this action leaves the grammar.
fn stop_behind_action(action: &Action, rest: &[Token]) -> Stop {
    match action {
        Action::Assign(_, _) | Action::Output(_, _) => Stop::before(rest, Wanted::ExpressionEnd),
        _ => Stop::before(rest, Wanted::End),
    }
}

/// The action, where nothing follows it.
fn only_action(
    alloc: Global,
    line: u32,
    action: Action,
    rest: &[Token],
) -> Result<ProcessHead, ParseFault>
    ensures { ReadsProcessHead result (ended (act (action_of action))) rest.now }
{
    match rest {
        [] => Ok(ProcessHead::Action(Box::new(alloc, action)?)),
        _ => Err(ParseFault::Unexpected(line, stop_behind_action(&action, rest))),
    }
}

fn assignment(
    alloc: Global,
    line: u32,
    first: Var,
    tokens: &[Token],
) -> Result<ProcessHead, ParseFault>
    ensures { ReadsProcessHead result (assignment_at brackets (var_of first)) tokens.now }
{
    let (others, rest) = further::<Var>(alloc, Separator::Comma, line, tokens)?;
    let targets = OneOrMore { first, others };
    let rest = assign(line, rest)?;
    let (first, rest) = expression(alloc, line, rest)?;
    let (others, rest) = further::<Expr>(alloc, Separator::Comma, line, rest)?;
    only_action(
        alloc,
        line,
        Action::Assign(targets, OneOrMore { first, others }),
        rest,
    )
}

/// What was received, as the line of a process.
fn received_head(alloc: Global, received: Received) -> Result<ProcessHead, ParseFault>
    ensures { Gives process_head_of result (Some (head_received (received_of received))) }
{
    match received {
        Received::Input(input) => {
            let action = Box::new(alloc, Action::Input(input))?;
            Ok(ProcessHead::Action(action))
        }
        Received::Variants(channel) => Ok(ProcessHead::Variants(channel)),
    }
}

/// What follows the variable or the channel at the front.
fn behind_var(
    alloc: Global,
    line: u32,
    first: Var,
    tokens: &[Token],
) -> Result<ProcessHead, ParseFault>
    ensures { ReadsProcessHead result (after_var brackets (var_of first)) tokens.now }
{
    match tokens {
        [Token::Sym(Sym::Question), rest @ ..] => {
            let received = behind_question(alloc, line, first, rest)?;
            received_head(alloc, received)
        }
        [Token::Sym(Sym::Exclamation), rest @ ..] => {
            let channel = first;
            let (first, rest) = out(alloc, line, rest)?;
            let (others, rest) = further::<Out>(alloc, Separator::Semicolon, line, rest)?;
            only_action(
                alloc,
                line,
                Action::Output(channel, OneOrMore { first, others }),
                rest,
            )
        }
        _ => assignment(alloc, line, first, tokens),
    }
}

fn var_in_front(
    alloc: Global,
    line: u32,
    name: &Letters,
    tokens: &[Token],
) -> Result<ProcessHead, ParseFault>
    ensures { ReadsProcessHead result (var_first brackets name.now) tokens.now }
{
    let (first, rest) = var_behind(alloc, line, name, tokens)?;
    behind_var(alloc, line, first, rest)
}

fn open(tokens: &[Token]) -> Option<&[Token]>
    ensures { words_found result ≡ after_open (words tokens.now) }
{
    match tokens {
        [Token::Sym(Sym::OpenParen), rest @ ..] => Some(rest),
        _ => None,
    }
}

/// What follows the name at the front: a call, or the rest of a variable or a channel.
fn behind_name(
    alloc: Global,
    line: u32,
    name: &Letters,
    tokens: &[Token],
) -> Result<ProcessHead, ParseFault>
    ensures { ReadsProcessHead result (name_first brackets name.now) tokens.now }
{
    let Some(rest) = open(tokens) else {
        return var_in_front(alloc, line, name, tokens);
    };
    let (actuals, rest) = actuals(alloc, line, rest)?;
    let name = name.copy()?;
    only_action(alloc, line, Action::Call(name, actuals), rest)
}

/// The value behind `CASE`.
#[tactic(auto, unfolding(occ_tree_grammar::specs::Lines::HeadReading::process_head_at))]
fn behind_case(alloc: Global, line: u32, tokens: &[Token]) -> Result<ProcessHead, ParseFault>
    ensures { Gives process_head_of result
        (process_head_at brackets (key Key.Case ∷ words tokens.now)) }
{
    let (value, rest) = expression(alloc, line, tokens)?;
    match rest {
        [] => Ok(ProcessHead::Case(Box::new(alloc, value)?)),
        _ => Err(ParseFault::Unexpected(line, Stop::before(rest, Wanted::ExpressionEnd))),
    }
}

/// The condition behind `WHILE`.
#[tactic(auto, unfolding(occ_tree_grammar::specs::Lines::HeadReading::process_head_at))]
fn behind_while(alloc: Global, line: u32, tokens: &[Token]) -> Result<ProcessHead, ParseFault>
    ensures { Gives process_head_of result
        (process_head_at brackets (key Key.While ∷ words tokens.now)) }
{
    let (condition, rest) = expression(alloc, line, tokens)?;
    match rest {
        [] => Ok(ProcessHead::While(Box::new(alloc, condition)?)),
        _ => Err(ParseFault::Unexpected(line, Stop::before(rest, Wanted::ExpressionEnd))),
    }
}

/// Where a line that begins no process leaves the grammar.
fn stop_of_process(alloc: Global, line: u32, tokens: &[Token]) -> Stop {
    match tokens {
        [Token::Key(Key::Pri), rest @ ..] => Stop::before(rest, Wanted::Alt),
        _ => stop_of_line(alloc, line, tokens),
    }
}

/// The line of a process. At most 64 brackets stand open at one place.
#[tactic(auto, unfolding(occ_tree_grammar::specs::Lines::HeadReading::process_head_at))]
pub fn process_head(alloc: Global, line: u32, tokens: &[Token]) -> Result<ProcessHead, ParseFault>
    ensures { ReadsProcessHead result (process_head_at brackets) tokens.now }
{
    match tokens {
        [Token::Key(Key::Skip), rest @ ..] => only_action(alloc, line, Action::Skip, rest),
        [Token::Key(Key::Stop), rest @ ..] => only_action(alloc, line, Action::Stop, rest),
        [Token::Key(Key::Seq), rest @ ..] => {
            Ok(ProcessHead::Seq(replicator(alloc, line, rest)?))
        }
        [Token::Key(Key::Par), rest @ ..] => {
            Ok(ProcessHead::Par(replicator(alloc, line, rest)?))
        }
        [Token::Key(Key::Alt), rest @ ..] => {
            Ok(ProcessHead::Alt(false, replicator(alloc, line, rest)?))
        }
        [Token::Key(Key::Pri), Token::Key(Key::Alt), rest @ ..] => {
            Ok(ProcessHead::Alt(true, replicator(alloc, line, rest)?))
        }
        [Token::Key(Key::If), rest @ ..] => Ok(ProcessHead::If(replicator(alloc, line, rest)?)),
        [Token::Key(Key::Case), rest @ ..] => behind_case(alloc, line, rest),
        [Token::Key(Key::While), rest @ ..] => behind_while(alloc, line, rest),
        [Token::Name(name), rest @ ..] => behind_name(alloc, line, name, rest),
        _ => Err(ParseFault::Unexpected(line, stop_of_process(alloc, line, tokens))),
    }
}

/// The condition, where nothing follows it.
fn only_condition(
    alloc: Global,
    line: u32,
    condition: Expr,
    rest: &[Token],
) -> Result<ChoiceHead, ParseFault>
    ensures { ReadsChoiceHead result (ended (chosen (expression_of condition))) rest.now }
{
    match rest {
        [] => Ok(ChoiceHead::When(Box::new(alloc, condition)?)),
        _ => Err(ParseFault::Unexpected(line, Stop::before(rest, Wanted::ExpressionEnd))),
    }
}

/// The line of a choice.
#[tactic(auto, unfolding(occ_tree_grammar::specs::Lines::HeadReading::choice_head_at))]
pub fn choice_head(alloc: Global, line: u32, tokens: &[Token]) -> Result<ChoiceHead, ParseFault>
    ensures { ReadsChoiceHead result (choice_head_at brackets) tokens.now }
{
    match tokens {
        [Token::Key(Key::If), rest @ ..] => Ok(ChoiceHead::If(replicator(alloc, line, rest)?)),
        _ => {
            let (condition, rest) = expression(alloc, line, tokens)?;
            only_condition(alloc, line, condition, rest)
        }
    }
}

/// The values, where nothing follows them.
fn only_values(
    alloc: Global,
    line: u32,
    values: OneOrMore<Expr>,
    rest: &[Token],
) -> Result<OptionHead, ParseFault>
    ensures { ReadsOptionHead result (ended (values_head values)) rest.now }
{
    match rest {
        [] => Ok(OptionHead::Values(Box::new(alloc, values)?)),
        _ => Err(ParseFault::Unexpected(line, Stop::before(rest, Wanted::ExpressionEnd))),
    }
}

/// The line of an option.
#[tactic(auto, unfolding(occ_tree_grammar::specs::Lines::HeadReading::option_head_at))]
pub fn option_head(alloc: Global, line: u32, tokens: &[Token]) -> Result<OptionHead, ParseFault>
    ensures { ReadsOptionHead result (option_head_at brackets) tokens.now }
{
    match tokens {
        [Token::Key(Key::Else)] => Ok(OptionHead::Else),
        [Token::Key(Key::Else), rest @ ..] => {
            Err(ParseFault::Unexpected(line, Stop::before(rest, Wanted::End)))
        }
        _ => {
            let (first, rest) = expression(alloc, line, tokens)?;
            let (others, rest) = further::<Expr>(alloc, Separator::Comma, line, rest)?;
            only_values(alloc, line, OneOrMore { first, others }, rest)
        }
    }
}

/// What was received behind the Boolean, as the line of an arm.
fn received_arm(
    alloc: Global,
    condition: Option<Expr>,
    received: Received,
) -> Result<ArmHead, ParseFault>
    ensures { Gives arm_head_of result (arm_behind condition received) }
{
    match received {
        Received::Input(input) => {
            let guard = Box::new(alloc, Guard::Input(condition, input))?;
            Ok(ArmHead::Guarded(guard))
        }
        Received::Variants(channel) => {
            let guard = Box::new(alloc, VariantGuard { condition, channel })?;
            Ok(ArmHead::Variants(guard))
        }
    }
}

/// A channel and what is received from it.
fn reception(alloc: Global, line: u32, tokens: &[Token]) -> Result<Received, ParseFault>
    ensures { Gives received_of result (reception_at brackets (words tokens.now)) }
{
    let (channel, rest) = var(alloc, line, tokens)?;
    let rest = question(line, rest)?;
    behind_question(alloc, line, channel, rest)
}

/// The guard of `SKIP`, where nothing follows it.
fn only_skip(
    alloc: Global,
    line: u32,
    condition: Expr,
    rest: &[Token],
) -> Result<ArmHead, ParseFault>
    ensures { ReadsArmHead result (ended (guarded (on_skip (expression_of condition)))) rest.now }
{
    match rest {
        [] => Ok(ArmHead::Guarded(Box::new(alloc, Guard::Skip(condition))?)),
        _ => Err(ParseFault::Unexpected(line, Stop::before(rest, Wanted::End))),
    }
}

fn boolean(
    alloc: Global,
    line: u32,
    condition: Expr,
    tokens: &[Token],
) -> Result<ArmHead, ParseFault>
    ensures { ReadsArmHead result (boolean_at brackets (expression_of condition)) tokens.now }
{
    let received = reception(alloc, line, tokens)?;
    received_arm(alloc, Some(condition), received)
}

/// What follows the Boolean of a guard and its ampersand.
fn behind_and(
    alloc: Global,
    line: u32,
    condition: Expr,
    tokens: &[Token],
) -> Result<ArmHead, ParseFault>
    ensures { ReadsArmHead result (after_and brackets (expression_of condition)) tokens.now }
{
    match tokens {
        [Token::Key(Key::Skip), rest @ ..] => only_skip(alloc, line, condition, rest),
        _ => boolean(alloc, line, condition, tokens),
    }
}

/// What follows the channel of a guard that has no Boolean, behind the question mark.
fn behind_channel(
    alloc: Global,
    line: u32,
    channel: Option<Var>,
    tokens: &[Token],
) -> Result<ArmHead, ParseFault>
    ensures { ReadsArmHead result (channel_first brackets (option_map var_of channel)) tokens.now }
{
    let Some(channel) = channel else {
        let stop = Stop {
            left: tokens.len().saturating_add(1),
            wanted: Wanted::Ampersand,
        };
        return Err(ParseFault::Unexpected(line, stop));
    };
    let received = behind_question(alloc, line, channel, tokens)?;
    received_arm(alloc, None, received)
}

/// What follows the expression at the front of a guard: the channel that is input from, or the
/// Boolean.
fn behind_condition(
    alloc: Global,
    line: u32,
    condition: Expr,
    tokens: &[Token],
) -> Result<ArmHead, ParseFault>
    ensures { ReadsArmHead result (after_condition brackets (expression_of condition)) tokens.now }
{
    match tokens {
        [Token::Sym(Sym::Question), rest @ ..] => {
            let channel = condition.into_var();
            behind_channel(alloc, line, channel, rest)
        }
        [Token::Sym(Sym::Ampersand), rest @ ..] => { behind_and(alloc, line, condition, rest) }
        _ => Err(ParseFault::Unexpected(line, Stop::before(tokens, Wanted::Guard))),
    }
}

/// What follows `PRI` at the front of an arm.
fn behind_pri(alloc: Global, line: u32, tokens: &[Token]) -> Result<ArmHead, ParseFault>
    ensures { ReadsArmHead result (by_priority brackets) tokens.now }
{
    match tokens {
        [Token::Key(Key::Alt), rest @ ..] => Ok(ArmHead::Alt(true, replicator(alloc, line, rest)?)),
        _ => Err(ParseFault::Unexpected(line, Stop::before(tokens, Wanted::Alt))),
    }
}

/// The guard of an arm.
fn guard(alloc: Global, line: u32, tokens: &[Token]) -> Result<ArmHead, ParseFault>
    ensures { ReadsArmHead result (guard_at brackets) tokens.now }
{
    let (condition, rest) = expression(alloc, line, tokens)?;
    behind_condition(alloc, line, condition, rest)
}

/// The line of an arm.
#[tactic(auto, unfolding(occ_tree_grammar::specs::Lines::HeadReading::arm_head_at))]
pub fn arm_head(alloc: Global, line: u32, tokens: &[Token]) -> Result<ArmHead, ParseFault>
    ensures { ReadsArmHead result (arm_head_at brackets) tokens.now }
{
    match tokens {
        [Token::Key(Key::Alt), rest @ ..] => {
            Ok(ArmHead::Alt(false, replicator(alloc, line, rest)?))
        }
        [Token::Key(Key::Pri), rest @ ..] => behind_pri(alloc, line, rest),
        _ => guard(alloc, line, tokens),
    }
}

/// The line of a variant.
#[tactic(auto, unfolding(occ_tree_grammar::specs::Lines::HeadReading::variant_head_at))]
pub fn variant_head(alloc: Global, line: u32, tokens: &[Token]) -> Result<VariantHead, ParseFault>
    ensures { Gives variant_head_of result (variant_head_at brackets (words tokens.now)) }
{
    match tokens {
        [Token::Name(tag), rest @ ..] => {
            let (targets, rest) = further::<Target>(alloc, Separator::Semicolon, line, rest)?;
            let tag = tag.copy()?;
            match rest {
                [] => Ok(VariantHead { tag, targets }),
                _ => Err(ParseFault::Unexpected(line, Stop::before(rest, Wanted::End))),
            }
        }
        _ => Err(ParseFault::Unexpected(line, stop_of_line(alloc, line, tokens))),
    }
}
