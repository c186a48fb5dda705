//! Types, parts of messages and formals.

ghost use Rattle.occ_tree_grammar.specs.Fronts.{each_as, ReadsWords};
ghost use Rattle.occ_tree_grammar.specs.Expressions.Trees.{expression_of};
ghost use Rattle.occ_tree_grammar.specs.Expressions.Reading.{indices_with, expression_at};
ghost use Rattle.occ_tree_grammar.specs.Lines.Views.{part_of, carried_of, size_of, value_type_of, spec_of, formal_of, formals_of};
ghost use Rattle.occ_tree_grammar.specs.Lines.Reading.{part_after, part_at, carried_at, size_with, sizes_at, value_type_at, spec_after, spec_at, formal_at, formals_at};
ghost use Rattle.occ_tree_grammar.specs.Limits.{brackets};

use crate::expressions::read::{DIMENSIONS, index, indices};
use crate::expressions::symbol::{close, open_bracket, prim};
use crate::list::further;
use crate::word::name;
use occ_text::{Key, Sym, Token};
use occ_tree_grammar::limits::MOST_LEVELS;
use occ_tree_grammar::lines::separator::Separator;
use occ_tree_grammar::tree::expr::{Expr, Prim};
use occ_tree_grammar::tree::line::{Carried, Formal, Formals, Part, Size, Spec, ValueType};
use occ_tree_grammar::{ParseFault, Wanted};
use std::alloc::Global;

/// The sizes of a declared type.
pub fn declared_sizes(
    alloc: Global,
    line: u32,
    tokens: &[Token],
) -> Result<(Vec<Expr>, &[Token]), ParseFault>
    ensures { ReadsWords
        (each_as expression_of) result (indices_with (expression_at brackets)) tokens.now }
{
    indices(alloc, MOST_LEVELS + 1, line, tokens)
}

fn part_behind(
    line: u32,
    sizes: Vec<Expr>,
    of: Prim,
    tokens: &[Token],
) -> Result<(Part, &[Token]), ParseFault>
    ensures { ReadsWords part_of result (part_after (each_as expression_of sizes) of) tokens.now }
{
    match tokens {
        [
            Token::Sym(Sym::DoubleColon),
            Token::Sym(Sym::OpenBracket),
            Token::Sym(Sym::CloseBracket),
            rest @ ..,
        ] if sizes.is_empty() => {
            let (components, rest) = prim(line, Wanted::Primitive, rest)?;
            Ok((Part::Counted(of, components), rest))
        }
        _ => Ok((Part::Single(sizes, of), tokens)),
    }
}

/// A part of a message.
#[tactic(auto, unfolding(occ_tree_grammar::specs::Lines::Reading::part_at))]
pub fn part(alloc: Global, line: u32, tokens: &[Token]) -> Result<(Part, &[Token]), ParseFault>
    ensures { ReadsWords part_of result (part_at brackets) tokens.now }
{
    let (sizes, rest) = declared_sizes(alloc, line, tokens)?;
    let (of, rest) = prim(line, Wanted::Part, rest)?;
    part_behind(line, sizes, of, rest)
}

/// What a channel carries.
#[tactic(auto, unfolding(occ_tree_grammar::specs::Lines::Reading::carried_at))]
pub fn carried(
    alloc: Global,
    line: u32,
    tokens: &[Token],
) -> Result<(Carried, &[Token]), ParseFault>
    ensures { ReadsWords carried_of result (carried_at brackets) tokens.now }
{
    match tokens {
        [Token::Name(name), rest @ ..] => Ok((Carried::Named(name.copy()?), rest)),
        _ => {
            let (part, rest) = part(alloc, line, tokens)?;
            Ok((Carried::Part(part), rest))
        }
    }
}

fn size(alloc: Global, line: u32, tokens: &[Token]) -> Result<(Size, &[Token]), ParseFault>
    ensures { ReadsWords size_of result (size_with brackets) tokens.now }
{
    match tokens {
        [Token::Sym(Sym::CloseBracket), rest @ ..] => Ok((Size::Open, rest)),
        _ => {
            let (size, rest) = index(alloc, MOST_LEVELS + 1, line, tokens)?;
            Ok((Size::Given(size), rest))
        }
    }
}

/// Sizes that may be left open.
fn sizes(alloc: Global, line: u32, tokens: &[Token]) -> Result<(Vec<Size>, &[Token]), ParseFault>
    ensures { ReadsWords (each_as size_of) result (sizes_at brackets) tokens.now }
{
    let mut all = Vec::new(alloc);
    let mut rest = tokens;
    for _ in 0..DIMENSIONS {
        let Some(after) = open_bracket(rest) else {
            break;
        };
        let (next, after) = size(alloc, line, after)?;
        all.push(next)?;
        rest = after;
    }
    Ok((all, rest))
}

/// The type of a named value or of a formal.
#[tactic(auto, unfolding(occ_tree_grammar::specs::Lines::Reading::value_type_at))]
pub fn value_type(
    alloc: Global,
    line: u32,
    tokens: &[Token],
) -> Result<(ValueType, &[Token]), ParseFault>
    ensures { ReadsWords value_type_of result (value_type_at brackets) tokens.now }
{
    let (sizes, rest) = sizes(alloc, line, tokens)?;
    let (of, rest) = prim(line, Wanted::ValueType, rest)?;
    Ok((ValueType { sizes, of }, rest))
}

fn spec_behind(
    alloc: Global,
    line: u32,
    sizes: Vec<Size>,
    tokens: &[Token],
) -> Result<(Spec, &[Token]), ParseFault>
    ensures { ReadsWords spec_of result (spec_after brackets (each_as size_of sizes)) tokens.now }
{
    match tokens {
        [Token::Key(Key::Chan), Token::Key(Key::Of), rest @ ..] => {
            let (carried, rest) = carried(alloc, line, rest)?;
            Ok((Spec::Channel(sizes, carried), rest))
        }
        _ => {
            let (of, rest) = prim(line, Wanted::Formal, tokens)?;
            Ok((Spec::Variable(ValueType { sizes, of }), rest))
        }
    }
}

/// What a formal stands for.
#[tactic(auto, unfolding(occ_tree_grammar::specs::Lines::Reading::spec_at))]
fn spec(alloc: Global, line: u32, tokens: &[Token]) -> Result<(Spec, &[Token]), ParseFault>
    ensures { ReadsWords spec_of result (spec_at brackets) tokens.now }
{
    match tokens {
        [Token::Key(Key::Val), rest @ ..] => {
            let (of, rest) = value_type(alloc, line, rest)?;
            Ok((Spec::Value(of), rest))
        }
        _ => {
            let (sizes, rest) = sizes(alloc, line, tokens)?;
            spec_behind(alloc, line, sizes, rest)
        }
    }
}

/// A formal that isn't the first.
#[tactic(auto, unfolding(occ_tree_grammar::specs::Lines::Reading::formal_at))]
pub fn formal(alloc: Global, line: u32, tokens: &[Token]) -> Result<(Formal, &[Token]), ParseFault>
    ensures { ReadsWords formal_of result (formal_at brackets) tokens.now }
{
    match tokens {
        [Token::Name(name), rest @ ..] => {
            let name = name.copy()?;
            Ok((Formal { spec: None, name }, rest))
        }
        _ => {
            let (spec, rest) = spec(alloc, line, tokens)?;
            let (name, rest) = name(line, rest)?;
            Ok((
                Formal {
                    spec: Some(spec),
                    name,
                },
                rest,
            ))
        }
    }
}

/// The formals of a procedure, behind the bracket that opens, and the bracket that closes.
#[tactic(auto, unfolding(occ_tree_grammar::specs::Lines::Reading::formals_at))]
pub fn formals(
    alloc: Global,
    line: u32,
    tokens: &[Token],
) -> Result<(Option<Box<Formals>>, &[Token]), ParseFault>
    ensures { ReadsWords formals_of result (formals_at brackets) tokens.now }
{
    match tokens {
        [Token::Sym(Sym::CloseParen), rest @ ..] => Ok((None, rest)),
        _ => {
            let (spec, rest) = spec(alloc, line, tokens)?;
            let (name, rest) = name(line, rest)?;
            let (others, rest) = further::<Formal>(alloc, Separator::Comma, line, rest)?;
            let rest = close(line, Wanted::Formals, rest)?;
            let formals = Box::new(alloc, Formals { spec, name, others })?;
            Ok((Some(formals), rest))
        }
    }
}
