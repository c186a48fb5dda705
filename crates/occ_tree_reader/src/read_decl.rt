//! Reading the first lines of declarations.

ghost use Rattle.std.specs.Prelude.{◌≡◌, option_map};
ghost use Rattle.occ_text.specs.Words.{words};
ghost use Rattle.occ_tree_grammar.specs.Many.{ended};
ghost use Rattle.occ_tree_grammar.specs.Expressions.Trees.{listed_expressions};
ghost use Rattle.occ_tree_grammar.specs.Expressions.Reading.{Gives};
ghost use Rattle.occ_tree_grammar.specs.Lines.Views.{sort_of, value_type_of};
ghost use Rattle.occ_tree_grammar.specs.Lines.HeadViews.{tag_head_of, names_head, value_head, parts_head};
ghost use Rattle.occ_tree_grammar.specs.Lines.HeadReading.{names_at, sort_at, named_value_at, value_at, protocol_at, procedure_at, declared_at, decl_head_at, tag_head_at, has_colon, declares};
ghost use Rattle.occ_tree_grammar.specs.Limits.{brackets};
ghost use Rattle.occ_tree_reader.specs.Reads.{ReadsDeclHead};

use crate::expressions::symbol::prim;
use crate::item::expression;
use crate::kind::{carried, declared_sizes, formals, part, value_type};
use crate::list::further;
use crate::word::{colon, is, name, stop_behind};
use occ_held::letters::Letters;
use occ_text::{Key, Sym, Token};
use occ_tree_grammar::lines::head::{DeclHead, TagHead};
use occ_tree_grammar::lines::separator::Separator;
use occ_tree_grammar::tree::expr::Expr;
use occ_tree_grammar::tree::line::{OneOrMore, Part, Sort, ValueType};
use occ_tree_grammar::{ParseFault, Stop, Wanted};
use std::alloc::Global;

/// The names and what they are declared as, where nothing follows them.
fn only_names(
    alloc: Global,
    line: u32,
    sizes: Vec<Expr>,
    sort: Sort,
    all: OneOrMore<Letters>,
    rest: &[Token],
) -> Result<DeclHead, ParseFault>
    ensures { ReadsDeclHead result (ended (names_head sizes sort all)) rest.now }
{
    match rest {
        [] => Ok(DeclHead::Names(sizes, Box::new(alloc, sort)?, all)),
        _ => Err(ParseFault::Unexpected(line, Stop::before(rest, Wanted::End))),
    }
}

/// The named value, where nothing follows it.
fn only_value(
    alloc: Global,
    line: u32,
    of: Option<ValueType>,
    name: Letters,
    value: Expr,
    rest: &[Token],
) -> Result<DeclHead, ParseFault>
    ensures { ReadsDeclHead result (ended (value_head of name value)) rest.now }
{
    match rest {
        [] => Ok(DeclHead::Value(of, name, Box::new(alloc, value)?)),
        _ => Err(ParseFault::Unexpected(line, Stop::before(rest, Wanted::End))),
    }
}

/// The protocol, where nothing follows it.
fn only_parts(
    alloc: Global,
    line: u32,
    name: Letters,
    all: OneOrMore<Part>,
    rest: &[Token],
) -> Result<DeclHead, ParseFault>
    ensures { ReadsDeclHead result (ended (parts_head name all)) rest.now }
{
    match rest {
        [] => Ok(DeclHead::Parts(name, Box::new(alloc, all)?)),
        _ => Err(ParseFault::Unexpected(line, Stop::before(rest, Wanted::End))),
    }
}

/// The names of a declaration.
fn declared_names(
    alloc: Global,
    line: u32,
    sizes: Vec<Expr>,
    sort: Sort,
    tokens: &[Token],
) -> Result<DeclHead, ParseFault>
    ensures { ReadsDeclHead result
        (names_at brackets (listed_expressions sizes) (sort_of sort)) tokens.now }
{
    let (first, rest) = name(line, tokens)?;
    let (others, rest) = further::<Letters>(alloc, Separator::Comma, line, rest)?;
    let rest = colon(line, Wanted::Names, rest)?;
    only_names(alloc, line, sizes, sort, OneOrMore { first, others }, rest)
}

/// What follows the sizes of a declaration.
fn behind_sizes(
    alloc: Global,
    line: u32,
    sizes: Vec<Expr>,
    tokens: &[Token],
) -> Result<DeclHead, ParseFault>
    ensures { ReadsDeclHead result (sort_at brackets (listed_expressions sizes)) tokens.now }
{
    match tokens {
        [Token::Key(Key::Chan), Token::Key(Key::Of), rest @ ..] => {
            let (carried, rest) = carried(alloc, line, rest)?;
            declared_names(alloc, line, sizes, Sort::Channel(carried), rest)
        }
        _ => {
            let (of, rest) = prim(line, Wanted::Declared, tokens)?;
            declared_names(alloc, line, sizes, Sort::Data(of), rest)
        }
    }
}

fn named_value(
    alloc: Global,
    line: u32,
    of: Option<ValueType>,
    tokens: &[Token],
) -> Result<DeclHead, ParseFault>
    ensures { ReadsDeclHead result
        (named_value_at brackets (option_map value_type_of of)) tokens.now }
{
    let (name, rest) = name(line, tokens)?;
    let rest = is(line, rest)?;
    let (value, rest) = expression(alloc, line, rest)?;
    let rest = colon(line, Wanted::Colon, rest)?;
    only_value(alloc, line, of, name, value, rest)
}

/// What follows `VAL`.
fn behind_val(alloc: Global, line: u32, tokens: &[Token]) -> Result<DeclHead, ParseFault>
    ensures { ReadsDeclHead result (value_at brackets) tokens.now }
{
    match tokens {
        [Token::Name(_), ..] => named_value(alloc, line, None, tokens),
        _ => {
            let (of, rest) = value_type(alloc, line, tokens)?;
            named_value(alloc, line, Some(of), rest)
        }
    }
}

/// What follows `PROTOCOL`.
fn behind_protocol(alloc: Global, line: u32, tokens: &[Token]) -> Result<DeclHead, ParseFault>
    ensures { ReadsDeclHead result (protocol_at brackets) tokens.now }
{
    match tokens {
        [Token::Name(name)] => Ok(DeclHead::Tags(name.copy()?)),
        [Token::Name(name), Token::Key(Key::Is), rest @ ..] => {
            let (first, rest) = part(alloc, line, rest)?;
            let (others, rest) = further::<Part>(alloc, Separator::Semicolon, line, rest)?;
            let rest = colon(line, Wanted::Parts, rest)?;
            let name = name.copy()?;
            only_parts(alloc, line, name, OneOrMore { first, others }, rest)
        }
        _ => Err(ParseFault::Unexpected(line, stop_behind(Wanted::End, Wanted::NewName, tokens))),
    }
}

/// What follows `PROC`.
fn behind_proc(alloc: Global, line: u32, tokens: &[Token]) -> Result<DeclHead, ParseFault>
    ensures { ReadsDeclHead result (procedure_at brackets) tokens.now }
{
    match tokens {
        [Token::Name(name), Token::Sym(Sym::OpenParen), rest @ ..] => {
            let (formals, rest) = formals(alloc, line, rest)?;
            let name = name.copy()?;
            match rest {
                [] => Ok(DeclHead::Proc(name, formals)),
                _ => Err(ParseFault::Unexpected(line, Stop::before(rest, Wanted::End))),
            }
        }
        _ => Err(ParseFault::Unexpected(
            line,
            stop_behind(Wanted::OpenParen, Wanted::NewName, tokens),
        )),
    }
}

fn declared(alloc: Global, line: u32, tokens: &[Token]) -> Result<DeclHead, ParseFault>
    ensures { ReadsDeclHead result (declared_at brackets) tokens.now }
{
    let (sizes, rest) = declared_sizes(alloc, line, tokens)?;
    behind_sizes(alloc, line, sizes, rest)
}

/// The first line of a declaration. At most 64 brackets stand open at one place.
#[tactic(auto, unfolding(occ_tree_grammar::specs::Lines::HeadReading::decl_head_at))]
pub fn decl_head(alloc: Global, line: u32, tokens: &[Token]) -> Result<DeclHead, ParseFault>
    ensures { ReadsDeclHead result (decl_head_at brackets) tokens.now }
{
    match tokens {
        [Token::Key(Key::Val), rest @ ..] => behind_val(alloc, line, rest),
        [Token::Key(Key::Protocol), rest @ ..] => behind_protocol(alloc, line, rest),
        [Token::Key(Key::Proc), rest @ ..] => behind_proc(alloc, line, rest),
        _ => declared(alloc, line, tokens),
    }
}

/// Where a line with a wrong beginning leaves the grammar. One that begins with a type is a declaration without its colon.
pub(crate) fn stop_of_line(alloc: Global, line: u32, tokens: &[Token]) -> Stop {
    match tokens {
        [Token::Key(Key::Bool | Key::Byte | Key::Int), ..] => {
            match decl_head(alloc, line, tokens) {
                Err(ParseFault::Unexpected(_, stop)) => stop,
                _ => Stop::before(tokens, Wanted::Begin),
            }
        }
        _ => Stop::before(tokens, Wanted::Begin),
    }
}

/// A line of a protocol of variants.
#[tactic(auto, unfolding(occ_tree_grammar::specs::Lines::HeadReading::tag_head_at))]
pub fn tag_head(alloc: Global, line: u32, tokens: &[Token]) -> Result<TagHead, ParseFault>
    ensures { Gives tag_head_of result (tag_head_at brackets (words tokens.now)) }
{
    match tokens {
        [Token::Name(tag), rest @ ..] => {
            let (parts, rest) = further::<Part>(alloc, Separator::Semicolon, line, rest)?;
            let tag = tag.copy()?;
            match rest {
                [] => Ok(TagHead { tag, parts }),
                _ => Err(ParseFault::Unexpected(line, Stop::before(rest, Wanted::End))),
            }
        }
        _ => Err(ParseFault::Unexpected(line, Stop::before(tokens, Wanted::Begin))),
    }
}

fn contains_colon(tokens: &[Token]) -> bool
    ensures { result ≡ has_colon (words tokens.now) }
{
    let mut rest = tokens;
    while let [first, others @ ..] = rest {
        if matches!(first, Token::Sym(Sym::Colon)) {
            return true;
        }
        rest = others;
    }
    false
}

/// Whether the line begins a declaration. A line that begins with a primitive type may be an
/// expression too, and no expression has a colon.
#[tactic(auto, unfolding(occ_tree_grammar::specs::Lines::HeadReading::declares))]
pub fn begins_declaration(tokens: &[Token]) -> bool
    ensures { result ≡ declares (words tokens.now) }
{
    match tokens {
        [Token::Key(Key::Val), ..]
        | [Token::Key(Key::Protocol), ..]
        | [Token::Key(Key::Proc), ..]
        | [Token::Key(Key::Chan), ..]
        | [Token::Sym(Sym::OpenBracket), ..] => true,
        [Token::Key(Key::Bool), rest @ ..]
        | [Token::Key(Key::Byte), rest @ ..]
        | [Token::Key(Key::Int), rest @ ..] => contains_colon(rest),
        _ => false,
    }
}
