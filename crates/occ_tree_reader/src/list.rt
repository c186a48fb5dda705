//! Lists in a line: what stands behind the first part, each part behind a separator.

ghost use Rattle.std.specs.Prelude.{ℕ, List};
ghost use Rattle.occ_text.specs.Words.{Word};
ghost use Rattle.occ_tree_grammar.specs.Many.{Reader};
ghost use Rattle.occ_tree_grammar.specs.Fronts.{each_as, ReadsWords};
ghost use Rattle.occ_tree_grammar.specs.Expressions.Trees.{Expression, expression_of};
ghost use Rattle.occ_tree_grammar.specs.Expressions.Reading.{expression_at};
ghost use Rattle.occ_tree_grammar.specs.Lines.Trees as trees;
ghost use Rattle.occ_tree_grammar.specs.Lines.Views.{var_of, target_of, out_of, part_of, formal_of};
ghost use Rattle.occ_tree_grammar.specs.Lines.Reading.{listed_at, name_at, var_at, target_at, out_at, part_at, formal_at};
ghost use Rattle.occ_tree_grammar.specs.Limits.{brackets};

use crate::item::{expression, out, target, var};
use crate::kind::{formal, part};
use crate::word::{name, separated};
use occ_held::letters::Letters;
use occ_text::Token;
use occ_tree_grammar::ParseFault;
use occ_tree_grammar::lines::separator::Separator;
use occ_tree_grammar::tree::expr::Expr;
use occ_tree_grammar::tree::line::{Formal, Out, Part, Target, Var};
use std::alloc::Global;

/// What may stand in a list.
pub trait Listed: Drop + Sized {
    /// What it says, without where it lies in memory.
    ghost Form: { Type 0 };

    /// What a value says.
    ghost form: { Self → Form };

    /// How the grammar reads one.
    ghost reads: { Reader Word Form };

    /// One from the front of the words.
    fn read(alloc: Global, line: u32, tokens: &[Token]) -> Result<(Self, &[Token]), ParseFault>
        ensures { ReadsWords form result reads tokens.now };
}

/// Further ones of a kind, each behind the separator.
pub fn further<T: Listed>(
    alloc: Global,
    by: Separator,
    line: u32,
    tokens: &[Token],
) -> Result<(Vec<T>, &[Token]), ParseFault>
    ensures { ReadsWords (each_as T.form) result (listed_at by T.reads) tokens.now }
{
    let mut all = Vec::new(alloc);
    let mut rest = tokens;
    for _ in 0..tokens.len() {
        let Some(after) = separated(by, rest) else {
            break;
        };
        let (next, after) = T::read(alloc, line, after)?;
        all.push(next)?;
        rest = after;
    }
    Ok((all, rest))
}

/// A name.
impl Listed for Letters {
    ghost Form = { List ℕ };

    ghost form = { λ v. v };

    ghost reads = { name_at };

    fn read(_: Global, line: u32, tokens: &[Token]) -> Result<(Letters, &[Token]), ParseFault> {
        name(line, tokens)
    }
}

impl Listed for Var {
    ghost Form = { trees.Var };

    ghost form = { var_of };

    ghost reads = { var_at brackets };

    fn read(alloc: Global, line: u32, tokens: &[Token]) -> Result<(Var, &[Token]), ParseFault> {
        var(alloc, line, tokens)
    }
}

impl Listed for Expr {
    ghost Form = { Expression };

    ghost form = { expression_of };

    ghost reads = { expression_at brackets };

    fn read(alloc: Global, line: u32, tokens: &[Token]) -> Result<(Expr, &[Token]), ParseFault> {
        expression(alloc, line, tokens)
    }
}

impl Listed for Target {
    ghost Form = { trees.Target };

    ghost form = { target_of };

    ghost reads = { target_at brackets };

    fn read(alloc: Global, line: u32, tokens: &[Token]) -> Result<(Target, &[Token]), ParseFault> {
        target(alloc, line, tokens)
    }
}

impl Listed for Out {
    ghost Form = { trees.Out };

    ghost form = { out_of };

    ghost reads = { out_at brackets };

    fn read(alloc: Global, line: u32, tokens: &[Token]) -> Result<(Out, &[Token]), ParseFault> {
        out(alloc, line, tokens)
    }
}

impl Listed for Part {
    ghost Form = { trees.Part };

    ghost form = { part_of };

    ghost reads = { part_at brackets };

    fn read(alloc: Global, line: u32, tokens: &[Token]) -> Result<(Part, &[Token]), ParseFault> {
        part(alloc, line, tokens)
    }
}

impl Listed for Formal {
    ghost Form = { trees.Formal };

    ghost form = { formal_of };

    ghost reads = { formal_at brackets };

    fn read(alloc: Global, line: u32, tokens: &[Token]) -> Result<(Formal, &[Token]), ParseFault> {
        formal(alloc, line, tokens)
    }
}
