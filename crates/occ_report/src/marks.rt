//! What is noted of the stops that the tree has.

use crate::scope::Around;
use crate::stop::Kind;
use occ_tree_grammar::tree::expr::{Expr, Literal, Operand};
use occ_tree_grammar::tree::line::Input;
use occ_tree_grammar::tree::process::Process;

/// The branches of a PAR.
#[derive(Clone, Copy)]
pub(crate) enum Branches<'t> {
    /// What stands there is no PAR.
    None,
    /// A branch for each process.
    Each(&'t [Process]),
    /// Copies of a process.
    Copies(&'t Process),
    /// Copies of a process, but there may be none, and then there is nothing to stop at.
    Maybe(&'t Process),
}

/// A stop.
#[derive(Clone, Copy)]
pub(crate) struct Mark<'t> {
    /// The line.
    pub line: u32,
    /// What stands there.
    pub kind: Kind,
    /// The branches that begin there.
    pub branches: Branches<'t>,
    /// What stands round it.
    pub around: Around<'t>,
}

/// The number that an expression is, where it is written as one.
pub(crate) fn literal(e: &Expr) -> Option<i32> {
    match e {
        Expr::Operand(operand) => literal_operand(operand),
        _ => None,
    }
}

fn literal_operand(operand: &Operand) -> Option<i32> {
    match operand {
        Operand::Literal(Literal::Number(number), _) => Some(*number),
        _ => None,
    }
}

/// Whether an input takes one tag alone.
pub(crate) fn has_tag(input: &Input) -> bool {
    match input {
        Input::Items(_, _) => false,
        Input::Tagged(_, _, _) => true,
    }
}
