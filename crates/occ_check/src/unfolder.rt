//! What is kept while a program is unfolded.

use crate::blocks::Blocks;
use occ_check_lines::numbers::Numbers;
use occ_check_lines::scope::Position;
use occ_term::Declaration;
use occ_tree_grammar::tree::process::Process;
use sqlite_items::Items;

/// The scopes that are open, and the numbers that are given out.
#[derive(Drop)]
pub struct Unfolder<'t> {
    /// The scopes.
    pub blocks: Blocks<'t>,
    /// The numbers.
    pub numbers: Numbers,
}

/// A call: what is set for the formals, the body that is called, and the position at which it is read.
#[derive(Drop)]
pub struct Call<'t> {
    /// The Locals of the actuals, in order.
    pub heads: Items<Declaration>,
    /// The body.
    pub body: &'t Process,
    /// The position.
    pub inside: Position,
}
