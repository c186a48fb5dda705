//! Unfolded programs.
ghost use Rattle.std.specs.Prelude.{◌≡◌};
ghost use Rattle.occ_term.specs.UnfoldedProgram.{IsWellFormed};

use crate::names::{Cell, Channel};
use crate::term::Term;
use std::marker::Model;

/// An unfolded program: one term, with the cells and the channels that it names.
///
/// Each expression, target and item has the type of its place, channels 0, 1 and 2 are the keyboard,
/// the screen and the error channel, and processes are numbered in the order in which they begin:
/// no other value of this type can be made.
pub struct Unfolded {
    term: Term,
    cells: Vec<Cell>,
    channels: Vec<Channel>,
}

impl Drop for Unfolded {
    fn drop(self) {
        let Unfolded {
            term: _,
            cells: _,
            channels: _,
        } = self;
    }
}

impl Model for Unfolded {
    ghost use Rattle.std.specs.Coded.{codes};
    ghost use Rattle.occ_term.specs.contracts.term.Term as terms;
    ghost use Rattle.occ_term.specs.UnfoldedProgram.{UnfoldedProgram, IsWellFormed};

    ghost Value = { UnfoldedProgram };

    ghost coded = { Prim.hlevel (codes, terms.the_row.coded) };

    ghost view = { λ u. record { term = u.term; cells = u.cells.items; channels = u.channels.items } };

    ghost invariant = { λ u. IsWellFormed (record { term = u.term; cells = u.cells.items; channels = u.channels.items }) };
}

impl Unfolded {
    /// A program of these parts.
    pub fn new(term: Term, cells: Vec<Cell>, channels: Vec<Channel>) -> Unfolded
        requires { IsWellFormed
            (record { term = term; cells = cells.items; channels = channels.items }) }
        ensures { result ≡ record { term = term; cells = cells.items; channels = channels.items } }
    {
        Unfolded {
            term,
            cells,
            channels,
        }
    }

    /// The term.
    pub fn term(&self) -> &Term
        ensures { result.now ≡ self.now.term }
    {
        &self.term
    }

    /// The cells, from number 0 on.
    pub fn cells(&self) -> &[Cell]
        ensures { result.now ≡ self.now.cells }
    {
        &self.cells
    }

    /// The channels, from number 0 on.
    pub fn channels(&self) -> &[Channel]
        ensures { result.now ≡ self.now.channels }
    {
        &self.channels
    }

    /// What every unfolded program keeps.
    pub fn well_formed(&self)
        ensures { IsWellFormed self.now }
    {
        let _term = &self.term;
    }
}
