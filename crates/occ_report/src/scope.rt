//! The PROCs that are in scope.

use occ_tree_grammar::tree::process::Process;
use std::alloc::{AllocError, Global};

/// What stands round a process: the PROCs that it can call, as a place among all that are declared, the name of the
/// PROC in whose body it stands, and the call that led there.
#[derive(Clone, Copy)]
pub(crate) struct Around<'t> {
    /// How many of the PROCs were declared with the innermost one; 0 where there is none.
    pub scope: usize,
    /// The name.
    pub name: &'t [u8],
    /// How many calls were gone through with that one; 0 where there is none.
    pub call: u32,
}

/// A declared PROC.
#[derive(Clone, Copy)]
pub(crate) struct Procedure<'t> {
    /// Its name.
    pub name: &'t [u8],
    /// Its body.
    pub body: &'t Process,
    /// The scope in which it is declared.
    pub outer: usize,
    /// Its first line.
    pub first: u32,
    /// The line of the colon that ends it.
    pub last: u32,
}

/// The PROCs that were declared so far.
#[derive(Drop)]
pub(crate) struct Procedures<'t> {
    all: Vec<Procedure<'t>>,
}

impl<'t> Procedures<'t> {
    /// None.
    pub fn new(alloc: Global) -> Procedures<'t> {
        Procedures {
            all: Vec::new(alloc),
        }
    }

    /// The scope with one PROC more.
    pub fn declare(&mut self, procedure: Procedure<'t>) -> Result<usize, AllocError> {
        self.all.push(procedure)?;
        Ok(self.all.len())
    }

    /// The innermost PROC of this name, found in so many steps, of which those are left that weren't taken.
    pub fn find(&self, name: &[u8], scope: usize, steps: &mut u32) -> Option<Procedure<'t>> {
        let mut at = scope;
        'outwards: while at > 0 && *steps > 0 {
            *steps -= 1;
            let procedure = self.all.get(at - 1)?;
            if procedure.name == name {
                return Some(*procedure);
            }
            at = procedure.outer;
        }
        None
    }
}
