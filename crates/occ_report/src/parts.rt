//! The parts of a process that a walk through the tree goes through.

use crate::scope::Around;
use crate::stop::Kind;
use occ_tree_grammar::tree::process::{Arm, Choice, Process, Selection, Variant};

/// A part of a process that is still to be gone through.
#[derive(Clone, Copy)]
pub(crate) enum Part<'t> {
    /// A process.
    One(&'t Process),
    /// Processes one after the other.
    All(&'t [Process]),
    /// The arms of an ALT.
    Arms(&'t [Arm]),
    /// The choices of an IF.
    Choices(&'t [Choice]),
    /// The options of a CASE but for ELSE.
    Options(&'t [Selection]),
    /// The ELSE of a CASE in this line.
    Else(u32, &'t [Selection]),
    /// The variants of an input.
    Variants(&'t [Variant]),
    /// A stop.
    Stop(u32, Kind),
    /// The end of the body of a call.
    Return(u32),
}

/// A part that is left, and what stands round it.
#[derive(Clone, Copy)]
pub(crate) struct Left<'t> {
    pub part: Part<'t>,
    pub around: Around<'t>,
}
