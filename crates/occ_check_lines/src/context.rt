//! Where something is read.

use crate::scope::Scope;
use std::alloc::Global;

/// Where something is read: under which names, and in which line. What is made of it takes its memory here.
#[derive(Clone, Copy)]
pub struct Context<'a, 't> {
    /// What gives memory.
    pub alloc: Global,
    /// The names.
    pub scope: Scope<'a, 't>,
    /// The line, from 1 on.
    pub line: u32,
}
