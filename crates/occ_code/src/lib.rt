//! The compiler: flat code for the processes of a program. [`compile`] answers a `Code` whose bodies do as the terms of
//! a lawful program do, stop by stop, and refuses one only for its size, its quantum or want of memory.
#![tactic(auto)]

mod actions;
mod arms;
mod cells;
mod compiling;
mod counters;
mod expressions;
pub mod laws;
mod pieces;
mod processes;
mod slots;
mod statements;

pub use compiling::{CodeFault, MOST_INSTRUCTIONS, MOST_QUANTUM, compile, compile_for};
pub use occ_machine::{Body, Code, Task};
