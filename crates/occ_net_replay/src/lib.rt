//! What the replay of a list of choices is, by the code of a program's processes, and the run of the
//! source that it follows. The definitions stand in specs/; [`laws`] has that every replay of compiled
//! code is followed by a run, with its communications and its ending.
#![tactic(auto)]

pub mod choice;
pub mod laws;

pub use choice::Choice;
