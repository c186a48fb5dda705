//! What the tree of a text unfolds to: names, types, protocols, calls and replicators. The definitions
//! stand in specs/, as a relation and as a function; [`laws`] says that the two agree, and [`rows`] has
//! small programs with what they unfold to. Each function of [`well_formed`] is a law of every program that a text unfolds
//! to: numbers in order, types, sizes, and that it is well-formed.
#![tactic(auto)]

pub mod laws;
pub mod rows;
pub mod well_formed;
