//! The tree of a text: its types, its written form, and how lines are read as one. The definitions stand
//! in specs/: `Shown` writes a tree as lines, `Reading` reads lines as a tree by the grammar, and the views
//! say which tree a value of the code is. The code that reads stands in `occ_tree`.
//!
//! Each function of [`laws`] is one law: what is read is shown so, what is shown is read again, and no two trees have one
//! written form.
#![tactic(auto)]

pub mod expressions;
mod fault;
pub mod laws;
pub mod limits;
pub mod lines;
mod stops;
pub mod tree;

pub use fault::ParseFault;
pub use stops::{Stop, Wanted};
