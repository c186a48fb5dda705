//! The tree of a text.

pub mod expr;
pub mod line;
pub mod process;
