//! What begins an expression, and what goes on with one.

pub mod start;
