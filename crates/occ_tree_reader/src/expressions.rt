//! Reading expressions.

pub mod read;
pub mod symbol;
