//! Laws of the definitions, by what they speak of.

pub mod selecting;
