//! What stands at the head of a line.

pub mod head;
pub mod separator;
