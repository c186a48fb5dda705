//! Reading processes, their parts and declarations, line by line.

pub mod declaration;
pub mod head;
pub mod line;
pub mod opened;
pub mod protocol;
pub mod read;
