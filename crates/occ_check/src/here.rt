//! Where something is unfolded.

use occ_check_lines::scope::Position;

/// Where something is unfolded.
#[derive(Clone, Copy)]
pub struct Here {
    /// The position at which its names are looked up.
    pub at: Position,
    /// How many nodes stand round it.
    pub depth: u32,
    /// The line that it stands in: of what has a line of its own, as a process or an arm, that of what it is part of.
    pub line: u32,
}
