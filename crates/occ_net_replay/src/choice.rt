//! The scheduler's choices.

/// A scheduler's choice for one turn.
#[derive(Clone, Copy, Debug, PartialEq, Eq)]
pub struct Choice {
    /// Which ready process takes the turn, modulo their number; they are counted from 0 in the
    /// order of their process numbers.
    pub which: u32,
    /// Which ready alternative an ALT takes, modulo their number.
    pub pick: u32,
}
