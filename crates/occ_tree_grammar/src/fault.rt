//! Why lines have no tree.

ghost use Rattle.std.specs.Prelude.{◌≡◌};
ghost use Rattle.occ_tree_grammar.specs.declared.fault.ParseFault.TheVariants.{Memory};

use crate::stops::Stop;
use std::alloc::{AllocError, AllocFailed};
use thiserror::Error;

/// Why lines were refused. The first number is that of the logical line where the mistake was found.
#[derive(Debug, Drop, Error)]
pub enum ParseFault {
    /// A word that no case of the grammar allows, or a line that ends too early: the line, and the place in it.
    #[error("refused 20 Unexpected line {0}")]
    Unexpected(u32, Stop),
    /// A line at a level that no case allows: the line, and the level at which one has to stand.
    #[error("refused 21 Level line {0}")]
    Level(u32, u32),
    /// The source ends where a line must follow: the last line, and the level at which one has to stand.
    #[error("refused 22 Missing line {0}")]
    Missing(u32, u32),
    /// A line at more than 64 levels, or more than 64 brackets open at one place: the line, and the place in it.
    #[error("refused 23 TooDeep line {0}")]
    TooDeep(u32, Stop),
    /// Memory ran out.
    #[error("memory")]
    Memory,
}

impl From<AllocError> for ParseFault {
    ghost from_gives = { λ _ e. e ≡ Memory };

    fn from(_e: AllocError) -> ParseFault {
        ParseFault::Memory
    }
}

impl<T: Drop> From<AllocFailed<T>> for ParseFault {
    ghost from_gives = { λ _ e. e ≡ Memory };

    fn from(_e: AllocFailed<T>) -> ParseFault {
        ParseFault::Memory
    }
}
