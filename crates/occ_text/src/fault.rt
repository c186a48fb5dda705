//! Why a text has no logical lines.

ghost use Rattle.std.specs.Prelude.{◌≡◌};
ghost use Rattle.occ_text.specs.declared.fault.TextFault.TheVariants.{Memory};

use std::alloc::{AllocError, AllocFailed};
use thiserror::Error;

/// Why a text was refused. `line` is the number, from 1, of the first physical line of the logical
/// line that is refused; of a [`TextFault::BadBreak`] at a line that is indented too little it is
/// that line's own number.
#[derive(Debug, Drop, Error)]
pub enum TextFault {
    /// The text has more than 1,048,576 bytes.
    #[error("refused 1 TooLong")]
    TooLong,
    /// A byte that begins no word, or that stands in a literal and may not.
    #[error("refused 2 BadByte line {line}")]
    BadByte { line: u32 },
    /// A logical line begins behind an odd number of spaces.
    #[error("refused 3 OddIndent line {line}")]
    OddIndent { line: u32 },
    /// A number that is too large or has no digits, or a byte literal that is not one character.
    #[error("refused 4 BadLiteral line {line}")]
    BadLiteral { line: u32 },
    /// An escape that stands for no byte.
    #[error("refused 5 BadEscape line {line}")]
    BadEscape { line: u32 },
    /// A string whose closing quote is not on its line.
    #[error("refused 6 OpenString line {line}")]
    OpenString { line: u32 },
    /// A line that goes on, and no line follows, or one that is indented too little.
    #[error("refused 7 BadBreak line {line}")]
    BadBreak { line: u32 },
    /// Memory ran out.
    #[error("memory")]
    Memory,
}

impl From<AllocError> for TextFault {
    ghost from_gives = { λ _ e. e ≡ Memory };

    fn from(_e: AllocError) -> TextFault {
        TextFault::Memory
    }
}

impl<T: Drop> From<AllocFailed<T>> for TextFault {
    ghost from_gives = { λ _ e. e ≡ Memory };

    fn from(_e: AllocFailed<T>) -> TextFault {
        TextFault::Memory
    }
}
