//! Why a text is no file of choices.
ghost use Rattle.std.specs.Prelude.{◌≡◌};
ghost use Rattle.occ_choices.specs.declared.fault.ChoiceFault.TheVariants.{Memory};

use std::alloc::AllocFailed;
use thiserror::Error;

/// Why a text is no file of choices.
#[derive(Debug, Drop, Error)]
pub enum ChoiceFault {
    /// The line with this number, from 1, is not two numbers with a space between them.
    #[error("refused 90 BadChoice line {line}")]
    BadChoice { line: u32 },
    /// The text has more than 10,000,000 lines.
    #[error("refused 91 TooMany")]
    TooMany,
    /// Memory ran out.
    #[error("memory")]
    Memory,
}

impl<T: Drop> From<AllocFailed<T>> for ChoiceFault {
    ghost from_gives = { λ _ e. e ≡ Memory };

    fn from(_e: AllocFailed<T>) -> ChoiceFault {
        ChoiceFault::Memory
    }
}
