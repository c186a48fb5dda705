//! Why an input was not read.
ghost use Rattle.std.specs.Prelude.{◌≡◌};
ghost use Rattle.occ_files.specs.declared.fault.InputFault.TheVariants.{Memory};

use crate::reason::Reason;
use std::alloc::AllocError;
use thiserror::Error;

/// Why an input was not read.
#[derive(Clone, Copy, Debug, Error, PartialEq)]
pub enum InputFault {
    /// A read failed, for this reason. Its number is 92.
    #[error("read failed")]
    Read(Reason),
    /// Memory ran out. Its number is 97.
    #[error("memory")]
    Memory,
}

impl From<AllocError> for InputFault {
    ghost from_gives = { λ _ e. e ≡ Memory };

    fn from(_e: AllocError) -> InputFault {
        InputFault::Memory
    }
}
