//! Why a live run came to nothing.
ghost use Rattle.std.specs.Prelude.{◌≡◌};
ghost use Rattle.occ_live.specs.declared.fault.LiveFault.TheVariants.{Memory};

use occ_files::Reason;
use occ_play::PlayFault;
use std::alloc::AllocError;
use thiserror::Error;

/// Why a live run came to nothing.
#[derive(Clone, Copy, Debug, Error, PartialEq)]
pub enum LiveFault {
    /// A read of the keyboard failed, for this reason.
    #[error("read failed")]
    Read(Reason),
    /// A write of the screen's bytes failed.
    #[error("write failed")]
    Write,
    /// A growth was refused.
    #[error("memory")]
    Memory,
}

impl From<AllocError> for LiveFault {
    ghost from_gives = { λ _ e. e ≡ Memory };

    fn from(_e: AllocError) -> LiveFault {
        LiveFault::Memory
    }
}

/// Why a program was not played live, or its answer not written.
#[derive(Debug, Drop, Error)]
pub enum LivePlayFault {
    /// The source is refused, or there was no memory for its code.
    #[error("{0}")]
    Source(PlayFault),
    /// The run came to nothing.
    #[error("{0}")]
    Run(LiveFault),
}
