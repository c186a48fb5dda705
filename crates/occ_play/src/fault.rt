//! Why a program was not played.

ghost use Rattle.std.specs.Prelude.{◌≡◌};

use occ_check::CheckFault;
use occ_code::CodeFault;
use occ_run::RunFault;
use occ_text::TextFault;
use occ_tree_grammar::ParseFault;
use occ_usage::UsageFault;
use std::alloc::AllocError;
use thiserror::Error;

/// Why a program was not played, or its answer not written.
#[derive(Debug, Drop, Error)]
pub enum PlayFault {
    /// The text has no logical lines.
    #[error("{0}")]
    Text(TextFault),
    /// The lines have no tree.
    #[error("{0}")]
    Parse(ParseFault),
    /// The tree breaks a rule of scopes, types or protocols.
    #[error("{0}")]
    Check(CheckFault),
    /// The program breaks the usage rules.
    #[error("{0}")]
    Usage(UsageFault),
    /// The program is too large.
    #[error("{0}")]
    Code(CodeFault),
    /// A write failed, after the first `written` bytes of the answer were written.
    #[error("write failed")]
    Write { written: u64 },
    /// The workers gave no answer.
    #[error("{0}")]
    Run(RunFault),
    /// A growth was refused.
    #[error("memory")]
    Memory(AllocError),
}

impl From<TextFault> for PlayFault {
    ghost use Rattle.occ_play.specs.declared.fault.PlayFault.{PlayFault};

    ghost from_gives = { λ fault made. made ≡ PlayFault.Text fault };

    fn from(fault: TextFault) -> PlayFault {
        PlayFault::Text(fault)
    }
}

impl From<ParseFault> for PlayFault {
    ghost use Rattle.occ_play.specs.declared.fault.PlayFault.{PlayFault};

    ghost from_gives = { λ fault made. made ≡ PlayFault.Parse fault };

    fn from(fault: ParseFault) -> PlayFault {
        PlayFault::Parse(fault)
    }
}

impl From<CheckFault> for PlayFault {
    ghost use Rattle.occ_play.specs.declared.fault.PlayFault.{PlayFault};

    ghost from_gives = { λ fault made. made ≡ PlayFault.Check fault };

    fn from(fault: CheckFault) -> PlayFault {
        PlayFault::Check(fault)
    }
}

impl From<CodeFault> for PlayFault {
    ghost use Rattle.occ_play.specs.declared.fault.PlayFault.{PlayFault};

    ghost from_gives = { λ fault made. made ≡ PlayFault.Code fault };

    fn from(fault: CodeFault) -> PlayFault {
        PlayFault::Code(fault)
    }
}

impl From<RunFault> for PlayFault {
    ghost use Rattle.occ_play.specs.declared.fault.PlayFault.{PlayFault};

    ghost from_gives = { λ fault made. made ≡ PlayFault.Run fault };

    fn from(fault: RunFault) -> PlayFault {
        PlayFault::Run(fault)
    }
}

impl From<AllocError> for PlayFault {
    ghost use Rattle.occ_play.specs.declared.fault.PlayFault.{PlayFault};

    ghost from_gives = { λ fault made. made ≡ PlayFault.Memory fault };

    fn from(fault: AllocError) -> PlayFault {
        PlayFault::Memory(fault)
    }
}
