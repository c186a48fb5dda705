//! Why the workers gave no outcome.
ghost use Rattle.std.specs.Prelude.{◌≡◌, Some};
ghost use Rattle.occ_run.specs.FaultTexts.{fault_text};
ghost use Rattle.occ_run.specs.declared.fault.RunFault.TheVariants.{Memory};

use std::alloc::AllocError;
use std::error::Error;
use std::fmt;

/// Why the workers gave no outcome.
#[derive(Clone, Copy, Debug, PartialEq, Eq)]
pub enum RunFault {
    /// What was published of a run that is watched is not its trace.
    Foreign,
    /// The number of workers is not from 1 to 64.
    BadWorkers,
    /// A thread was refused.
    Spawn,
    /// A growth was refused.
    Memory,
}

impl fmt::Display for RunFault {
    ghost output = { λ fault. Some (fault_text fault) };

    fn fmt<W: fmt::Write>(&self, f: &mut fmt::Formatter<W>) -> fmt::Result {
        match self {
            RunFault::Foreign => write!(f, "refused 80 Foreign"),
            RunFault::BadWorkers => write!(f, "refused 81 BadWorkers"),
            RunFault::Spawn => write!(f, "refused 88 Spawn"),
            RunFault::Memory => write!(f, "refused 89 Memory"),
        }
    }
}

impl Error for RunFault {}

impl From<AllocError> for RunFault {
    ghost from_gives = { λ _ e. e ≡ Memory };

    fn from(_: AllocError) -> RunFault {
        RunFault::Memory
    }
}
