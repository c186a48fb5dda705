//! Why a network takes no turn in.
ghost use Rattle.std.specs.Prelude.{◌≡◌, Some};
ghost use Rattle.occ_net.specs.FaultTexts.{fault_text};

use occ_term::Ending;
use std::alloc::AllocError;
use std::error::Error;
use std::fmt;

/// Why a network takes no turn in, or doesn't come to be.
#[derive(Debug, Drop)]
pub enum NetFault {
    /// The turn is not of the network's own: of its process's body, and from its process's task. The
    /// network's own task has taken so many turns.
    Stale { number: u32, turns: u64 },
    /// The network has ended.
    Over { ending: Ending },
    /// A growth was refused.
    Memory,
}

impl fmt::Display for NetFault {
    ghost output = { λ fault. Some (fault_text fault) };

    fn fmt<W: fmt::Write>(&self, f: &mut fmt::Formatter<W>) -> fmt::Result {
        match self {
            NetFault::Stale {
                number: _,
                turns: _,
            } => write!(f, "refused 70 Stale"),
            NetFault::Over { ending: _ } => write!(f, "refused 71 Over"),
            NetFault::Memory => write!(f, "refused 79 Memory"),
        }
    }
}

impl Error for NetFault {}

impl From<AllocError> for NetFault {
    ghost use Rattle.occ_net.specs.declared.fault.NetFault.{NetFault};

    ghost from_gives = { λ e made. made ≡ NetFault.Memory };

    fn from(_: AllocError) -> NetFault {
        NetFault::Memory
    }
}
