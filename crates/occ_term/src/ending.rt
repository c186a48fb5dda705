//! How a run ends.
ghost use Rattle.std.specs.Prelude.{Some};
ghost use Rattle.occ_term.specs.Endings.{ending_text, kind_text};

use crate::fault::{Fault, FaultKind};
use std::fmt;

/// How a run ended.
#[derive(Clone, Copy, Debug, PartialEq, Eq)]
pub enum Ending {
    /// The main process came to its end.
    Ended,
    /// No process can go on, and no evaluation faulted.
    Stopped,
    /// An evaluation faulted, which ends the run.
    Fault(Fault),
    /// No process can go on. Evaluations faulted, this one first, and each stopped its process alone.
    StoppedBy(Fault),
    /// The choices were used up, and the run could go on.
    Limit,
}

/// The name of a fault's kind, as `ARITH`.
#[derive(Clone, Copy, Debug)]
pub struct KindName(pub FaultKind);

impl fmt::Display for KindName {
    ghost output = { λ k. Some (kind_text k.0) };

    fn fmt<W: fmt::Write>(&self, f: &mut fmt::Formatter<W>) -> fmt::Result {
        match self.0 {
            FaultKind::Arith => write!(f, "ARITH"),
            FaultKind::Range => write!(f, "RANGE"),
            FaultKind::Convert => write!(f, "CONVERT"),
            FaultKind::Shift => write!(f, "SHIFT"),
            FaultKind::Count => write!(f, "COUNT"),
        }
    }
}

impl fmt::Display for Ending {
    ghost output = { λ e. Some (ending_text e) };

    fn fmt<W: fmt::Write>(&self, f: &mut fmt::Formatter<W>) -> fmt::Result {
        match self {
            Ending::Ended => write!(f, "ended"),
            Ending::Stopped => write!(f, "stopped"),
            Ending::Fault(fault) => {
                let kind = KindName(fault.kind);
                let line = fault.line;
                write!(f, "fault {kind} line {line}")
            }
            Ending::StoppedBy(fault) => {
                let kind = KindName(fault.kind);
                let line = fault.line;
                write!(f, "stopped {kind} line {line}")
            }
            Ending::Limit => write!(f, "limit"),
        }
    }
}
