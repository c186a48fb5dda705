//! Programs that fault. Each function's contract is the row; its body does nothing.

ghost use Rattle.occ_laws.specs.FaultExamples.{AddsPlays, Divides, FaultHalts, FaultingPlays, NegativeCountPlays, NoBytePlays, QuotientPlays, StopsBoth, TooManyPlays};

/// A fault, in both modes.
pub fn divides()
    ensures { Divides }
{}

/// A fault ends the whole system in one mode, and only there.
pub fn fault_halts()
    ensures { FaultHalts }
{}

/// Two faults that stop their processes alone.
pub fn stops_both()
    ensures { StopsBoth }
{}

/// A sum past the greatest INT.
pub fn adds()
    ensures { AddsPlays }
{}

/// `(MOSTNEG INT) / (-1)` is no INT.
pub fn quotient()
    ensures { QuotientPlays }
{}

/// 256 is no BYTE.
pub fn no_byte()
    ensures { NoBytePlays }
{}

/// A negative count is a fault.
pub fn negative_count()
    ensures { NegativeCountPlays }
{}

/// A count past the array.
pub fn too_many()
    ensures { TooManyPlays }
{}

/// A fault ends the network.
pub fn faulting()
    ensures { FaultingPlays }
{}
