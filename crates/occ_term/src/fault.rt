//! Faults of a running program, and what they do.

/// What a fault does.
#[derive(Clone, Copy, Debug, PartialEq, Eq)]
pub enum Errors {
    /// It ends the whole run.
    Halt,
    /// It stops its process alone.
    Stop,
}

/// What went wrong in an evaluation.
#[derive(Clone, Copy, Debug, PartialEq, Eq)]
pub enum FaultKind {
    /// A result outside its type, or a divisor 0.
    Arith,
    /// A subscript outside its array, or a count outside it.
    Range,
    /// A converted value outside the target type.
    Convert,
    /// A count of bits to shift by that is negative or above the width.
    Shift,
    /// A replicator's count that is negative, or whose last index is no INT.
    Count,
}

/// A fault, with the number of the logical line in which the evaluation stands.
#[derive(Clone, Copy, Debug, PartialEq, Eq)]
pub struct Fault {
    /// What went wrong.
    pub kind: FaultKind,
    /// The line's number, from 1.
    pub line: u32,
}
