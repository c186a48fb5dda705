//! A reader that counts the reads that fail, and input that is read whole.
ghost use Rattle.std.specs.Prelude.{◌≤◌};

mod counting;
mod whole;

use crate::reason::Reason;
pub use whole::read_input;

/// A reader, how many of its reads failed, and why the last of them did.
#[derive(Drop)]
pub struct CountedReader<R> {
    reader: R,
    failed: u64,
    interrupted: u64,
    reason: Reason,
    ghost fewer: { interrupted ≤ failed },
}
