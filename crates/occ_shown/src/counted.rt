//! A writer that counts the writes that fail.
ghost use Rattle.std.specs.Prelude.{◌≡◌, ◌+◌, ◌-◌, ◌^◌, ◌<◌, ◌≤◌, OnOk, IfErr, OnErr, IfSome, IfNone, length, take};
ghost use Rattle.std.specs.Io.KnownBytes.{Keeps};
ghost use Rattle.occ_shown.specs.Counting.{failures_of, writer_of, AppendsTo};

use std::io::Write;

/// A writer, and how many of its writes failed.
#[derive(Drop)]
pub struct Counted<W> {
    writer: W,
    failed: u64,
}

impl<W: Write> Counted<W> {
    /// Wraps a writer of which no write has failed yet.
    pub fn new(writer: W) -> Counted<W>
        ensures none_failed { failures_of result ≡ 0 }
        ensures same_writer { writer_of result ≡ writer }
    {
        Counted { writer, failed: 0 }
    }

    /// How many writes failed: those that answered an error, or 0 for bytes that are not empty.
    pub fn failures(&self) -> u64
        ensures { result ≡ failures_of self.now }
    {
        self.failed
    }

    /// Writes some of the bytes, and answers how many were taken; None where the write failed.
    pub fn write_some(&mut self, bytes: &[u8]) -> Option<usize>
        requires room { failures_of self.old < 2 ^ 64 - 1 }
        requires some { 0 < length bytes.now }
        ensures some { IfSome result (λ n. (0 < n) × (n ≤ length bytes.now)) }
        ensures taken { IfSome result
            (λ n. AppendsTo W.contents self.old self.new (take n bytes.now)) }
        ensures none_failed { IfSome result (λ n. failures_of self.new ≡ failures_of self.old) }
        ensures failed { IfNone result (failures_of self.new ≡ failures_of self.old + 1) }
        ensures kept { IfNone result
            (Keeps (W.contents (writer_of self.old)) (W.contents (writer_of self.new))) }
    {
        match self.writer.write(bytes) {
            Ok(n) if n > 0 => Some(n),
            _ => {
                self.failed += 1;
                None
            }
        }
    }
}

/// Writes the whole answer. At an error, a beginning of the answer of that length was written.
pub fn write_answer<W: Write>(answer: &[u8], out: &mut Counted<W>) -> Result<(), u64>
    requires room { failures_of out.old < 2 ^ 64 - 1 }
    ensures whole { OnOk result (AppendsTo W.contents out.old out.new answer.now) }
    ensures none_failed { OnOk result (failures_of out.new ≡ failures_of out.old) }
    ensures failed { OnErr result (failures_of out.old < failures_of out.new) }
    ensures less { IfErr result (λ written. written < length answer.now) }
    ensures beginning { IfErr result
        (λ written. AppendsTo W.contents out.old out.new (take written answer.now)) }
{
    let mut written = 0;
    while written < answer.len() {
        match out.write_some(&answer[written..]) {
            Some(n) => written += n,
            None => return Err(written as u64),
        }
    }
    Ok(())
}
