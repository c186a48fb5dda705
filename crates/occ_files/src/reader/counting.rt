//! Reads that are counted where they fail.
ghost use Rattle.std.specs.Prelude.{◌≡◌, ◌-◌, ◌^◌, ◌<◌, ◌≤◌, IfSome, IfNone, length, take};
ghost use Rattle.std.specs.Io.KnownBytes.{IsAtEnd, Keeps};
ghost use Rattle.occ_files.specs.Reading.{ReadsNext, breaks_of, failures_of, interruptions_of, reader_of, reason_kept};

use crate::reader::CountedReader;
use crate::reason::{Reason, reason_of};
use std::io::{ErrorKind, Read};

impl<R: Read> CountedReader<R> {
    /// Wraps a reader of which no read has failed yet.
    pub fn new(reader: R) -> CountedReader<R>
        ensures none_failed { failures_of result ≡ 0 }
        ensures none_interrupted { interruptions_of result ≡ 0 }
        ensures same_reader { reader_of result ≡ reader }
    {
        CountedReader {
            reader,
            failed: 0,
            interrupted: 0,
            reason: Reason::Other(0),
        }
    }

    /// How many reads answered an error.
    pub fn failures(&self) -> u64
        ensures { result ≡ failures_of self.now }
    {
        self.failed
    }

    /// How many of the reads that answered an error were interrupted, and so taken up again.
    pub fn interruptions(&self) -> u64
        ensures { result ≡ interruptions_of self.now }
    {
        self.interrupted
    }

    /// Why the last read failed that did; where none has, the system has no number for it.
    pub fn reason(&self) -> Reason
        ensures { result ≡ reason_kept self.now }
    {
        self.reason
    }

    /// Reads some bytes to the front of these, and answers how many; None where the read failed. A read that was
    /// interrupted counts as a failure, and is taken up again.
    pub fn read_some(&mut self, bytes: &mut [u8]) -> Option<usize>
        requires room { failures_of self.old < 2 ^ 64 - 1 }
        ensures within { IfSome result (λ n. n ≤ length bytes.new) }
        ensures read { IfSome result
            (λ n. ReadsNext R.remaining self.old self.new (take n bytes.new)) }
        ensures end { IfSome result (λ n. n ≡ 0 → 0 < length bytes.new
            → IsAtEnd (R.remaining (reader_of self.new))) }
        ensures unbroken { IfSome result (λ n. breaks_of self.new ≡ breaks_of self.old) }
        ensures counted { IfSome result (λ n. failures_of self.old ≤ failures_of self.new) }
        ensures room_left { IfSome result (λ n. failures_of self.new < 2 ^ 64 - 1) }
        ensures kept { IfNone result (Keeps (R.remaining (reader_of self.old))
            (R.remaining (reader_of self.new))) }
        ensures failed { IfNone result (failures_of self.old < failures_of self.new) }
    {
        while self.failed < u64::MAX {
            match self.reader.read(bytes) {
                Ok(n) => return Some(n),
                Err(error) => {
                    self.failed += 1;
                    self.reason = reason_of(&error);
                    if error.kind() != ErrorKind::Interrupted {
                        return None;
                    }
                    self.interrupted += 1;
                }
            }
        }
        None
    }
}
