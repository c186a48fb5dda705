//! A writer that keeps why it failed.
ghost use Rattle.std.specs.Prelude.{◌≡◌};
ghost use Rattle.occ_files.specs.declared.reason.Reason.TheVariants.{Other};
ghost use Rattle.occ_files.specs.Noting.{reason_kept, writer_of};

use crate::reason::{Reason, reason_of};
use std::io;
use std::io::Write;

/// A writer, and why its last write failed that did.
#[derive(Drop)]
pub struct Noting<W> {
    writer: W,
    reason: Reason,
}

impl<W: Write> Noting<W> {
    /// Wraps a writer of which no write has failed yet.
    pub fn new(writer: W) -> Noting<W>
        ensures same_writer { writer_of result ≡ writer }
        ensures none { reason_kept result ≡ Other 0 }
    {
        Noting {
            writer,
            reason: Reason::Other(0),
        }
    }

    /// Why the last write failed that did; where none has, the system has no number for it.
    pub fn reason(&self) -> Reason
        ensures { result ≡ reason_kept self.now }
    {
        self.reason
    }
}

impl<W: Write> Write for Noting<W> {
    ghost contents = { λ noting. W.contents (writer_of noting) };

    fn write(&mut self, bytes: &[u8]) -> io::Result<usize> {
        let done = self.writer.write(bytes);
        if let Err(error) = &done {
            self.reason = reason_of(error);
        }
        done
    }

    fn flush(&mut self) -> io::Result<()> {
        self.writer.flush()
    }
}
