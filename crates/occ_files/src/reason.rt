//! Why the system could not read or write something.
ghost use Rattle.std.specs.Prelude.{◌≡◌, Some};
ghost use Rattle.std.specs.IoError.{error_kind, raw_os_error};
ghost use Rattle.occ_files.specs.Reasons.{number_in, reason_in, reason_of, reason_text};

use std::fmt;
use std::io::{Error, ErrorKind};

/// Why the system could not read or write a file or a stream.
#[derive(Clone, Copy, Debug, PartialEq, Eq)]
pub enum Reason {
    /// There is no such file, or no folder for it.
    Missing,
    /// It is not permitted.
    Denied,
    /// It is a folder.
    Folder,
    /// A part of the path is no folder.
    NoFolder,
    /// No room is left.
    Full,
    /// Nothing can be written there.
    ReadOnly,
    /// The name is too long, or none that a file can have.
    LongName,
    /// Nobody reads what is written any more.
    Unread,
    /// Something else: the system's number for it, and 0 where it has none.
    Other(u32),
}

/// The system's number of an error, and 0 where it has none.
fn number_in(code: Option<i32>) -> u32
    ensures { result ≡ number_in code }
{
    match code {
        Some(code) => code.unsigned_abs(),
        None => 0,
    }
}

/// A kind of error, or the number of one that has no words of its own.
fn reason_in(kind: ErrorKind, number: u32) -> Reason
    ensures { result ≡ reason_in kind number }
{
    match kind {
        ErrorKind::NotFound => Reason::Missing,
        ErrorKind::PermissionDenied => Reason::Denied,
        ErrorKind::IsADirectory => Reason::Folder,
        ErrorKind::NotADirectory => Reason::NoFolder,
        ErrorKind::StorageFull | ErrorKind::QuotaExceeded => Reason::Full,
        ErrorKind::ReadOnlyFilesystem => Reason::ReadOnly,
        ErrorKind::InvalidFilename => Reason::LongName,
        ErrorKind::BrokenPipe => Reason::Unread,
        _ => Reason::Other(number),
    }
}

/// Why the system could not do what it answered with this error.
pub fn reason_of(error: &Error) -> Reason
    ensures { result ≡ reason_of error.now }
{
    reason_in(error.kind(), number_in(error.raw_os_error()))
}

impl fmt::Display for Reason {
    ghost output = { λ reason. Some (reason_text reason) };

    fn fmt<W: fmt::Write>(&self, f: &mut fmt::Formatter<W>) -> fmt::Result {
        match *self {
            Reason::Missing => write!(f, "no such file or folder"),
            Reason::Denied => write!(f, "permission denied"),
            Reason::Folder => write!(f, "it is a folder"),
            Reason::NoFolder => write!(f, "a part of the path is no folder"),
            Reason::Full => write!(f, "no room is left"),
            Reason::ReadOnly => write!(f, "nothing can be written there"),
            Reason::LongName => write!(f, "the name is too long"),
            Reason::Unread => write!(f, "nobody reads it"),
            Reason::Other(number) => write!(f, "error {number} of the system"),
        }
    }
}
