//! Why a program has no unfolding.

ghost use Rattle.std.specs.Prelude.{◌≡◌};
ghost use Rattle.occ_check_lines.specs.declared.fault.CheckFault.TheVariants.{Memory};

use occ_held::letters::Letters;
use std::alloc::{AllocError, AllocFailed, Global};
use thiserror::Error;

/// Why a program was refused. `line` is the number of the logical line at which it was found.
#[derive(Debug, Drop, Error)]
pub enum CheckFault {
    /// A name that stands for nothing here.
    #[error("refused 30 Unknown line {line} {name}")]
    Unknown { line: u32, name: String },
    /// A name twice in one declaration, formal list, tag list, or a constant twice in a CASE.
    #[error("refused 31 Twice line {line} {name}")]
    Twice { line: u32, name: String },
    /// A name of another kind than is wanted, or a second ELSE.
    #[error("refused 32 WrongKind line {line}")]
    WrongKind { line: u32 },
    /// A value or a variable of another type than is wanted.
    #[error("refused 33 WrongType line {line}")]
    WrongType { line: u32 },
    /// A constant is wanted, and this is none.
    #[error("refused 34 NotConstant line {line}")]
    NotConstant { line: u32 },
    /// A size below 1, or a count of copies below 0, or one with which the last index would exceed 2147483647.
    #[error("refused 35 BadCount line {line}")]
    BadCount { line: u32 },
    /// A constant subscript outside its array.
    #[error("refused 36 Subscript line {line}")]
    Subscript { line: u32 },
    /// What is sent or received is not of the channel's protocol.
    #[error("refused 37 Protocol line {line}")]
    Protocol { line: u32 },
    /// A tag that the protocol has not, or one that was listed before.
    #[error("refused 38 Tag line {line}")]
    Tag { line: u32 },
    /// Actuals that do not fit the formals.
    #[error("refused 39 Arguments line {line}")]
    Arguments { line: u32 },
    /// Two reference actuals that share a cell.
    #[error("refused 40 Overlap line {line}")]
    Overlap { line: u32 },
    /// Two targets of one list that share a component, or one that stands in a subscript of the other.
    #[error("refused 41 ListTarget line {line}")]
    ListTarget { line: u32 },
    /// No main process: no PROC, or its formals are not one to three channels of bytes.
    #[error("refused 42 NoMain")]
    NoMain,
    /// More cells, channels, processes, nodes or depth than a program may have.
    #[error("refused 43 TooLarge")]
    TooLarge,
    /// Memory ran out.
    #[error("memory")]
    Memory,
}

impl From<AllocError> for CheckFault {
    ghost from_gives = { λ _ e. e ≡ Memory };

    fn from(_e: AllocError) -> CheckFault {
        CheckFault::Memory
    }
}

impl<T: Drop> From<AllocFailed<T>> for CheckFault {
    ghost from_gives = { λ _ e. e ≡ Memory };

    fn from(_e: AllocFailed<T>) -> CheckFault {
        CheckFault::Memory
    }
}

/// The fault of a name that stands for nothing.
pub fn unknown(alloc: Global, line: u32, name: &Letters) -> CheckFault {
    match text_of(alloc, name.as_slice()) {
        Ok(name) => CheckFault::Unknown { line, name },
        Err(_) => CheckFault::Memory,
    }
}

/// The fault of a name that stands twice.
pub fn twice(alloc: Global, line: u32, name: &Letters) -> CheckFault {
    match text_of(alloc, name.as_slice()) {
        Ok(name) => CheckFault::Twice { line, name },
        Err(_) => CheckFault::Memory,
    }
}

fn text_of(alloc: Global, bytes: &[u8]) -> Result<String, AllocError> {
    let mut text = String::new(alloc);
    for byte in bytes {
        text.push(char::from(*byte))?;
    }
    Ok(text)
}
