//! The lines of a text.
ghost use Rattle.std.specs.Prelude.{◌≡◌, [], IsErr, MatchResult};
ghost use Rattle.occ_text.specs.Words.{logical_lines};
ghost use Rattle.occ_text.specs.declared.fault.TextFault.TheVariants.{Memory};
ghost use Rattle.occ_contracts.specs.Agreement.{Agree};

use occ_text::{Source, TextFault, read_lines};
use std::alloc::Global;

/// A text has one list of lines, or none.
pub fn read_twice(
    alloc: Global,
    text: &[u8],
) -> (Result<Source, TextFault>, Result<Source, TextFault>)
    ensures { Agree (λ s. logical_lines s.lines.items) (λ e. e ≡ Memory) result.0 result.1 }
{
    (read_lines(alloc, text), read_lines(alloc, text))
}

/// The empty text has no lines.
pub fn read_nothing(alloc: Global) -> Result<Source, TextFault>
    ensures { MatchResult result (λ s. logical_lines s.lines.items ≡ []) (λ e. e ≡ Memory) }
{
    read_lines(alloc, b"")
}

/// The text `$`, with which no word begins, is refused.
pub fn read_dollar(alloc: Global) -> Result<Source, TextFault>
    ensures { IsErr result }
{
    read_lines(alloc, b"$")
}
