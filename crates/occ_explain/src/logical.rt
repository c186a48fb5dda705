//! Whether physical lines stand in one logical line.
ghost use Rattle.std.specs.Prelude.{IfOk, IsTrue, map};
ghost use Rattle.occ_text.specs.Words.{logical_line_of};
ghost use Rattle.occ_explain.specs.Places.{IsNear, NoneBegins};

use occ_text::{Line, TextFault, read_lines};
use std::alloc::{AllocError, Global};

/// Whether none of these lines begins behind the first place, up to the second one.
#[tactic(auto, using(crate::proofs::Nearby::one_elsewhere))]
fn none_begins(mut lines: &[Line], from: u32, to: u32) -> bool
    ensures { IsTrue result → NoneBegins from to (map logical_line_of lines.entry.now) }
{
    while let [line, rest @ ..] = lines {
        if from < line.number && line.number <= to {
            return false;
        }
        lines = rest;
    }
    true
}

/// Whether no logical line of the text begins behind the first physical line, up to the second one; also where the text has no
/// logical lines.
pub(crate) fn is_near(alloc: Global, text: &[u8], from: u32, to: u32) -> Result<bool, AllocError>
    ensures { IfOk result (λ near. IsTrue near → IsNear text.now from to) }
{
    match read_lines(alloc, text) {
        Ok(source) => Ok(none_begins(source.lines.as_slice(), from, to)),
        Err(TextFault::Memory) => Err(AllocError),
        Err(_) => Ok(true),
    }
}
