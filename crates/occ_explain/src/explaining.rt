//! Explanations of refusals.
ghost use Rattle.std.specs.Prelude.{◌≡◌, ◌≤◌, IfOk, length, ℕ};
ghost use Rattle.std.specs.Str.Lines.{lines};
ghost use Rattle.occ_explain.specs.Causes.{TellsCause};
ghost use Rattle.occ_explain.specs.Places.{IsNear, IsPlace, line_numbered};

use crate::finding::{Spot, finding_of};
use crate::logical::is_near;
use crate::place::place_in;
use crate::refusal::Refusal;
use crate::scan::{Text, scan};
use std::alloc::{AllocError, Global};

/// Why a text is refused: where, what is wrong there, and how it is mended.
#[derive(Drop)]
pub struct Explanation<'a> {
    /// The number of the physical line, from 1.
    pub line: u32,
    /// The column, in bytes and from 1; behind the line's last byte it is their number and one.
    pub column: usize,
    /// The physical line, without its end.
    pub source: &'a [u8],
    /// What is wrong, in words.
    pub wrong: Vec<u8>,
    /// How it is mended; empty where there is nothing to say.
    pub hint: Vec<u8>,
}

/// The first word of a physical line, or its first byte where it has none.
fn first_of(text: &Text<'_>, line: u32) -> Spot
    ensures { result.line ≡ line }
{
    for word in &text.words {
        if word.line == line {
            return Spot {
                line,
                before: word.before,
            };
        }
    }
    Spot { line, before: 0 }
}

/// A place that was found, where it stands in the logical line that begins with the physical one of a refusal, or goes on there; the
/// first word of that physical line, where it stands in none of these. A refusal of no line has any place.
fn spot_in(
    alloc: Global,
    source: &[u8],
    text: &Text<'_>,
    line: u32,
    spot: Spot,
) -> Result<Spot, AllocError>
    ensures reached { IfOk result (λ s. line ≤ s.line) }
    ensures near { IfOk result (λ s. 1 ≤ line → IsNear source.now line s.line) }
{
    if line == 0 || spot.line >= line && is_near(alloc, source, line, spot.line)? {
        return Ok(spot);
    }
    Ok(first_of(text, line))
}

/// Why a text is refused. It takes any text and any refusal: of a line that the text has not it tells the last one.
///
/// # Errors
///
/// A refused growth.
pub fn explain<'a>(
    alloc: Global,
    source: &'a [u8],
    refusal: &Refusal<'_>,
) -> Result<Explanation<'a>, AllocError>
    ensures within { IfOk result (λ e. IsPlace source.now e.line e.column) }
    ensures shown { IfOk result (λ e. e.source.now ≡ line_numbered source.now e.line) }
    ensures near { IfOk result (λ e. 1 ≤ refusal.now.line
        → IsNear source.now refusal.now.line e.line) }
    ensures cause { IfOk result (λ e. TellsCause refusal.now.number e.wrong.items) }
    ensures some { IfOk result (λ e. 1 ≤ length e.wrong.items) }
    ensures reached { IfOk result (λ e. refusal.now.line ≤ length (lines source.now)
        → refusal.now.line ≤ e.line) }
{
    let text = scan(alloc, source)?;
    let finding = finding_of(alloc, &text, refusal)?;
    let spot = spot_in(alloc, source, &text, refusal.line, finding.spot)?;
    let place = place_in(source, spot.line, spot.before);
    Ok(Explanation {
        line: place.line,
        column: place.column,
        source: place.shown,
        wrong: finding.wrong,
        hint: finding.hint,
    })
}
