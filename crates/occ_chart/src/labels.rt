//! Writes words into the room that they have.
ghost use Rattle.std.specs.Prelude.{◌≡◌, ◌<◌, ◌≤◌, ◌^◌, IfOk, OnOk, length};
ghost use Rattle.occ_chart.specs.Charts.{grounded};
ghost use Rattle.occ_chart.specs.Shapes.{area, cut, ground, label};
ghost use Rattle.occ_chart.specs.Xml.{AddsElement, AddsElements};

use crate::xml::{Style, write_area, write_text};
use std::alloc::{AllocError, Global};

/// The first letters, and dots.
fn cut(alloc: Global, room: usize, words: &[u8]) -> Result<Vec<u8>, AllocError>
    requires { room < length words.now }
    ensures { IfOk result (λ text. text.items ≡ cut room words.now) }
{
    let kept = room.saturating_sub(3);
    let mut text = Vec::from_slice(alloc, &words[..kept])?;
    text.extend_from_slice(b"...")?;
    Ok(text)
}

/// Words in so much room. Where they are longer, they are cut, and stand whole in the title.
pub(crate) fn write_label(
    alloc: Global,
    out: &mut Vec<u8>,
    style: Style,
    x: u64,
    y: u64,
    room: usize,
    words: &[u8],
) -> Result<(), AllocError>
    ensures { OnOk result (AddsElement out.old out.new (label style x y room words.now)) }
{
    if room < words.len() {
        let short = cut(alloc, room, words)?;
        write_text(alloc, out, style, x, y, words, short.as_slice())
    } else {
        write_text(alloc, out, style, x, y, b"", words)
    }
}

/// The course round a part of a row.
#[tactic(auto, unfolding(crate::specs::Shapes::ground))]
fn ground(alloc: Global, x: u64, y: u64, width: u64) -> Result<String, AllocError>
    ensures { IfOk result (λ text. text.bytes.items ≡ ground x y width) }
{
    let text = format!(in alloc; "M {x} {y} h {width} v 14 h -{width} z")?;
    Ok(text)
}

/// A white part of a row.
pub(crate) fn write_ground(
    alloc: Global,
    out: &mut Vec<u8>,
    x: u64,
    y: u64,
    width: u64,
) -> Result<(), AllocError>
    ensures { OnOk result (AddsElement out.old out.new (area (ground x y width))) }
{
    let course = ground(alloc, x, y, width)?;
    write_area(out, course.as_bytes())
}

/// Words in so much room, on a white ground of 7 points for each letter.
pub(crate) fn write_grounded(
    alloc: Global,
    out: &mut Vec<u8>,
    style: Style,
    x: u64,
    y: u64,
    room: usize,
    words: &[u8],
) -> Result<(), AllocError>
    requires { room ≤ 2 ^ 47 }
    ensures { OnOk result (AddsElements out.old out.new (grounded style x y room words.now)) }
{
    let width = 7 * room.min(words.len()) as u64;
    let left = x.saturating_sub(width / 2);
    write_ground(alloc, out, left, y.saturating_sub(11), width)?;
    write_label(alloc, out, style, x, y, room, words)
}
