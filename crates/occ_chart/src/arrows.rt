//! The arrows of communications.
ghost use Rattle.std.specs.Prelude.{◌≡◌, ◌++◌, ◌≤◌, ◌^◌, IfOk, OnOk, length};
ghost use Rattle.occ_chart.specs.Charts.{PutsArrows, arrow, arrow_from, PutsBreak, rows_left, row, row_behind, rows_of};
ghost use Rattle.occ_chart.specs.Places.{AreNear, if_close};
ghost use Rattle.occ_chart.specs.Labels.{arrow_words, numbered_words};
ghost use Rattle.occ_chart.specs.Shapes.{along, leftward, rightward};
ghost use Rattle.occ_chart.specs.Xml.{AddsElements};

use crate::columns::place_of;
use crate::headings::Head;
use crate::heads::write_heads;
use crate::labels::write_grounded;
use crate::messages::write_items;
use crate::places::Layout;
use crate::xml::{Style, write_path};
use occ_board::Shown;
use occ_term::End;
use std::alloc::{AllocError, Global};

/// The height of a row.
pub(crate) fn row(number: usize) -> u64
    requires { number ≤ 2 ^ 40 }
    ensures { result ≡ row number }
{
    30 * number as u64 + 80
}

/// The course of a line to the right along a row, with a head where it ends.
#[tactic(auto, unfolding(crate::specs::Shapes::rightward))]
fn rightward(alloc: Global, from: u64, to: u64, y: u64) -> Result<String, AllocError>
    ensures { IfOk result (λ text. text.bytes.items ≡ rightward from to y) }
{
    let text = format!(in alloc; "M {from} {y} H {to} l -8 -4 m 8 4 l -8 4")?;
    Ok(text)
}

/// The same to the left.
#[tactic(auto, unfolding(crate::specs::Shapes::leftward))]
fn leftward(alloc: Global, from: u64, to: u64, y: u64) -> Result<String, AllocError>
    ensures { IfOk result (λ text. text.bytes.items ≡ leftward from to y) }
{
    let text = format!(in alloc; "M {from} {y} H {to} l 8 -4 m -8 4 l 8 4")?;
    Ok(text)
}

fn along(alloc: Global, from: u64, to: u64, y: u64) -> Result<String, AllocError>
    ensures { IfOk result (λ text. text.bytes.items ≡ along from to y) }
{
    if from < to {
        rightward(alloc, from, to, y)
    } else {
        leftward(alloc, from, to, y)
    }
}

/// The channel's name and the message of a communication, a single byte with its character where it is printed ASCII.
///
/// # Errors
///
/// A refused growth.
pub fn words_of(alloc: Global, shown: &Shown) -> Result<Vec<u8>, AllocError>
    ensures { IfOk result (λ words. words.items ≡ arrow_words shown.now) }
{
    let mut words = Vec::new(alloc);
    shown.name().write(alloc, &mut words)?;
    words.push(b' ')?;
    let items = shown.message().items.as_slice();
    match shown.tag() {
        Some(tag) => write_items(alloc, &mut words, Some(tag.as_slice()), items)?,
        None => write_items(alloc, &mut words, None, items)?,
    }
    Ok(words)
}

/// The number of a communication in the trace, and those words.
pub(crate) fn numbered_words(alloc: Global, shown: &Shown) -> Result<Vec<u8>, AllocError>
    ensures { IfOk result (λ words. words.items ≡ numbered_words shown.now) }
{
    let number = format!(in alloc; "{}: ", shown.number())?;
    let mut text = Vec::from_slice(alloc, number.as_bytes())?;
    let words = words_of(alloc, shown)?;
    text.extend_from_slice(words.as_slice())?;
    Ok(text)
}

/// How many rows so many communications take.
#[tactic(auto, using(crate::proofs::Drawing::row_most, crate::proofs::Drawing::rows_step))]
pub(crate) fn rows_of(layout: &Layout, count: usize) -> usize
    requires { count ≤ 990 }
    ensures is { result ≡ rows_of layout.now.close 30 (if_close layout.now.close 1) count }
    ensures few { result ≤ 3000 }
{
    let (mut rows, mut left) = (layout.if_close(1) as usize, 30);
    for _ in 0..count {
        rows = row_behind(layout, left, rows) + 1;
        left = rows_left(left);
    }
    rows
}

/// The arrow of a communication from one column to another, in this row.
fn write_arrow_from(
    alloc: Global,
    out: &mut Vec<u8>,
    layout: &Layout,
    from: usize,
    to: usize,
    number: usize,
    shown: &Shown,
) -> Result<(), AllocError>
    requires places { AreNear layout.now.places }
    requires near { number ≤ 2 ^ 40 }
    ensures { OnOk result
        (AddsElements out.old out.new (arrow_from layout.now from to number shown.now)) }
{
    let course = along(alloc, layout.column(from), layout.column(to), row(number))?;
    write_path(out, course.as_bytes(), b"black")?;
    let words = numbered_words(alloc, shown)?;
    let middle = layout.halfway(from, to);
    let height = 30 * number as u64 + 74;
    let room = layout.words_room(from, to);
    let text = words.as_slice();
    write_grounded(alloc, out, Style::Plain, middle, height, room, text)
}

/// The arrow of a communication, in this row.
fn write_arrow(
    alloc: Global,
    out: &mut Vec<u8>,
    layout: &Layout,
    columns: &[End],
    number: usize,
    shown: &Shown,
) -> Result<(), AllocError>
    requires places { AreNear layout.now.places }
    requires near { number ≤ 2 ^ 40 }
    ensures { OnOk result
        (AddsElements out.old out.new (arrow layout.now columns.now number shown.now)) }
{
    let from = place_of(columns, shown.sender());
    let to = place_of(columns, shown.receiver());
    write_arrow_from(alloc, out, layout, from, to, number, shown)
}

/// The heads again, in rows of their own, where no other row is left before them.
fn write_break(
    alloc: Global,
    out: &mut Vec<u8>,
    heads: &[Head],
    layout: &Layout,
    left: usize,
    number: usize,
) -> Result<(), AllocError>
    requires places { AreNear layout.now.places }
    requires near { number ≤ 2 ^ 40 }
    ensures { PutsBreak result out.old out.new heads.now layout.now left number }
{
    if left == 0 {
        let height = 30 * number as u64 + 70;
        return write_heads(alloc, out, heads, layout, height);
    }
    Ok(())
}

/// The row of the next arrow, where so many rows are left before heads stand again.
fn row_behind(layout: &Layout, left: usize, number: usize) -> usize
    requires { number ≤ 2 ^ 40 }
    ensures { result ≡ row_behind layout.now.close left number }
{
    if left == 0 {
        number + layout.head_rows()
    } else {
        number
    }
}

/// How many rows are left behind it.
fn rows_left(left: usize) -> usize
    ensures { result ≡ rows_left left }
{
    if left == 0 { 29 } else { left - 1 }
}

/// The arrow of each communication, in a row of its own, and the heads again before each 30 behind the first ones.
pub(crate) fn write_arrows(
    alloc: Global,
    out: &mut Vec<u8>,
    heads: &[Head],
    layout: &Layout,
    columns: &[End],
    shown: &[Shown],
) -> Result<(), AllocError>
    requires places { AreNear layout.now.places }
    requires near { length shown.now ≤ 990 }
    ensures { PutsArrows result out.old out.new heads.now layout.now columns.now shown.now }
{
    let (mut number, mut left) = (layout.if_close(1) as usize, 30);
    let mut rest = shown;
    while let Some((first, others)) = rest.split_first() {
        write_break(alloc, out, heads, layout, left, number)?;
        let row = row_behind(layout, left, number);
        write_arrow(alloc, out, layout, columns, row, first)?;
        number = row + 1;
        left = rows_left(left);
        rest = others;
    }
    Ok(())
}
