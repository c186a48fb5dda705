//! The heads of columns, and the lines down from them.
ghost use Rattle.std.specs.Prelude.{◌≡◌, ◌≤◌, ◌^◌, IfOk, OnOk, codes};
ghost use Rattle.occ_chart.specs.Charts.{drawn_head, drawn_heads, heads_again, lifelines, name_label};
ghost use Rattle.occ_chart.specs.Places.{AreNear};
ghost use Rattle.occ_chart.specs.Labels.{end_name, texts_of};
ghost use Rattle.occ_chart.specs.Shapes.{down, path};
ghost use Rattle.occ_chart.specs.Xml.{AddsElement, AddsElements};
ghost use Rattle.occ_shown.specs.Answers.{end_text, AddsText};

use crate::headings::Head;
use crate::labels::write_grounded;
use crate::places::Layout;
use crate::xml::{Style, write_path};
use occ_term::End;
use std::alloc::{AllocError, Global};

/// The name of an end: `p` and a process's number, or what else it is.
///
/// # Errors
///
/// A refused growth.
pub fn write_end(alloc: Global, out: &mut Vec<u8>, end: End) -> Result<(), AllocError>
    ensures { OnOk result (AddsText out.old out.new (end_text end)) }
{
    match end {
        End::Process(number) => {
            let text = format!(in alloc; "p{number}")?;
            out.extend_from_slice(text.as_bytes())
        }
        End::Keyboard => out.extend_from_slice(b"keyboard"),
        End::Screen => out.extend_from_slice(b"screen"),
        End::Error => out.extend_from_slice(b"error"),
    }
}

/// The same as a text of its own.
pub(crate) fn end_text(alloc: Global, end: End) -> Result<Vec<u8>, AllocError>
    ensures { IfOk result (λ text. text.items ≡ end_text end) }
{
    let mut text = Vec::new(alloc);
    write_end(alloc, &mut text, end)?;
    Ok(text)
}

/// The name that an end has.
pub(crate) fn name_of(names: &[Vec<u8>], end: End) -> &[u8]
    ensures { result.now ≡ end_name (texts_of names.now) end }
{
    match end {
        End::Process(number) => match names.get(number as usize) {
            Some(name) => name.as_slice(),
            None => &[],
        },
        End::Keyboard => &[],
        End::Screen => &[],
        End::Error => &[],
    }
}

/// The name of the PROC that a process runs, where it has one.
fn write_name(
    alloc: Global,
    out: &mut Vec<u8>,
    x: u64,
    y: u64,
    name: &[u8],
) -> Result<(), AllocError>
    ensures { OnOk result (AddsElements out.old out.new (name_label x y name.now)) }
{
    if name.is_empty() {
        return Ok(());
    }
    write_grounded(alloc, out, Style::Plain, x, y, 24, name)
}

/// What stands over a column, at this place.
#[tactic(auto, using(crate::proofs::Drawing::both_put))]
fn write_head(
    alloc: Global,
    out: &mut Vec<u8>,
    x: u64,
    y: u64,
    head: &Head,
) -> Result<(), AllocError>
    requires { y ≤ 2 ^ 47 }
    ensures { OnOk result (AddsElements out.old out.new (drawn_head x y head.now)) }
{
    write_name(alloc, out, x, y, head.name())?;
    write_grounded(alloc, out, Style::Plain, x, y + 14, 24, head.below())
}

/// The heads of the columns, in this height.
#[tactic(auto, using(crate::proofs::Drawing::put_next))]
pub(crate) fn write_heads(
    alloc: Global,
    out: &mut Vec<u8>,
    heads: &[Head],
    layout: &Layout,
    y: u64,
) -> Result<(), AllocError>
    requires near { AreNear layout.now.places }
    requires high { y ≤ 2 ^ 46 }
    ensures { OnOk result
        (AddsElements out.old out.new (drawn_heads layout.now y 0 heads.now)) }
{
    for i in 0..heads.len() {
        let height = y + layout.head_depth(i);
        write_head(alloc, out, layout.column(i), height, &heads[i])?;
    }
    Ok(())
}

/// The heads again, under a long chart.
pub(crate) fn write_heads_again(
    alloc: Global,
    out: &mut Vec<u8>,
    heads: &[Head],
    layout: &Layout,
    y: u64,
    count: usize,
) -> Result<(), AllocError>
    requires near { AreNear layout.now.places }
    requires bottom { y ≤ 2 ^ 40 }
    ensures { OnOk result
        (AddsElements out.old out.new (heads_again heads.now layout.now y count)) }
{
    if count > 15 {
        let height = y + layout.if_close(42) + 46;
        return write_heads(alloc, out, heads, layout, height);
    }
    Ok(())
}

/// The course of a line down a column.
#[tactic(auto, unfolding(crate::specs::Shapes::down))]
fn down(alloc: Global, x: u64, bottom: u64) -> Result<String, AllocError>
    ensures { IfOk result (λ text. text.bytes.items ≡ down x bottom) }
{
    let text = format!(in alloc; "M {x} 38 V {bottom}")?;
    Ok(text)
}

fn write_lifeline(alloc: Global, out: &mut Vec<u8>, x: u64, bottom: u64) -> Result<(), AllocError>
    ensures { OnOk result (AddsElement out.old out.new (path (down x bottom) (codes "silver"))) }
{
    let course = down(alloc, x, bottom)?;
    write_path(out, course.as_bytes(), b"silver")
}

/// The lines down from the heads.
pub(crate) fn write_lifelines(
    alloc: Global,
    out: &mut Vec<u8>,
    layout: &Layout,
    bottom: u64,
    columns: &[End],
) -> Result<(), AllocError>
    requires { AreNear layout.now.places }
    ensures { OnOk result
        (AddsElements out.old out.new (lifelines layout.now bottom 0 columns.now)) }
{
    let mut place = 0;
    let mut rest = columns;
    while let Some((_, others)) = rest.split_first() {
        write_lifeline(alloc, out, layout.column(place), bottom)?;
        place += 1;
        rest = others;
    }
    Ok(())
}
