//! The sequence chart of a run, in SVG.
ghost use Rattle.std.specs.Prelude.{◌≡◌, ◌≤◌, ◌^◌, IfOk, OnOk, codes, length};
ghost use Rattle.occ_chart.specs.Charts.{ChartOf, IsPicture, PutsFoot, above, after_of, after_words, before_of, before_words, corners, ending_words, is_cut, notes_depth, row_below, svg_opening};
ghost use Rattle.occ_chart.specs.Places.{AreNear};
ghost use Rattle.occ_chart.specs.Xml.{AddsAttribute};
ghost use Rattle.occ_shown.specs.Answers.{AddsText, HasBytes};

use crate::arrows::{row, rows_of, write_arrows};
use crate::columns::columns;
use crate::feet::{write_reasons, write_stubs};
use crate::headings::{Head, heads_over};
use crate::heads::{write_heads, write_heads_again, write_lifelines};
use crate::left_out::seen_feet;
use crate::notes::{
    Notes, after_words, before_words, ending_words, picture_letters, write_before, write_circle,
    write_note,
};
use crate::part::{Part, count_seen, listed};
use crate::places::{Layout, laid_out};
use crate::reaches::reaches_of;
use crate::stub::Stub;
use crate::xml::{write_attribute, write_number};
use occ_board::Shown;
use occ_net_tables::Trace;
use occ_term::{Channel, End, Ending};
use std::alloc::{AllocError, Global};

/// The corners of a picture.
#[tactic(auto, unfolding(crate::specs::Charts::corners))]
fn corners(alloc: Global, width: u64, height: u64) -> Result<String, AllocError>
    ensures { IfOk result (λ text. text.bytes.items ≡ corners width height) }
{
    let text = format!(in alloc; "0 0 {width} {height}")?;
    Ok(text)
}

/// By which a browser scales it.
fn write_corners(
    alloc: Global,
    out: &mut Vec<u8>,
    width: u64,
    height: u64,
) -> Result<(), AllocError>
    ensures { OnOk result
        (AddsAttribute out.old out.new (codes "viewBox") (corners width height)) }
{
    let text = corners(alloc, width, height)?;
    write_attribute(out, b"viewBox", text.as_bytes())
}

/// The opening tag, and the ground.
#[tactic(auto, unfolding(crate::specs::Charts::svg_opening))]
fn write_opening(
    alloc: Global,
    out: &mut Vec<u8>,
    width: u64,
    height: u64,
) -> Result<(), AllocError>
    ensures { OnOk result (AddsText out.old out.new (svg_opening width height)) }
{
    out.extend_from_slice(b"<svg xmlns=\"http://www.w3.org/2000/svg\"")?;
    write_number(alloc, out, b"width", width)?;
    write_number(alloc, out, b"height", height)?;
    write_corners(alloc, out, width, height)?;
    out.extend_from_slice(
        b" font-family=\"DejaVu Sans Mono, Consolas, Menlo, monospace\" font-size=\"11\" text-anchor=\"middle\">\n<rect width=\"100%\" height=\"100%\" fill=\"white\"></rect>\n",
    )?;
    Ok(())
}

/// The height of the row below so many communications.
fn row_below(layout: &Layout, count: usize) -> u64
    requires { count ≤ 990 }
    ensures is { result ≡ row_below layout.now.close count }
    ensures high { result ≤ 2 ^ 39 }
{
    row(rows_of(layout, count))
}

/// What stands over the foot.
fn above(
    alloc: Global,
    layout: &Layout,
    heads: &[Head],
    columns: &[End],
    shown: &[Shown],
    letters: usize,
    before: &[u8],
) -> Result<Vec<u8>, AllocError>
    requires places { AreNear layout.now.places }
    requires near { length shown.now ≤ 990 }
    requires wide { letters ≤ 2 ^ 47 }
    ensures { IfOk result
        (HasBytes (above layout.now heads.now columns.now shown.now letters before.now)) }
{
    let bottom = row_below(layout, shown.len());
    let width = 7 * letters as u64;
    let height = bottom + layout.if_close(72) + 132;
    let mut out = Vec::new(alloc);
    write_opening(alloc, &mut out, width, height)?;
    write_lifelines(alloc, &mut out, layout, bottom, columns)?;
    write_heads(alloc, &mut out, heads, layout, 18)?;
    write_before(alloc, &mut out, layout.if_close(30) + 50, before)?;
    write_arrows(alloc, &mut out, heads, layout, columns, shown)?;
    Ok(out)
}

/// In which height notes stand below the last row.
fn notes_depth(layout: &Layout, bottom: u64) -> u64
    requires { bottom ≤ 2 ^ 39 }
    ensures is { result ≡ notes_depth layout.now bottom }
    ensures high { result ≤ 2 ^ 40 }
{
    bottom + layout.if_close(72) + 80
}

/// The foot.
fn write_below(
    alloc: Global,
    out: &mut Vec<u8>,
    layout: &Layout,
    heads: &[Head],
    columns: &[End],
    count: usize,
    stubs: &[Stub],
    letters: usize,
    notes: &Notes,
    circle: &[u32],
) -> Result<(), AllocError>
    requires places { AreNear layout.now.places }
    requires near { count ≤ 990 }
    ensures { PutsFoot result out.old out.new layout.now heads.now columns.now count stubs.now
        letters notes.now circle.now }
{
    let bottom = row_below(layout, count);
    let depth = notes_depth(layout, bottom);
    write_stubs(alloc, out, layout, columns, bottom, stubs)?;
    write_reasons(alloc, out, layout, columns, bottom, stubs)?;
    write_heads_again(alloc, out, heads, layout, bottom, count)?;
    write_note(alloc, out, depth, notes.ending.as_slice())?;
    write_note(alloc, out, depth + 18, notes.after.as_slice())?;
    write_circle(alloc, out, letters, depth + 36, circle)?;
    out.extend_from_slice(b"</svg>\n")
}

/// The whole: these communications and who stands at the foot, in these columns.
fn picture(
    alloc: Global,
    heads: &[Head],
    columns: &[End],
    shown: &[Shown],
    stubs: &[Stub],
    notes: &Notes,
    circle: &[u32],
) -> Result<Vec<u8>, AllocError>
    requires { length shown.now ≤ 990 }
    ensures { IfOk result
        (IsPicture heads.now columns.now shown.now stubs.now notes.now circle.now) }
{
    let between = reaches_of(alloc, columns, shown)?;
    let standing = laid_out(alloc, between.as_slice(), heads)?;
    let letters = picture_letters(&standing, notes);
    let before = notes.before.as_slice();
    let mut out = above(alloc, &standing, heads, columns, shown, letters, before)?;
    let count = shown.len();
    write_below(
        alloc, &mut out, &standing, heads, columns, count, stubs, letters, notes, circle,
    )?;
    Ok(out)
}

/// What is noted of a run where so many of its communications are seen, and so many others are between processes that are left out.
fn notes_of(
    alloc: Global,
    part: Part,
    all: usize,
    among: usize,
    ending: Ending,
) -> Result<Notes, AllocError>
    ensures before { IfOk result (λ notes.
        notes.before.items ≡ before_words (before_of part all) (is_cut part all)) }
    ensures after { IfOk result (λ notes.
        notes.after.items ≡ after_words (after_of part all) (is_cut part all)) }
    ensures ending { IfOk result (λ notes. notes.ending.items ≡ ending_words ending among) }
{
    let (rest, is_cut) = (all - part.count(all), part.is_cut(all));
    let before = before_words(alloc, part.if_last(rest), is_cut)?;
    let after = after_words(alloc, part.if_first(rest), is_cut)?;
    let ending = ending_words(alloc, ending, among)?;
    Ok(Notes {
        before,
        after,
        ending,
    })
}

/// The sequence chart of a run, as a text in SVG: a column for each process and each of the keyboard, the screen and
/// the error channel that takes part, and from top to bottom an arrow for each of the communications that are asked for,
/// with the channel's name and the message. At its foot stand those of `stubs`, how the run ended, how many more
/// communications there were, and the circle of processes that wait for one another, where one is given. A process is
/// called by its number and the name that `names` has at that place, if any.
///
/// `left_out` says of each process, by its number, whether it has no column of its own. All such processes have one together. What one
/// of them says to another, and what one of them waits for, is not drawn.
///
/// # Errors
///
/// A refused growth.
pub fn chart(
    alloc: Global,
    trace: &Trace,
    channels: &[Channel],
    left_out: &[bool],
    part: Part,
    ending: Ending,
    names: &[Vec<u8>],
    stubs: &[Stub],
    circle: &[u32],
) -> Result<Vec<u8>, AllocError>
    ensures { IfOk result
        (ChartOf channels.now trace.now left_out.now part ending names.now stubs.now circle.now) }
{
    let entries = trace.entries();
    let all = count_seen(&entries, left_out);
    let (count, among) = (part.count(all), entries.len() - all);
    let skipped = part.if_last(all - count);
    let list = listed(alloc, &entries, left_out, skipped, count, channels)?;
    let standing = seen_feet(alloc, stubs, left_out)?;
    let (shown, feet) = (list.as_slice(), standing.as_slice());
    let found = columns(alloc, shown, feet)?;
    let columns = found.as_slice();
    let over = heads_over(alloc, names, left_out, feet, columns)?;
    let notes = notes_of(alloc, part, all, among, ending)?;
    let heads = over.as_slice();
    let bytes = picture(alloc, heads, columns, shown, feet, &notes, circle)?;
    Ok(bytes)
}
