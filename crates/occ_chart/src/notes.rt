//! What is noted beside the arrows of a chart.
ghost use Rattle.std.specs.Prelude.{◌≡◌, ◌++◌, ◌+◌, ◌-◌, ◌≤◌, ◌^◌, ◌∷◌, [], IfOk, OnOk, codes, length, max, min};
ghost use Rattle.occ_chart.specs.Charts.{after_words, among_words, before_words, circle_label, circle_words, cut_words, ending_words, letters_with, note, note_before, note_circle};
ghost use Rattle.occ_chart.specs.Places.{AreNear};
ghost use Rattle.occ_chart.specs.Xml.{AddsElement, AddsElements};

use crate::labels::{write_ground, write_label};
use crate::places::{Layout, last_place};
use crate::xml::{Style, write_text};
use occ_shown::write_numbers;
use occ_term::Ending;
use std::alloc::{AllocError, Global};

/// What is noted of a run.
#[derive(Drop)]
pub(crate) struct Notes {
    /// How many communications came before those that are drawn.
    pub before: Vec<u8>,
    /// How many come after them.
    pub after: Vec<u8>,
    /// How the run ended, and how many are not drawn in between.
    pub ending: Vec<u8>,
}

/// What is said where fewer are drawn than were asked for.
fn cut_words(is_cut: bool) -> &'static [u8]
    ensures { result.now ≡ cut_words is_cut }
{
    if is_cut {
        b"; a picture has 990 arrows at most"
    } else {
        b""
    }
}

/// How many communications came before those that are drawn; nothing where none did.
pub(crate) fn before_words(alloc: Global, count: usize, is_cut: bool) -> Result<Vec<u8>, AllocError>
    ensures { IfOk result (λ words. words.items ≡ before_words count is_cut) }
{
    if count == 0 {
        return Ok(Vec::new(alloc));
    }
    let text = format!(in alloc; "and {count} before")?;
    let mut words = Vec::from_slice(alloc, text.as_bytes())?;
    words.extend_from_slice(cut_words(is_cut))?;
    Ok(words)
}

/// How many communications come after those that are drawn; nothing where none do.
pub(crate) fn after_words(alloc: Global, count: usize, is_cut: bool) -> Result<Vec<u8>, AllocError>
    ensures { IfOk result (λ words. words.items ≡ after_words count is_cut) }
{
    if count == 0 {
        return Ok(Vec::new(alloc));
    }
    let text = format!(in alloc; "{count} more")?;
    let mut words = Vec::from_slice(alloc, text.as_bytes())?;
    words.extend_from_slice(cut_words(is_cut))?;
    Ok(words)
}

/// How many are not drawn since both ends are left out; nothing where none are.
fn among_words(alloc: Global, count: usize) -> Result<Vec<u8>, AllocError>
    ensures { IfOk result (λ words. words.items ≡ among_words count) }
{
    if count == 0 {
        return Ok(Vec::new(alloc));
    }
    let text = format!(in alloc; "; among the others {count} more")?;
    Vec::from_slice(alloc, text.as_bytes())
}

/// How the run ended, and how many are not drawn since both ends are left out.
pub(crate) fn ending_words(
    alloc: Global,
    ending: Ending,
    among: usize,
) -> Result<Vec<u8>, AllocError>
    ensures { IfOk result (λ words. words.items ≡ ending_words ending among) }
{
    let text = format!(in alloc; "{ending}")?;
    let more = among_words(alloc, among)?;
    let mut words = Vec::from_slice(alloc, text.as_bytes())?;
    words.extend_from_slice(more.as_slice())?;
    Ok(words)
}

/// How wide a picture with these notes is, in letters.
pub(crate) fn picture_letters(layout: &Layout, notes: &Notes) -> usize
    requires { AreNear layout.now.places }
    ensures is { result ≡ letters_with layout.now notes.now }
    ensures near { result ≤ 2 ^ 47 }
{
    let longest = notes
        .before
        .len()
        .max(notes.after.len())
        .max(notes.ending.len());
    (last_place(layout.places()) as usize + 12).max(longest.min(100) + 3)
}

/// A note in this height, where there are words.
pub(crate) fn write_note(
    alloc: Global,
    out: &mut Vec<u8>,
    y: u64,
    words: &[u8],
) -> Result<(), AllocError>
    ensures { OnOk result (AddsElements out.old out.new (note y words.now)) }
{
    if words.is_empty() {
        return Ok(());
    }
    write_text(alloc, out, Style::Note, 10, y, b"", words)
}

/// A note over the lines of the columns, where there are words.
pub(crate) fn write_before(
    alloc: Global,
    out: &mut Vec<u8>,
    y: u64,
    words: &[u8],
) -> Result<(), AllocError>
    ensures { OnOk result (AddsElements out.old out.new (note_before y words.now)) }
{
    if words.is_empty() {
        return Ok(());
    }
    let width = 7 * words.len().min(100) as u64;
    write_ground(alloc, out, 8, y.saturating_sub(12), width)?;
    write_text(alloc, out, Style::Note, 10, y, b"", words)
}

/// What is said of processes that wait for one another in a circle.
fn circle_words(alloc: Global, circle: &[u32]) -> Result<Vec<u8>, AllocError>
    ensures { IfOk result (λ words. words.items ≡ circle_words circle.now) }
{
    let mut words = Vec::from_slice(alloc, b"a circle waits:")?;
    write_numbers(&mut words, circle)?;
    Ok(words)
}

fn write_circle_words(
    alloc: Global,
    out: &mut Vec<u8>,
    letters: usize,
    y: u64,
    circle: &[u32],
) -> Result<(), AllocError>
    ensures { OnOk result
        (AddsElement out.old out.new (circle_label letters y circle.now)) }
{
    let words = circle_words(alloc, circle)?;
    let text = words.as_slice();
    write_label(alloc, out, Style::RedNote, 10, y, letters, text)
}

/// A circle of processes that wait for one another, where one is given.
pub(crate) fn write_circle(
    alloc: Global,
    out: &mut Vec<u8>,
    letters: usize,
    y: u64,
    circle: &[u32],
) -> Result<(), AllocError>
    ensures { OnOk result
        (AddsElements out.old out.new (note_circle letters y circle.now)) }
{
    match circle.split_first() {
        Some(_) => write_circle_words(alloc, out, letters, y, circle),
        None => Ok(()),
    }
}
