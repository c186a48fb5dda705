//! A page for a browser, that shows runs.
ghost use Rattle.std.specs.Prelude.{◌≡◌, ◌++◌, IfOk, OnOk};
ghost use Rattle.occ_shown.specs.Pages.{IsPageData, IsPage, run_data, runs_data, shielded, shielded_byte, shielded_text};

use crate::object::hex_digit;
use crate::page_foot::FOOT;
use crate::page_head::HEAD;
use std::alloc::{AllocError, Global};

fn write_byte(out: &mut Vec<u8>, byte: u8) -> Result<(), AllocError>
    ensures { OnOk result (out.new.items ≡ out.old.items ++ shielded_byte byte) }
{
    match byte {
        b'\n' => out.extend_from_slice(&[byte]),
        b'<' | b'\\' | 0..=31 => out.extend_from_slice(&[
            b'\\',
            b'u',
            b'0',
            b'0',
            hex_digit(byte / 16),
            hex_digit(byte % 16),
        ]),
        _ => out.extend_from_slice(&[byte]),
    }
}

/// A text, and a form feed.
fn write_text(out: &mut Vec<u8>, text: &[u8]) -> Result<(), AllocError>
    ensures { OnOk result (out.new.items ≡ out.old.items ++ shielded_text text.now) }
{
    for i in 0..text.len() {
        write_byte(out, text[i])?;
    }
    out.push(12)?;
    Ok(())
}

/// What a page has of a run: a line that is told of it, which may be empty, the trace as lines of JSON, the lines of the turns, and the
/// report on the end.
#[derive(Drop)]
pub struct RunTexts {
    /// The line.
    pub head: Vec<u8>,
    /// The trace.
    pub trace: Vec<u8>,
    /// The turns.
    pub turns: Vec<u8>,
    /// The report.
    pub report: Vec<u8>,
}

fn write_run(out: &mut Vec<u8>, run: &RunTexts) -> Result<(), AllocError>
    ensures { OnOk result (out.new.items ≡ out.old.items ++ run_data run.now) }
{
    write_text(out, run.head.as_slice())?;
    write_text(out, run.trace.as_slice())?;
    write_text(out, run.turns.as_slice())?;
    write_text(out, run.report.as_slice())
}

fn write_runs(out: &mut Vec<u8>, runs: &[RunTexts]) -> Result<(), AllocError>
    ensures { OnOk result (out.new.items ≡ out.old.items ++ runs_data runs.now) }
{
    let mut rest = runs;
    while let Some((first, others)) = rest.split_first() {
        write_run(out, first)?;
        rest = others;
    }
    Ok(())
}

/// These texts as they stand in a page.
fn shielded_texts(
    alloc: Global,
    source: &[u8],
    names: &[u8],
    runs: &[RunTexts],
) -> Result<Vec<u8>, AllocError>
    ensures { IfOk result (IsPageData source.now names.now runs.now) }
{
    let mut out = Vec::new(alloc);
    write_text(&mut out, source)?;
    write_text(&mut out, names)?;
    write_runs(&mut out, runs)?;
    Ok(out)
}

/// A page that shows runs of a source in a browser: behind its beginning stand the source, the names of its processes, and the texts of
/// each run, and then its script. No byte of these texts begins markup.
///
/// # Errors
///
/// A refused growth.
pub fn page(
    alloc: Global,
    source: &[u8],
    names: &[u8],
    runs: &[RunTexts],
) -> Result<Vec<u8>, AllocError>
    ensures { IfOk result (IsPage source.now names.now runs.now) }
{
    let texts = shielded_texts(alloc, source, names, runs)?;
    let mut out = Vec::from_slice(alloc, HEAD.as_bytes())?;
    out.extend_from_slice(texts.as_slice())?;
    out.extend_from_slice(FOOT.as_bytes())?;
    Ok(out)
}
