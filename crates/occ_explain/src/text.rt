//! How an explanation is written.
ghost use Rattle.std.specs.Prelude.{[], ◌≡◌, ◌≤◌, ◌++◌, ◌∷◌, IfOk, OnOk, drop, length, replicate};
ghost use Rattle.std.specs.Str.{IsAscii};
ghost use Rattle.occ_files.specs.Names.{printed_name};
ghost use Rattle.occ_explain.specs.Explanations.{caret_line, explanation_text, first_line, hint_line, printable, shown_byte, source_line};

use crate::explaining::Explanation;
use occ_files::printed_name;
use std::alloc::{AllocError, Global};

fn shown_byte(byte: u8) -> u8
    ensures { result ≡ shown_byte byte }
{
    if byte < b' ' || byte > b'~' {
        b'?'
    } else {
        byte
    }
}

/// The bytes, and a question mark for each that would move a terminal or is no ASCII.
fn shown(alloc: Global, bytes: &[u8]) -> Result<Vec<u8>, AllocError>
    ensures { IfOk result (λ v. v.items ≡ printable bytes.now) }
{
    bytes.iter().map(|byte| shown_byte(*byte)).collect(alloc)
}

/// A line: some bytes, and others as they are shown.
fn write_line(
    alloc: Global,
    out: &mut Vec<u8>,
    before: &[u8],
    bytes: &[u8],
) -> Result<(), AllocError>
    ensures { OnOk result (out.new.items
        ≡ out.old.items ++ before.now ++ printable bytes.now ++ 10 ∷ []) }
{
    out.extend_from_slice(before)?;
    let bytes = shown(alloc, bytes)?;
    out.extend_from_slice(bytes.as_slice())?;
    out.extend_from_slice(b"\n")
}

/// The place, and what is wrong there.
fn write_first(
    alloc: Global,
    out: &mut Vec<u8>,
    file: &[u8],
    line: u32,
    column: usize,
    wrong: &[u8],
) -> Result<(), AllocError>
    ensures { OnOk result (out.new.items ≡ out.old.items
        ++ first_line file.now line column wrong.now) }
{
    let name = printed_name(alloc, file)?;
    out.extend_from_slice(name.as_slice())?;
    let place = format!(in alloc; ":{line}:{column}: ")?;
    write_line(alloc, out, place.as_bytes(), wrong)
}

/// The line of the text, behind its number.
fn write_source(
    alloc: Global,
    out: &mut Vec<u8>,
    line: u32,
    source: &[u8],
) -> Result<(), AllocError>
    ensures { OnOk result (out.new.items ≡ out.old.items ++ source_line line source.now) }
{
    let head = format!(in alloc; "{line} | ")?;
    write_line(alloc, out, head.as_bytes(), source)
}

fn write_spaces(alloc: Global, out: &mut Vec<u8>, count: usize) -> Result<(), AllocError>
    ensures { OnOk result (out.new.items ≡ out.old.items ++ replicate count 32) }
{
    let spaces = vec![in alloc; b' '; count]?;
    out.extend_from_slice(spaces.as_slice())
}

/// A caret under the column.
fn write_caret(alloc: Global, out: &mut Vec<u8>, line: u32, column: usize) -> Result<(), AllocError>
    ensures { OnOk result (out.new.items ≡ out.old.items ++ caret_line line column) }
{
    let number = format!(in alloc; "{line}")?;
    write_spaces(alloc, out, number.len())?;
    out.extend_from_slice(b" | ")?;
    write_spaces(alloc, out, column.saturating_sub(1))?;
    out.extend_from_slice(b"^\n")
}

/// The hint, where there is one.
fn write_hint(alloc: Global, out: &mut Vec<u8>, hint: &[u8]) -> Result<(), AllocError>
    ensures { OnOk result (out.new.items ≡ out.old.items ++ hint_line hint.now) }
{
    if hint.is_empty() {
        return Ok(());
    }
    write_line(alloc, out, b"  ", hint)
}

/// An explanation as it is printed: `FILE:LINE:COLUMN: what is wrong`, the line behind its number, a caret under the
/// column, and the hint where there is one. A byte that would move a terminal, or is no ASCII, is shown as a question mark; the name
/// of the file is printed as all names are.
///
/// # Errors
///
/// A refused growth.
#[tactic(auto, unfolding(crate::specs::Explanations::explained_text), using(crate::proofs::Ascii::explained_is_ascii))]
pub fn explained(
    alloc: Global,
    file: &[u8],
    explanation: &Explanation<'_>,
) -> Result<Vec<u8>, AllocError>
    ensures ascii { IfOk result (λ v. IsAscii (drop (length (printed_name file.now)) v.items)) }
    ensures written { IfOk result (λ v. v.items ≡ explanation_text file.now explanation.now) }
{
    let (line, column) = (explanation.line, explanation.column);
    let mut out = Vec::new(alloc);
    write_first(
        alloc,
        &mut out,
        file,
        line,
        column,
        explanation.wrong.as_slice(),
    )?;
    write_source(alloc, &mut out, line, explanation.source)?;
    write_caret(alloc, &mut out, line, column)?;
    write_hint(alloc, &mut out, explanation.hint.as_slice())?;
    Ok(out)
}
