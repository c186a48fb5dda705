//! The PROCs that no call reaches, as they are told.
ghost use Rattle.std.specs.Prelude.{◌≡◌, ◌++◌, IfErr, IfOk, OnOk, map};
ghost use Rattle.occ_explaining.specs.Files.{files_of};
ghost use Rattle.occ_explaining.specs.Unreached.{RefusesToTell, TellsUnreached, as_object, file_told, in_words, told_line, told_procs};
ghost use Rattle.occ_explaining.specs.Reach.{unchecked_head};

use crate::files::{Files, place_told};
use crate::studied::lines_of;
use crate::unchecked::{Unchecked, unchecked_procs};
use occ_files::printed_name;
use occ_play::PlayFault;
use occ_shown::{Member, Value, object_line};
use std::alloc::{AllocError, Global};

/// The name of a file, where the source has several.
fn write_file(
    alloc: Global,
    out: &mut Vec<u8>,
    files: &Files<'_>,
    name: &str,
) -> Result<(), AllocError>
    ensures { OnOk result (out.new.items
        ≡ out.old.items ++ file_told (files_of files.now) name.now) }
{
    if !files.more.is_empty() {
        let name = printed_name(alloc, name.as_bytes())?;
        out.extend_from_slice(name.as_slice())?;
        out.extend_from_slice(b", ")?;
    }
    Ok(())
}

/// A PROC that no call reaches, in words.
fn in_words(alloc: Global, files: &Files<'_>, proc: &Unchecked<'_>) -> Result<Vec<u8>, AllocError>
    ensures { IfOk result (λ text. text.items
        ≡ in_words (files_of files.now) (unchecked_head proc.now)) }
{
    let (file, line) = place_told(files, proc.line);
    let mut text = Vec::from_slice(alloc, b"not checked: ")?;
    text.extend_from_slice(proc.name.as_slice())?;
    text.extend_from_slice(b", ")?;
    write_file(alloc, &mut text, files, file)?;
    let rest = format!(in alloc; "line {line}: no call reaches it\n")?;
    text.extend_from_slice(rest.as_bytes())?;
    Ok(text)
}

/// The same as an object of JSON. The line begins with `PROC`, behind two spaces for each level.
fn as_object<'x>(
    alloc: Global,
    files: &'x Files<'x>,
    proc: &'x Unchecked<'_>,
) -> Result<Vec<u8>, AllocError>
    ensures { IfOk result (λ text. text.items
        ≡ as_object (files_of files.now) (unchecked_head proc.now)) }
{
    let (file, line) = place_told(files, proc.line);
    let column = 2 * u64::from(proc.level) + 1;
    let members = [
        Member {
            name: "file",
            value: Value::Exact(file),
        },
        Member {
            name: "line",
            value: Value::Number(u64::from(line)),
        },
        Member {
            name: "column",
            value: Value::Number(column),
        },
        Member {
            name: "end",
            value: Value::Number(column + 4),
        },
        Member {
            name: "name",
            value: Value::Text(proc.name.as_slice()),
        },
        Member {
            name: "text",
            value: Value::Text(b"no call reaches it"),
        },
    ];
    object_line(alloc, "unchecked", &members)
}

/// A line for a PROC that no call reaches.
fn told_line(
    alloc: Global,
    files: &Files<'_>,
    json: bool,
    proc: &Unchecked<'_>,
) -> Result<Vec<u8>, AllocError>
    ensures { IfOk result (λ text. text.items ≡ told_line (files_of files.now) json (unchecked_head proc.now)) }
{
    if json {
        as_object(alloc, files, proc)
    } else {
        in_words(alloc, files, proc)
    }
}

/// A line for each of them.
fn told_lines(
    alloc: Global,
    files: &Files<'_>,
    json: bool,
    procs: &[Unchecked<'_>],
) -> Result<Vec<u8>, AllocError>
    ensures { IfOk result (λ text. text.items ≡ told_procs files.now json procs.now) }
{
    let mut text = Vec::new(alloc);
    for proc in procs {
        let line = told_line(alloc, files, json, proc)?;
        text.extend_from_slice(line.as_slice())?;
    }
    Ok(text)
}

/// A line for each PROC of an accepted source that no call reaches from the last one, so that it was read by the grammar alone: in
/// words, or as an object of JSON.
///
/// # Errors
///
/// A refused growth, or why the source has no logical lines.
#[tactic(auto, using(crate::proofs::Refusing::refuses_lines))]
pub fn unreached_told(
    alloc: Global,
    source: &[u8],
    files: &Files<'_>,
    json: bool,
) -> Result<Vec<u8>, PlayFault>
    ensures told { IfOk result (λ text. TellsUnreached source.now (files_of files.now) json text.items) }
    ensures refused { IfErr result (RefusesToTell source.now) }
{
    let lines = lines_of(alloc, source)?;
    let procs = unchecked_procs(alloc, lines.lines.as_slice())?;
    let text = told_lines(alloc, files, json, procs.as_slice())?;
    Ok(text)
}
