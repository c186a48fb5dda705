//! The PROCs that nothing reaches.
ghost use Rattle.std.specs.Prelude.{[], ◌≡◌, ◌∷◌, IfOk, OnOk, map};
ghost use Rattle.occ_text.specs.Words.{logical_line_of, logical_lines};
ghost use Rattle.occ_explaining.specs.Calls.{named};
ghost use Rattle.occ_explaining.specs.Reach.{AreUnreached, FindsBehind, last_proc, top_or, unchecked_head};

use crate::calls::{calls_of, proc_begun};
use crate::reached::{is_reached, reached_from};
use occ_held::letters::Letters;
use occ_text::Line;
use std::alloc::{AllocError, Global};
use std::collections::HashSet;

/// A PROC that no call reaches from the last one.
#[derive(Clone, Copy)]
pub struct Unchecked<'a> {
    /// The number of its first line.
    pub line: u32,
    /// The level of that line.
    pub level: u32,
    /// Its name.
    pub name: &'a Letters,
}

/// The PROC that a line at the left margin begins, or else this one.
fn top_or<'a>(line: &'a Line, main: Option<&'a Letters>) -> Option<&'a Letters>
    ensures { named result ≡ top_or (logical_line_of line.now) main.entry }
{
    match proc_begun(line) {
        Some(name) if line.level == 0 => Some(name),
        _ => main,
    }
}

/// The last PROC at the left margin.
fn last_proc(mut lines: &[Line]) -> Option<&Letters>
    ensures { named result ≡ last_proc (logical_lines lines.entry.now) }
{
    let mut main = None;
    while let [line, rest @ ..] = lines {
        main = top_or(line, main);
        lines = rest;
    }
    main
}

/// Adds the first line of a PROC that is not reached.
fn add_head<'a>(
    out: &mut Vec<Unchecked<'a>>,
    names: &HashSet<Letters>,
    line: &'a Line,
) -> Result<(), AllocError>
    ensures { OnOk result (FindsBehind names.now.keys (logical_line_of line.now ∷ [])
        out.old.items out.new.items) }
{
    if let Some(name) = proc_begun(line)
        && !is_reached(names, name)
    {
        let (line, level) = (line.number, line.level);
        out.push(Unchecked { line, level, name })?;
    }
    Ok(())
}

/// The first lines of the PROCs that are not reached.
fn heads_beyond<'a>(
    alloc: Global,
    reached: &HashSet<Letters>,
    mut lines: &'a [Line],
) -> Result<Vec<Unchecked<'a>>, AllocError>
    ensures { IfOk result (λ found.
        FindsBehind reached.now.keys (logical_lines lines.entry.now) [] found.items) }
{
    let mut found = Vec::new(alloc);
    while let [line, rest @ ..] = lines {
        add_head(&mut found, reached, line)?;
        lines = rest;
    }
    Ok(found)
}

/// The PROCs of an accepted source, by its logical lines, that the last one never reaches by calls, in their order. PROCs of one name
/// count as one.
///
/// # Errors
///
/// A refused growth.
pub fn unchecked_procs<'a>(
    alloc: Global,
    lines: &'a [Line],
) -> Result<Vec<Unchecked<'a>>, AllocError>
    ensures { IfOk result (λ found.
        AreUnreached (logical_lines lines.now) (map unchecked_head found.items)) }
{
    let calls = calls_of(alloc, lines)?;
    let reached = reached_from(alloc, last_proc(lines), calls)?;
    heads_beyond(alloc, &reached, lines)
}
