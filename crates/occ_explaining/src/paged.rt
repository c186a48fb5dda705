//! Pages that show runs.
ghost use Rattle.std.specs.Prelude.{◌≡◌, IfOk};
ghost use Rattle.occ_explaining.specs.Shown.{HasNames};
ghost use Rattle.occ_explaining.specs.Studied.{NamesBy, PagesBy, RunsBy};

use crate::column_names::MOST_NAMED;
use crate::reported::report_of;
use crate::stepped::steps_of;
use crate::studied::Studied;
use crate::tracing::{Form, trace_of};
use occ_net_replay::Choice;
use occ_report::Places;
use occ_shown::{RunTexts, page};
use std::alloc::{AllocError, Global};

/// What a page has of the run of a source by these choices: this line, the trace, the turns, and the report on the end.
///
/// # Errors
///
/// A refused growth.
pub fn run_texts(
    studied: &Studied,
    alloc: Global,
    keyboard: &[u8],
    head: &[u8],
    choices: &[Choice],
) -> Result<RunTexts, AllocError>
    ensures { IfOk result (RunsBy studied.now keyboard.now head.now choices.now) }
{
    let trace = trace_of(studied, alloc, keyboard, choices, Form::Json)?;
    let turns = steps_of(studied, alloc, keyboard, choices)?;
    let report = report_of(studied, alloc, keyboard, choices)?;
    let head = Vec::from_slice(alloc, head)?;
    Ok(RunTexts {
        head,
        trace,
        turns,
        report,
    })
}

/// A page that shows such runs of this source, for a browser: the source, the PROC of each process, and the runs, between the beginning
/// and the end of the page.
///
/// # Errors
///
/// A refused growth.
pub fn page_of(
    studied: &Studied,
    alloc: Global,
    source: &[u8],
    runs: &[RunTexts],
) -> Result<Vec<u8>, AllocError>
    ensures { IfOk result (PagesBy studied.now source.now runs.now) }
{
    let names = names_of(studied, alloc)?;
    let bytes = page(alloc, source, names.as_slice(), runs)?;
    Ok(bytes)
}

/// The names of the PROCs that the processes of a source run, each on a line.
fn names_of(studied: &Studied, alloc: Global) -> Result<Vec<u8>, AllocError>
    ensures { IfOk result (NamesBy studied.now) }
{
    let count = studied.code.len().min(MOST_NAMED) as u32;
    let bytes = name_lines(alloc, &studied.places, count)?;
    Ok(bytes)
}

/// The names of the first so many processes, each on a line.
fn name_lines(alloc: Global, places: &Places, count: u32) -> Result<Vec<u8>, AllocError>
    ensures { IfOk result (HasNames places.now count) }
{
    let mut bytes = Vec::new(alloc);
    for number in 0..count {
        bytes.extend_from_slice(places.name(number))?;
        bytes.push(b'\n')?;
    }
    Ok(bytes)
}
