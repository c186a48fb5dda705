//! Charts whose columns have the names of the PROCs.
ghost use Rattle.std.specs.Prelude.{IfOk};
ghost use Rattle.occ_explaining.specs.Charting.{IsReplayChartOf};
ghost use Rattle.occ_explaining.specs.Studied.{ChartsBy};

use crate::column_names::{MOST_NAMED, column_names, left_out};
use crate::feet::feet;
use crate::reported::plan_of;
use crate::studied::Studied;
use occ_chart::Part;
use occ_choices::Plan;
use occ_machine::Code;
use occ_net_replay::Choice;
use occ_net_tables::{Keep, Ran, run_tables};
use occ_report::circle_of;
use std::alloc::{AllocError, Global};

/// The sequence chart of the run of a source by these choices, as a text in SVG: a column for each process and each of the keyboard, the
/// screen and the error channel that takes part, with the name of the PROC that the process runs, where it is known; an arrow for each
/// of the first or the last communications; how many others there were, how the run ended, and in red what each process waits for
/// that still waits, and processes that wait in a circle, where there are some.
///
/// Where some words stand in `only`, the processes that they name have a column of their own, and no other one has; nor has one that a word
/// in `without` names. A word is a name that stands over a column, or the number of a process, as `3` or `p3`.
///
/// # Errors
///
/// A refused growth.
pub fn chart_of(
    studied: &Studied,
    alloc: Global,
    keyboard: &[u8],
    choices: &[Choice],
    part: Part,
    only: &[&str],
    without: &[&str],
) -> Result<Vec<u8>, AllocError>
    ensures { IfOk result
        (ChartsBy studied.now keyboard.now choices.now part only.now without.now) }
{
    let plan = plan_of(alloc, choices)?;
    let code = &studied.code;
    let uses = studied.uses.as_slice();
    let circle = circle_of(alloc, code, uses, keyboard, &plan)?;
    let count = code.len().min(MOST_NAMED) as u32;
    let names = column_names(alloc, &studied.places, count)?;
    let members = circle.as_slice();
    let heads = names.as_slice();
    let chosen = left_out(alloc, heads, only, without)?;
    let left = chosen.as_slice();
    let bytes = drawn(alloc, code, keyboard, &plan, left, part, heads, members)?;
    Ok(bytes)
}

/// The chart of what a code comes to by a plan.
fn drawn(
    alloc: Global,
    code: &Code,
    keyboard: &[u8],
    plan: &Plan,
    left_out: &[bool],
    part: Part,
    names: &[Vec<u8>],
    circle: &[u32],
) -> Result<Vec<u8>, AllocError>
    ensures { IfOk result
        (IsReplayChartOf code.now keyboard.now plan.now left_out.now part names.now circle.now) }
{
    let Ran {
        ending,
        kept: _,
        tables,
    } = run_tables(alloc, code, keyboard, plan, Keep::Given)?;
    let processes = code.len();
    let count = processes.min(MOST_NAMED) as u32;
    let channels = code.channels();
    let stubs = feet(alloc, channels, &tables, count)?;
    let bytes = occ_chart::chart(
        alloc,
        tables.trace(),
        channels,
        left_out,
        part,
        ending,
        names,
        stubs.as_slice(),
        circle,
    )?;
    Ok(bytes)
}
