//! Reports of runs.
ghost use Rattle.std.specs.Prelude.{◌≡◌, IfOk, OnOk};
ghost use Rattle.occ_report.specs.Reports.{AreItsLines, IsCircleBy, IsReportBy, WaitingAt, count_text, report_head, report_tail};
ghost use Rattle.occ_shown.specs.Answers.{AddsText};
ghost use Rattle.occ_text.specs.Words.{logical_lines};

use crate::Places;
use crate::ended::write_ended;
use crate::kinds::write_kind;
use crate::process_lines::{Told, write_lines};
use crate::standing::{Ends, write_circle};
use occ_choices::Plan;
use occ_ends::{Left, ProcessUses, ends_of, left_in, waiting_in};
use occ_machine::Code;
use occ_net_tables::{Keep, Ran, Tables, run_tables};
use occ_term::{Ending, Unfolded};
use occ_text::{Line, Source, TextFault, read_lines};
use std::alloc::{AllocError, Global};

/// How many processes a report tells of at most.
const MOST_TOLD: usize = 4_294_967_295;

/// How many communications there were, in words.
#[tactic(auto, unfolding(crate::specs::Reports::count_text))]
fn count_text(alloc: Global, count: usize) -> Result<String, AllocError>
    ensures { IfOk result (λ text. text.bytes.items ≡ count_text count) }
{
    if count == 1 {
        return format!(in alloc; "1 communication");
    }
    format!(in alloc; "{count} communications")
}

/// What is told behind the number of communications.
fn tail(ending: Ending) -> &'static [u8]
    ensures { result.now ≡ report_tail ending }
{
    match ending {
        Ending::Stopped | Ending::StoppedBy(_) => b" no process can go on:\n",
        Ending::Ended | Ending::Fault(_) | Ending::Limit => b":\n",
    }
}

/// How a report begins.
fn write_head(
    alloc: Global,
    out: &mut Vec<u8>,
    count: usize,
    ending: Ending,
) -> Result<(), AllocError>
    ensures { OnOk result (AddsText out.old out.new (report_head count ending)) }
{
    let count = count_text(alloc, count)?;
    out.extend_from_slice(b"after ")?;
    out.extend_from_slice(count.as_bytes())?;
    out.extend_from_slice(tail(ending))
}

/// The logical lines of a source; none where it has none.
fn lines_of(alloc: Global, source: &[u8]) -> Result<Vec<Line>, AllocError>
    ensures { IfOk result (λ lines. AreItsLines source.now (logical_lines lines.items)) }
{
    match read_lines(alloc, source) {
        Ok(Source { lines }) => Ok(lines),
        Err(TextFault::Memory) => Err(AllocError),
        Err(_) => Ok(Vec::new(alloc)),
    }
}

/// Who waits for good where the choices are used up; of other endings nobody is told.
fn waiting_at(
    alloc: Global,
    ending: Ending,
    uses: &[ProcessUses],
    code: &Code,
    tables: &Tables,
) -> Result<Vec<u32>, AllocError>
    ensures { IfOk result (WaitingAt ending uses.now code.now tables.now) }
{
    match ending {
        Ending::Limit => {
            let waiting = waiting_in(alloc, uses, code, tables)?;
            Ok(waiting)
        }
        Ending::Ended | Ending::Stopped | Ending::StoppedBy(_) | Ending::Fault(_) => {
            Ok(Vec::new(alloc))
        }
    }
}

/// What the run of a plan comes to: the kind of its stop, if it has stopped, with the processes for which it is of that kind, or, where
/// the choices are used up, the processes that take no turn whatever choices follow; after how many communications; a line for each
/// process that is left then, with its PROC, its line and the calls that led there, where they are known, with what it stands at, and
/// who is at the other end of its channel, which has the name that is written in the line; of a fault its line of the source, and the
/// variables that were read there; how many have ended; and last, where there are some, processes that wait for one another in a circle.
/// `uses` has what each process of the program uses, and the program is that of the source.
///
/// # Errors
///
/// A refused growth.
pub fn report(
    alloc: Global,
    code: &Code,
    uses: &[ProcessUses],
    keyboard: &[u8],
    plan: &Plan,
    places: &Places,
    source: &[u8],
    unfolded: &Unfolded,
) -> Result<Vec<u8>, AllocError>
    ensures { IfOk result (IsReportBy
        uses.now code.now keyboard.now plan.now places.now source.now unfolded.now) }
{
    let Ran {
        ending,
        kept: _,
        tables,
    } = run_tables(alloc, code, keyboard, plan, Keep::Given)?;
    let trace = tables.trace();
    let communications = trace.len();
    let processes = code.len();
    let count = processes.min(MOST_TOLD) as u32;
    let channels = code.channels();
    let found = ends_of(alloc, uses, &tables, channels.len())?;
    let left = left_in(alloc, uses, code, &tables)?;
    let waiting = waiting_at(alloc, ending, uses, code, &tables)?;
    let reading = found.readers.as_slice();
    let writing = found.writers.as_slice();
    let ends = Ends {
        readers: reading,
        writers: writing,
    };
    let read = lines_of(alloc, source)?;
    let lines = read.as_slice();
    let told = Told {
        source,
        lines,
        unfolded,
        code,
        places,
    };
    let mut out = Vec::new(alloc);
    write_kind(alloc, &mut out, ending, &left, waiting.as_slice())?;
    write_head(alloc, &mut out, communications, ending)?;
    write_lines(alloc, &mut out, channels, ends, told, &tables, count)?;
    write_ended(alloc, &mut out, &tables, count)?;
    let members = left.circle.as_slice();
    write_circle(alloc, &mut out, &tables, members)?;
    Ok(out)
}

/// Processes that wait in a circle where the run of a plan has come to: each for the one behind it, and the last one for the first;
/// none where there is no circle. `uses` has what each process of the program uses.
///
/// # Errors
///
/// A refused growth.
pub fn circle_of(
    alloc: Global,
    code: &Code,
    uses: &[ProcessUses],
    keyboard: &[u8],
    plan: &Plan,
) -> Result<Vec<u32>, AllocError>
    ensures { IfOk result (IsCircleBy uses.now code.now keyboard.now plan.now) }
{
    let Ran {
        ending: _,
        kept: _,
        tables,
    } = run_tables(alloc, code, keyboard, plan, Keep::Given)?;
    let Left {
        circle,
        halted: _,
        unfinished: _,
    } = left_in(alloc, uses, code, &tables)?;
    Ok(circle)
}
