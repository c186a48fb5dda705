//! The lines of processes, in bytes.
ghost use Rattle.std.specs.Prelude.{◌≡◌, OnOk, Some};
ghost use Rattle.occ_shown.specs.Answers.{AddsText};
ghost use Rattle.occ_report.specs.Reports.{standing_line, line_told, name_text, on_line, AddsCalls, AddsLine, AddsLines, AddsOnLine, AddsTaskLine, AddsTaskLines};

use crate::calls::write_calls;
use crate::faults::write_faulted;
use crate::standing::{Ends, Spot, standing, write_process};
use crate::{Places, Stop};
use occ_machine::{Code, Task, Wait};
use occ_net_tables::Tables;
use occ_term::{Channel, Unfolded};
use occ_text::Line;
use std::alloc::{AllocError, Global};

/// By what it is told where processes stand: the source, its logical lines, its program and its code, and where the processes of that
/// stand in it.
#[derive(Clone, Copy)]
pub(crate) struct Told<'a> {
    pub(crate) source: &'a [u8],
    pub(crate) lines: &'a [Line],
    pub(crate) unfolded: &'a Unfolded,
    pub(crate) code: &'a Code,
    pub(crate) places: &'a Places,
}

/// The name of a PROC, where it is known.
fn write_named(out: &mut Vec<u8>, name: &[u8]) -> Result<(), AllocError>
    ensures { OnOk result (AddsText out.old out.new (name_text name.now)) }
{
    if name.is_empty() {
        return Ok(());
    }
    out.push(b' ')?;
    out.extend_from_slice(name)
}

/// The line at which a process stands that waits so, where it is known.
fn standing_line(stop: Option<Stop>, wait: &Wait) -> Option<u32>
    ensures { result ≡ standing_line stop wait.now }
{
    if let Wait::Faulted(fault) = wait {
        return Some(fault.line);
    }
    match stop {
        Some(stop) => Some(stop.line),
        None => None,
    }
}

/// The line, where it is known.
fn write_line(alloc: Global, out: &mut Vec<u8>, line: Option<u32>) -> Result<(), AllocError>
    ensures { OnOk result (AddsText out.old out.new (line_told line)) }
{
    match line {
        Some(line) => {
            let text = format!(in alloc; ", line {line}")?;
            out.extend_from_slice(text.as_bytes())
        }
        None => Ok(()),
    }
}

/// A line for a process, of this text.
fn write_text(
    alloc: Global,
    out: &mut Vec<u8>,
    number: u32,
    name: &[u8],
    line: Option<u32>,
    text: &[u8],
) -> Result<(), AllocError>
    ensures { OnOk result
        (AddsText out.old out.new (on_line number name.now line (Some text.now))) }
{
    out.extend_from_slice(b"  ")?;
    write_process(alloc, out, number)?;
    write_named(out, name)?;
    write_line(alloc, out, line)?;
    out.extend_from_slice(b": ")?;
    out.extend_from_slice(text)?;
    out.extend_from_slice(b"\n")
}

/// A line for a process, of the text that there is for it.
fn write_on_line(
    alloc: Global,
    out: &mut Vec<u8>,
    number: u32,
    name: &[u8],
    line: Option<u32>,
    text: Option<Vec<u8>>,
) -> Result<(), AllocError>
    ensures { OnOk result (AddsOnLine number name.now line text out.old out.new) }
{
    match text {
        Some(text) => write_text(alloc, out, number, name, line, text.as_slice()),
        None => Ok(()),
    }
}

/// The line of a process, where it is left, of whose stop this is known.
fn write_standing(
    alloc: Global,
    out: &mut Vec<u8>,
    channels: &[Channel],
    ends: Ends<'_>,
    told: Told<'_>,
    number: u32,
    wait: &Wait,
    stop: Option<Stop>,
) -> Result<(), AllocError>
    ensures { OnOk result
        (AddsLine channels.now ends.entry told.entry number wait.now stop out.old out.new) }
{
    let spot = Spot {
        source: told.source,
        stops: told.places.stops(number),
        stop,
    };
    let text = standing(alloc, channels, ends, spot, wait)?;
    let name = told.places.name(number);
    write_on_line(alloc, out, number, name, standing_line(stop, wait), text)
}

/// The calls within whose PROCs a process stands, of whose stop this is known.
fn write_called(
    alloc: Global,
    out: &mut Vec<u8>,
    told: Told<'_>,
    number: u32,
    task: &Task,
    stop: Option<Stop>,
) -> Result<(), AllocError>
    ensures { OnOk result (AddsCalls told.entry number task.now stop out.old out.new) }
{
    let calls = told.places.calls(number);
    write_calls(alloc, out, calls, told.code, number, stop, task)
}

/// The line of a process, where it is left, and those below it.
fn write_task(
    alloc: Global,
    out: &mut Vec<u8>,
    channels: &[Channel],
    ends: Ends<'_>,
    told: Told<'_>,
    number: u32,
    task: &Task,
) -> Result<(), AllocError>
    ensures { OnOk result (AddsLines
        channels.now ends.entry told.entry number task.now out.old out.new) }
{
    let stop = told.places.stop(number, &task.wait, task.pc);
    write_standing(alloc, out, channels, ends, told, number, &task.wait, stop)?;
    write_faulted(alloc, out, told, number, task)?;
    write_called(alloc, out, told, number, task, stop)
}

/// The lines of the process with this number, where it is left.
fn write_numbered(
    alloc: Global,
    out: &mut Vec<u8>,
    channels: &[Channel],
    ends: Ends<'_>,
    told: Told<'_>,
    tables: &Tables,
    number: u32,
) -> Result<(), AllocError>
    ensures { OnOk result (AddsTaskLine
        channels.now ends.entry told.entry tables.now number out.old out.new) }
{
    match tables.task(number) {
        Some(task) => write_task(alloc, out, channels, ends, told, number, task),
        None => Ok(()),
    }
}

/// The lines of the first so many processes that are left.
pub(crate) fn write_lines(
    alloc: Global,
    out: &mut Vec<u8>,
    channels: &[Channel],
    ends: Ends<'_>,
    told: Told<'_>,
    tables: &Tables,
    count: u32,
) -> Result<(), AllocError>
    ensures { OnOk result (AddsTaskLines
        channels.now ends.entry told.entry tables.now count out.old out.new) }
{
    for number in 0..count {
        write_numbered(alloc, out, channels, ends, told, tables, number)?;
    }
    Ok(())
}
