//! How many processes have ended, in bytes.
ghost use Rattle.std.specs.Prelude.{◌≡◌, ◌≤◌, OnOk, slice_get};
ghost use Rattle.occ_net_tables.specs.Holding.{HeldBy};
ghost use Rattle.occ_shown.specs.Answers.{AddsText};
ghost use Rattle.occ_report.specs.Reports.{AddsEnded, ended_among, ended_line, task_ended};

use occ_machine::Wait;
use occ_net_tables::Tables;
use std::alloc::{AllocError, Global};

/// Whether the process with this number has ended.
fn has_ended(tables: &Tables, number: u32) -> bool
    ensures { HeldBy tables.now (λ net. result ≡ task_ended (slice_get net.tasks number)) }
{
    match tables.task(number) {
        Some(task) => matches!(task.wait, Wait::Done),
        None => false,
    }
}

/// How many of the first so many processes have ended.
fn ended_among(tables: &Tables, count: u32) -> u32
    ensures few { result ≤ count }
    ensures counted { HeldBy tables.now (λ net. result ≡ ended_among net.tasks count) }
{
    let mut ended: u32 = 0;
    for number in 0..count {
        if has_ended(tables, number) {
            ended += 1;
        }
    }
    ended
}

fn write_count(alloc: Global, out: &mut Vec<u8>, ended: u32) -> Result<(), AllocError>
    ensures { OnOk result (AddsText out.old out.new (ended_line ended)) }
{
    match ended {
        0 => Ok(()),
        1 => out.extend_from_slice(b"  1 process has ended\n"),
        _ => {
            let text = format!(in alloc; "  {ended} processes have ended\n")?;
            out.extend_from_slice(text.as_bytes())
        }
    }
}

/// Writes how many of the first so many processes have ended, where some have.
pub(crate) fn write_ended(
    alloc: Global,
    out: &mut Vec<u8>,
    tables: &Tables,
    count: u32,
) -> Result<(), AllocError>
    ensures { OnOk result (AddsEnded tables.now count out.old out.new) }
{
    write_count(alloc, out, ended_among(tables, count))
}
