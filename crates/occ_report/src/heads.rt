//! How the line of a turn begins.
ghost use Rattle.std.specs.Prelude.{◌≡◌, OnOk};
ghost use Rattle.occ_net_replay.specs.Replay.{selected_process};
ghost use Rattle.occ_report.specs.Steps.{turn_head};
ghost use Rattle.occ_shown.specs.Answers.{AddsText};

use occ_shown::write_numbers;
use std::alloc::{AllocError, Global};

/// The process that takes the turn, of those that are ready.
pub(crate) fn selected(ready: &[u32], which: u32) -> Option<u32>
    ensures { result ≡ selected_process ready.now which }
{
    if ready.is_empty() {
        return None;
    }
    Some(ready[which as usize % ready.len()])
}

/// The number of the turn, the processes that are ready, the one that takes it, and the pick.
pub(crate) fn write_head(
    alloc: Global,
    out: &mut Vec<u8>,
    turn: u64,
    ready: &[u32],
    taken: u32,
    pick: u32,
) -> Result<(), AllocError>
    ensures { OnOk result (AddsText out.old out.new (turn_head turn ready.now taken pick)) }
{
    let first = format!(in alloc; "{turn} ready")?;
    out.extend_from_slice(first.as_bytes())?;
    write_numbers(out, ready)?;
    let last = format!(in alloc; " took p{taken} pick {pick} ")?;
    out.extend_from_slice(last.as_bytes())?;
    Ok(())
}
