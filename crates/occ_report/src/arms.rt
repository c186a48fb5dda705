//! The arms of an ALT, in bytes.
ghost use Rattle.std.specs.Prelude.{◌≡◌, OnOk};
ghost use Rattle.occ_shown.specs.Answers.{AddsText};
ghost use Rattle.occ_report.specs.Reports.{AddsArm, AddsArms, AddsChoice, arm_stop};

use crate::Stop;
use crate::source_lines::written_in_arm;
use crate::standing::{Spot, write_awaited};
use crate::stop::arm_opened;
use occ_machine::Arm;
use occ_term::Channel;
use std::alloc::{AllocError, Global};

/// Where the arm of this number of the ALT is opened that a process stands at, where that is known.
fn arm_stop(stops: &[Stop], stop: Option<Stop>, number: u32) -> Option<Stop>
    ensures { result ≡ arm_stop stops.now stop number }
{
    match stop {
        Some(alt) => arm_opened(stops, &alt, number),
        None => None,
    }
}

/// What an arm waits for.
fn write_arm(
    alloc: Global,
    out: &mut Vec<u8>,
    channels: &[Channel],
    writers: &[Option<u32>],
    spot: Spot<'_>,
    arm: &Arm,
) -> Result<(), AllocError>
    ensures { OnOk result
        (AddsArm channels.now writers.now spot.entry arm.now out.old out.new) }
{
    match arm.chan {
        Some(chan) => {
            let written = written_in_arm(spot.source, arm_stop(spot.stops, spot.stop, arm.number));
            out.extend_from_slice(b"; ")?;
            write_awaited(alloc, out, channels, writers, written, chan)
        }
        None => out.extend_from_slice(b"; SKIP"),
    }
}

fn write_arms(
    alloc: Global,
    out: &mut Vec<u8>,
    channels: &[Channel],
    writers: &[Option<u32>],
    spot: Spot<'_>,
    arms: &[Arm],
) -> Result<(), AllocError>
    ensures { OnOk result
        (AddsArms channels.now writers.now spot.entry arms.now out.old out.new) }
{
    let mut rest = arms;
    while let Some((arm, others)) = rest.split_first() {
        write_arm(alloc, out, channels, writers, spot, arm)?;
        rest = others;
    }
    Ok(())
}

/// What an ALT waits for that a process stands at, arm by arm.
pub(crate) fn write_choosing(
    alloc: Global,
    out: &mut Vec<u8>,
    channels: &[Channel],
    writers: &[Option<u32>],
    spot: Spot<'_>,
    arms: &[Arm],
) -> Result<(), AllocError>
    ensures { OnOk result
        (AddsChoice channels.now writers.now spot.entry arms.now out.old out.new) }
{
    out.extend_from_slice(b"chooses")?;
    write_arms(alloc, out, channels, writers, spot, arms)
}
