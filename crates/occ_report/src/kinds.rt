//! What kind of stop a run has come to, in bytes.
ghost use Rattle.std.specs.Prelude.{◌≡◌, OnOk};
ghost use Rattle.occ_shown.specs.Answers.{AddsText};
ghost use Rattle.occ_report.specs.Reports.{by_number, circling_line, for_good_text, halted_line, kind_told, line_of_kind, those_line, unfinished_line};

use crate::standing::write_branches;
use occ_ends::{Kind, Left};
use occ_term::Ending;
use std::alloc::{AllocError, Global};

/// The first of two texts where there is one process, else the second.
pub(crate) fn by_number(numbers: &[u32], one: &'static [u8], many: &'static [u8]) -> &'static [u8]
    ensures { result.now ≡ by_number numbers.now one.entry.now many.entry.now }
{
    if numbers.len() == 1 { one } else { many }
}

/// A line that tells of these processes, by one text where there is one, else by the other.
fn write_those(
    alloc: Global,
    out: &mut Vec<u8>,
    head: &[u8],
    who: &[u32],
    one: &'static [u8],
    many: &'static [u8],
) -> Result<(), AllocError>
    ensures { OnOk result (AddsText out.old out.new
        (those_line head.now who.now one.entry.now many.entry.now)) }
{
    let tail = by_number(who, one, many);
    out.extend_from_slice(head)?;
    write_branches(alloc, out, who)?;
    out.extend_from_slice(tail)
}

fn write_circling(alloc: Global, out: &mut Vec<u8>, numbers: &[u32]) -> Result<(), AllocError>
    ensures { OnOk result (AddsText out.old out.new (circling_line numbers.now)) }
{
    let (one, many) = (b" waits for itself\n", b" wait for one another\n");
    write_those(alloc, out, b"circle:", numbers, one, many)
}

fn write_halted(alloc: Global, out: &mut Vec<u8>, numbers: &[u32]) -> Result<(), AllocError>
    ensures { OnOk result (AddsText out.old out.new (halted_line numbers.now)) }
{
    let (one, many) = (b" was halted\n", b" were halted\n");
    write_those(alloc, out, b"halted:", numbers, one, many)
}

fn write_unfinished(alloc: Global, out: &mut Vec<u8>, numbers: &[u32]) -> Result<(), AllocError>
    ensures { OnOk result (AddsText out.old out.new (unfinished_line numbers.now)) }
{
    let (one, many) = (b" was not at its end\n", b" were not at their ends\n");
    write_those(alloc, out, b"unfinished:", numbers, one, many)
}

/// The line of this kind.
fn write_of(alloc: Global, out: &mut Vec<u8>, kind: Kind, left: &Left) -> Result<(), AllocError>
    ensures { OnOk result (AddsText out.old out.new (line_of_kind kind left.now)) }
{
    match kind {
        Kind::Circle => write_circling(alloc, out, left.circle.as_slice()),
        Kind::Halted => write_halted(alloc, out, left.halted.as_slice()),
        Kind::Unfinished => write_unfinished(alloc, out, left.unfinished.as_slice()),
        Kind::Idle => {
            out.extend_from_slice(b"idle: who waits at a channel is in an endless loop\n")
        }
    }
}

/// Processes that take no further turn, where there are some.
fn write_for_good(alloc: Global, out: &mut Vec<u8>, numbers: &[u32]) -> Result<(), AllocError>
    ensures { OnOk result (AddsText out.old out.new (for_good_text numbers.now)) }
{
    if numbers.is_empty() {
        return Ok(());
    }
    let (one, many) = (
        b" waits, whatever choices follow\n",
        b" wait, whatever choices follow\n",
    );
    write_those(alloc, out, b"for good:", numbers, one, many)
}

/// Of what kind a stop is, or who takes no further turn where the choices are used up.
pub(crate) fn write_kind(
    alloc: Global,
    out: &mut Vec<u8>,
    ending: Ending,
    left: &Left,
    waiting: &[u32],
) -> Result<(), AllocError>
    ensures { OnOk result (AddsText out.old out.new (kind_told ending left.now waiting.now)) }
{
    match ending {
        Ending::Stopped | Ending::StoppedBy(_) => write_of(alloc, out, left.kind(), left),
        Ending::Limit => write_for_good(alloc, out, waiting),
        Ending::Ended | Ending::Fault(_) => Ok(()),
    }
}
