//! At what a turn stopped, and what it made possible.
ghost use Rattle.std.specs.Prelude.{◌-◌, ◌≤◌, OnOk, length};
ghost use Rattle.occ_term.specs.Endings.{ending_text};
ghost use Rattle.occ_shown.specs.Answers.{ends_text, names_of, AddsText};
ghost use Rattle.occ_report.specs.Steps.{all_made_text, arm_text, arm_channels, stop_line, made_text, stop_text, stopped_told, AddsTail, awaits_text, chooses_text, joins_text, last_made, offers_text};
ghost use Rattle.occ_term.specs.Runs.{entries};

use crate::{Places, Stop};
use occ_board::Shown;
use occ_chart::{words_of, write_end, write_message};
use occ_machine::{Arm, Task, Wait};
use occ_net_tables::News;
use occ_shown::{shown_as, write_name, write_numbers};
use occ_term::{Channel, Ending, Fault, Message};
use std::alloc::{AllocError, Global};

fn write_offer(
    alloc: Global,
    out: &mut Vec<u8>,
    channels: &[Channel],
    chan: u32,
    message: &Message,
) -> Result<(), AllocError>
    ensures { OnOk result (AddsText out.old out.new (offers_text channels.now chan message.now)) }
{
    out.extend_from_slice(b"offers ")?;
    write_message(alloc, out, message, chan, channels)?;
    out.extend_from_slice(b" on ")?;
    write_name(alloc, out, channels, chan)?;
    Ok(())
}

fn write_awaited(
    alloc: Global,
    out: &mut Vec<u8>,
    channels: &[Channel],
    chan: u32,
) -> Result<(), AllocError>
    ensures { OnOk result (AddsText out.old out.new (awaits_text channels.now chan)) }
{
    out.extend_from_slice(b"awaits ")?;
    write_name(alloc, out, channels, chan)?;
    Ok(())
}

/// What an arm waits for.
fn write_arm(
    alloc: Global,
    out: &mut Vec<u8>,
    channels: &[Channel],
    chan: Option<u32>,
) -> Result<(), AllocError>
    ensures { OnOk result (AddsText out.old out.new (arm_text (names_of channels.now) chan)) }
{
    match chan {
        Some(chan) => {
            out.extend_from_slice(b"; ")?;
            write_awaited(alloc, out, channels, chan)
        }
        None => out.extend_from_slice(b"; SKIP"),
    }
}

fn write_arms(
    alloc: Global,
    out: &mut Vec<u8>,
    channels: &[Channel],
    arms: &[Arm],
) -> Result<(), AllocError>
    ensures { OnOk result
        (AddsText out.old out.new (arm_channels (names_of channels.now) arms.now)) }
{
    let mut rest = arms;
    while let Some((arm, others)) = rest.split_first() {
        write_arm(alloc, out, channels, arm.chan)?;
        rest = others;
    }
    Ok(())
}

fn write_choosing(
    alloc: Global,
    out: &mut Vec<u8>,
    channels: &[Channel],
    arms: &[Arm],
) -> Result<(), AllocError>
    ensures { OnOk result (AddsText out.old out.new (chooses_text channels.now arms.now)) }
{
    out.extend_from_slice(b"chooses")?;
    write_arms(alloc, out, channels, arms)
}

fn write_joining(out: &mut Vec<u8>, branches: &[u32]) -> Result<(), AllocError>
    ensures { OnOk result (AddsText out.old out.new (joins_text branches.now)) }
{
    out.extend_from_slice(b"waits for")?;
    write_numbers(out, branches)
}

fn write_fault(alloc: Global, out: &mut Vec<u8>, fault: Fault) -> Result<(), AllocError>
    ensures { OnOk result (AddsText out.old out.new (ending_text (Ending.Fault fault))) }
{
    let ending = Ending::Fault(fault);
    let text = format!(in alloc; "{ending}")?;
    out.extend_from_slice(text.as_bytes())
}

/// What a process stands at.
fn write_stop(
    alloc: Global,
    out: &mut Vec<u8>,
    channels: &[Channel],
    wait: &Wait,
) -> Result<(), AllocError>
    ensures { OnOk result (AddsText out.old out.new (stop_text (names_of channels.now) wait.now)) }
{
    match wait {
        Wait::Ready => out.extend_from_slice(b"can go on"),
        Wait::Took { .. } => out.extend_from_slice(b"can go on"),
        Wait::Halted => out.extend_from_slice(b"halted"),
        Wait::Done => out.extend_from_slice(b"ends"),
        Wait::Offers { chan, message } => write_offer(alloc, out, channels, *chan, message),
        Wait::Awaits { chan } => write_awaited(alloc, out, channels, *chan),
        Wait::Chooses { arms, .. } => write_choosing(alloc, out, channels, arms.as_slice()),
        Wait::Joins { branches } => write_joining(out, branches.as_slice()),
        Wait::Faulted(fault) => write_fault(alloc, out, *fault),
    }
}

/// The line of the source, where it is known.
fn write_line(alloc: Global, out: &mut Vec<u8>, stop: Option<Stop>) -> Result<(), AllocError>
    ensures { OnOk result (AddsText out.old out.new (stop_line stop)) }
{
    match stop {
        Some(stop) => {
            let text = format!(in alloc; "line {}: ", stop.line)?;
            out.extend_from_slice(text.as_bytes())
        }
        None => Ok(()),
    }
}

/// At what the turn of the process with this number stopped, which left this task, behind the line of that stop.
fn write_stopped(
    alloc: Global,
    out: &mut Vec<u8>,
    channels: &[Channel],
    places: &Places,
    number: u32,
    after: &Task,
) -> Result<(), AllocError>
    ensures { OnOk result
        (AddsText out.old out.new (stopped_told channels.now places.now number after.now)) }
{
    let stop = places.stop(number, &after.wait, after.pc);
    write_line(alloc, out, stop)?;
    write_stop(alloc, out, channels, &after.wait)
}

/// The ends of a communication, between spaces.
fn write_ends(alloc: Global, out: &mut Vec<u8>, shown: &Shown) -> Result<(), AllocError>
    ensures { OnOk result
        (AddsText out.old out.new (ends_text shown.now.sender shown.now.receiver)) }
{
    out.push(b' ')?;
    write_end(alloc, out, shown.sender())?;
    out.push(b'>')?;
    write_end(alloc, out, shown.receiver())?;
    out.push(b' ')?;
    Ok(())
}

/// A communication: its number, its ends, the channel's name and the message.
fn write_made(alloc: Global, out: &mut Vec<u8>, shown: &Shown) -> Result<(), AllocError>
    ensures { OnOk result (AddsText out.old out.new (made_text shown.now)) }
{
    let number = shown.number();
    let head = format!(in alloc; ", {number}")?;
    out.extend_from_slice(head.as_bytes())?;
    write_ends(alloc, out, shown)?;
    let words = words_of(alloc, shown)?;
    out.extend_from_slice(words.as_slice())
}

/// The last communications, of so many.
fn write_all_made(
    alloc: Global,
    out: &mut Vec<u8>,
    channels: &[Channel],
    made: u64,
    news: &News,
) -> Result<(), AllocError>
    requires within { length news.now ≤ made }
    ensures { OnOk result
        (AddsText out.old out.new (all_made_text (last_made channels.now made news.now))) }
{
    let mut number = made - news.entries().len() as u64;
    for communication in news.entries() {
        number += 1;
        let shown = shown_as(alloc, number, &communication, channels)?;
        write_made(alloc, out, &shown)?;
    }
    Ok(())
}

/// How a line ends: at what the turn stopped, which left this task, and the last communications, of so many.
pub(crate) fn write_tail(
    alloc: Global,
    out: &mut Vec<u8>,
    channels: &[Channel],
    places: &Places,
    number: u32,
    after: &Task,
    made: u64,
    news: &News,
) -> Result<(), AllocError>
    requires within { length news.now ≤ made }
    ensures { OnOk result
        (AddsTail channels.now places.now number after.now made news.now out.old out.new) }
{
    write_stopped(alloc, out, channels, places, number, after)?;
    write_all_made(alloc, out, channels, made, news)?;
    out.push(b'\n')?;
    Ok(())
}
