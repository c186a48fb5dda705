//! What is told of a fault: the line that it stands in, and the values of the variables that were read there.
ghost use Rattle.std.specs.Prelude.{◌≡◌, [], IfOk, OnOk};
ghost use Rattle.occ_shown.specs.Answers.{AddsText};
ghost use Rattle.occ_report.specs.Evaluating.{code_before, is_among};
ghost use Rattle.occ_report.specs.Faults.{fault_line, was_read, read_by, reads_in, read_text, told_value, value_line, with_read};
ghost use Rattle.occ_report.specs.Naming.{told_by};
ghost use Rattle.occ_report.specs.Reports.{AddsCells, AddsFault, AddsRead};

use crate::calls::{fault_holders, innermost_call, outwards};
use crate::components::{components_in, is_evaluating};
use crate::naming::{Naming, told};
use crate::process_lines::Told;
use crate::source_lines::{numbered_line, plain_text, unspaced};
use occ_machine::{Body, Instr, Slot, Task, Wait};
use occ_shown::write_value;
use occ_term::{Cell, Frame, FrameCells, Unfolded};
use std::alloc::{AllocError, Global};

/// The place in the frame that an instruction reads.
fn read_by(instruction: &Instr<Slot>) -> Option<usize>
    ensures { result ≡ read_by instruction.now }
{
    match instruction {
        Instr::Load(slot) => Some(slot.0 as usize),
        _ => None,
    }
}

/// What was read, behind one instruction more.
fn add_read(read: &mut Vec<usize>, instruction: &Instr<Slot>) -> Result<(), AllocError>
    ensures { OnOk result (read.new.items ≡ with_read instruction.now read.old.items) }
{
    if !is_evaluating(instruction) {
        read.clear();
    }
    if let Some(place) = read_by(instruction) {
        read.push(place)?;
    }
    Ok(())
}

/// The places in the frame that were read for what is evaluated at the end of this code.
fn reads_in(alloc: Global, code: &[Instr<Slot>]) -> Result<Vec<usize>, AllocError>
    ensures { IfOk result (λ read. read.items ≡ reads_in code.now []) }
{
    let mut read = Vec::new(alloc);
    let mut rest = code;
    while let Some((instruction, others)) = rest.split_first() {
        add_read(&mut read, instruction)?;
        rest = others;
    }
    Ok(read)
}

/// A variable, as it is told, and its value; nothing of one that is left out.
fn write_told(out: &mut Vec<u8>, name: &[u8], cell: &Cell, value: i64) -> Result<(), AllocError>
    ensures { OnOk result (AddsText out.old out.new (told_value name.now cell.now value)) }
{
    if name.is_empty() {
        return Ok(());
    }
    out.extend_from_slice(b"    ")?;
    out.extend_from_slice(name)?;
    out.extend_from_slice(b" = ")?;
    write_value(out, cell.primitive, value)?;
    out.extend_from_slice(b"\n")
}

/// A variable and its value.
fn write_variable(
    alloc: Global,
    out: &mut Vec<u8>,
    naming: Naming<'_>,
    cell: &Cell,
    value: i64,
) -> Result<(), AllocError>
    ensures { OnOk result
        (AddsText out.old out.new (value_line (told_by naming.entry) cell.now value)) }
{
    let mut name = Vec::new(alloc);
    cell.name.write(alloc, &mut name)?;
    let name = told(alloc, naming, name.as_slice())?;
    write_told(out, name.as_slice(), cell, value)
}

/// Whether a place is one of these.
pub(crate) fn is_among(places: &[usize], place: usize) -> bool
    ensures { result ≡ is_among place places.now }
{
    let mut rest = places;
    while let Some((first, others)) = rest.split_first() {
        if *first == place {
            return true;
        }
        rest = others;
    }
    false
}

/// Whether the variable of this number is at one of these places of what a process holds, or is one of these components.
fn was_read(held: &FrameCells, read: &[usize], found: &[usize], number: u32) -> bool
    ensures { result ≡ was_read held.now read.now found.now number }
{
    is_among(read, held.place_among(number)) || is_among(found, number as usize)
}

/// The variables of a program that were read: those at these places of what a process holds, and these components.
fn write_variables(
    alloc: Global,
    out: &mut Vec<u8>,
    line: Naming<'_>,
    held: &FrameCells,
    frame: &Frame,
    read: &[usize],
    found: &[usize],
    program: &Unfolded,
) -> Result<(), AllocError>
    ensures { OnOk result (AddsCells line.entry
        held.now frame.now read.now found.now program.now out.old out.new) }
{
    program.well_formed();
    let mut number: u32 = 0;
    let mut rest = program.cells();
    while let Some((cell, others)) = rest.split_first() {
        if was_read(held, read, found, number) {
            write_variable(alloc, out, line, cell, frame.value(number))?;
        }
        number += 1;
        rest = others;
    }
    Ok(())
}

/// What the code of a body has done before a place.
pub(crate) fn code_before(body: &Body, place: u32) -> &[Instr<Slot>]
    ensures { result.now ≡ code_before body.now place }
{
    let code = body.code();
    let place = (place as usize).min(code.len());
    &code[..place]
}

/// The variables that were read for what a process of this body evaluated.
fn write_read(
    alloc: Global,
    out: &mut Vec<u8>,
    told: Told<'_>,
    number: u32,
    line: u32,
    body: &Body,
    task: &Task,
) -> Result<(), AllocError>
    ensures { OnOk result (AddsRead told.entry number line body.now task.now out.old out.new) }
{
    let calls = told.places.calls(number);
    let holding = fault_holders(alloc, calls, body, task.pc, line)?;
    let holders = holding.as_slice();
    let call = innermost_call(alloc, calls, holders)?;
    let led = outwards(alloc, calls, call)?;
    let naming = Naming {
        lines: told.lines,
        line,
        calls,
        holders,
        numbers: led.as_slice(),
    };
    let code = code_before(body, task.pc);
    let read = reads_in(alloc, code)?;
    let found = components_in(alloc, &task.frame, code)?;
    write_variables(
        alloc,
        out,
        naming,
        body.cells(),
        &task.frame,
        read.as_slice(),
        found.as_slice(),
        told.unfolded,
    )
}

/// The line of the source that a fault stands in.
fn write_line(alloc: Global, out: &mut Vec<u8>, source: &[u8], line: u32) -> Result<(), AllocError>
    ensures { OnOk result (AddsText out.old out.new (fault_line source.now line)) }
{
    let text = plain_text(alloc, unspaced(numbered_line(source, line)))?;
    out.extend_from_slice(b"    ")?;
    out.extend_from_slice(text.as_slice())?;
    out.extend_from_slice(b"\n")
}

/// The lines below that of the process of this number, where it met a fault: the line of the source, and the variables that were read.
pub(crate) fn write_faulted(
    alloc: Global,
    out: &mut Vec<u8>,
    told: Told<'_>,
    number: u32,
    task: &Task,
) -> Result<(), AllocError>
    ensures { OnOk result (AddsFault told.entry number task.now out.old out.new) }
{
    let Wait::Faulted(fault) = &task.wait else {
        return Ok(());
    };
    write_line(alloc, out, told.source, fault.line)?;
    match told.code.body(number as usize) {
        Some(body) => write_read(alloc, out, told, number, fault.line, body, task),
        None => Ok(()),
    }
}
