//! The components of arrays that were read under a variable as their subscript.
ghost use Rattle.std.specs.Prelude.{◌≡◌, [], IfOk, OnOk};
ghost use Rattle.occ_report.specs.Components.{AddsComponent, components_in, read_by_four, read_first, subscripted};
ghost use Rattle.occ_report.specs.Evaluating.{is_evaluating};
ghost use Rattle.occ_term.specs.Frames.{in_place};

use occ_machine::{Instr, Slot};
use occ_term::Frame;
use std::alloc::{AllocError, Global};

/// Whether an instruction is in the middle of an evaluation.
pub(crate) fn is_evaluating(instruction: &Instr<Slot>) -> bool
    ensures { result ≡ is_evaluating instruction.now }
{
    matches!(
        instruction,
        Instr::Push(_)
            | Instr::Load(_)
            | Instr::LoadAt
            | Instr::LoadLetter(_, _)
            | Instr::Subscript(_, _, _)
            | Instr::Operate(_, _, _)
            | Instr::OperateOne(_, _, _)
            | Instr::ConvertTo(_, _)
            | Instr::AndThen(_)
            | Instr::OrElse(_)
            | Instr::PartOne(_)
            | Instr::PartMany(_, _)
            | Instr::PartText(_, _)
            | Instr::PartCounted(_, _, _)
            | Instr::PartCountedText(_, _, _)
            | Instr::SpotOne(_)
            | Instr::SpotCounted(_, _, _)
    )
}

/// The cell at a subscript, of so many components from a first cell on, each of which has that many cells.
fn subscripted(first: i64, size: u32, each: u64, subscript: i64) -> Option<usize>
    ensures { result ≡ subscripted first size each subscript }
{
    if subscript < 0 || subscript >= i64::from(size) {
        return None;
    }
    let behind = u128::from(subscript.unsigned_abs()) * u128::from(each);
    let number = u128::from(first.unsigned_abs()) + behind;
    if number < 4_294_967_296 {
        Some(number as usize)
    } else {
        None
    }
}

/// The value at a place among the cells of a frame, 0 where there is none.
fn in_place(frame: &Frame, place: u32) -> i64
    ensures { result ≡ in_place frame.now place }
{
    if (place as usize) < frame.len() {
        frame.value_in(place)
    } else {
        0
    }
}

/// The cell that these four instructions read, by the value of a variable.
fn read_by_four(
    frame: &Frame,
    a: &Instr<Slot>,
    b: &Instr<Slot>,
    c: &Instr<Slot>,
    d: &Instr<Slot>,
) -> Option<usize>
    ensures { result ≡ read_by_four frame.now a.now b.now c.now d.now }
{
    match (a, b, c, d) {
        (Instr::Push(first), Instr::Load(slot), Instr::Subscript(_, size, each), Instr::LoadAt) => {
            subscripted(*first, *size, *each, in_place(frame, slot.0))
        }
        _ => None,
    }
}

/// The cell that a code reads so with its first instructions.
fn read_first(frame: &Frame, code: &[Instr<Slot>]) -> Option<usize>
    ensures { result ≡ read_first frame.now code.now }
{
    match code {
        [a, b, c, d, ..] => read_by_four(frame, a, b, c, d),
        _ => None,
    }
}

/// What was read so, with what the first instruction of this code begins.
fn add_component(
    found: &mut Vec<usize>,
    frame: &Frame,
    instruction: &Instr<Slot>,
    code: &[Instr<Slot>],
) -> Result<(), AllocError>
    ensures { OnOk result (AddsComponent frame.now instruction.now code.now found.old found.new) }
{
    if !is_evaluating(instruction) {
        found.clear();
    }
    if let Some(number) = read_first(frame, code) {
        found.push(number)?;
    }
    Ok(())
}

/// The cells that were read so for what is evaluated at the end of this code.
pub(crate) fn components_in(
    alloc: Global,
    frame: &Frame,
    code: &[Instr<Slot>],
) -> Result<Vec<usize>, AllocError>
    ensures { IfOk result (λ found. found.items ≡ components_in frame.now [] code.now) }
{
    let mut found = Vec::new(alloc);
    let mut rest = code;
    while let Some((instruction, others)) = rest.split_first() {
        add_component(&mut found, frame, instruction, rest)?;
        rest = others;
    }
    Ok(found)
}
