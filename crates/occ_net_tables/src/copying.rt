//! Frames at a fork and at a join.
ghost use Rattle.std.specs.Prelude.{◌≡◌, ◌↔◌, IfOk, IsTrue, OnOk};
ghost use Rattle.occ_term.specs.CellRows.{cells_of};
ghost use Rattle.occ_net_replay.specs.Replay.{branch_frame, merged, taken_over};
ghost use Rattle.occ_net_tables.specs.Room.{first_frame, first_frames, with_branch};

use occ_machine::{Body, Code, Task};
use occ_term::{CellRow, Frame, FrameCells};
use std::alloc::{AllocError, Global};

/// A frame of the body's cells, with the values that another frame has.
fn branch_frame(alloc: Global, body: &Body, parent: &Frame) -> Result<Frame, AllocError>
    ensures { IfOk result (λ f. f ≡ branch_frame body.now parent.now) }
{
    Frame::copied_from(alloc, body.cells(), body.loops() as usize, parent)
}

/// The frame with which a branch begins; a copy of the other one where it has no body.
fn first_frame(alloc: Global, code: &Code, parent: &Frame, number: u32) -> Result<Frame, AllocError>
    ensures { IfOk result (λ f. f ≡ first_frame code.now.bodies parent.now number) }
{
    match code.body(number as usize) {
        Some(body) => branch_frame(alloc, body, parent),
        None => parent.copy(alloc),
    }
}

/// The frames with which branches begin.
pub(crate) fn branch_frames(
    alloc: Global,
    code: &Code,
    parent: &Frame,
    branches: &[u32],
) -> Result<Vec<Frame>, AllocError>
    ensures { IfOk result (λ frames. frames.items ≡ first_frames code.now parent.now branches.now) }
{
    let mut frames = Vec::new(alloc);
    for number in branches {
        frames.push(first_frame(alloc, code, parent, *number)?)?;
    }
    Ok(frames)
}

fn copy_task(alloc: Global, task: &Option<Task>) -> Result<Option<Task>, AllocError>
    ensures { IfOk result (λ copy. copy ≡ task.now) }
{
    match task {
        Some(task) => Ok(Some(task.copy(alloc)?)),
        None => Ok(None),
    }
}

/// Copies of these tasks.
pub(crate) fn copy_tasks(
    alloc: Global,
    tasks: &[Option<Task>],
) -> Result<Vec<Option<Task>>, AllocError>
    ensures { IfOk result (λ copies. copies.items ≡ tasks.now) }
{
    let mut copies = Vec::new(alloc);
    for task in tasks {
        copies.push(copy_task(alloc, task)?)?;
    }
    Ok(copies)
}

/// Whether both are the same.
fn is_same(task: &Option<Task>, other: &Option<Task>) -> bool
    ensures { IsTrue result ↔ (task.now ≡ other.now) }
{
    match (task, other) {
        (Some(task), Some(other)) => task.is_same(other),
        (None, None) => true,
        _ => false,
    }
}

/// Puts a copy of this task in the place of the other one, if they differ.
fn match_task(alloc: Global, from: &Option<Task>, to: &mut Option<Task>) -> Result<(), AllocError>
    ensures { OnOk result (to.new ≡ from.now) }
{
    if is_same(from, to) {
        return Ok(());
    }
    *to = copy_task(alloc, from)?;
    Ok(())
}

/// Makes the second tasks the same as the first ones. Those that are stay where they are.
pub(crate) fn match_tasks(
    alloc: Global,
    from: &[Option<Task>],
    to: &mut Vec<Option<Task>>,
) -> Result<(), AllocError>
    ensures { OnOk result (to.new.items ≡ from.now) }
{
    if to.len() != from.len() {
        *to = copy_tasks(alloc, from)?;
        return Ok(());
    }
    for place in 0..from.len() {
        match_task(alloc, &from[place], &mut to[place])?;
    }
    Ok(())
}

/// Makes the second list a copy of the first one.
pub(crate) fn refill<T: Copy>(from: &[T], to: &mut Vec<T>) -> Result<(), AllocError>
    ensures { OnOk result (to.new.items ≡ from.now) }
{
    to.clear();
    to.extend_from_slice(from)?;
    Ok(())
}

/// Takes over the values of these cells.
fn take_over(writes: &FrameCells, from: &Frame, to: &mut Frame)
    ensures { to.new ≡ taken_over writes.now from.now to.old }
{
    for row in writes.rows() {
        take_row(row, from, to);
    }
}

/// Takes over the values of cells in a row.
fn take_row(row: &CellRow, from: &Frame, to: &mut Frame)
    ensures { to.new ≡ taken_over (cells_of row.now) from.now to.old }
{
    match from.row(row.first, row.count()) {
        Some(values) => to.set_span(row.first, values),
        None => take_each(row, from, to),
    }
}

fn take_each(row: &CellRow, from: &Frame, to: &mut Frame)
    ensures { to.new ≡ taken_over (cells_of row.now) from.now to.old }
{
    for cell in row.first..row.end {
        to.set(cell, from.value_at(cell));
    }
}

/// Takes over what this branch can write.
fn take_branch(code: &Code, tasks: &[Option<Task>], branch: u32, frame: &mut Frame)
    ensures { frame.new ≡ with_branch code.now tasks.now branch frame.old }
{
    let Some(body) = code.body(branch as usize) else {
        return;
    };
    if let Some(Some(task)) = tasks.get(branch as usize) {
        take_over(body.writes(), &task.frame, frame);
    }
}

/// Takes over what the branches can write.
pub(crate) fn merge(code: &Code, tasks: &[Option<Task>], branches: &[u32], frame: &mut Frame)
    ensures { frame.new ≡ merged code.now.bodies tasks.now branches.now frame.old }
{
    for branch in branches {
        take_branch(code, tasks, *branch, frame);
    }
}
