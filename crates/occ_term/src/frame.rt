//! The variables of a process.
ghost use Rattle.std.specs.Prelude.{◌≡◌, ◌<◌, ◌+◌, ◌++◌, ◌↔◌, ◌^◌, IsTrue, IfOk, IfSome, OnOk, drop, length, map, pos, replicate, slice_index_or, slice_set};
ghost use Rattle.occ_term.specs.CellRows.{cells_of};
ghost use Rattle.occ_term.specs.Frames.{at, in_place, value_at, values_with, zero_frame, frame_with, with_place, frame_from, row_with, span_with, counter_at, with_counter};
ghost use Rattle.occ_term.specs.Values.{values_from};
ghost use Rattle.occ_term.specs.FrameParts.{IsRowOf, copied_frame};

use crate::cell_rows::CellRow;
use crate::frame_cells::FrameCells;
use crate::same::{same_counts, same_values};
use std::alloc::{AllocError, Global};
use std::marker::Model;

/// The variables of a process and of its branches: the cells that it uses, in rising order in compiled
/// code, with their values, and the counters of its replicated SEQs.
pub struct Frame {
    cells: FrameCells,
    values: Vec<i64>,
    left: Vec<u64>,
}

impl Drop for Frame {
    fn drop(self) {
        let Frame {
            cells: _,
            values: _,
            left: _,
        } = self;
    }
}

impl Model for Frame {
    ghost use Rattle.std.specs.Prelude.{◌≡◌, length};
    ghost use Rattle.occ_term.specs.Frames.{Variables};

    ghost Value = { Variables };

    ghost view = { λ f. record { cells = f.cells; values = f.values.items; left = f.left.items } };

    ghost invariant = { λ f. length f.values.items ≡ length f.cells };
}

impl Frame {
    /// A frame of these cells, which it shares, and of so many counters of replicated SEQs, where all is 0.
    pub fn new(alloc: Global, cells: &FrameCells, loops: usize) -> Result<Frame, AllocError>
        ensures { IfOk result (λ f. f ≡ zero_frame cells.now loops) }
    {
        let values = vec![in alloc; 0; cells.len()]?;
        let left = vec![in alloc; 0; loops]?;
        let cells = cells.copy()?;
        Ok(Frame {
            cells,
            values,
            left,
        })
    }

    /// A frame of these cells, which it shares, with the values that another frame has of them, 0 where it holds no such
    /// cell, and of so many counters of replicated SEQs, which are 0. The error is a refused growth.
    pub fn copied_from(
        alloc: Global,
        cells: &FrameCells,
        loops: usize,
        from: &Frame,
    ) -> Result<Frame, AllocError>
        ensures { IfOk result (λ f. f ≡ copied_frame cells.now loops from.now) }
    {
        let values = values_of(alloc, cells, from)?;
        let left = vec![in alloc; 0; loops]?;
        let cells = cells.copy()?;
        Ok(Frame {
            cells,
            values,
            left,
        })
    }

    /// The value of a cell; 0 of a cell that the frame doesn't hold.
    pub fn value(&self, cell: u32) -> i64
        ensures { result ≡ at self.now cell }
    {
        self.value_at(u64::from(cell))
    }

    /// The same of a cell whose number was computed.
    #[inline(always)]
    pub fn value_at(&self, cell: u64) -> i64
        ensures { result ≡ at self.now cell }
    {
        match self.cells.place_of(cell) {
            Some(place) => value_in(&self.values, place),
            None => 0,
        }
    }

    /// The values of so many cells in a row, from the first cell on. None where they aren't seen to stand in a row here.
    pub fn row(&self, first: u64, count: usize) -> Option<&[i64]>
        ensures { IfSome result (λ values. values.now ≡ values_from first count (at self.now)) }
    {
        let place = self.cells.row_of(first, count)?;
        let values = values_in_row(&self.values, place, count)?;
        Some(values)
    }

    /// The value at a place among those of the cells.
    #[inline(always)]
    pub fn value_in(&self, place: u32) -> i64
        requires { place < length self.now.values }
        ensures { result ≡ in_place self.now place }
    {
        self.values[place as usize]
    }

    /// Gives a cell this value. A cell that the frame doesn't hold has none.
    #[inline(always)]
    pub fn set(&mut self, cell: u64, value: i64)
        ensures { self.new ≡ frame_with self.old cell value }
    {
        if let Some(place) = self.cells.place_of(cell) {
            put_in(&mut self.values, place, value);
        }
    }

    /// Puts this value at a place among those of the cells.
    #[inline(always)]
    pub fn set_in(&mut self, place: u32, value: i64)
        requires { place < length self.old.values }
        ensures { self.new ≡ with_place self.old place value }
    {
        let place = place as usize;
        self.values[place] = value;
    }

    /// Gives cells in a row these values, from the first cell on.
    pub fn set_span(&mut self, first: u64, values: &[i64])
        ensures { self.new ≡ frame_from first values.now self.old }
    {
        set_values(&self.cells, &mut self.values, first, values);
    }

    /// Gives so many cells in a row the value 0, from the first cell on.
    pub fn clear_span(&mut self, first: u32, count: u32)
        ensures { self.new ≡ frame_from first (replicate count (pos 0)) self.old }
    {
        clear_values(&self.cells, &mut self.values, first, count);
    }

    /// How many cells it holds.
    pub fn len(&self) -> usize
        ensures { result ≡ length self.now.values }
    {
        self.values.len()
    }

    /// How many counters of replicated SEQs it has.
    pub fn counters(&self) -> usize
        ensures { result ≡ length self.now.left }
    {
        self.left.len()
    }

    /// A counter of the replicated SEQs.
    #[inline(always)]
    pub fn left(&self, slot: u64) -> u64
        requires { slot < length self.now.left }
        ensures { result ≡ counter_at self.now.left slot }
    {
        counter_at(&self.left, slot)
    }

    /// Sets a counter of the replicated SEQs.
    #[inline(always)]
    pub fn set_left(&mut self, slot: u64, count: u64)
        requires { slot < length self.old.left }
        ensures { self.new ≡ with_counter self.old slot count }
    {
        let slot = slot as usize;
        self.left[slot] = count;
    }

    /// A copy. The error is a refused growth, or too many copies.
    pub fn copy(&self, alloc: Global) -> Result<Frame, AllocError>
        ensures { IfOk result (λ f. f ≡ self.now) }
    {
        Ok(Frame {
            cells: self.cells.copy()?,
            values: Vec::from_slice(alloc, &self.values)?,
            left: Vec::from_slice(alloc, &self.left)?,
        })
    }

    /// Whether both have the same content.
    pub fn is_same(&self, other: &Frame) -> bool
        ensures { IsTrue result ↔ (self.now ≡ other.now) }
    {
        self.cells.is_same(&other.cells)
            && same_values(&self.values, &other.values)
            && same_counts(&self.left, &other.left)
    }
}

/// The values that a frame has of these cells.
fn values_of(alloc: Global, cells: &FrameCells, from: &Frame) -> Result<Vec<i64>, AllocError>
    ensures { IfOk result (λ values. values.items ≡ map (at from.now) cells.now) }
{
    let mut values = Vec::with_capacity(alloc, cells.len())?;
    for row in cells.rows() {
        add_values(&mut values, row, from)?;
    }
    Ok(values)
}

/// Adds the values that a frame has of the cells in a row.
fn add_values(values: &mut Vec<i64>, row: &CellRow, from: &Frame) -> Result<(), AllocError>
    ensures { OnOk result
        (values.new.items ≡ values.old.items ++ map (at from.now) (cells_of row.now)) }
{
    match from.row(row.first, row.count()) {
        Some(held) => values.extend_from_slice(held)?,
        None => add_each(values, row, from)?,
    }
    Ok(())
}

fn add_each(values: &mut Vec<i64>, row: &CellRow, from: &Frame) -> Result<(), AllocError>
    ensures { OnOk result
        (values.new.items ≡ values.old.items ++ map (at from.now) (cells_of row.now)) }
{
    for i in 0..row.count() {
        values.push(from.value_at(row.first + i as u64))?;
    }
    Ok(())
}

#[inline(always)]
fn value_in(values: &[i64], place: usize) -> i64
    requires { place < length values.now }
    ensures { result ≡ slice_index_or values.now place (pos 0) }
{
    values[place]
}

#[inline(always)]
fn put_in(values: &mut [i64], place: usize, value: i64)
    requires { place < length values.old }
    ensures { values.new ≡ slice_set values.old place value }
{
    values[place] = value;
}

fn set_value(cells: &FrameCells, values: &mut [i64], cell: u64, value: i64)
    ensures { values.new ≡ values_with cells.now values.old cell value }
{
    if let Some(place) = cells.place_of(cell) {
        set_in(values, place, value);
    }
}

fn set_in(values: &mut [i64], place: usize, value: i64)
    ensures { values.new ≡ slice_set values.old place value }
{
    if place < values.len() {
        values[place] = value;
    }
}

fn values_in_row(values: &[i64], place: usize, count: usize) -> Option<&[i64]>
    requires { place + count < 2 ^ 64 }
    ensures { IfSome result (λ row. IsRowOf values.now place count row.now) }
{
    if place + count <= values.len() {
        Some(&values[place..place + count])
    } else {
        None
    }
}

fn set_values(cells: &FrameCells, held: &mut [i64], first: u64, values: &[i64])
    ensures { held.new ≡ span_with cells.now held.old first values.now }
{
    match cells.row_of(first, values.len()) {
        Some(place) => set_row(held, place, values),
        None => set_each(cells, held, first, values),
    }
}

fn set_row(held: &mut [i64], place: usize, values: &[i64])
    requires { place + length values.now < 2 ^ 64 }
    ensures { held.new ≡ row_with held.old place values.now }
{
    if place + values.len() <= held.len() {
        held[place..place + values.len()].copy_from_slice(values);
    } else {
        set_each_place(held, place, values);
    }
}

fn set_each_place(held: &mut [i64], place: usize, values: &[i64])
    requires { place + length values.now < 2 ^ 64 }
    ensures { held.new ≡ row_with held.old place values.now }
{
    for (i, value) in values.iter().enumerate() {
        set_in(held, place + i, *value);
    }
}

fn set_each(cells: &FrameCells, held: &mut [i64], first: u64, values: &[i64])
    ensures { held.new ≡ span_with cells.now held.old first values.now }
{
    cells.words();
    for (i, value) in values.iter().enumerate() {
        let i = i as u64;
        if u64::MAX - i < first {
            return;
        }
        set_value(cells, held, first + i, *value);
    }
}

fn clear_values(cells: &FrameCells, held: &mut [i64], first: u32, count: u32)
    ensures { held.new ≡ span_with cells.now held.old first (replicate count (pos 0)) }
{
    match cells.row_of(u64::from(first), count as usize) {
        Some(place) => clear_row(held, place, count as usize),
        None => clear_each(cells, held, first, count),
    }
}

fn clear_row(held: &mut [i64], place: usize, count: usize)
    requires { place + count < 2 ^ 64 }
    ensures { held.new ≡ row_with held.old place (replicate count (pos 0)) }
{
    if place + count <= held.len() {
        held[place..place + count].fill(0);
    } else {
        clear_each_place(held, place, count);
    }
}

fn clear_each_place(held: &mut [i64], place: usize, count: usize)
    requires { place + count < 2 ^ 64 }
    ensures { held.new ≡ row_with held.old place (replicate count (pos 0)) }
{
    for i in 0..count {
        set_in(held, place + i, 0);
    }
}

fn clear_each(cells: &FrameCells, held: &mut [i64], first: u32, count: u32)
    ensures { held.new ≡ span_with cells.now held.old first (replicate count (pos 0)) }
{
    for i in 0..count {
        set_value(cells, held, u64::from(first) + u64::from(i), 0);
    }
}

#[inline(always)]
fn counter_at(counters: &[u64], slot: u64) -> u64
    requires { slot < length counters.now }
    ensures { result ≡ counter_at counters.now slot }
{
    counters[slot as usize]
}
