//! Cells in rows: how they are gathered.
ghost use Rattle.std.specs.Prelude.{◌≡◌, ◌<◌, ◌≤◌, ◌+◌, ◌-◌, ◌++◌, ◌^◌, ◌↔◌, [], IfOk, IsTrue, OnOk, length};
ghost use Rattle.occ_term.specs.CellRows.{cells_in, numbers_from};

use crate::frame_cells::FrameCells;
use std::alloc::{AllocError, Global};
use std::marker::Model;

/// Cells in a row, one of the rows of a list of cells.
#[derive(Clone, Copy)]
pub struct CellRow {
    /// The first cell.
    pub first: u64,
    /// The number after the last cell.
    pub end: u64,
    /// How many cells stand before it in the list.
    pub place: usize,
}

impl CellRow {
    /// How many cells it has.
    pub fn count(&self) -> usize
        ensures { result ≡ self.now.end - self.now.first }
    {
        self.end.saturating_sub(self.first) as usize
    }

    fn is_same(&self, other: &CellRow) -> bool
        ensures { IsTrue result ↔ (self.now ≡ other.now) }
    {
        self.first == other.first && self.end == other.end && self.place == other.place
    }
}

/// Rows of cells that are gathered one after another. Contracts see the numbers of all cells, in this order.
pub struct CellRows {
    rows: Vec<CellRow>,
    /// The row that was added last. It grows where the next one begins at its end.
    last: Option<CellRow>,
    rising: bool,
}

impl Drop for CellRows {
    fn drop(self) {
        let CellRows {
            rows: _,
            last: _,
            rising: _,
        } = self;
    }
}

impl Model for CellRows {
    ghost use Rattle.std.specs.Prelude.{List, ℕ, ◌++◌};
    ghost use Rattle.std.specs.Option.{option_to_list};
    ghost use Rattle.occ_term.specs.CellRows.{Gathered, cells_in};

    ghost Value = { List ℕ };

    ghost view = { λ g. cells_in (g.rows.items ++ option_to_list g.last) };

    ghost invariant = { λ g. Gathered g.rows.items g.last g.rising };
}

impl CellRows {
    /// No cells yet.
    pub fn new(alloc: Global) -> CellRows
        ensures { result ≡ [] }
    {
        CellRows {
            rows: Vec::new(alloc),
            last: None,
            rising: true,
        }
    }

    /// Adds a row, from its first cell to the number after its last one: nothing, where that isn't greater. The error is a
    /// refused growth.
    pub fn add(&mut self, first: u64, end: u64) -> Result<(), AllocError>
        requires { length self.old + (end - first) < 2 ^ 64 }
        ensures { OnOk result (self.new ≡ self.old ++ numbers_from first (end - first)) }
    {
        if first >= end {
            return Ok(());
        }
        let Some(last) = self.last else {
            self.last = Some(CellRow {
                first,
                end,
                place: 0,
            });
            return Ok(());
        };
        if last.end == first {
            self.last = Some(CellRow {
                first: last.first,
                end,
                place: last.place,
            });
            return Ok(());
        }
        self.rows.push(last)?;
        self.rising = still_rises(self.rising, last.end, first);
        self.last = Some(CellRow {
            first,
            end,
            place: last.place + last.count(),
        });
        Ok(())
    }

    /// The cells that were gathered. The error is a refused growth.
    pub fn into_cells(self, alloc: Global) -> Result<FrameCells, AllocError>
        ensures { IfOk result (λ h. h ≡ self) }
    {
        let CellRows {
            mut rows,
            last,
            rising,
        } = self;
        let Some(last) = last else {
            return FrameCells::of_rows(alloc, rows, 0, rising);
        };
        rows.push(last)?;
        FrameCells::of_rows(alloc, rows, last.place + last.count(), rising)
    }
}

/// Whether rows that rise still do with one more, where the last one ends there and the next begins here.
fn still_rises(rising: bool, end: u64, first: u64) -> bool
    ensures { IsTrue result → IsTrue rising × (end ≤ first) }
{
    rising && end <= first
}

/// Whether both are the same rows.
pub(crate) fn same_rows(rows: &[CellRow], others: &[CellRow]) -> bool
    ensures { IsTrue result ↔ (rows.now ≡ others.now) }
{
    if rows.len() != others.len() {
        return false;
    }
    for i in 0..rows.len() {
        if !rows[i].is_same(&others[i]) {
            return false;
        }
    }
    true
}
