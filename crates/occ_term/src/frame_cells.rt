//! The cells that a frame holds, and where.
ghost use Rattle.std.specs.Prelude.{◌≡◌, ◌↔◌, ◌<◌, ◌≤◌, ◌+◌, ◌-◌, ◌^◌, ℕ, IfNone, IfOk, IfSome, IsTrue, None, Some, length, slice_index};
ghost use Rattle.std.specs.Arc.{arc_value};
ghost use Rattle.occ_term.specs.CellRows.{AreRows, Kept, Rise, StandsIn, cells_in};
ghost use Rattle.occ_term.specs.FirstRow.{HasFirstRow};
ghost use Rattle.occ_term.specs.Frames.{place_among, place_in};

use crate::cell_rows::{CellRow, CellRows, same_rows};
use sqlite_items::Items;
use std::alloc::{AllocError, Global};
use std::marker::Model;
use std::sync::Arc;

/// The cells of a frame. Contracts see their numbers. Copies share them.
///
/// They are kept as rows, each as long as it can be, so a large array takes no more than a single cell. The place of a cell
/// in the first row, whose bounds stand beside them, is found at once, and else by halving the rows, if they are rising.
pub struct FrameCells {
    rows: Arc<Items<CellRow>, Global>,
    /// The first cell of the first row.
    first: u64,
    /// How many cells the first row has.
    beginning: u64,
    count: usize,
    rising: bool,
}

impl Drop for FrameCells {
    fn drop(self) {
        let FrameCells {
            rows: _,
            first: _,
            beginning: _,
            count: _,
            rising: _,
        } = self;
    }
}

impl Model for FrameCells {
    ghost use Rattle.std.specs.Prelude.{List, ℕ};
    ghost use Rattle.std.specs.Arc.{arc_value};
    ghost use Rattle.occ_term.specs.CellRows.{cells_in};
    ghost use Rattle.occ_term.specs.FirstRow.{HeldRows};

    ghost Value = { List ℕ };

    ghost view = { λ h. cells_in (arc_value h.rows) };

    ghost invariant = { λ h. HeldRows (arc_value h.rows) h.rising h.count h.first h.beginning };
}

impl FrameCells {
    /// These cells. The error is a refused growth.
    pub fn new(alloc: Global, cells: &[u32]) -> Result<FrameCells, AllocError>
        ensures { IfOk result (λ h. h ≡ cells.now) }
    {
        let mut rows = CellRows::new(alloc);
        for cell in cells {
            let first = u64::from(*cell);
            rows.add(first, first + 1)?;
        }
        rows.into_cells(alloc)
    }

    /// The cells in these rows, and how many there are.
    pub(crate) fn of_rows(
        alloc: Global,
        rows: Vec<CellRow>,
        count: usize,
        rising: bool,
    ) -> Result<FrameCells, AllocError>
        requires kept { Kept rows.items rising }
        requires count { count ≡ length (cells_in rows.items) }
        ensures { IfOk result (λ h. h ≡ cells_in rows.items) }
    {
        let (first, beginning) = first_bounds(&rows);
        let rows = Arc::new(alloc, Items::from_vec(rows))?;
        Ok(FrameCells {
            rows,
            first,
            beginning,
            count,
            rising,
        })
    }

    /// A copy, which shares the rows. The error is that there are too many copies.
    pub fn copy(&self) -> Result<FrameCells, AllocError>
        ensures { IfOk result (λ h. h ≡ self.now) }
    {
        let rows = Arc::try_clone(&self.rows)?;
        Ok(FrameCells {
            rows,
            first: self.first,
            beginning: self.beginning,
            count: self.count,
            rising: self.rising,
        })
    }

    /// How many cells there are.
    pub fn len(&self) -> usize
        ensures { result ≡ length self.now }
    {
        self.count
    }

    /// The rows, in the order of the cells.
    pub fn rows(&self) -> &[CellRow]
        ensures { cells_in result.now ≡ self.now }
    {
        self.rows.as_slice()
    }

    /// Whether both are the same cells.
    pub fn is_same(&self, other: &FrameCells) -> bool
        ensures { IsTrue result ↔ (self.now ≡ other.now) }
    {
        same_rows(self.rows.as_slice(), other.rows.as_slice())
    }

    /// Cells have 64 bits.
    pub(crate) fn words(&self)
        ensures { (k : ℕ) → slice_index self.now k < 2 ^ 64 }
    {
        let _rows = &self.rows;
    }

    /// The first place that holds a cell, or the end where none does.
    pub fn place_among(&self, cell: u32) -> usize
        ensures is { result ≡ place_among self.now cell }
        ensures within { result ≤ length self.now }
    {
        match self.place_of(u64::from(cell)) {
            Some(place) => place,
            None => self.count,
        }
    }

    /// The first place that holds a cell. One below the first row is seen to be so far from its first cell that it's not in it.
    #[inline(always)]
    pub(crate) fn place_of(&self, cell: u64) -> Option<usize>
        ensures is { result ≡ place_in self.now cell }
        ensures within { IfSome result (λ place. place < length self.now) }
    {
        let behind = cell.wrapping_sub(self.first);
        if behind < self.beginning {
            return Some(behind as usize);
        }
        self.place_in_rows(cell)
    }

    /// The same, where the rows are looked through.
    #[cold]
    #[inline(never)]
    fn place_in_rows(&self, cell: u64) -> Option<usize>
        ensures is { result ≡ place_in self.now cell }
        ensures within { IfSome result (λ place. place < length self.now) }
    {
        let rows = self.rows.as_slice();
        if self.rising {
            place_among_rising(rows, cell)
        } else {
            first_place(rows, cell)
        }
    }

    /// The first of so many places in a row that hold as many cells in a row, from the first cell on. None where it isn't
    /// seen that there are such places.
    pub(crate) fn row_of(&self, first: u64, count: usize) -> Option<usize>
        ensures row { IfSome result
            (λ place. (k : ℕ) → k < count → place_in self.now (first + k) ≡ Some (place + k)) }
        ensures within { IfSome result (λ place. place + count ≤ length self.now) }
        ensures few { IfSome result (λ place. place + count < 2 ^ 64) }
    {
        if !self.rising {
            return None;
        }
        let row = row_among_rising(self.rows.as_slice(), first)?;
        let begin = (first - row.first) as usize;
        if count <= row.count() - begin {
            Some(row.place + begin)
        } else {
            None
        }
    }
}

/// The first cell of the first row, and how many cells it has.
fn first_bounds(rows: &[CellRow]) -> (u64, u64)
    ensures is { HasFirstRow result.0 result.1 rows.now }
    ensures short { result.0 + result.1 < 2 ^ 64 }
{
    match rows {
        [row, ..] => (row.first, row.end.saturating_sub(row.first)),
        [] => (0, 0),
    }
}

/// The place of a cell in a row that holds it.
fn place_in_row(row: &CellRow, cell: u64) -> usize
    requires begun { row.now.first ≤ cell }
    requires few { row.now.place + (cell - row.now.first) < 2 ^ 64 }
    ensures { result ≡ row.now.place + (cell - row.now.first) }
{
    row.place + (cell - row.first) as usize
}

fn place_among_rising(rows: &[CellRow], cell: u64) -> Option<usize>
    requires rows { AreRows 0 rows.now }
    requires rise { Rise 0 rows.now }
    requires few { length (cells_in rows.now) < 2 ^ 64 }
    ensures { result ≡ place_in (cells_in rows.now) cell }
{
    match row_among_rising(rows, cell) {
        Some(row) => Some(place_in_row(row, cell)),
        None => None,
    }
}

/// The row that holds a cell.
fn row_among_rising(rows: &[CellRow], cell: u64) -> Option<&CellRow>
    requires rows { AreRows 0 rows.now }
    requires rise { Rise 0 rows.now }
    ensures some { IfSome result (λ row. StandsIn rows.now cell row.now) }
    ensures none { IfNone result (place_in (cells_in rows.now) cell ≡ None) }
{
    if let Some(row) = rows.first() {
        if row.first <= cell && cell < row.end {
            return Some(row);
        }
    }
    row_by_halves(rows, cell)
}

fn row_by_halves(rows: &[CellRow], cell: u64) -> Option<&CellRow>
    requires rows { AreRows 0 rows.now }
    requires rise { Rise 0 rows.now }
    ensures some { IfSome result (λ row. StandsIn rows.now cell row.now) }
    ensures none { IfNone result (place_in (cells_in rows.now) cell ≡ None) }
{
    let mut low = 0;
    let mut high = rows.len();
    while low < high {
        let middle = low + (high - low) / 2;
        let row = &rows[middle];
        if row.end <= cell {
            low = middle + 1;
        } else if cell < row.first {
            high = middle;
        } else {
            return Some(row);
        }
    }
    None
}

fn first_place(rows: &[CellRow], cell: u64) -> Option<usize>
    requires rows { AreRows 0 rows.now }
    requires few { length (cells_in rows.now) < 2 ^ 64 }
    ensures { result ≡ place_in (cells_in rows.now) cell }
{
    for row in rows {
        if row.first <= cell && cell < row.end {
            return Some(place_in_row(row, cell));
        }
    }
    None
}
