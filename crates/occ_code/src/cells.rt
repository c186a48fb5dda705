//! The cells that a process uses, and those that it writes.
ghost use Rattle.std.specs.Prelude.{◌≡◌, ◌<◌, ◌≤◌, ℕ, IfOk, OnOk, length, max};
ghost use Rattle.std.specs.List.{All};
ghost use Rattle.std.specs.List.Sorted.{IsNonDecreasingBy};
ghost use Rattle.occ_term.specs.UnfoldedProgram.{most_cells};
ghost use Rattle.occ_usage.specs.Noted.{uses_in};
ghost use Rattle.occ_usage.specs.declared.noted.Use.{Use};
ghost use Rattle.occ_machine.specs.SameStop.{Lists, used_by};
ghost use Rattle.occ_code.specs.Cells.{AddsRow, ListsWithin, counted, covers, end_of, furthest, in_rows, is_counted as is_counted_use};

use occ_term::{CellRows, FrameCells, MOST_CELLS};
use occ_usage::{Kind, Use};
use std::alloc::{AllocError, Global};

/// Cells in a row.
#[derive(Clone, Copy)]
pub struct Row {
    /// The first.
    pub first: u64,
    /// The number after the last one.
    pub end: u64,
}

/// The cells that are read or written, rising. They are all where none is past the limit, as in every well-formed program.
/// The error is a refused growth.
pub(crate) fn process_cells(alloc: Global, uses: &[Use]) -> Result<FrameCells, AllocError>
    ensures lists { IfOk result (ListsWithin (used_by (uses_in uses.now))) }
    ensures few { IfOk result (λ xs. length xs ≤ most_cells) }
{
    rising_cells(alloc, uses, false)
}

/// The cells that are written, or also those that are read, rising. They are all where none is past the limit, as in every
/// well-formed program. The error is a refused growth.
pub(crate) fn rising_cells(
    alloc: Global,
    uses: &[Use],
    writes_only: bool,
) -> Result<FrameCells, AllocError>
    ensures lists { IfOk result (ListsWithin (counted writes_only (uses_in uses.now))) }
    ensures few { IfOk result (λ xs. length xs ≤ most_cells) }
{
    let count = furthest_end(uses, writes_only);
    if count > MOST_CELLS {
        let none = CellRows::new(alloc).into_cells(alloc)?;
        return Ok(none);
    }
    let mut rows = rows_of(alloc, uses, writes_only)?;
    rows.sort_unstable_by_key(|row| row.first);
    let gathered = cells_among(alloc, &rows)?;
    let cells = gathered.into_cells(alloc)?;
    Ok(cells)
}

fn is_counted(kind: Kind, writes_only: bool) -> bool
    ensures { result ≡ is_counted_use writes_only kind }
{
    match kind {
        Kind::Read => !writes_only,
        Kind::Write => true,
        Kind::Input => false,
        Kind::Output => false,
    }
}

/// The furthest end of a use that is counted and has a number.
fn furthest_end(uses: &[Use], writes_only: bool) -> usize
    ensures { result ≡ furthest writes_only uses.now }
{
    let mut end = 0;
    let mut left = uses.len();
    while left > 0 {
        left -= 1;
        end = further(end, uses[left], writes_only);
    }
    end as usize
}

/// The furthest of this end and that of a use, if it is counted.
fn further(end: u64, one: Use, writes_only: bool) -> u64
    ensures { result ≡ max (end_of writes_only one) end }
{
    let own = end_of(one, writes_only);
    larger(end, own)
}

fn end_of(one: Use, writes_only: bool) -> u64
    ensures { result ≡ end_of writes_only one }
{
    if is_counted(one.kind, writes_only) && one.first < one.end {
        one.end
    } else {
        0
    }
}

fn larger(a: u64, b: u64) -> u64
    ensures { result ≡ max a b }
{
    if a < b { b } else { a }
}

/// The cells of each use that is counted, where it has any.
fn rows_of(alloc: Global, uses: &[Use], writes_only: bool) -> Result<Vec<Row>, AllocError>
    requires { furthest writes_only uses.now ≤ most_cells }
    ensures numbers { IfOk result
        (λ rows. (c : ℕ) → in_rows rows.items c ≡ covers writes_only uses.now c) }
    ensures within { IfOk result (λ rows. All (λ row. row.end ≤ most_cells) rows.items) }
{
    let mut rows = Vec::new(alloc);
    let mut left = uses.len();
    while left > 0 {
        left -= 1;
        add_use(&mut rows, uses[left], writes_only)?;
    }
    Ok(rows)
}

fn add_use(rows: &mut Vec<Row>, one: Use, writes_only: bool) -> Result<(), AllocError>
    ensures { OnOk result (AddsRow writes_only one rows.old.items rows.new.items) }
{
    if is_counted(one.kind, writes_only) && one.first < one.end {
        rows.push(Row {
            first: one.first,
            end: one.end,
        })?;
    }
    Ok(())
}

/// The cells in rows that are sorted, each once.
fn cells_among(alloc: Global, rows: &[Row]) -> Result<CellRows, AllocError>
    requires sorted { IsNonDecreasingBy (λ row. row.first) rows.now }
    requires within { All (λ row. row.end ≤ most_cells) rows.now }
    ensures lists { IfOk result (λ xs. Lists xs (in_rows rows.now)) }
    ensures few { IfOk result (λ xs. length xs ≤ most_cells) }
{
    let mut cells = CellRows::new(alloc);
    let mut reached = 0;
    for row in rows {
        cells.add(larger(reached, row.first), row.end)?;
        reached = larger(reached, row.end);
    }
    Ok(cells)
}
