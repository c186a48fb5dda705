//! Who takes part in a chart.
ghost use Rattle.std.specs.Prelude.{◌≡◌, ◌≤◌, IfOk, OnOk, length};
ghost use Rattle.occ_chart.specs.Columns.{AreColumns, group, is_before, is_end, number, place_for, column_of, is_column, AddsEnd, AddsEnds, AddsFootings};

use crate::stub::Stub;
use occ_board::Shown;
use occ_term::End;
use std::alloc::{AllocError, Global};

/// First the keyboard, then the processes, then the screen, then the error channel.
fn group(end: End) -> u32
    ensures { result ≡ group end }
{
    match end {
        End::Keyboard => 0,
        End::Process(_) => 1,
        End::Screen => 2,
        End::Error => 3,
    }
}

/// The number of a process.
fn number(end: End) -> u32
    ensures { result ≡ number end }
{
    match end {
        End::Process(number) => number,
        End::Keyboard => 0,
        End::Screen => 0,
        End::Error => 0,
    }
}

pub(crate) fn is_end(one: End, other: End) -> bool
    ensures { result ≡ is_end one other }
{
    group(one) == group(other) && number(one) == number(other)
}

fn is_before(one: End, other: End) -> bool
    ensures { result ≡ is_before one other }
{
    group(one) < group(other) || (group(one) == group(other) && number(one) < number(other))
}

/// The column of an end; their number where it has none.
pub(crate) fn place_of(columns: &[End], end: End) -> usize
    ensures place { result ≡ column_of end columns.now }
    ensures within { result ≤ length columns.now }
{
    for i in 0..columns.len() {
        if is_end(end, columns[i]) {
            return i;
        }
    }
    columns.len()
}

/// Before how many an end does not stand.
fn place_for(columns: &[End], end: End) -> usize
    ensures place { result ≡ place_for end columns.now }
    ensures within { result ≤ length columns.now }
{
    for i in 0..columns.len() {
        if !is_before(columns[i], end) {
            return i;
        }
    }
    columns.len()
}

/// Whether an end stands at this place.
fn is_at(columns: &[End], place: usize, end: End) -> bool
    ensures { result ≡ is_column end columns.now place }
{
    match columns.get(place) {
        Some(found) => is_end(*found, end),
        None => false,
    }
}

/// Adds an end that was not among them, in its place.
fn add(columns: &mut Vec<End>, end: End) -> Result<(), AllocError>
    ensures { OnOk result (AddsEnd columns.old columns.new end) }
{
    let place = place_for(columns.as_slice(), end);
    if is_at(columns.as_slice(), place, end) {
        return Ok(());
    }
    columns.insert(place, end)?;
    Ok(())
}

/// Adds those that send or receive.
fn add_ends(columns: &mut Vec<End>, shown: &[Shown]) -> Result<(), AllocError>
    ensures { OnOk result (AddsEnds columns.old columns.new shown.now) }
{
    let mut rest = shown;
    while let Some((first, others)) = rest.split_first() {
        add(columns, first.sender())?;
        add(columns, first.receiver())?;
        rest = others;
    }
    Ok(())
}

/// Adds those that stand at the foot.
fn add_stubs(columns: &mut Vec<End>, stubs: &[Stub]) -> Result<(), AllocError>
    ensures { OnOk result (AddsFootings columns.old columns.new stubs.now) }
{
    let mut rest = stubs;
    while let Some((first, others)) = rest.split_first() {
        add(columns, End::Process(first.process()))?;
        rest = others;
    }
    Ok(())
}

/// Those that take part, each once, in order.
pub(crate) fn columns(
    alloc: Global,
    shown: &[Shown],
    stubs: &[Stub],
) -> Result<Vec<End>, AllocError>
    ensures { IfOk result (λ columns. AreColumns shown.now stubs.now columns.items) }
{
    let mut columns = Vec::new(alloc);
    add_ends(&mut columns, shown)?;
    add_stubs(&mut columns, stubs)?;
    Ok(columns)
}
