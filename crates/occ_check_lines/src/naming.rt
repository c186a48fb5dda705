//! Whether a subscript of one place names the variable of another.

ghost use Rattle.std.specs.Prelude.{◌≡◌, ◌+◌, ◌<◌, ◌^◌, IfOk, map};
ghost use Rattle.std.specs.List.Sorted.{IsNonDecreasingBy};
ghost use Rattle.occ_term.specs.Terms.{Component};
ghost use Rattle.occ_term.specs.Uses as uses;
ghost use Rattle.occ_term.specs.Values.{span};
ghost use Rattle.occ_term.specs.View.{expression_of, place_of};
ghost use Rattle.occ_check_lines.specs.Clash.{stretch_at};
ghost use Rattle.occ_check_lines.specs.Clash.{AreSorted, begins_at, below, ends_at, is_one_named, met_by, names_another, reads_some, stretches_of, shares, some_in_subscripts, one_names_another, variable_spans};
ghost use Rattle.occ_check_lines.specs.Spans.{span_of};
ghost use Rattle.occ_check_lines.specs.View.{subscripts_of};

use crate::named::{span_named, whole_of};
use crate::span::Span;
use occ_term::{Place, TermExpr};
use std::alloc::{AllocError, Global};

/// Whether a subscript of one of the places names the variable of another. Where all variables begin and end is sorted, so
/// that how many of them some cells meet is found without a look at each.
pub(crate) fn some_names_another(alloc: Global, places: &[&Place]) -> Result<bool, AllocError>
    ensures { IfOk result (λ named. named ≡ is_one_named (stretches_of places.now)) }
{
    let mut firsts = firsts_of(alloc, places)?;
    let mut ends = ends_of(alloc, places)?;
    firsts.sort_unstable();
    ends.sort_unstable();
    Ok(one_names_another(&firsts, &ends, places))
}

/// Where the variables of places begin.
fn firsts_of(alloc: Global, places: &[&Place]) -> Result<Vec<u64>, AllocError>
    ensures { IfOk result
        (λ firsts. firsts.items ≡ map begins_at (variable_spans (stretches_of places.now))) }
{
    let mut firsts = Vec::new(alloc);
    for place in places {
        firsts.push(first_of(whole_of(place)))?;
    }
    Ok(firsts)
}

/// Where they end.
fn ends_of(alloc: Global, places: &[&Place]) -> Result<Vec<u64>, AllocError>
    ensures { IfOk result
        (λ ends. ends.items ≡ map ends_at (variable_spans (stretches_of places.now))) }
{
    let mut ends = Vec::new(alloc);
    for place in places {
        ends.push(end_of(whole_of(place)))?;
    }
    Ok(ends)
}

/// The first cell, and 0 where there is none.
fn first_of(cells: Span) -> u64
    ensures { result ≡ begins_at (span_of cells) }
{
    if cells.count == 0 { 0 } else { cells.first }
}

/// The cell after the last, and 0 where there is none.
fn end_of(cells: Span) -> u64
    requires few { cells.first + cells.count < 2 ^ 33 }
    ensures { result ≡ ends_at (span_of cells) }
{
    if cells.count == 0 {
        0
    } else {
        cells.first + cells.count
    }
}

/// Whether a subscript of one of the places names the variable of another, where the variables begin and end so.
fn one_names_another(firsts: &[u64], ends: &[u64], places: &[&Place]) -> bool
    requires firsts { IsNonDecreasingBy (λ n. n) firsts.now }
    requires ends { IsNonDecreasingBy (λ n. n) ends.now }
    ensures { result ≡ one_names_another firsts.now ends.now (stretches_of places.now) }
{
    for place in places {
        if names_another(firsts, ends, place) {
            return true;
        }
    }
    false
}

/// Whether a subscript of this one does.
fn names_another(firsts: &[u64], ends: &[u64], place: &Place) -> bool
    requires firsts { IsNonDecreasingBy (λ n. n) firsts.now }
    requires ends { IsNonDecreasingBy (λ n. n) ends.now }
    ensures { result ≡ names_another firsts.now ends.now (stretch_at (place_of place.now)) }
{
    let own = whole_of(place);
    let others = Others { firsts, ends, own };
    some_reads(place.subscripts.as_slice(), others)
}

// ---- what subscripts read

/// Variables, by where they begin and where they end, both sorted, and one of them.
#[derive(Clone, Copy)]
struct Others<'a> {
    /// Where they begin.
    firsts: &'a [u64],
    /// Where they end.
    ends: &'a [u64],
    /// The one that is not counted.
    own: Span,
}

/// Whether an expression reads a cell of another variable. A chain of AND and OR is a loop.
#[cycle(reading)]
#[tactic(auto, using(crate::proofs::NamedCells::read_by_right, crate::proofs::NamedCells::read_by_left))]
fn reads(e: &TermExpr, others: Others<'_>) -> bool
    requires sorted { AreSorted others }
    ensures { result ≡ reads_some (met_by others.entry) (expression_of e.now) }
{
    let mut rest = e;
    loop {
        match rest {
            TermExpr::Constant(_) => return false,
            TermExpr::Cell(_, cell) => return meets_another(one_cell(*cell), others),
            TermExpr::Component(place) => return reads_component(place, others),
            TermExpr::Letter(_, _, subscript) => return reads(subscript.get(), others),
            TermExpr::Binary(_, _, _, left, right) => {
                if reads(left.get(), others) {
                    return true;
                }
                return reads(right.get(), others);
            }
            TermExpr::Unary(_, _, _, operand) => return reads(operand.get(), others),
            TermExpr::And(left, right) => {
                if reads(right.get(), others) {
                    return true;
                }
                rest = left.get();
            }
            TermExpr::Or(left, right) => {
                if reads(right.get(), others) {
                    return true;
                }
                rest = left.get();
            }
            TermExpr::Conversion(_, _, operand) => return reads(operand.get(), others),
        }
    }
}

/// Whether a component or one of its subscripts does.
#[cycle(reading)]
fn reads_component(place: &Place, others: Others<'_>) -> bool
    requires sorted { AreSorted others }
    ensures { result ≡ reads_some (met_by others.entry) (Component (place_of place.now)) }
{
    let named = span_named(place);
    if meets_another(named, others) {
        return true;
    }
    some_reads(place.subscripts.as_slice(), others)
}

/// Whether one of the subscripts does.
#[cycle(reading)]
fn some_reads(list: &[TermExpr], others: Others<'_>) -> bool
    requires sorted { AreSorted others }
    ensures { result ≡ some_in_subscripts (met_by others.entry) (subscripts_of list.now) }
{
    for subscript in list {
        if reads(subscript, others) {
            return true;
        }
    }
    false
}

/// A cell alone.
fn one_cell(cell: u32) -> Span
    ensures span { span_of result ≡ span cell 1 }
    ensures few { result.first + result.count < 2 ^ 33 }
{
    Span {
        first: u64::from(cell),
        count: 1,
    }
}

/// Whether cells are also of another variable than the one that is not counted. The variables that they meet are those
/// that begin before the last of them, without those that end up to the first.
fn meets_another(cells: Span, others: Others<'_>) -> bool
    requires few { cells.first + cells.count < 2 ^ 33 }
    requires sorted { AreSorted others }
    ensures { result ≡ met_by others.entry (span_of cells) }
{
    if cells.count == 0 {
        return false;
    }
    let begun = count_below(others.firsts, cells.first + cells.count);
    let over = count_below(others.ends, cells.first + 1);
    if begun <= over {
        return false;
    }
    if begun - over > 1 {
        return true;
    }
    !are_shared(cells, others.own)
}

/// How many of sorted numbers are below a limit.
fn count_below(sorted: &[u64], limit: u64) -> usize
    requires { IsNonDecreasingBy (λ n. n) sorted.now }
    ensures { result ≡ below limit sorted.now }
{
    sorted.partition_point(|number| *number < limit)
}

/// Whether a cell is one of so many.
fn is_in(cell: u64, cells: Span) -> bool
    ensures { result ≡ uses.numbers_in (span_of cells) cell }
{
    cells.first <= cell && cell - cells.first < cells.count
}

/// Whether there is a cell that is among both.
fn are_shared(named: Span, cells: Span) -> bool
    ensures { result ≡ shares (span_of named) (span_of cells) }
{
    let first = named.first.max(cells.first);
    is_in(first, named) && is_in(first, cells)
}
