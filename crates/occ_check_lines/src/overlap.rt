//! Whether two reference actuals share a cell.

ghost use Rattle.std.specs.Prelude.{◌≡◌, ◌+◌, IfOk, map, nat_lt};
ghost use Rattle.occ_check_meaning.specs.Calls as meant;
ghost use Rattle.occ_check_meaning.specs.Items.{have_common, part_span};
ghost use Rattle.occ_check_lines.specs.View.{stretch_of};
ghost use Rattle.occ_check_lines.specs.Spans.{span_of};
ghost use Rattle.occ_check_lines.specs.Overlap.{end_in_turn, ends_before, neighbours_meet};
ghost use Rattle.occ_check_lines.specs.Declaration.{pairs_of};

use crate::declaration::Named;
use crate::known::{Access, Known, Stretch};
use crate::span::{Span, part_of};
use std::alloc::{AllocError, Global};

/// Whether two of the names that may be assigned to share a cell. A subscript that is no constant counts the whole array.
///
/// # Errors
///
/// A refused growth.
pub fn some_overlap(alloc: Global, names: &[Named]) -> Result<bool, AllocError>
    ensures { IfOk result (λ x. x ≡ meant.some_meet (meant.reference_spans (pairs_of names.now))) }
{
    let spans = reference_spans(alloc, names)?;
    Ok(some_meet(spans))
}

fn reference_spans(alloc: Global, names: &[Named]) -> Result<Vec<Span>, AllocError>
    ensures { IfOk result
        (λ spans. map span_of spans.items ≡ meant.reference_spans (pairs_of names.now)) }
{
    let mut spans = Vec::new(alloc);
    for named in names {
        if let Known::Cells(Access::Assignable, _, stretch) = &named.known {
            spans.push(span_of(stretch))?;
        }
    }
    Ok(spans)
}

/// Whether two of the spans share a cell. Sorted by their first cells they are apart where each ends before the next begins;
/// else two neighbours share a cell, or there are spans without a cell, and these alone are compared in pairs.
pub fn some_meet(mut spans: Vec<Span>) -> bool
    ensures { result ≡ meant.some_meet (map span_of spans.items) }
{
    spans.sort_unstable_by_key(|span| span.first);
    if stand_apart(&spans) {
        return false;
    }
    if neighbours_meet(&spans) {
        return true;
    }
    some_pair_meets(&spans)
}

/// Whether each ends before the next one begins.
fn stand_apart(spans: &[Span]) -> bool
    ensures { result ≡ end_in_turn (map span_of spans.now) }
{
    let mut others = spans;
    while let Some((span, rest)) = others.split_first() {
        if let Some(next) = rest.first() {
            if !ends_before(*span, *next) {
                return false;
            }
        }
        others = rest;
    }
    true
}

/// Whether the one ends before the other begins.
fn ends_before(a: Span, b: Span) -> bool
    ensures { result ≡ ends_before (span_of a) (span_of b) }
{
    a.first <= b.first && a.count <= b.first - a.first
}

/// Whether one shares a cell with the next one.
fn neighbours_meet(spans: &[Span]) -> bool
    ensures { result ≡ neighbours_meet (map span_of spans.now) }
{
    let mut others = spans;
    while let Some((span, rest)) = others.split_first() {
        if let Some(next) = rest.first() {
            if meets(*span, *next) {
                return true;
            }
        }
        others = rest;
    }
    false
}

/// Whether two share a cell, pair by pair.
fn some_pair_meets(spans: &[Span]) -> bool
    ensures { result ≡ meant.some_meet (map span_of spans.now) }
{
    let mut others = spans;
    while let Some((span, rest)) = others.split_first() {
        if meets_one(*span, rest) {
            return true;
        }
        others = rest;
    }
    false
}

fn meets_one(span: Span, others: &[Span]) -> bool
    ensures { result ≡ meant.meets_one (span_of span) (map span_of others.now) }
{
    for other in others {
        if meets(span, *other) {
            return true;
        }
    }
    false
}

/// Whether two spans share a cell, where both have some.
fn meets(a: Span, b: Span) -> bool
    ensures { result ≡ have_common (span_of a) (span_of b) }
{
    begins_in(a, b) && begins_in(b, a)
}

/// Whether the one begins before the other ends.
fn begins_in(a: Span, b: Span) -> bool
    ensures { result ≡ nat_lt a.first (b.first + b.count) }
{
    a.first < b.first || a.first - b.first < b.count
}

/// The cells that a stretch names with its constant subscripts.
fn span_of(stretch: &Stretch) -> Span
    ensures { span_of result ≡ part_span (stretch_of stretch.now) }
{
    part_of(stretch.first, &stretch.sizes, stretch.subscripts.as_slice())
}
