//! Spans of numbers, sorted.
ghost use Rattle.std.specs.Prelude.{◌≡◌, IfOk, ◌<◌, ◌≤◌, length};
ghost use Rattle.std.specs.List.{AllWithin};
ghost use Rattle.occ_usage.specs.Noted.{between, use_of, uses_in};
ghost use Rattle.occ_usage.specs.Indexes.{AreFilled, IsIndex, IsSpanOf, IsWithin, covered, furthest, reaches, same_kind, used};

use crate::noted::{Kind, Use};
use std::alloc::{AllocError, Global};

/// Numbers one after another.
#[derive(Clone, Copy)]
pub struct Span {
    /// The first.
    pub first: u64,
    /// The number after the last one.
    pub end: u64,
}

/// Spans that rise by their first numbers, each with the furthest end up to it.
#[derive(Drop)]
pub struct Index {
    /// The spans.
    pub spans: Vec<Span>,
    /// For each span, the furthest end of it and those before it.
    pub ends: Vec<u64>,
}

impl Index {
    /// The numbers that are used so.
    pub fn new(alloc: Global, uses: &[Use], kind: Kind) -> Result<Index, AllocError>
        ensures sound { IfOk result IsIndex }
        ensures numbers { IfOk result
            (λ index. covered index.spans.items ≡ used kind (uses_in uses.now)) }
    {
        let mut spans = spans_of(alloc, uses, kind)?;
        spans.sort_unstable_by_key(|span| span.first);
        let ends = ends_of(alloc, &spans)?;
        Ok(Index { spans, ends })
    }

    /// The first number of the span that is among them.
    pub fn first_within(&self, first: u64, end: u64) -> Option<u64>
        requires { IsIndex self.now }
        ensures { IsWithin result (covered self.now.spans.items) first end }
    {
        if end <= first {
            return None;
        }
        let begun = self.begun(first);
        if self.reaches_past(begun, first) {
            return Some(first);
        }
        if begun == self.spans.len() {
            return None;
        }
        let next = self.spans[begun];
        if next.first < end {
            Some(next.first)
        } else {
            None
        }
    }

    /// How many spans begin at the number or before it.
    fn begun(&self, number: u64) -> usize
        requires { IsIndex self.now }
        ensures bound { result ≤ length self.now.spans.items }
        ensures begun { AllWithin (λ s. s.first ≤ number) self.now.spans.items 0 result }
        ensures later { AllWithin (λ s. number < s.first)
            self.now.spans.items result (length self.now.spans.items) }
    {
        self.spans.partition_point(|span| span.first <= number)
    }

    /// Whether one of so many spans ends after the number.
    fn reaches_past(&self, begun: usize, number: u64) -> bool
        requires sound { IsIndex self.now }
        requires within { begun ≤ length self.now.spans.items }
        ensures { result ≡ reaches self.now.spans.items begun number }
    {
        if begun == 0 {
            return false;
        }
        self.ends[begun - 1] > number
    }
}

fn spans_of(alloc: Global, uses: &[Use], kind: Kind) -> Result<Vec<Span>, AllocError>
    ensures filled { IfOk result (λ spans. AreFilled spans.items) }
    ensures numbers { IfOk result (λ spans. covered spans.items ≡ used kind (uses_in uses.now)) }
{
    let mut spans = Vec::new(alloc);
    for one in uses {
        match span_of(*one, kind) {
            Some(span) => spans.push(span)?,
            None => {}
        }
    }
    Ok(spans)
}

/// The numbers of a use, where it is of the kind and has numbers at all.
fn span_of(one: Use, kind: Kind) -> Option<Span>
    ensures { IsSpanOf result (used kind (use_of one.kind (between one.first one.end))) }
{
    if !is_same(one.kind, kind) {
        return None;
    }
    if one.first < one.end {
        Some(Span {
            first: one.first,
            end: one.end,
        })
    } else {
        None
    }
}

fn is_same(kind: Kind, other: Kind) -> bool
    ensures { result ≡ same_kind kind other }
{
    match (kind, other) {
        (Kind::Read, Kind::Read) => true,
        (Kind::Write, Kind::Write) => true,
        (Kind::Input, Kind::Input) => true,
        (Kind::Output, Kind::Output) => true,
        _ => false,
    }
}

fn ends_of(alloc: Global, spans: &[Span]) -> Result<Vec<u64>, AllocError>
    ensures { IfOk result (λ ends. ends.items ≡ furthest 0 spans.now) }
{
    let mut ends = Vec::new(alloc);
    let mut furthest = 0;
    for span in spans {
        furthest = span.end.max(furthest);
        ends.push(furthest)?;
    }
    Ok(ends)
}
