//! Cells one after another, and those of an array that constant subscripts name.

ghost use Rattle.std.specs.Prelude.{◌≡◌, ◌<◌, ◌+◌, ◌*◌, ◌^◌, IfSome};
ghost use Rattle.occ_term.specs.ArraySizes.{AreFew};
ghost use Rattle.occ_term.specs.Messages.{product};
ghost use Rattle.occ_term.specs.Terms.{Constant, Expression};
ghost use Rattle.occ_term.specs.Uses.{constant_subscript};
ghost use Rattle.occ_term.specs.View.{expression_of};
ghost use Rattle.occ_check_lines.specs.View.{evaluated_of};
ghost use Rattle.occ_check_lines.specs.Spans.{span_of, all_cells, cells_under};

use crate::constant::constant_of;
use crate::known::Evaluated;
use crate::numbers::components;
use occ_term::{Sizes, TermExpr};

/// Cells one after another.
#[derive(Clone, Copy)]
pub struct Span {
    /// The first.
    pub first: u64,
    /// How many there are.
    pub count: u64,
}

/// A subscript.
pub trait Subscript {
    /// The expression that it is.
    ghost expression: { Self → Expression };

    /// Its value, where it is a constant within the size.
    fn constant_within(&self, size: u32) -> Option<u32>
        ensures index { result ≡ constant_subscript (expression self.now) size }
        ensures within { IfSome result (λ index. index < size) };
}

impl Subscript for Evaluated {
    ghost expression = { evaluated_of };

    fn constant_within(&self, size: u32) -> Option<u32> {
        match self {
            Evaluated::Value(value) => index_within(*value, size),
            Evaluated::Cell(_, _) => None,
        }
    }
}

impl Subscript for TermExpr {
    ghost expression = { expression_of };

    fn constant_within(&self, size: u32) -> Option<u32> {
        match constant_of(self) {
            None => None,
            Some(value) => index_within(value, size),
        }
    }
}

/// The value where it is from 0 on and below the size.
fn index_within(value: i64, size: u32) -> Option<u32>
    ensures index { result ≡ constant_subscript (Constant value) size }
    ensures within { IfSome result (λ index. index < size) }
{
    if value >= 0 && value < i64::from(size) {
        Some(value as u32)
    } else {
        None
    }
}

/// The cells of the whole array.
pub fn whole_of(first: u32, sizes: &Sizes) -> Span
    ensures span { span_of result ≡ all_cells first sizes.now }
    ensures few { result.first + result.count < 2 ^ 33 }
{
    sizes.few();
    let count = u64::from(components(sizes.as_slice()));
    let first = u64::from(first);
    Span { first, count }
}

/// The cells of the array that constant subscripts name. A subscript that is no constant counts the whole array.
pub fn part_of<S: Subscript>(first: u32, sizes: &Sizes, under: &[S]) -> Span
    ensures span { span_of result
        ≡ cells_under S.expression under.now first sizes.now (all_cells first sizes.now) }
    ensures few { result.first + result.count < 2 ^ 33 }
{
    let whole = whole_of(first, sizes);
    sizes.few();
    part_named(under, whole.first, sizes.as_slice(), whole)
}

fn part_named<S: Subscript>(under: &[S], first: u64, sizes: &[u32], whole: Span) -> Span
    requires few { AreFew sizes.now }
    requires all { product sizes.now < 2 ^ 32 }
    requires last { first + product sizes.now < 2 ^ 33 }
    requires whole { whole.first + whole.count < 2 ^ 33 }
    ensures span { span_of result
        ≡ cells_under S.expression under.now first sizes.now (span_of whole) }
    ensures few { result.first + result.count < 2 ^ 33 }
{
    let Some((subscript, rest)) = under.split_first() else {
        let count = u64::from(components(sizes));
        return Span { first, count };
    };
    let Some((size, others)) = sizes.split_first() else {
        return whole;
    };
    let Some(index) = subscript.constant_within(*size) else {
        return whole;
    };
    let count = u64::from(components(others));
    let first = first_of_component(first, *size, index, count);
    part_named(rest, first, others, whole)
}

/// The first cell of a component with so many cells, in an array of so many of them.
#[tactic(auto, using(crate::proofs::Components::one_more))]
fn first_of_component(first: u64, size: u32, index: u32, count: u64) -> u64
    requires within { index < size }
    requires few { first + size * count < 2 ^ 33 }
    ensures first { result ≡ first + index * count }
    ensures few { result + count < 2 ^ 33 }
{
    first + u64::from(index) * count
}
