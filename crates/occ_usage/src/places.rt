//! Which cells or channels a place names.
ghost use Rattle.std.specs.Prelude.{◌≡◌, ◌+◌, ◌<◌, ◌^◌};
ghost use Rattle.occ_term.specs.Messages.{product};
ghost use Rattle.occ_term.specs.Values.{span, Value};
ghost use Rattle.occ_term.specs.Uses.{constant_subscript, cells_of_item, components_of};
ghost use Rattle.occ_term.specs.Uses as uses;
ghost use Rattle.occ_usage.specs.Noted.{on_component, span_named};
ghost use Rattle.occ_term.specs.View.{array_of, expression_of, item_of, place_of};
ghost use Rattle.occ_term.specs.Terms as terms;

use occ_term::{Array, Item, Place, TermExpr, is_constant, value_of_constant};

/// Numbers one after another.
#[derive(Clone, Copy)]
pub struct Span {
    /// The first.
    pub first: u64,
    /// How many there are.
    pub count: u64,
}

/// What the place names: with a constant subscript its components alone.
pub fn named(place: &Place) -> Span
    ensures named { span_named (place_of place.now) ≡ span result.first result.count }
    ensures bound { result.first + result.count < 2 ^ 33 }
{
    place.sizes.few();
    let whole = Span {
        first: u64::from(place.first),
        count: components(place.sizes.as_slice()),
    };
    let mut span = whole;
    let mut sizes = place.sizes.as_slice();
    for subscript in place.subscripts.as_slice() {
        let Some((size, others)) = sizes.split_first() else {
            return whole;
        };
        let Some(part) = component(span, subscript, *size) else {
            return whole;
        };
        span = part;
        sizes = others;
    }
    span
}

/// The part of a span that a constant subscript names.
fn component(span: Span, subscript: &TermExpr, size: u32) -> Option<Span>
    requires { span.first + span.count < 2 ^ 33 }
    ensures { result
        ≡ on_component (constant_subscript (expression_of subscript.now) size) span size }
{
    match constant_index(subscript, size) {
        None => None,
        Some(index) => {
            let count = span.count / u64::from(size);
            let first = span.first + u64::from(index) * count;
            Some(Span { first, count })
        }
    }
}

/// A constant subscript within the size.
fn constant_index(subscript: &TermExpr, size: u32) -> Option<u32>
    ensures { result ≡ constant_subscript (expression_of subscript.now) size }
{
    if !is_constant(subscript) {
        return None;
    }
    match value_of_constant(subscript) {
        Ok(value) => within(value, size),
        Err(_) => None,
    }
}

/// The value where it is from 0 on and below the size.
fn within(value: i64, size: u32) -> Option<u32>
    ensures { result ≡ uses.subscript_value 0 size (Value value) }
{
    if value >= 0 && value < i64::from(size) {
        Some(value as u32)
    } else {
        None
    }
}

/// How many components an array with these sizes has.
fn components(sizes: &[u32]) -> u64
    requires { product sizes.now < 2 ^ 32 }
    ensures all { result ≡ product sizes.now }
    ensures small { result < 2 ^ 32 }
{
    let mut all = 1u64;
    for size in sizes {
        all = all.saturating_mul(u64::from(*size));
    }
    all
}

/// How many cells a named value has.
pub fn cells_of(value: &Item) -> u64
    ensures cells { result ≡ cells_of_item (item_of value.now) }
    ensures small { result < 2 ^ 32 }
{
    match value {
        Item::One(_, _) => 1,
        Item::Many(_, array) => cells_of_array(array),
        Item::Counted(_, _, _, array) => cells_of_array(array),
    }
}

fn cells_of_array(array: &Array) -> u64
    ensures cells { result ≡ components_of (array_of array.now) }
    ensures small { result < 2 ^ 32 }
{
    match array {
        Array::Cells(place) => cells_of_place(place),
        Array::Text(text) => u64::from(text.len()),
    }
}

fn cells_of_place(place: &Place) -> u64
    ensures cells { result ≡ components_of (terms.Cells (place_of place.now)) }
    ensures small { result < 2 ^ 32 }
{
    place.sizes.few();
    let sizes = place.sizes.as_slice();
    let subscripts = place.subscripts.len();
    if subscripts < sizes.len() {
        components(&sizes[subscripts..])
    } else {
        1
    }
}
