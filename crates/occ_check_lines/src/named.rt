//! What places name: their whole variables, and the parts under constant subscripts.

ghost use Rattle.std.specs.Prelude.{◌≡◌, ◌+◌, ◌<◌, ◌^◌};
ghost use Rattle.occ_term.specs.View.{place_of};
ghost use Rattle.occ_check_meaning.specs.Items as meant;
ghost use Rattle.occ_check_lines.specs.Clash.{stretch_at};
ghost use Rattle.occ_check_lines.specs.Spans.{span_of};

use crate::span;
use crate::span::{Span, part_of};
use occ_term::Place;

/// The whole variable.
pub(crate) fn whole_of(place: &Place) -> Span
    ensures span { span_of result ≡ meant.variable_span (stretch_at (place_of place.now)) }
    ensures count { result.first + result.count < 2 ^ 33 }
{
    span::whole_of(place.first, &place.sizes)
}

/// The part of it that constant subscripts name.
pub(crate) fn span_named(place: &Place) -> Span
    ensures span { span_of result ≡ meant.part_span (stretch_at (place_of place.now)) }
    ensures few { result.first + result.count < 2 ^ 33 }
{
    part_of(place.first, &place.sizes, place.subscripts.as_slice())
}
