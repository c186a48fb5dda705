//! Targets of one list that clash: two share a component under constant subscripts, or one stands in a subscript of
//! another.

ghost use Rattle.std.specs.Prelude.{◌≡◌, IfOk, map};
ghost use Rattle.occ_term.specs.View.{targets_of};
ghost use Rattle.occ_check_meaning.specs.Items as meant;
ghost use Rattle.occ_check_lines.specs.Clash.{stretches_at};
ghost use Rattle.occ_check_lines.specs.Spans.{span_of};
ghost use Rattle.occ_check_lines.specs.Clash.{fixed_spans, stretches_of};
ghost use Rattle.occ_check_lines.specs.View.{subscripts_of};

use crate::constant::constant_of;
use crate::named::span_named;
use crate::naming::some_names_another;
use crate::overlap::some_meet;
use crate::span::Span;
use occ_term::{Place, Target, TermExpr};
use std::alloc::{AllocError, Global};

/// Whether two targets of a list clash.
///
/// # Errors
///
/// A refused growth.
pub fn some_clash(alloc: Global, targets: &[Target]) -> Result<bool, AllocError>
    ensures { IfOk result
        (λ clash. clash ≡ meant.some_clash (stretches_at (targets_of targets.now))) }
{
    let places = places_of(alloc, targets)?;
    some_places_clash(alloc, &places)
}

/// The places of targets, in order.
fn places_of(alloc: Global, targets: &[Target]) -> Result<Vec<&Place>, AllocError>
    ensures { IfOk result
        (λ places. stretches_of places.items ≡ stretches_at (targets_of targets.now)) }
{
    let mut places = Vec::new(alloc);
    for target in targets {
        match target {
            Target::Into(place) => places.push(place)?,
            Target::IntoCounted(_, count, array) => {
                places.push(count)?;
                places.push(array)?;
            }
        }
    }
    Ok(places)
}

/// Whether two places clash: the parts of two with constant subscripts share a component, or a subscript of one names the
/// variable of another.
fn some_places_clash(alloc: Global, places: &[&Place]) -> Result<bool, AllocError>
    ensures { IfOk result (λ clash. clash ≡ meant.some_clash (stretches_of places.now)) }
{
    let parts = fixed_parts(alloc, places)?;
    if some_meet(parts) {
        return Ok(true);
    }
    some_names_another(alloc, places)
}

/// The parts that places with constant subscripts name.
fn fixed_parts(alloc: Global, places: &[&Place]) -> Result<Vec<Span>, AllocError>
    ensures { IfOk result
        (λ parts. map span_of parts.items ≡ fixed_spans (stretches_of places.now)) }
{
    let mut parts = Vec::new(alloc);
    for place in places {
        let constant = are_constant(place.subscripts.as_slice());
        if constant {
            parts.push(span_named(place))?;
        }
    }
    Ok(parts)
}

/// Whether all subscripts are constants without a fault.
fn are_constant(list: &[TermExpr]) -> bool
    ensures { result ≡ meant.are_constant (subscripts_of list.now) }
{
    for subscript in list {
        if constant_of(subscript).is_none() {
            return false;
        }
    }
    true
}
