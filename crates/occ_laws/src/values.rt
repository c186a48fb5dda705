//! What expressions, places, messages and assignments come to, and that values are of their types. Each function's contract is the law; its body does nothing.

ghost use Rattle.occ_term.specs.TypedSteps.{PlacesLieWithin, ValuesHaveTypes};
ghost use Rattle.occ_laws.specs.ValueExamples.{AssignRows, Limits, MessageRows, PlaceRows, ValueRows};

/// Operators and conversions at their limits.
pub fn values()
    ensures { ValueRows }
{}

/// Operators and conversions at the limits of their types.
pub fn limits()
    ensures { Limits }
{}

/// Components of an array with two sizes.
pub fn places()
    ensures { PlaceRows }
{}

/// Counted arrays and tags.
pub fn messages()
    ensures { MessageRows }
{}

/// Assignments of several targets.
pub fn assignments()
    ensures { AssignRows }
{}

/// An expression's value is of its type.
pub fn values_have_types()
    ensures { ValuesHaveTypes }
{}

/// What a place names lies within its array.
pub fn places_lie_within()
    ensures { PlacesLieWithin }
{}
