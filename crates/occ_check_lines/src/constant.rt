//! Constants: their values while a tree is unfolded.

ghost use Rattle.std.specs.Prelude.{◌≡◌, Some};
ghost use Rattle.occ_term.specs.View.{expression_of};
ghost use Rattle.occ_check_meaning.specs.Constants.{constant, is_within};

use occ_term::{TermExpr, is_constant, value_of_constant};

/// The value of a constant that does not fault; none of any other expression.
pub fn constant_of(e: &TermExpr) -> Option<i64>
    ensures { result ≡ constant (expression_of e.now) }
{
    if !is_constant(e) {
        return None;
    }
    match value_of_constant(e) {
        Ok(value) => Some(value),
        Err(_) => None,
    }
}

/// Whether a subscript, where it is constant, is within the size.
pub fn is_within_size(e: &TermExpr, size: u64) -> bool
    ensures { result ≡ is_within (constant (expression_of e.now)) size }
{
    match constant_of(e) {
        None => true,
        Some(value) => is_below(value, size),
    }
}

/// Whether a value is from 0 on and below the size.
pub fn is_below(value: i64, size: u64) -> bool
    ensures { result ≡ is_within (Some value) size }
{
    value >= 0 && (value as u64) < size
}
