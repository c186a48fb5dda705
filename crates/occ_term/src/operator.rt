//! Operators and conversions on values of 64 bits, whether they are within INT or not. What an operator makes of two of them is within
//! words of 128 bits; where it has to be one of the type, words of 64 do.
ghost use Rattle.std.specs.Prelude.{◌≡◌, ◌<◌, ◌≤◌, ◌^◌, ◌%◌, ◌*◌, ◌-◌, ◌+ℤ◌, ◌-ℤ◌, ◌*ℤ◌, neg_ℤ, int_rem, if◌then◌else◌, IfNone, IfOk, IfSome, None, SomeIff, FitsSigned};
ghost use Rattle.std.specs.Int.{w64};
ghost use Rattle.occ_term.specs.Messages.{is_of};
ghost use Rattle.occ_term.specs.Values as values;
ghost use Rattle.occ_term.specs.Values.{bits_of, is_zero, of_bits, truth, width, wrapped};
ghost use Rattle.occ_term.specs.Terms.{ShiftLeft, ShiftRight};
ghost use Rattle.occ_term.specs.Evaluation.{evaluated};
ghost use Rattle.occ_term.specs.CommonOperators.{FailsIfCommon, if_in_type};

use crate::expression::{Monadic, Operator};
use crate::fault::{Fault, FaultKind};
use crate::primitive::Primitive;

/// An operator's value on two values.
pub fn binary(
    operator: Operator,
    primitive: Primitive,
    line: u32,
    a: i64,
    b: i64,
) -> Result<i64, Fault>
    ensures { evaluated result ≡ values.binary operator primitive line a b }
{
    let x = i128::from(a);
    let y = i128::from(b);
    match operator {
        Operator::Plus => Ok(wrapped(primitive, x + y)),
        Operator::Minus => Ok(wrapped(primitive, x - y)),
        Operator::Times => Ok(wrapped(primitive, x * y)),
        Operator::BitAnd => Ok(of_bits(primitive, bits_of(primitive, x) & bits_of(primitive, y))),
        Operator::BitOr => Ok(of_bits(primitive, bits_of(primitive, x) | bits_of(primitive, y))),
        Operator::BitXor => Ok(of_bits(primitive, bits_of(primitive, x) ^ bits_of(primitive, y))),
        Operator::ShiftLeft => shift_left(primitive, line, a, b),
        Operator::ShiftRight => shift_right(primitive, line, a, b),
        Operator::After => Ok(truth(0 < wrapped(Primitive::Int, x - y))),
        // a common operator
        _ => match common_value(operator, primitive, line, a, b) {
            Some(value) => Ok(value),
            None => Err(fault(FaultKind::Arith, line)),
        },
    }
}

/// The value of a common operator: a comparison, or arithmetic whose result has to be one of the type. Where there is none, it
/// fails. For any other operator there is none here.
#[inline(always)]
pub fn common_value(
    operator: Operator,
    primitive: Primitive,
    line: u32,
    a: i64,
    b: i64,
) -> Option<i64>
    ensures value { IfSome result (λ v. values.binary operator primitive line a b ≡ values.Value v) }
    ensures fault { IfNone result (FailsIfCommon operator primitive line a b) }
{
    match operator {
        Operator::Add => sum(primitive, a, b),
        Operator::Subtract => difference(primitive, a, b),
        Operator::Multiply => product(primitive, a, b),
        Operator::Divide => if_in_type(primitive, a.checked_div(b)?),
        Operator::Remainder => rest(primitive, a, b),
        Operator::Equal => Some(truth(a == b)),
        Operator::Unequal => Some(truth(a != b)),
        Operator::Less => Some(truth(a < b)),
        Operator::Greater => Some(truth(a > b)),
        Operator::AtMost => Some(truth(a <= b)),
        Operator::AtLeast => Some(truth(a >= b)),
        _ => None,
    }
}

/// An operator's value on one value.
pub fn unary(operator: Monadic, primitive: Primitive, line: u32, a: i64) -> Result<i64, Fault>
    ensures { evaluated result ≡ values.unary operator primitive line a }
{
    match operator {
        Monadic::Negate => match negative(primitive, a) {
            Some(value) => Ok(value),
            None => Err(fault(FaultKind::Arith, line)),
        },
        Monadic::BitNot => {
            let bits = bits_of(primitive, i128::from(a));
            Ok(of_bits(primitive, all_ones(primitive) - bits))
        }
        Monadic::Not => Ok(truth(a == 0)),
    }
}

/// A value as one of the type.
pub fn converted(to: Primitive, line: u32, v: i64) -> Result<i64, Fault>
    ensures { evaluated result ≡ values.converted to line v }
{
    if is_of(to, v) {
        Ok(v)
    } else {
        Err(fault(FaultKind::Convert, line))
    }
}

fn fault(kind: FaultKind, line: u32) -> Fault
    ensures { result ≡ record { kind = kind; line = line } }
{
    Fault { kind, line }
}

/// Whether a value is one of the type.
#[inline(always)]
pub fn is_of(primitive: Primitive, v: i64) -> bool
    ensures { result ≡ is_of primitive v }
{
    match primitive {
        Primitive::Bool => 0 <= v && v <= 1,
        Primitive::Byte => 0 <= v && v <= 255,
        Primitive::Int => -2147483648 <= v && v <= 2147483647,
    }
}

#[inline(always)]
fn truth(test: bool) -> i64
    ensures { result ≡ truth test }
{
    if test { 1 } else { 0 }
}

// ---- arithmetic whose result has to be one of the type

/// A value where it is one of the type.
#[inline(always)]
fn if_in_type(primitive: Primitive, value: i64) -> Option<i64>
    ensures { result ≡ if_in_type primitive value }
{
    if is_of(primitive, value) {
        Some(value)
    } else {
        None
    }
}

/// The sum. With an INT on the right one that wraps is of no type, so that it need not be tested for.
#[inline(always)]
fn sum(primitive: Primitive, a: i64, b: i64) -> Option<i64>
    ensures { result ≡ if_in_type primitive (a +ℤ b) }
{
    let value = if is_of(Primitive::Int, b) {
        a.wrapping_add(b)
    } else {
        wide_sum(a, b)?
    };
    if_in_type(primitive, value)
}

/// A sum that may wrap. It is rare and stands apart, so that what is common stands in a row.
#[cold]
#[inline(never)]
fn wide_sum(a: i64, b: i64) -> Option<i64>
    ensures { SomeIff result (FitsSigned w64 (a +ℤ b)) (a +ℤ b) }
{
    a.checked_add(b)
}

/// The difference, in the same way.
#[inline(always)]
fn difference(primitive: Primitive, a: i64, b: i64) -> Option<i64>
    ensures { result ≡ if_in_type primitive (a -ℤ b) }
{
    let value = if is_of(Primitive::Int, b) {
        a.wrapping_sub(b)
    } else {
        wide_difference(a, b)?
    };
    if_in_type(primitive, value)
}

#[cold]
#[inline(never)]
fn wide_difference(a: i64, b: i64) -> Option<i64>
    ensures { SomeIff result (FitsSigned w64 (a -ℤ b)) (a -ℤ b) }
{
    a.checked_sub(b)
}

/// The product.
#[inline(always)]
fn product(primitive: Primitive, a: i64, b: i64) -> Option<i64>
    ensures { result ≡ if_in_type primitive (a *ℤ b) }
{
    if_in_type(primitive, whole_product(a, b)?)
}

/// The product as it is, where it is a word of 64 bits, as that of two INTs always is.
#[inline(always)]
fn whole_product(a: i64, b: i64) -> Option<i64>
    ensures { SomeIff result (FitsSigned w64 (a *ℤ b)) (a *ℤ b) }
{
    if is_of(Primitive::Int, a) && is_of(Primitive::Int, b) {
        return Some(a * b);
    }
    wide_product(a, b)
}

#[cold]
#[inline(never)]
fn wide_product(a: i64, b: i64) -> Option<i64>
    ensures { SomeIff result (FitsSigned w64 (a *ℤ b)) (a *ℤ b) }
{
    a.checked_mul(b)
}

/// What the quotient towards zero leaves, with the sign of the dividend; none by zero.
#[inline(always)]
fn rest(primitive: Primitive, a: i64, b: i64) -> Option<i64>
    ensures { result ≡ (if is_zero b then None else if_in_type primitive (int_rem a b)) }
{
    if b > 0 {
        return if_in_type(primitive, a.wrapping_rem(b));
    }
    if b == 0 {
        return None;
    }
    if_in_type(primitive, a.wrapping_rem(b))
}

/// The value below zero by as much as this one is above.
fn negative(primitive: Primitive, a: i64) -> Option<i64>
    ensures { result ≡ if_in_type primitive (neg_ℤ a) }
{
    if_in_type(primitive, a.checked_neg()?)
}

// ---- operators

fn all_ones(primitive: Primitive) -> u64
    ensures { result ≡ 2 ^ width primitive - 1 }
{
    match primitive {
        Primitive::Bool => 1,
        Primitive::Byte => 255,
        Primitive::Int => 4294967295,
    }
}

/// The lowest bits of a value's two's complement.
fn bits_of(primitive: Primitive, v: i128) -> u64
    ensures value { result ≡ bits_of primitive v }
    ensures below { result < 2 ^ width primitive }
{
    match primitive {
        Primitive::Bool => v.rem_euclid(2) as u64,
        Primitive::Byte => v.rem_euclid(256) as u64,
        Primitive::Int => v.rem_euclid(4294967296) as u64,
    }
}

/// The value that has these bits.
fn of_bits(primitive: Primitive, bits: u64) -> i64
    requires { bits < 2 ^ 32 }
    ensures { result ≡ of_bits primitive bits }
{
    match primitive {
        Primitive::Bool | Primitive::Byte => bits as i64,
        Primitive::Int => {
            if bits < 2147483648 {
                bits as i64
            } else {
                bits as i64 - 4294967296
            }
        }
    }
}

fn wrapped(primitive: Primitive, v: i128) -> i64
    ensures { result ≡ wrapped primitive v }
{
    of_bits(primitive, bits_of(primitive, v))
}

/// A count of bits to shift by.
fn shift_count(primitive: Primitive, line: u32, v: i64) -> Result<u32, Fault>
    ensures value { evaluated result ≡ values.shift_count primitive line v }
    ensures small { IfOk result (λ k. k ≤ 32) }
{
    let width = match primitive {
        Primitive::Bool => 1,
        Primitive::Byte => 8,
        Primitive::Int => 32,
    };
    if 0 <= v && v <= width {
        Ok(v as u32)
    } else {
        Err(fault(FaultKind::Shift, line))
    }
}

fn shift_left(primitive: Primitive, line: u32, a: i64, b: i64) -> Result<i64, Fault>
    ensures { evaluated result ≡ values.binary ShiftLeft primitive line a b }
{
    let count = shift_count(primitive, line, b)?;
    let bits = shifted_left(primitive, bits_of(primitive, i128::from(a)), count);
    Ok(of_bits(primitive, bits))
}

/// The bits that stay within the width.
fn shifted_left(primitive: Primitive, bits: u64, count: u32) -> u64
    requires within { bits < 2 ^ width primitive }
    requires small { count ≤ 32 }
    ensures value { result ≡ (bits * 2 ^ count) % 2 ^ width primitive }
    ensures below { result < 2 ^ 32 }
{
    (bits << count) & all_ones(primitive)
}

fn shift_right(primitive: Primitive, line: u32, a: i64, b: i64) -> Result<i64, Fault>
    ensures { evaluated result ≡ values.binary ShiftRight primitive line a b }
{
    let count = shift_count(primitive, line, b)?;
    Ok(of_bits(primitive, bits_of(primitive, i128::from(a)) >> count))
}
