//! The values of expressions.
ghost use Rattle.std.specs.Prelude.{◌≡◌, ◌<◌, ◌≤◌, ◌+◌, ◌*◌, ◌∷◌, IfOk};
ghost use Rattle.occ_term.specs.Messages as messages;
ghost use Rattle.occ_term.specs.Values as values;
ghost use Rattle.occ_term.specs.Frames.{at};
ghost use Rattle.occ_term.specs.UnfoldedProgram.{most_cells};
ghost use Rattle.occ_term.specs.View.{expression_of, place_of};
ghost use Rattle.occ_term.specs.Evaluation.{evaluated, CanBeEvaluated, Bounded, BoundedPlace, FewCells, first_named, first_of_component, letter};

use crate::expression::{Place, TermExpr};
use crate::fault::{Fault, FaultKind};
use crate::frame::Frame;
use crate::operator::{binary, converted, unary};

/// What an expression is worth with a frame's variables, or the first fault from the left, with the
/// line in which it stands.
pub fn value_of(e: &TermExpr, frame: &Frame) -> Result<i64, Fault>
    requires { CanBeEvaluated (expression_of e.now) frame.now }
    ensures { evaluated result ≡ values.value_of (expression_of e.now) (at frame.now) }
{
    evaluate(e, frame)
}

/// The same, where no type is known: each operand's value is an INT, and each place lies among the
/// cells.
#[cycle(evaluation)]
pub(crate) fn evaluate(e: &TermExpr, frame: &Frame) -> Result<i64, Fault>
    requires { Bounded (expression_of e.now) (at frame.now) }
    ensures { evaluated result ≡ values.value_of (expression_of e.now) (at frame.now) }
{
    match e {
        TermExpr::Constant(v) => Ok(*v),
        TermExpr::Cell(_, cell) => Ok(frame.value(*cell)),
        TermExpr::Component(place) => {
            let cell = first_named(place, frame)?;
            Ok(frame.value(cell))
        }
        TermExpr::Letter(line, text, subscript) => {
            let v = evaluate(subscript.get(), frame)?;
            letter(*line, text.as_slice(), v)
        }
        TermExpr::Binary(operator, primitive, line, a, b) => {
            let a = evaluate(a.get(), frame)?;
            let b = evaluate(b.get(), frame)?;
            binary(*operator, *primitive, *line, a, b)
        }
        TermExpr::Unary(operator, primitive, line, a) => {
            let a = evaluate(a.get(), frame)?;
            unary(*operator, *primitive, *line, a)
        }
        TermExpr::And(a, b) => {
            let left = evaluate(a.get(), frame)?;
            if left == 0 {
                return Ok(0);
            }
            evaluate(b.get(), frame)
        }
        TermExpr::Or(a, b) => {
            let left = evaluate(a.get(), frame)?;
            if left != 0 {
                return Ok(1);
            }
            evaluate(b.get(), frame)
        }
        TermExpr::Conversion(to, line, a) => {
            let v = evaluate(a.get(), frame)?;
            converted(*to, *line, v)
        }
    }
}

/// The first cell that a place names.
#[cycle(evaluation)]
fn first_named(place: &Place, frame: &Frame) -> Result<u32, Fault>
    requires { BoundedPlace (place_of place.now) (at frame.now) }
    ensures { evaluated result ≡ first_named (place_of place.now) (at frame.now) }
{
    let mut first = place.first;
    let mut sizes = place.sizes.as_slice();
    for e in place.subscripts.as_slice() {
        match sizes.split_first() {
            None => return Ok(first),
            Some((size, others)) => {
                first = first_of_component(place.line, first, *size, others, e, frame)?;
                sizes = others;
            }
        }
    }
    Ok(first)
}

/// The first cell of the component with this subscript.
#[cycle(evaluation)]
fn first_of_component(
    line: u32,
    first: u32,
    size: u32,
    inner: &[u32],
    e: &TermExpr,
    frame: &Frame,
) -> Result<u32, Fault>
    requires few { FewCells first (size ∷ inner.now) }
    requires bounded { Bounded (expression_of e.now) (at frame.now) }
    ensures { evaluated result
        ≡ first_of_component line first size inner.now (expression_of e.now) (at frame.now) }
{
    let v = evaluate(e, frame)?;
    let i = subscript(line, size, v)?;
    Ok(first_with(first, size, inner, i))
}

fn first_with(first: u32, size: u32, others: &[u32], i: u32) -> u32
    requires few { FewCells first (size ∷ others.now) }
    requires within { i < size }
    ensures { result ≡ first + i * messages.product others.now }
{
    first + i * components(others)
}

/// How many components an array of these sizes has, where there are no more than cells.
fn components(sizes: &[u32]) -> u32
    ensures { messages.product sizes.now ≤ most_cells → result ≡ messages.product sizes.now }
{
    let mut count = 1_u32;
    for size in sizes {
        count = count.saturating_mul(*size);
    }
    count
}

fn subscript(line: u32, size: u32, v: i64) -> Result<u32, Fault>
    ensures value { evaluated result ≡ values.subscript line size v }
    ensures within { IfOk result (λ i. i < size) }
{
    if 0 <= v && v < i64::from(size) {
        Ok(v as u32)
    } else {
        Err(range(line))
    }
}

fn letter(line: u32, text: &[u8], v: i64) -> Result<i64, Fault>
    ensures { evaluated result ≡ letter line text.now v }
{
    if 0 <= v {
        if let Some(byte) = text.get(v as usize) {
            return Ok(i64::from(*byte));
        }
    }
    Err(range(line))
}

fn range(line: u32) -> Fault
    ensures { result ≡ messages.fault messages.Range line }
{
    Fault {
        kind: FaultKind::Range,
        line,
    }
}
