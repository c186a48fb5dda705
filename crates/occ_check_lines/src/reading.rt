//! Names under subscripts.

ghost use Rattle.std.specs.Prelude.{◌≡◌, ◌∷◌, [], IfOk, map, pos};
ghost use Rattle.occ_term.specs.ArraySizes.{AreFew};
ghost use Rattle.occ_term.specs.View.{expression_of, subscripts};
ghost use Rattle.occ_check_meaning.specs.Expressions as meant;
ghost use Rattle.occ_check_meaning.specs.Scope.{a_string, a_value};
ghost use Rattle.occ_check_lines.specs.View.{Answers, Gives, Lends, Makes, known_of, part_of, stretch_of, subscripts_of, typed_of};
ghost use Rattle.occ_check_lines.specs.Typing.{joined_under, letter_of, stretch_size};

use crate::constant::is_within_size;
use crate::fault::CheckFault;
use crate::known::{Known, Stretch, evaluated_subscripts};
use crate::literal::whole_string;
use crate::typed::{Part, Typed};
use occ_held::parts::{Listed, Nested};
use occ_term::{Array, Place, Primitive, Sizes, TermExpr, Text};
use std::alloc::{AllocError, Global};

/// The sizes that subscripts leave.
///
/// # Errors
///
/// `WrongType` for more subscripts than sizes, `Subscript` for a constant one outside its size.
fn left_by<'a>(
    line: u32,
    under_these: &[TermExpr],
    sizes: &'a [u32],
) -> Result<&'a [u32], CheckFault>
    requires few { AreFew sizes.now }
    ensures left { Lends result (meant.left_by (subscripts_of under_these.now) sizes.now) }
    ensures few { IfOk result (λ left. AreFew left.now) }
{
    let mut left = sizes;
    for subscript in under_these {
        match left_by_one(line, subscript, left) {
            Ok(others) => left = others,
            Err(e) => return Err(e),
        }
    }
    Ok(left)
}

/// The sizes that one subscript leaves.
fn left_by_one<'a>(
    line: u32,
    subscript: &TermExpr,
    sizes: &'a [u32],
) -> Result<&'a [u32], CheckFault>
    requires few { AreFew sizes.now }
    ensures left { Lends result
        (meant.left_by (subscripts (expression_of subscript.now ∷ [])) sizes.now) }
    ensures few { IfOk result (λ left. AreFew left.now) }
{
    match sizes.split_first() {
        None => Err(CheckFault::WrongType { line }),
        Some((size, others)) => {
            if is_within_size(subscript, u64::from(*size)) {
                Ok(others)
            } else {
                Err(CheckFault::Subscript { line })
            }
        }
    }
}

/// A stretch under subscripts.
///
/// # Errors
///
/// `WrongType` for more subscripts than sizes, `Subscript` for a constant one outside its size, and `Memory`.
pub fn under(
    alloc: Global,
    line: u32,
    stretch: &Stretch,
    under_these: Listed<TermExpr>,
) -> Result<Part, CheckFault>
    ensures part { Gives part_of result
        (meant.under (stretch_of stretch.now) (subscripts_of under_these)) }
    ensures line { IfOk result (λ part. part.place.line ≡ line) }
{
    stretch.left.few();
    let left = left_by(line, under_these.as_slice(), stretch.left.as_slice())?;
    let left = Sizes::new(alloc, left)?;
    let sizes = stretch.sizes.copy(alloc)?;
    let subscripts = joined(alloc, stretch, under_these)?;
    let place = Place {
        line,
        first: stretch.first,
        sizes,
        subscripts,
    };
    Ok(Part { place, left })
}

/// The subscripts of a stretch, and further ones.
fn joined(
    alloc: Global,
    stretch: &Stretch,
    under_these: Listed<TermExpr>,
) -> Result<Listed<TermExpr>, AllocError>
    ensures { Makes subscripts_of result (joined_under stretch.now under_these) }
{
    let mut all = evaluated_subscripts(alloc, stretch.subscripts.as_slice())?;
    all.append(under_these)?;
    Ok(all)
}

/// A part that is read: a single cell or component, or a whole array.
fn read_part(primitive: Primitive, part: Part) -> Typed
    ensures { typed_of result
        ≡ meant.read_stretch part.place.line primitive (part_of part) part.left }
{
    if !part.left.is_empty() {
        return Typed::Whole(primitive, part.left, Array::Cells(part.place));
    }
    let place = part.place;
    if place.sizes.is_empty() {
        Typed::Single(primitive, TermExpr::Cell(place.line, place.first))
    } else {
        Typed::Single(primitive, TermExpr::Component(place))
    }
}

/// A string under subscripts.
///
/// # Errors
///
/// `WrongType` for two subscripts, `Subscript` for a constant one outside of the string, and `Memory`.
fn read_string(
    alloc: Global,
    line: u32,
    text: &Text,
    under_these: Listed<TermExpr>,
) -> Result<Typed, CheckFault>
    ensures { Gives typed_of result
        (meant.read line (a_string (map pos text.now)) (subscripts_of under_these)) }
{
    let mut subscripts = under_these;
    match subscripts.pop() {
        None => Ok(whole_string(alloc, text.copy()?)?),
        Some(subscript) => {
            if subscripts.is_empty() {
                letter(alloc, line, text, subscript)
            } else {
                Err(CheckFault::WrongType { line })
            }
        }
    }
}

/// A component of a string.
fn letter(alloc: Global, line: u32, text: &Text, subscript: TermExpr) -> Result<Typed, CheckFault>
    ensures { Gives typed_of result (letter_of line text.now subscript) }
{
    if !is_within_size(&subscript, u64::from(text.len())) {
        return Err(CheckFault::Subscript { line });
    }
    let text = text.copy()?;
    let subscript = Nested::new(alloc, subscript)?;
    Ok(Typed::Single(Primitive::Byte, TermExpr::Letter(line, text, subscript)))
}

/// What a name under subscripts is, where it is read.
///
/// # Errors
///
/// `WrongKind` for a channel or a protocol, `WrongType` for too many subscripts, `Subscript` for a constant one
/// outside its size, and `Memory`.
pub fn read(
    alloc: Global,
    line: u32,
    known: &Known,
    under_these: Listed<TermExpr>,
) -> Result<Typed, CheckFault>
    ensures { Gives typed_of result
        (meant.read line (known_of known.now) (subscripts_of under_these)) }
{
    match known {
        Known::Value(primitive, value) => {
            read_value(line, *primitive, *value, under_these.as_slice())
        }
        Known::Text(text) => read_string(alloc, line, text, under_these),
        Known::Cells(_, primitive, stretch) => {
            let part = under(alloc, line, stretch, under_these)?;
            Ok(read_part(*primitive, part))
        }
        Known::Channels(_, _) => Err(CheckFault::WrongKind { line }),
        Known::Protocol(_) => Err(CheckFault::WrongKind { line }),
    }
}

/// A constant, which takes no subscripts.
fn read_value(
    line: u32,
    primitive: Primitive,
    value: i64,
    under_these: &[TermExpr],
) -> Result<Typed, CheckFault>
    ensures { Gives typed_of result
        (meant.read line (a_value primitive value) (subscripts_of under_these.now)) }
{
    match under_these.split_first() {
        None => Ok(Typed::Single(primitive, TermExpr::Constant(value))),
        Some(_) => Err(CheckFault::WrongType { line }),
    }
}

/// The SIZE of what a name under subscripts stands for.
///
/// # Errors
///
/// `WrongType` for what is no array, and as `under`.
pub fn size_of_known(line: u32, known: &Known, under_these: &[TermExpr]) -> Result<u64, CheckFault>
    ensures { Answers result
        (meant.size_of_known (known_of known.now) (subscripts_of under_these.now)) }
{
    match known {
        Known::Value(_, _) => Err(CheckFault::WrongType { line }),
        Known::Text(text) => match under_these.split_first() {
            None => Ok(u64::from(text.len())),
            Some(_) => Err(CheckFault::WrongType { line }),
        },
        Known::Cells(_, _, stretch) => size_of_stretch(line, stretch, under_these),
        Known::Channels(_, stretch) => size_of_stretch(line, stretch, under_these),
        Known::Protocol(_) => Err(CheckFault::WrongKind { line }),
    }
}

/// The first of the sizes that subscripts leave.
fn size_of_stretch(
    line: u32,
    stretch: &Stretch,
    under_these: &[TermExpr],
) -> Result<u64, CheckFault>
    ensures { Answers result (stretch_size stretch.now under_these.now) }
{
    stretch.left.few();
    let left = left_by(line, under_these, stretch.left.as_slice())?;
    match left.first() {
        Some(size) => Ok(u64::from(*size)),
        None => Err(CheckFault::WrongType { line }),
    }
}
