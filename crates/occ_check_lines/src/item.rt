//! Variables and channels of a line, and what is output.

ghost use Rattle.std.specs.Prelude.{◌≡◌, ◌∷◌, [], IfOk, map, nat_lt};
ghost use Rattle.occ_tree_grammar.specs.Lines.Trees.{from};
ghost use Rattle.occ_tree_grammar.specs.Expressions.Trees.{alone, operand_of, expression_of as tree_of};
ghost use Rattle.occ_tree_grammar.specs.Lines.Views.{out_of};
ghost use Rattle.occ_term.specs.declared.protocol.PartType.TheVariants.{One as OneOf, Many as ManyOf};
ghost use Rattle.occ_term.specs.View.{item_of, items_of, place_of};
ghost use Rattle.occ_term.specs.Messages.{parts_after};
ghost use Rattle.occ_check_meaning.specs.Items as meant;
ghost use Rattle.occ_check_meaning.specs.Scope.{keep};
ghost use Rattle.occ_check_lines.specs.View.{Answers, Gives, Lends, channels_known, known_of, typed_of, variable_known, variable_part};
ghost use Rattle.occ_check_lines.specs.Reading.{all_of, name_under, read_in};
ghost use Rattle.occ_check_lines.specs.Typing.{channel_in, sent_in, sent_items_in, variable_in, counted_of};

use crate::context::Context;
use crate::expression::{known_name, typed, typed_subscripts};
use crate::fault::CheckFault;
use crate::known::{Access, Carried, Known, Stretch};
use crate::operators::is_same_type;
use crate::reading::under;
use crate::scope::Scope;
use crate::typed::{Part, Typed};
use crate::types::{are_same_sizes, simple_part};
use occ_held::Held;
use occ_held::letters::Letters;
use occ_term::{Item, PartType, Place, Primitive, Protocol, Tag, TermExpr, copy_parts};
use occ_tree_grammar::tree::expr::{Expr, Operand};
use occ_tree_grammar::tree::line::{OneOrMore, Out, Var};
use sqlite_items::Items;
use std::alloc::{AllocError, Global};

// ---- variables and channels

/// A variable that may be assigned to.
///
/// # Errors
///
/// `WrongKind` for anything else.
pub fn as_variable(line: u32, known: &Known) -> Result<(Primitive, &Stretch), CheckFault>
    ensures { Gives variable_known result (meant.as_variable (known_of known.now)) }
{
    match known {
        Known::Cells(Access::Assignable, primitive, stretch) => Ok((*primitive, stretch)),
        Known::Cells(Access::Kept, _, _) => Err(CheckFault::WrongKind { line }),
        Known::Value(_, _) => Err(CheckFault::WrongKind { line }),
        Known::Text(_) => Err(CheckFault::WrongKind { line }),
        Known::Channels(_, _) => Err(CheckFault::WrongKind { line }),
        Known::Protocol(_) => Err(CheckFault::WrongKind { line }),
    }
}

/// A channel, or an array of channels.
///
/// # Errors
///
/// `WrongKind` for anything else.
pub fn as_channels(line: u32, known: &Known) -> Result<(&Carried, &Stretch), CheckFault>
    ensures { Gives channels_known result (meant.as_channels (known_of known.now)) }
{
    match known {
        Known::Channels(carried, stretch) => Ok((carried, stretch)),
        Known::Cells(_, _, _) => Err(CheckFault::WrongKind { line }),
        Known::Value(_, _) => Err(CheckFault::WrongKind { line }),
        Known::Text(_) => Err(CheckFault::WrongKind { line }),
        Known::Protocol(_) => Err(CheckFault::WrongKind { line }),
    }
}

/// A variable, a component or an array, with its type.
///
/// # Errors
///
/// As `typed_subscripts` and `under`, and `Unknown` and `WrongKind` for a name that is no variable's.
pub fn variable_of(
    context: Context<'_, '_>,
    variable: &Var,
) -> Result<(Primitive, Part), CheckFault>
    ensures variable { Gives variable_part result (variable_in context.entry variable.now) }
    ensures line { IfOk result (λ x. x.1.place.line ≡ context.entry.line) }
{
    let known = known_name(context, &variable.name)?;
    let (primitive, stretch) = as_variable(context.line, known)?;
    let subscripts = typed_subscripts(context, &variable.subscripts)?;
    let part = under(context.alloc, context.line, stretch, subscripts)?;
    Ok((primitive, part))
}

/// A single channel, with what it carries.
///
/// # Errors
///
/// As `variable_of`, and `WrongType` for an array of channels.
pub fn channel_of<'a>(
    context: Context<'a, '_>,
    channel: &Var,
) -> Result<(&'a Protocol, Place), CheckFault>
    ensures { Gives (λ x. (x.0.now, place_of x.1)) result
        (channel_in context.entry channel.now) }
{
    let known = known_name(context, &channel.name)?;
    let (carried, stretch) = as_channels(context.line, known)?;
    let subscripts = typed_subscripts(context, &channel.subscripts)?;
    let part = under(context.alloc, context.line, stretch, subscripts)?;
    match part.left.as_slice().split_first() {
        None => Ok((&carried.protocol, part.place)),
        Some(_) => Err(CheckFault::WrongType { line: context.line }),
    }
}

// ---- what is output

/// A value or an array of the part's type.
fn item_of(line: u32, part: &PartType, value: Typed) -> Result<Item, CheckFault>
    ensures { Gives item_of result (meant.item_of part.now (typed_of value)) }
{
    match part {
        PartType::One(wanted) => one_item(line, *wanted, value),
        PartType::Many(sizes, wanted) => array_item(line, sizes.as_slice(), *wanted, value),
        PartType::Counted(_, _) => Err(CheckFault::Protocol { line }),
    }
}

fn one_item(line: u32, wanted: Primitive, value: Typed) -> Result<Item, CheckFault>
    ensures { Gives item_of result (meant.item_of (OneOf wanted) (typed_of value)) }
{
    match value {
        Typed::Single(primitive, e) => {
            if is_same_type(primitive, wanted) {
                Ok(Item::One(primitive, e))
            } else {
                Err(CheckFault::Protocol { line })
            }
        }
        Typed::Whole(_, _, _) => Err(CheckFault::Protocol { line }),
    }
}

fn array_item(
    line: u32,
    wanted_sizes: &[u32],
    wanted: Primitive,
    value: Typed,
) -> Result<Item, CheckFault>
    ensures { Gives item_of result
        (meant.item_of (ManyOf wanted_sizes.now wanted) (typed_of value)) }
{
    match value {
        Typed::Single(_, _) => Err(CheckFault::Protocol { line }),
        Typed::Whole(primitive, sizes, array) => {
            if is_same_type(primitive, wanted) && are_same_sizes(sizes.as_slice(), wanted_sizes) {
                Ok(Item::Many(primitive, array))
            } else {
                Err(CheckFault::Protocol { line })
            }
        }
    }
}

/// A count, and an array of one dimension that it counts components of.
fn counted_item(line: u32, part: &PartType, number: Typed, value: Typed) -> Result<Item, CheckFault>
    ensures { Gives item_of result
        (meant.counted_item line part.now (typed_of number) (typed_of value)) }
{
    let (number, value) = (Held::new(number), Held::new(value));
    let PartType::Counted(count, of) = part else {
        return Err(CheckFault::Protocol { line });
    };
    match number.into_inner() {
        Typed::Whole(_, _, _) => Err(CheckFault::Protocol { line }),
        Typed::Single(primitive, number) => {
            if !is_same_type(primitive, *count) {
                return Err(CheckFault::Protocol { line });
            }
            counted_array(line, *of, number, value.into_inner())
        }
    }
}

/// An array of one dimension, behind its count.
fn counted_array(
    line: u32,
    of: Primitive,
    number: TermExpr,
    value: Typed,
) -> Result<Item, CheckFault>
    ensures { Gives item_of result (counted_of line of number value) }
{
    match value {
        Typed::Single(_, _) => Err(CheckFault::Protocol { line }),
        Typed::Whole(primitive, sizes, array) => {
            let array = Held::new(array);
            match sizes.as_slice().split_first() {
                None => Err(CheckFault::Protocol { line }),
                Some((_, others)) => match others.split_first() {
                    Some(_) => Err(CheckFault::Protocol { line }),
                    None => {
                        if is_same_type(primitive, of) {
                            Ok(Item::Counted(primitive, line, number, array.into_inner()))
                        } else {
                            Err(CheckFault::Protocol { line })
                        }
                    }
                },
            }
        }
    }
}

/// An item of the part's type.
fn sent_item(context: Context<'_, '_>, part: &PartType, out: &Out) -> Result<Item, CheckFault>
    ensures { Gives item_of result
        (read_in context.entry meant.sent_item part.now (out_of out.now)) }
{
    match out {
        Out::Whole(e) => item_of(context.line, part, typed(context, e)?),
        Out::Counted(number, e) => {
            let number = Held::new(typed(context, number)?);
            let value = typed(context, e)?;
            counted_item(context.line, part, number.into_inner(), value)
        }
    }
}

/// As many items as parts.
fn sent_items(
    context: Context<'_, '_>,
    parts: &[PartType],
    outs: &[Out],
) -> Result<Items<Item>, CheckFault>
    ensures { Gives items_of result
        (sent_items_in context.entry parts.now (map out_of outs.now)) }
{
    let mut made = Items::new(context.alloc);
    let mut left = outs;
    for part in parts {
        let Some((out, others)) = left.split_first() else {
            return Err(CheckFault::Protocol { line: context.line });
        };
        let item = match sent_item(context, part, out) {
            Ok(item) => item,
            Err(e) => return Err(e),
        };
        made.push(item)?;
        left = others;
    }
    match left.split_first() {
        None => Ok(made),
        Some(_) => Err(CheckFault::Protocol { line: context.line }),
    }
}

/// As many items as parts, where there is one at least.
#[tactic(auto, unfolding(occ_check_meaning::specs::Items::sent_items))]
fn sent_list(
    context: Context<'_, '_>,
    parts: &[PartType],
    outs: &OneOrMore<Out>,
) -> Result<Items<Item>, CheckFault>
    ensures { Gives items_of result
        (sent_items_in context.entry parts.now (all_of out_of outs.now)) }
{
    match parts.split_first() {
        None => Err(CheckFault::Protocol { line: context.line }),
        Some((part, parts)) => {
            let mut all = Items::new(context.alloc);
            all.push(sent_item(context, part, &outs.first)?)?;
            all.append(sent_items(context, parts, &outs.others)?)?;
            Ok(all)
        }
    }
}

/// The number of a tag.
///
/// # Errors
///
/// `Protocol` where the protocol has no tags, `Tag` where it has not this one, or has it behind 2 to the 32 others.
pub fn tag_in(line: u32, protocol: &Protocol, name: &Letters) -> Result<u32, CheckFault>
    ensures { Answers result (meant.tag_in protocol.now name.now) }
{
    match protocol {
        Protocol::Variant(tags) => match tag_number(tags.as_slice(), name.as_slice()) {
            Some(number) => word_of(line, number),
            None => Err(CheckFault::Tag { line }),
        },
        Protocol::Simple(_, _) => Err(CheckFault::Protocol { line }),
        Protocol::CountedArray(_, _) => Err(CheckFault::Protocol { line }),
        Protocol::Sequential(_) => Err(CheckFault::Protocol { line }),
    }
}

/// The place of a tag among the tags.
fn tag_number(tags: &[Tag], name: &[u8]) -> Option<usize>
    ensures { result ≡ meant.tag_number tags.now name.now 0 }
{
    let mut number = 0;
    for tag in tags {
        if name == tag.name.as_slice() {
            return Some(number);
        }
        number += 1;
    }
    None
}

/// A number below 2 to the 32.
///
/// # Errors
///
/// `Tag` for any other.
pub fn word_of(line: u32, number: usize) -> Result<u32, CheckFault>
    ensures { Answers result (keep (nat_lt number 4294967296) number) }
{
    if number < 4_294_967_296 {
        Ok(number as u32)
    } else {
        Err(CheckFault::Tag { line })
    }
}

/// The parts that follow a tag, or those of a message without one.
///
/// # Errors
///
/// `Protocol` where the protocol has no message with this tag, or none without one, and `Memory`.
pub fn parts_after(
    alloc: Global,
    line: u32,
    protocol: &Protocol,
    tag: Option<u32>,
) -> Result<Items<PartType>, CheckFault>
    ensures { Answers result (parts_after protocol.now tag) }
{
    match (protocol, tag) {
        (Protocol::Simple(sizes, primitive), None) => {
            let sizes = Items::from_slice(alloc, sizes.as_slice())?;
            let part = only_part(alloc, simple_part(sizes, *primitive))?;
            Ok(part)
        }
        (Protocol::CountedArray(count, of), None) => {
            let part = only_part(alloc, PartType::Counted(*count, *of))?;
            Ok(part)
        }
        (Protocol::Sequential(parts), None) => {
            let parts = copy_parts(alloc, parts.as_slice())?;
            Ok(parts)
        }
        (Protocol::Variant(tags), Some(tag)) => match tags.as_slice().get(tag as usize) {
            Some(tag) => {
                let parts = copy_parts(alloc, tag.parts.as_slice())?;
                Ok(parts)
            }
            None => Err(CheckFault::Protocol { line }),
        },
        _ => Err(CheckFault::Protocol { line }),
    }
}

fn only_part(alloc: Global, part: PartType) -> Result<Items<PartType>, AllocError>
    ensures { IfOk result (λ parts. parts ≡ part ∷ []) }
{
    let mut parts = Items::new(alloc);
    parts.push(part)?;
    Ok(parts)
}

/// The name of a tag, which an output on a channel with tags begins with.
fn as_name(line: u32, out: &Out) -> Result<&Letters, CheckFault>
    ensures { Lends result (meant.as_name (out_of out.now)) }
{
    match out {
        Out::Whole(e) => name_alone(line, e),
        Out::Counted(_, _) => Err(CheckFault::Protocol { line }),
    }
}

/// A name that is an expression of its own.
fn name_alone(line: u32, e: &Expr) -> Result<&Letters, CheckFault>
    ensures { Lends result (meant.as_name (from (tree_of e.now))) }
{
    match e {
        Expr::Operand(a) => name_of_operand(line, a),
        Expr::Two(_, _, _) => Err(CheckFault::Protocol { line }),
        Expr::One(_, _) => Err(CheckFault::Protocol { line }),
        Expr::Convert(_, _) => Err(CheckFault::Protocol { line }),
        Expr::MostPos => Err(CheckFault::Protocol { line }),
        Expr::MostNeg => Err(CheckFault::Protocol { line }),
        Expr::Chain(_, _, _, _) => Err(CheckFault::Protocol { line }),
    }
}

fn name_of_operand(line: u32, a: &Operand) -> Result<&Letters, CheckFault>
    ensures { Lends result (meant.as_name (from (alone (operand_of a.now)))) }
{
    match a {
        Operand::Variable(name, subscripts) => name_without(line, name, subscripts),
        Operand::Literal(_, _) => Err(CheckFault::Protocol { line }),
        Operand::Truth(_) => Err(CheckFault::Protocol { line }),
        Operand::Parens(_) => Err(CheckFault::Protocol { line }),
    }
}

/// A name without subscripts.
fn name_without<'a>(
    line: u32,
    name: &'a Letters,
    subscripts: &[Expr],
) -> Result<&'a Letters, CheckFault>
    ensures { Lends result
        (meant.as_name (from (alone (name_under name.now subscripts.now)))) }
{
    match subscripts.split_first() {
        None => Ok(name),
        Some(_) => Err(CheckFault::Protocol { line }),
    }
}

/// The number of the tag of an output where it has one, and its items.
///
/// # Errors
///
/// As `typed`, `Protocol` for items that are not of the protocol, and `Tag` for a tag that it has not.
pub fn sent(
    context: Context<'_, '_>,
    protocol: &Protocol,
    outs: &OneOrMore<Out>,
) -> Result<(Option<u32>, Items<Item>), CheckFault>
    ensures { Gives (λ x. (x.0, items_of x.1)) result
        (sent_in context.entry protocol.now outs.now) }
{
    match protocol {
        Protocol::Variant(_) => {
            let name = as_name(context.line, &outs.first)?;
            let tag = tag_in(context.line, protocol, name)?;
            let parts = parts_after(context.alloc, context.line, protocol, Some(tag))?;
            let items = sent_items(context, parts.as_slice(), &outs.others)?;
            Ok((Some(tag), items))
        }
        _ => {
            let parts = parts_after(context.alloc, context.line, protocol, None)?;
            let items = sent_list(context, parts.as_slice(), outs)?;
            Ok((None, items))
        }
    }
}
