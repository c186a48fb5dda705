//! Sizes, parts of messages, and protocols.

ghost use Rattle.std.specs.Prelude.{◌≡◌, IfOk, IsTrue, Some, map, min, option_map, true};
ghost use Rattle.occ_tree_grammar.specs.Lines.Views as lines;
ghost use Rattle.occ_tree_grammar.specs.Processes.Views as processes;
ghost use Rattle.occ_term.specs.Messages.{is_of, simple_part};
ghost use Rattle.occ_term.specs.ArraySizes.{AreFew};
ghost use Rattle.occ_term.specs.declared.primitive.Primitive.TheVariants.{Int};
ghost use Rattle.occ_check_meaning.specs.Constants as constants;
ghost use Rattle.occ_check_meaning.specs.Scope.{each_of, keep, once};
ghost use Rattle.occ_check_meaning.specs.Types as meant;
ghost use Rattle.occ_check_lines.specs.View.{Allows, Answers, Gives, carried_of, known_of, names_in};
ghost use Rattle.occ_check_lines.specs.Reading.{all_of, read_in, trees_of};
ghost use Rattle.occ_check_lines.specs.Positive.{ArePositive};
ghost use Rattle.occ_check_lines.specs.Typing.{carried_in, each_part_in, names_of_tags, open_sizes_in, protocol_in, sizes_in, given_size_in};

use crate::context::Context;
use crate::declaration::once as names_once;
use crate::expression::{constant_as, known_name};
use crate::fault::CheckFault;
use crate::known::{Carried, Known};
use crate::numbers::components;
use crate::operators::{is_number, primitive_of};
use crate::scope::Scope;
use occ_held::letters::Letters;
use occ_term::{MOST_CELLS, PartType, PartTypes, Primitive, Protocol, Tag, TagTypes};
use occ_tree_grammar::tree::expr::Expr;
use occ_tree_grammar::tree::line::{Carried as CarriedTree, OneOrMore, Part, Size};
use occ_tree_grammar::tree::process::{Protocol as ProtocolTree, Tag as TagTree};
use sqlite_items::Items;
use std::alloc::{AllocError, Global};

// ---- sizes

/// The sizes of a declaration, or of a part of a message.
///
/// # Errors
///
/// As `constant_as` of an INT, `BadCount` for one below 1, and `TooLarge` for more components than a program may have.
pub fn sizes_of(context: Context<'_, '_>, sizes: &[Expr]) -> Result<Items<u32>, CheckFault>
    ensures sizes { Answers result (sizes_in context.entry sizes.now) }
    ensures few { IfOk result AreFew }
{
    let sizes = each_size(context, sizes)?;
    not_too_large(sizes)
}

/// Sizes, in order.
fn each_size(context: Context<'_, '_>, sizes: &[Expr]) -> Result<Items<u32>, CheckFault>
    ensures { Answers result (read_in context.entry meant.each_size (trees_of sizes.now)) }
{
    let mut made = Items::new(context.alloc);
    for size in sizes {
        let size = match given_size(context, size) {
            Ok(size) => size,
            Err(e) => return Err(e),
        };
        made.push(size)?;
    }
    Ok(made)
}

/// A size that is given.
fn given_size(context: Context<'_, '_>, size: &Expr) -> Result<u32, CheckFault>
    ensures { Gives (λ n. Some n) result (given_size_in context.entry size.now) }
{
    let value = constant_as(context, Primitive::Int, size)?;
    a_size(context.line, value)
}

/// A size, at least 1.
fn a_size(line: u32, value: i64) -> Result<u32, CheckFault>
    requires { IsTrue (is_of Int value) }
    ensures { Answers result (constants.a_size value) }
{
    if value >= 1 {
        Ok(value as u32)
    } else {
        Err(CheckFault::BadCount { line })
    }
}

/// One size, or several that do not multiply to more than there may be cells.
fn not_too_large(sizes: Items<u32>) -> Result<Items<u32>, CheckFault>
    requires { ArePositive sizes }
    ensures sizes { Answers result (meant.not_too_large sizes) }
    ensures few { IfOk result AreFew }
{
    if are_few(sizes.as_slice()) {
        Ok(sizes)
    } else {
        Err(CheckFault::TooLarge)
    }
}

/// Whether there is at most one size, or several do not multiply to more than there may be cells.
fn are_few(sizes: &[u32]) -> bool
    requires { ArePositive sizes.now }
    ensures kept { meant.not_too_large sizes.now ≡ keep result sizes.now }
    ensures few { result ≡ true → AreFew sizes.now }
{
    match sizes {
        [] => true,
        [_] => true,
        [_, _, ..] => components(sizes) as usize <= MOST_CELLS,
    }
}

/// The sizes of a named value or a formal, where none stands for any size.
///
/// # Errors
///
/// As `sizes_of`.
pub fn open_sizes_of(
    context: Context<'_, '_>,
    sizes: &[Size],
) -> Result<Items<Option<u32>>, CheckFault>
    ensures { Answers result (open_sizes_in context.entry sizes.now) }
{
    let sizes = each_open_size(context, sizes)?;
    few(sizes)
}

/// Sizes that may be open, in order.
fn each_open_size(
    context: Context<'_, '_>,
    sizes: &[Size],
) -> Result<Items<Option<u32>>, CheckFault>
    ensures { Answers result
        (each_of (read_in context.entry meant.open_size) (map lines.size_of sizes.now)) }
{
    let mut made = Items::new(context.alloc);
    for size in sizes {
        let size = match open_size(context, size) {
            Ok(size) => size,
            Err(e) => return Err(e),
        };
        made.push(size)?;
    }
    Ok(made)
}

/// A size that may be open.
fn open_size(context: Context<'_, '_>, size: &Size) -> Result<Option<u32>, CheckFault>
    ensures { Answers result (read_in context.entry meant.open_size (lines.size_of size.now)) }
{
    match size {
        Size::Open => Ok(None),
        Size::Given(size) => Ok(Some(given_size(context, size)?)),
    }
}

/// The same of open sizes, where all are given.
fn few(sizes: Items<Option<u32>>) -> Result<Items<Option<u32>>, CheckFault>
    ensures { Answers result (keep (meant.are_few sizes) sizes) }
{
    if are_few_open(sizes.as_slice()) {
        Ok(sizes)
    } else {
        Err(CheckFault::TooLarge)
    }
}

/// Whether there is at most one size, or one is open, or they do not multiply to more than there may be cells.
fn are_few_open(sizes: &[Option<u32>]) -> bool
    ensures { result ≡ meant.are_few sizes.now }
{
    match sizes {
        [] => true,
        [_] => true,
        [_, _, ..] => match given_components(sizes) {
            None => true,
            Some(count) => count as usize <= MOST_CELLS,
        },
    }
}

/// How many components there are, up to the largest `u32`; none where a size is open.
fn given_components(sizes: &[Option<u32>]) -> Option<u32>
    ensures { result ≡ option_map (λ n. min n 4294967295) (meant.given_product sizes.now) }
{
    let mut count = 1_u32;
    for size in sizes {
        match size {
            None => return None,
            Some(size) => count = count.saturating_mul(*size),
        }
    }
    Some(count)
}

// ---- parts and protocols

/// The type of a count: INT or BYTE.
fn count_type(line: u32, primitive: Primitive) -> Result<Primitive, CheckFault>
    ensures { Answers result (meant.count_type primitive) }
{
    if is_number(primitive) {
        Ok(primitive)
    } else {
        Err(CheckFault::WrongType { line })
    }
}

/// A part of a message.
fn part_of(context: Context<'_, '_>, part: &Part) -> Result<PartType, CheckFault>
    ensures { Answers result (read_in context.entry meant.part_of (lines.part_of part.now)) }
{
    match part {
        Part::Single(sizes, primitive) => {
            let sizes = sizes_of(context, sizes)?;
            Ok(simple_part(sizes, primitive_of(*primitive)))
        }
        Part::Counted(count, primitive) => {
            let count = count_type(context.line, primitive_of(*count))?;
            Ok(PartType::Counted(count, primitive_of(*primitive)))
        }
    }
}

/// A value, or an array where there are sizes.
pub fn simple_part(sizes: Items<u32>, primitive: Primitive) -> PartType
    ensures { result ≡ simple_part sizes primitive }
{
    match sizes.as_slice().split_first() {
        None => PartType::One(primitive),
        Some(_) => PartType::Many(sizes, primitive),
    }
}

/// Parts of a message, in order.
fn each_part(context: Context<'_, '_>, parts: &[Part]) -> Result<Items<PartType>, CheckFault>
    ensures { Answers result (each_part_in context.entry (map lines.part_of parts.now)) }
{
    let mut made = Items::new(context.alloc);
    for part in parts {
        let part = match part_of(context, part) {
            Ok(part) => part,
            Err(e) => return Err(e),
        };
        made.push(part)?;
    }
    Ok(made)
}

/// One or more parts, in order.
#[tactic(auto, unfolding(occ_check_meaning::specs::Scope::each_of))]
fn parts_of(
    context: Context<'_, '_>,
    parts: &OneOrMore<Part>,
) -> Result<Items<PartType>, CheckFault>
    ensures { Answers result (each_part_in context.entry (all_of lines.part_of parts.now)) }
{
    let first = part_of(context, &parts.first)?;
    let others = each_part(context, &parts.others)?;
    let mut all = Items::new(context.alloc);
    all.push(first)?;
    all.append(others)?;
    Ok(all)
}

/// What a channel of this declaration or formal carries.
///
/// # Errors
///
/// As `sizes_of`, `Unknown` and `WrongKind` for a name that is no protocol's, and `WrongType` for a count of BOOL.
pub fn carried_by(context: Context<'_, '_>, carried: &CarriedTree) -> Result<Carried, CheckFault>
    ensures { Gives carried_of result (carried_in context.entry carried.now) }
{
    match carried {
        CarriedTree::Part(part) => {
            let protocol = plain_protocol(context, part)?;
            Ok(Carried {
                declared: None,
                protocol,
            })
        }
        CarriedTree::Named(name) => {
            let known = known_name(context, name)?;
            as_protocol(context.alloc, context.line, known)
        }
    }
}

/// What a channel carries that has no protocol's name.
fn plain_protocol(context: Context<'_, '_>, part: &Part) -> Result<Protocol, CheckFault>
    ensures { Answers result (read_in context.entry meant.plain_protocol (lines.part_of part.now)) }
{
    match part {
        Part::Single(sizes, primitive) => {
            let sizes = sizes_of(context, sizes)?;
            Ok(Protocol::Simple(sizes, primitive_of(*primitive)))
        }
        Part::Counted(count, primitive) => {
            let count = count_type(context.line, primitive_of(*count))?;
            Ok(Protocol::CountedArray(count, primitive_of(*primitive)))
        }
    }
}

/// The protocol that a name stands for.
fn as_protocol(alloc: Global, line: u32, known: &Known) -> Result<Carried, CheckFault>
    ensures { Gives carried_of result (meant.as_protocol (known_of known.now)) }
{
    match known {
        Known::Protocol(carried) => {
            let carried = carried.copy(alloc)?;
            Ok(carried)
        }
        Known::Value(_, _) => Err(CheckFault::WrongKind { line }),
        Known::Text(_) => Err(CheckFault::WrongKind { line }),
        Known::Cells(_, _, _) => Err(CheckFault::WrongKind { line }),
        Known::Channels(_, _) => Err(CheckFault::WrongKind { line }),
    }
}

/// The protocol that a declaration names.
///
/// # Errors
///
/// As `carried_by`, and `Twice` for a tag that stands twice.
pub fn protocol_of(
    alloc: Global,
    scope: Scope<'_, '_>,
    protocol: &ProtocolTree,
) -> Result<Protocol, CheckFault>
    ensures { Answers result (protocol_in scope.entry protocol.now) }
{
    match protocol {
        ProtocolTree::Parts(line, _, parts) => {
            match parts_of(
                Context {
                    alloc,
                    scope,
                    line: *line,
                },
                parts,
            ) {
                Ok(parts) => Ok(Protocol::Sequential(PartTypes::new(alloc, parts)?)),
                Err(e) => Err(e),
            }
        }
        ProtocolTree::Tags(_, _, _, tags, _) => {
            let tags = tags.as_slice();
            if let Err(e) = tags_once(alloc, tags) {
                return Err(e);
            }
            match each_tag(alloc, scope, tags) {
                Ok(tags) => Ok(Protocol::Variant(TagTypes::new(alloc, tags)?)),
                Err(e) => Err(e),
            }
        }
    }
}

/// A tag with its parts.
fn tag_of(alloc: Global, scope: Scope<'_, '_>, tag: &TagTree) -> Result<Tag, CheckFault>
    ensures { Answers result (meant.tag_of (names_in scope.entry) (processes.tag_of tag.now)) }
{
    let parts = each_part(
        Context {
            alloc,
            scope,
            line: tag.line,
        },
        &tag.parts,
    )?;
    let name = tag.name.copy()?;
    Ok(Tag { name, parts })
}

/// Tags, in order.
fn each_tag(alloc: Global, scope: Scope<'_, '_>, tags: &[TagTree]) -> Result<Items<Tag>, CheckFault>
    ensures { Answers result
        (each_of (meant.tag_of (names_in scope.entry)) (map processes.tag_of tags.now)) }
{
    let mut made = Items::new(alloc);
    for tag in tags {
        let tag = match tag_of(alloc, scope, tag) {
            Ok(tag) => tag,
            Err(e) => return Err(e),
        };
        made.push(tag)?;
    }
    Ok(made)
}

/// That no tag stands twice.
fn tags_once(alloc: Global, tags: &[TagTree]) -> Result<(), CheckFault>
    ensures { Allows once result (names_of_tags tags.now) }
{
    let names = names_of_tags(alloc, tags)?;
    match names_once(alloc, 0, names.as_slice()) {
        Ok(()) => Ok(()),
        Err(CheckFault::Twice { name, .. }) => {
            let line = second_line(tags, name.as_bytes());
            Err(CheckFault::Twice { line, name })
        }
        Err(e) => Err(e),
    }
}

/// The names of tags, in order.
fn names_of_tags(alloc: Global, tags: &[TagTree]) -> Result<Items<Letters>, AllocError>
    ensures { IfOk result (λ ns. ns ≡ names_of_tags tags.now) }
{
    let mut names = Items::new(alloc);
    for tag in tags {
        names.push(tag.name.copy()?)?;
    }
    Ok(names)
}

/// The line of the second tag with this name.
fn second_line(tags: &[TagTree], name: &[u8]) -> u32 {
    let mut is_second = false;
    for tag in tags {
        if tag.name.as_slice() == name {
            if is_second {
                return tag.line;
            }
            is_second = true;
        }
    }
    0
}

/// Whether two lists of sizes are one.
pub fn are_same_sizes(a: &[u32], b: &[u32]) -> bool
    ensures { result ≡ meant.are_same_sizes a.now b.now }
{
    match (a.split_first(), b.split_first()) {
        (None, None) => true,
        (Some((m, ms)), Some((n, ns))) => *m == *n && are_same_sizes(ms, ns),
        _ => false,
    }
}
