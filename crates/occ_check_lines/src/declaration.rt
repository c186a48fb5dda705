//! Declarations: what their names stand for, and the Clears and Locals that are set for them.

ghost use Rattle.std.specs.Prelude.{[], ◌++◌, ◌∷◌, ◌≡◌, IfOk, OnOk, Some};
ghost use Rattle.occ_tree_grammar.specs.Processes.Views as processes;
ghost use Rattle.occ_check_meaning.specs.Declarations as meant;
ghost use Rattle.occ_check_meaning.specs.Declarations.{variable_declared};
ghost use Rattle.occ_check_meaning.specs.Scope as scopes;
ghost use Rattle.occ_check_meaning.specs.Types as types;
ghost use Rattle.occ_check_lines.specs.View.{Allows, Gives, Makes, known_of, stretch_of, typed_of};
ghost use Rattle.occ_check_lines.specs.Reading.{names_listed};
ghost use Rattle.occ_check_lines.specs.Declaration.{NamesOnly, Opens, OpensFrom, pair_of, channels_declared, variables_declared, kept_in_cells, one_channel_declared, single_named};
ghost use Rattle.occ_check_lines.specs.Typing.{given_type_in, declared_in, named_in, protocol_declared_in};

use crate::constant::constant_of;
use crate::context::Context;
use crate::expression::typed;
use crate::fault::{CheckFault, twice};
use crate::known::{Access, Carried, Known, Stretch};
use crate::listing::{Names, list_name};
use crate::measuring::count_declaration;
use crate::numbers::{Numbers, components};
use crate::operators::{is_same_type, primitive_of};
use crate::scope::Scope;
use crate::typed::Typed;
use crate::types::{carried_by, open_sizes_of, protocol_of, sizes_of};
use indexmap::IndexMap;
use occ_held::Held;
use occ_held::letters::Letters;
use occ_term::{Array, Declaration, Item, Primitive, Sizes, TermExpr};
use occ_tree_grammar::tree::expr::Expr;
use occ_tree_grammar::tree::line::{OneOrMore, Sort, ValueType};
use occ_tree_grammar::tree::process::Protocol as ProtocolTree;
use sqlite_items::Items;
use std::alloc::{AllocError, Global};

/// A name, and what it stands for.
#[derive(Drop)]
pub struct Named {
    /// The name.
    pub name: Letters,
    /// What it stands for.
    pub known: Known,
}

/// What names stand for, and what is set for them.
#[derive(Drop)]
pub struct Opened {
    /// The names, in order.
    pub names: Vec<Named>,
    /// The Clears and Locals, in order.
    pub heads: Items<Declaration>,
}

impl Named {
    /// A copy of the name, with what it stands for. The error is a refused growth.
    pub fn new(name: &Letters, known: Known) -> Result<Named, AllocError>
        ensures { Makes pair_of result (name.now, known_of known) }
    {
        let name = name.copy()?;
        Ok(Named { name, known })
    }
}

impl Opened {
    /// No name.
    pub fn new(alloc: Global) -> Opened
        ensures names { result.names.items ≡ [] }
        ensures heads { result.heads ≡ [] }
    {
        Opened {
            names: Vec::new(alloc),
            heads: Items::new(alloc),
        }
    }

    /// One name, for which nothing is set.
    fn one(alloc: Global, name: &Letters, known: Known) -> Result<Opened, AllocError>
        ensures names { IfOk result (NamesOnly name.now known) }
        ensures heads { IfOk result (λ x. x.heads ≡ []) }
    {
        let mut opened = Opened::new(alloc);
        opened.names.push(Named::new(name, known)?)?;
        Ok(opened)
    }

    /// One name, and what is set for it.
    fn one_with(
        alloc: Global,
        name: &Letters,
        known: Known,
        head: Declaration,
    ) -> Result<Opened, AllocError>
        ensures names { IfOk result (NamesOnly name.now known) }
        ensures heads { IfOk result (λ x. x.heads ≡ head ∷ []) }
    {
        let head = Held::new(head);
        let mut opened = Opened::one(alloc, name, known)?;
        opened.heads.push(head.into_inner())?;
        Ok(opened)
    }

    /// One name behind what is set for it. The error is a refused growth.
    pub fn one_behind(
        alloc: Global,
        name: &Letters,
        known: Known,
        heads: Items<Declaration>,
    ) -> Result<Opened, AllocError>
        ensures names { IfOk result (NamesOnly name.now known) }
        ensures heads { IfOk result (λ x. x.heads ≡ heads) }
    {
        let mut opened = Opened::one(alloc, name, known)?;
        opened.heads = heads;
        Ok(opened)
    }

    /// Puts others after these. The error is a refused growth.
    pub fn append(&mut self, others: Opened) -> Result<(), AllocError>
        ensures names { OnOk result
            (self.new.names.items ≡ self.old.names.items ++ others.names.items) }
        ensures heads { OnOk result (self.new.heads ≡ self.old.heads ++ others.heads) }
    {
        let Opened { mut names, heads } = others;
        self.names.append(&mut names)?;
        self.heads.append(heads)?;
        Ok(())
    }
}

/// An array from its first on, or a single one. The error is a refused growth.
pub fn stretch_from(alloc: Global, first: u32, sizes: &Sizes) -> Result<Stretch, AllocError>
    ensures { Makes stretch_of result (scopes.stretch_from first sizes.now) }
{
    Ok(Stretch {
        first,
        sizes: sizes.copy(alloc)?,
        subscripts: Items::new(alloc),
        left: sizes.copy(alloc)?,
    })
}

// ---- names

/// The names of a declaration, in order.
fn names_of(alloc: Global, names: &OneOrMore<Letters>) -> Result<Items<Letters>, AllocError>
    ensures { IfOk result (λ xs. xs ≡ names_listed names.now) }
{
    let mut all = Items::new(alloc);
    all.push(names.first.copy()?)?;
    for name in &names.others {
        all.push(name.copy()?)?;
    }
    Ok(all)
}

/// That no name stands twice in a list.
///
/// # Errors
///
/// `Twice` for the first name that stands before, and `Memory`.
pub fn once(alloc: Global, line: u32, names: &[Letters]) -> Result<(), CheckFault>
    ensures { Allows scopes.once result names.now }
{
    let mut seen: Names = IndexMap::new(alloc);
    for name in names {
        let added = list_name(&mut seen, name.copy()?)?;
        if !added {
            return Err(twice(alloc, line, name));
        }
    }
    Ok(())
}

// ---- variables and channels

/// Variables and channels of one declaration. Their Clears stand at this depth.
///
/// # Errors
///
/// As `sizes_of` and `carried_by`, `Twice` for a name that stands twice, `TooLarge` for too many cells, channels or
/// nodes, and `Memory`.
pub fn names_declared(
    numbers: &mut Numbers,
    context: Context<'_, '_>,
    depth: u32,
    sizes: &[Expr],
    sort: &Sort,
    names: &OneOrMore<Letters>,
) -> Result<Opened, CheckFault>
    ensures { Opens result numbers.new
        (declared_in context.entry depth sizes.now sort.now names.now numbers.old) }
{
    match sort {
        Sort::Data(primitive) => {
            let primitive = primitive_of(*primitive);
            let sizes = sizes_of(context, sizes)?;
            let sizes = Sizes::new(context.alloc, sizes.as_slice())?;
            let names = names_of(context.alloc, names)?;
            once(context.alloc, context.line, names.as_slice())?;
            variables_declared(
                numbers,
                context.alloc,
                context.line,
                depth,
                primitive,
                &sizes,
                names.as_slice(),
            )
        }
        Sort::Channel(carried) => {
            let sizes = sizes_of(context, sizes)?;
            let sizes = Sizes::new(context.alloc, sizes.as_slice())?;
            let carried = carried_by(context, carried)?;
            let names = names_of(context.alloc, names)?;
            once(context.alloc, context.line, names.as_slice())?;
            channels_declared(numbers, context.alloc, &carried, &sizes, names.as_slice())
        }
    }
}

fn variables_declared(
    numbers: &mut Numbers,
    alloc: Global,
    line: u32,
    depth: u32,
    primitive: Primitive,
    sizes: &Sizes,
    names: &[Letters],
) -> Result<Opened, CheckFault>
    ensures { OpensFrom result numbers.old numbers.new
        (variables_declared depth primitive sizes.now names.now) }
{
    let mut opened = Opened::new(alloc);
    for name in names {
        let one = variable_declared(numbers, alloc, line, depth, primitive, sizes, name)?;
        opened.append(one)?;
    }
    Ok(opened)
}

fn channels_declared(
    numbers: &mut Numbers,
    alloc: Global,
    carried: &Carried,
    sizes: &Sizes,
    names: &[Letters],
) -> Result<Opened, CheckFault>
    ensures { OpensFrom result numbers.old numbers.new
        (channels_declared carried.now sizes.now names.now) }
{
    let mut opened = Opened::new(alloc);
    for name in names {
        let one = channel_declared(numbers, alloc, carried, sizes, name)?;
        opened.append(one)?;
    }
    Ok(opened)
}

fn variable_declared(
    numbers: &mut Numbers,
    alloc: Global,
    line: u32,
    depth: u32,
    primitive: Primitive,
    sizes: &Sizes,
    name: &Letters,
) -> Result<Opened, CheckFault>
    ensures { OpensFrom result numbers.old numbers.new
        (variable_declared depth primitive sizes.now name.now) }
{
    let first = numbers.more_cells(alloc, primitive, name, sizes.as_slice())?;
    numbers.node(depth)?;
    let stretch = stretch_from(alloc, first, sizes)?;
    let known = Known::Cells(Access::Assignable, primitive, stretch);
    let clearing = Declaration::Clearing(line, first, components(sizes.as_slice()));
    Ok(Opened::one_with(alloc, name, known, clearing)?)
}

fn channel_declared(
    numbers: &mut Numbers,
    alloc: Global,
    carried: &Carried,
    sizes: &Sizes,
    name: &Letters,
) -> Result<Opened, CheckFault>
    ensures { OpensFrom result numbers.old numbers.new
        (one_channel_declared carried.now sizes.now name.now) }
{
    let first = numbers.more_channels(alloc, &carried.protocol, name, sizes.as_slice())?;
    let stretch = stretch_from(alloc, first, sizes)?;
    let known = Known::Channels(carried.copy(alloc)?, stretch);
    Ok(Opened::one(alloc, name, known)?)
}

// ---- named values

/// What a name stands for that is given a value. Its Local stands at this depth, where the value is no constant.
///
/// # Errors
///
/// `TooLarge` for too many cells or nodes, and `Memory`.
pub fn name_value(
    numbers: &mut Numbers,
    alloc: Global,
    line: u32,
    depth: u32,
    name: &Letters,
    value: Typed,
) -> Result<Opened, CheckFault>
    ensures { OpensFrom result numbers.old numbers.new
        (meant.named name.now depth (typed_of value)) }
{
    match value {
        Typed::Single(primitive, e) => name_single(numbers, alloc, line, depth, name, primitive, e),
        Typed::Whole(primitive, sizes, array) => match array {
            Array::Text(bytes) => Ok(Opened::one(alloc, name, Known::Text(bytes))?),
            Array::Cells(place) => {
                let value = Item::Many(primitive, Array::Cells(place));
                local_of(numbers, alloc, line, depth, name, primitive, sizes, value)
            }
        }
    }
}

fn name_single(
    numbers: &mut Numbers,
    alloc: Global,
    line: u32,
    depth: u32,
    name: &Letters,
    primitive: Primitive,
    e: TermExpr,
) -> Result<Opened, CheckFault>
    ensures { OpensFrom result numbers.old numbers.new (single_named name.now depth primitive e) }
{
    match constant_of(&e) {
        Some(value) => Ok(Opened::one(alloc, name, Known::Value(primitive, value))?),
        None => {
            let value = Item::One(primitive, e);
            local_of(
                numbers,
                alloc,
                line,
                depth,
                name,
                primitive,
                Sizes::none(alloc),
                value,
            )
        }
    }
}

fn local_of(
    numbers: &mut Numbers,
    alloc: Global,
    line: u32,
    depth: u32,
    name: &Letters,
    primitive: Primitive,
    sizes: Sizes,
    value: Item,
) -> Result<Opened, CheckFault>
    ensures { OpensFrom result numbers.old numbers.new
        (kept_in_cells name.now depth primitive sizes value) }
{
    let first = numbers.more_cells(alloc, primitive, name, sizes.as_slice())?;
    let naming = Held::new(Declaration::Naming(line, first, value));
    count_declaration(numbers, depth, &naming.value)?;
    let stretch = stretch_from(alloc, first, &sizes)?;
    let known = Known::Cells(Access::Kept, primitive, stretch);
    Ok(Opened::one_with(alloc, name, known, naming.into_inner())?)
}

/// A declaration of a named value. Its Local stands at this depth.
///
/// # Errors
///
/// As `typed` and `open_sizes_of`, `WrongType` where the value has not the type that is given, and as `name_value`.
pub fn value_declared(
    numbers: &mut Numbers,
    context: Context<'_, '_>,
    depth: u32,
    value_type: &Option<ValueType>,
    name: &Letters,
    e: &Expr,
) -> Result<Opened, CheckFault>
    ensures { Opens result numbers.new
        (named_in context.entry depth value_type.now name.now e.now numbers.old) }
{
    let value = typed(context, e)?;
    let value = of_value_type(context, value_type, value)?;
    name_value(numbers, context.alloc, context.line, depth, name, value)
}

fn of_value_type(
    context: Context<'_, '_>,
    value_type: &Option<ValueType>,
    value: Typed,
) -> Result<Typed, CheckFault>
    ensures { Gives typed_of result (given_type_in context.entry value_type.now value) }
{
    match value_type {
        None => Ok(value),
        Some(wanted) => of_given_type(context, wanted, value),
    }
}

fn of_given_type(
    context: Context<'_, '_>,
    wanted: &ValueType,
    value: Typed,
) -> Result<Typed, CheckFault>
    ensures { Gives typed_of result (given_type_in context.entry (Some wanted.now) value) }
{
    let value = Held::new(value);
    let sizes = open_sizes_of(context, &wanted.sizes)?;
    if has_type(sizes.as_slice(), primitive_of(wanted.of), &value.value) {
        Ok(value.into_inner())
    } else {
        Err(CheckFault::WrongType { line: context.line })
    }
}

/// Whether a value or an array has this type and sizes, where none stands for any size.
pub fn has_type(open_sizes: &[Option<u32>], primitive: Primitive, value: &Typed) -> bool
    ensures { result ≡ meant.has_type open_sizes.now primitive (typed_of value.now) }
{
    match value {
        Typed::Single(own, _) => { is_same_type(*own, primitive) && takes_sizes(open_sizes, &[]) },
        Typed::Whole(own, sizes, _) => {
            is_same_type(*own, primitive) && takes_sizes(open_sizes, sizes.as_slice())
        }
    }
}

/// Whether these sizes are those that are wanted, where none stands for any.
pub fn takes_sizes(open_sizes: &[Option<u32>], sizes: &[u32]) -> bool
    ensures { result ≡ types.takes_sizes open_sizes.now sizes.now }
{
    match (open_sizes.split_first(), sizes.split_first()) {
        (None, None) => true,
        (Some((open_size, others)), Some((size, rest))) => {
            takes_size(*open_size, *size) && takes_sizes(others, rest)
        }
        _ => false,
    }
}

fn takes_size(open_size: Option<u32>, size: u32) -> bool
    ensures { result ≡ types.takes_size open_size size }
{
    match open_size {
        None => true,
        Some(wanted) => wanted == size,
    }
}

// ---- protocols

/// A declaration of a protocol.
///
/// # Errors
///
/// As `protocol_of`, and `Memory`.
pub fn protocol_declared(
    numbers: &mut Numbers,
    alloc: Global,
    scope: Scope<'_, '_>,
    protocol: &ProtocolTree,
) -> Result<Opened, CheckFault>
    ensures { OpensFrom result numbers.old numbers.new
        (protocol_declared_in scope.entry protocol.now) }
{
    let carried = protocol_of(alloc, scope, protocol)?;
    let number = numbers.more_protocols(protocol_line(protocol))?;
    let known = Known::Protocol(Carried {
        declared: Some(number),
        protocol: carried,
    });
    Ok(Opened::one(alloc, protocol_name(protocol), known)?)
}

fn protocol_line(protocol: &ProtocolTree) -> u32 {
    match protocol {
        ProtocolTree::Parts(line, _, _) => *line,
        ProtocolTree::Tags(line, _, _, _, _) => *line,
    }
}

fn protocol_name(protocol: &ProtocolTree) -> &Letters
    ensures { result.now ≡ types.protocol_name (processes.protocol_of protocol.now) }
{
    match protocol {
        ProtocolTree::Parts(_, name, _) => name,
        ProtocolTree::Tags(_, name, _, _, _) => name,
    }
}
