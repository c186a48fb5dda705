//! Processes that stand in one line, and the parts of the others that declare nothing.

ghost use Rattle.std.specs.Prelude.{◌∷◌, [], map};
ghost use Rattle.occ_term.specs.View.{item_of, items_of, reception_of, targets_of, term_of, test_of, variants_of};
ghost use Rattle.occ_check_meaning.specs.Actions as meant;
ghost use Rattle.occ_check_meaning.specs.Items as items;
ghost use Rattle.occ_check_lines.specs.Action.{Chooses, as_assignment, as_output, as_received, assigned_in, chosen_of, listed_of, output_in, received_in, selector_in, sides_in, test_in, variable_parts, variables_in, all_sides_in, all_variables_in, item_assigned, only_variant, side_in};
ghost use Rattle.occ_check_lines.specs.View.{Gives, Lends, Makes, one_value};

use crate::context::Context;
use crate::expression::{as_single, typed, typed_as};
use crate::fault::CheckFault;
use crate::item::{channel_of, parts_after, sent, tag_in, variable_of};
use crate::listing::{Values, list_value};
use crate::operators::{is_number, is_same_type};
use crate::scope::Scope;
use crate::target::{apart, placed, stored, stored_list};
use crate::typed::{Part, Typed};
use crate::types::are_same_sizes;
use occ_held::parts;
use occ_term::{Item, Place, Primitive, Protocol, Reception, Target, Term, TermExpr, Variant};
use occ_tree_grammar::tree::expr::Expr;
use occ_tree_grammar::tree::line::{Input, OneOrMore, Out, Var};
use sqlite_items::Items;
use std::alloc::{AllocError, Global};

/// What an input stores.
#[derive(Drop)]
pub enum Listed {
    /// A list of targets.
    Plain(Items<Target>),
    /// The number of a tag, and the targets of what follows it.
    Tagged(u32, Items<Target>),
}

/// The constants that stand in the options of a CASE so far, and whether ELSE does.
pub struct Chosen {
    /// The constants, in order.
    pub constants: Values,
    /// Whether ELSE stands there.
    pub has_else: bool,
}

impl Drop for Chosen {
    fn drop(self) {
        let Chosen {
            constants: _,
            has_else: _,
        } = self;
    }
}

/// An assignment: its targets and its items.
///
/// # Errors
///
/// As `typed` and `variable_of`, `WrongType` for sides of different types or numbers, `ListTarget` for two targets that
/// clash, and `Memory`.
pub fn assigned(
    context: Context<'_, '_>,
    variables: &OneOrMore<Var>,
    values: &OneOrMore<Expr>,
) -> Result<(Items<Target>, Items<Item>), CheckFault>
    ensures { Gives as_assignment result (assigned_in context.entry variables.now values.now) }
{
    let variables = all_variables(context, variables)?;
    let items = all_sides(context, &variables, values)?;
    let targets = targets_of(context.alloc, context.line, variables)?;
    apart(context.alloc, context.line, targets.as_slice())?;
    Ok((targets, items))
}

/// The left side, where there is one variable at least.
#[tactic(auto, unfolding(occ_check_meaning::specs::Scope::each_of))]
fn all_variables(
    context: Context<'_, '_>,
    variables: &OneOrMore<Var>,
) -> Result<Vec<(Primitive, Part)>, CheckFault>
    ensures { Gives variable_parts result (all_variables_in context.entry variables.now) }
{
    let mut all = Vec::new(context.alloc);
    all.push(variable_of(context, &variables.first)?)?;
    let mut others = each_variable(context, &variables.others)?;
    all.append(&mut others)?;
    Ok(all)
}

fn each_variable(
    context: Context<'_, '_>,
    variables: &[Var],
) -> Result<Vec<(Primitive, Part)>, CheckFault>
    ensures { Gives variable_parts result (variables_in context.entry variables.now) }
{
    let mut all = Vec::new(context.alloc);
    for variable in variables {
        let one = match variable_of(context, variable) {
            Ok(one) => one,
            Err(e) => return Err(e),
        };
        all.push(one)?;
    }
    Ok(all)
}

/// As many values as variables, where there is one value at least.
#[tactic(auto, unfolding(crate::specs::Zipped::zipped))]
fn all_sides(
    context: Context<'_, '_>,
    variables: &[(Primitive, Part)],
    values: &OneOrMore<Expr>,
) -> Result<Items<Item>, CheckFault>
    ensures { Gives items_of result (all_sides_in context.entry variables.now values.now) }
{
    match variables.split_first() {
        None => Err(CheckFault::WrongType { line: context.line }),
        Some((variable, rest)) => {
            let mut all = Items::new(context.alloc);
            all.push(one_side(context, variable, &values.first)?)?;
            all.append(each_side(context, rest, &values.others)?)?;
            Ok(all)
        }
    }
}

/// As many values as variables.
fn each_side(
    context: Context<'_, '_>,
    variables: &[(Primitive, Part)],
    values: &[Expr],
) -> Result<Items<Item>, CheckFault>
    ensures { Gives items_of result (sides_in context.entry variables.now values.now) }
{
    let mut made = Items::new(context.alloc);
    let mut left = values;
    for variable in variables {
        let Some((value, others)) = left.split_first() else {
            return Err(CheckFault::WrongType { line: context.line });
        };
        let item = match one_side(context, variable, value) {
            Ok(item) => item,
            Err(e) => return Err(e),
        };
        made.push(item)?;
        left = others;
    }
    match left.split_first() {
        None => Ok(made),
        Some(_) => Err(CheckFault::WrongType { line: context.line }),
    }
}

/// A value for a variable.
fn one_side(
    context: Context<'_, '_>,
    variable: &(Primitive, Part),
    value: &Expr,
) -> Result<Item, CheckFault>
    ensures { Gives item_of result (side_in context.entry variable.now value.now) }
{
    let value = typed(context, value)?;
    assigned_item(context.line, variable.0, &variable.1, value)
}

/// The variables as targets.
fn targets_of(
    alloc: Global,
    line: u32,
    variables: Vec<(Primitive, Part)>,
) -> Result<Items<Target>, AllocError>
    ensures { Makes targets_of result (map (items.as_target line) (variable_parts variables)) }
{
    let mut targets = Items::new(alloc);
    for (_, part) in variables {
        targets.push(Target::Into(placed(line, part)))?;
    }
    Ok(targets)
}

/// A value of the type and the sizes of the variable that takes it.
fn assigned_item(
    line: u32,
    primitive: Primitive,
    variable: &Part,
    value: Typed,
) -> Result<Item, CheckFault>
    ensures { Gives item_of result (item_assigned primitive variable.now value) }
{
    let left = variable.left.as_slice();
    match value {
        Typed::Single(own, e) => {
            if is_same_type(own, primitive) && are_same_sizes(left, &[]) {
                Ok(Item::One(own, e))
            } else {
                Err(CheckFault::WrongType { line })
            }
        }
        Typed::Whole(own, sizes, array) => {
            if is_same_type(own, primitive) && are_same_sizes(left, sizes.as_slice()) {
                Ok(Item::Many(own, array))
            } else {
                Err(CheckFault::WrongType { line })
            }
        }
    }
}

/// An output: its channel, its tag and its items.
///
/// # Errors
///
/// As `channel_of` and `sent`.
pub fn output(
    context: Context<'_, '_>,
    channel: &Var,
    outs: &OneOrMore<Out>,
) -> Result<(Place, Option<u32>, Items<Item>), CheckFault>
    ensures { Gives as_output result (output_in context.entry channel.now outs.now) }
{
    let (protocol, channel) = channel_of(context, channel)?;
    let (tag, items) = sent(context, protocol, outs)?;
    Ok((channel, tag, items))
}

/// The channel of an input, and what is stored.
///
/// # Errors
///
/// As `channel_of` and `stored`, `Protocol` for a message that the channel does not carry, and `Tag` for a tag that
/// its protocol has not.
pub fn received(context: Context<'_, '_>, input: &Input) -> Result<(Place, Listed), CheckFault>
    ensures { Gives as_received result (received_in context.entry input.now) }
{
    match input {
        Input::Items(channel, targets) => {
            let (protocol, channel) = channel_of(context, channel)?;
            let parts = parts_after(context.alloc, context.line, protocol, None)?;
            match stored_list(context, parts.as_slice(), targets) {
                Ok(targets) => Ok((channel, Listed::Plain(targets))),
                Err(e) => Err(e),
            }
        }
        Input::Tagged(channel, name, targets) => {
            let (protocol, channel) = channel_of(context, channel)?;
            let tag = tag_in(context.line, protocol, name)?;
            let parts = parts_after(context.alloc, context.line, protocol, Some(tag))?;
            match stored(context, parts.as_slice(), targets) {
                Ok(targets) => Ok((channel, Listed::Tagged(tag, targets))),
                Err(e) => Err(e),
            }
        }
    }
}

/// The Boolean of a guard, where it has one.
///
/// # Errors
///
/// As `typed_as` of a BOOL.
pub fn test_of(
    context: Context<'_, '_>,
    test: &Option<Expr>,
) -> Result<Option<TermExpr>, CheckFault>
    ensures { Gives test_of result (test_in context.entry test.now) }
{
    match test {
        None => Ok(None),
        Some(e) => {
            let test = typed_as(context, Primitive::Bool, e)?;
            Ok(Some(test))
        }
    }
}

/// The value that a CASE selects by, with its type.
///
/// # Errors
///
/// As `typed`, and `WrongType` for an array and for a BOOL.
pub fn selector(context: Context<'_, '_>, e: &Expr) -> Result<(Primitive, TermExpr), CheckFault>
    ensures { Gives one_value result (selector_in context.entry e.now) }
{
    let (primitive, e) = as_single(context.line, typed(context, e)?)?;
    if is_number(primitive) {
        Ok((primitive, e))
    } else {
        Err(CheckFault::WrongType { line: context.line })
    }
}

/// A protocol with tags.
///
/// # Errors
///
/// `Protocol` for any other.
pub fn with_tags(line: u32, protocol: &Protocol) -> Result<&Protocol, CheckFault>
    ensures { Lends result (meant.with_tags protocol.now) }
{
    match protocol {
        Protocol::Variant(_) => Ok(protocol),
        Protocol::Simple(_, _) => Err(CheckFault::Protocol { line }),
        Protocol::CountedArray(_, _) => Err(CheckFault::Protocol { line }),
        Protocol::Sequential(_) => Err(CheckFault::Protocol { line }),
    }
}

/// Constants of one option more.
///
/// # Errors
///
/// `Twice` for one that stands there already, and `Memory`. After an error nothing is known of what is chosen.
#[tactic(auto, unfolding(occ_check_meaning::specs::Actions::choosing))]
pub fn choosing(
    alloc: Global,
    line: u32,
    constants: &[i64],
    chosen: &mut Chosen,
) -> Result<(), CheckFault>
    ensures { Chooses result chosen.new (meant.choosing constants.now (chosen_of chosen.old)) }
{
    for constant in constants {
        if let Err(e) = choosing_one(alloc, line, constant, chosen) {
            return Err(e);
        }
    }
    Ok(())
}

/// One constant more.
fn choosing_one(
    alloc: Global,
    line: u32,
    constant: &i64,
    chosen: &mut Chosen,
) -> Result<(), CheckFault>
    ensures { Chooses result chosen.new
        (meant.choosing (constant.now ∷ []) (chosen_of chosen.old)) }
{
    let added = list_value(&mut chosen.constants, *constant)?;
    if !added {
        return Err(constant_twice(alloc, line, *constant));
    }
    Ok(())
}

/// The fault of a constant that stands twice.
fn constant_twice(alloc: Global, line: u32, constant: i64) -> CheckFault {
    match constant.to_string(alloc) {
        Ok(name) => CheckFault::Twice { line, name },
        Err(_) => CheckFault::Memory,
    }
}

/// ELSE.
///
/// # Errors
///
/// `WrongKind` for a second one.
pub fn choosing_else(line: u32, chosen: &mut Chosen) -> Result<(), CheckFault>
    ensures { Chooses result chosen.new (meant.choosing_else (chosen_of chosen.old)) }
{
    if chosen.has_else {
        return Err(CheckFault::WrongKind { line });
    }
    chosen.has_else = true;
    Ok(())
}

/// The list of an arm, and the process behind it. The error is a refused growth.
pub fn as_reception(alloc: Global, listed: Listed, body: Term) -> Result<Reception, AllocError>
    ensures { Makes reception_of result
        (meant.as_reception (listed_of listed) (term_of body)) }
{
    match listed {
        Listed::Plain(targets) => Ok(Reception::Plain(targets, body)),
        Listed::Tagged(tag, targets) => {
            let variants = only_variant(alloc, tag, targets, body)?;
            Ok(Reception::Tagged(variants))
        }
    }
}

/// An input. The error is a refused growth.
pub fn as_input(alloc: Global, channel: Place, listed: Listed) -> Result<Term, AllocError>
    ensures { Makes term_of result (meant.as_input (as_received (channel, listed))) }
{
    match listed {
        Listed::Plain(targets) => Ok(Term::Input(channel, targets)),
        Listed::Tagged(tag, targets) => {
            let variants = only_variant(alloc, tag, targets, Term::Skip)?;
            Ok(Term::VariantInput(channel, variants))
        }
    }
}

/// A variant alone, without declarations.
fn only_variant(
    alloc: Global,
    tag: u32,
    targets: Items<Target>,
    body: Term,
) -> Result<parts::Listed<Variant>, AllocError>
    ensures { Makes variants_of result (only_variant tag targets body) }
{
    let variant = Variant {
        tag,
        declarations: Items::new(alloc),
        targets,
        body,
    };
    let mut variants = parts::Listed::new(alloc);
    variants.push(variant)?;
    Ok(variants)
}
