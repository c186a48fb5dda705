//! Where what is input is stored.

ghost use Rattle.std.specs.Prelude.{◌≡◌, []};
ghost use Rattle.occ_check_lines.specs.Action.{each_stored_in, stored_in, takes, counted_target, list_stored_in, one_stored_in, plain_target, stored_list_in};
ghost use Rattle.occ_check_lines.specs.Clash.{stretches_at};
ghost use Rattle.occ_check_meaning.specs.Expressions as expressions;
ghost use Rattle.occ_check_meaning.specs.Items as meant;
ghost use Rattle.occ_check_lines.specs.View.{Allows, Gives, part_of};
ghost use Rattle.occ_term.specs.View.{place_of, target_of, targets_of};

use crate::clash::some_clash;
use crate::context::Context;
use crate::fault::CheckFault;
use crate::item::variable_of;
use crate::operators::is_same_type;
use crate::typed::Part;
use crate::types::are_same_sizes;
use occ_held::Held;
use occ_term::{PartType, Place, Primitive, Target};
use occ_tree_grammar::tree::line::{OneOrMore, Target as TargetTree};
use sqlite_items::Items;
use std::alloc::Global;

/// The place of a part, in this line.
pub fn placed(line: u32, part: Part) -> Place
    ensures { place_of result ≡ expressions.place_of line (part_of part) }
{
    let mut place = part.place;
    place.line = line;
    place
}

/// A variable of the part's type.
fn target_of(
    line: u32,
    part: &PartType,
    primitive: Primitive,
    variable: Part,
) -> Result<Target, CheckFault>
    ensures { Gives target_of result (plain_target line part.now primitive variable) }
{
    if takes_part(part, primitive, variable.left.as_slice()) {
        Ok(Target::Into(placed(line, variable)))
    } else {
        Err(CheckFault::Protocol { line })
    }
}

/// Whether a variable with these sizes takes the part.
fn takes_part(part: &PartType, primitive: Primitive, sizes: &[u32]) -> bool
    ensures { result ≡ takes part.now primitive sizes.now }
{
    match part {
        PartType::One(wanted) => is_same_type(primitive, *wanted) && are_same_sizes(sizes, &[]),
        PartType::Many(wanted_sizes, wanted) => {
            is_same_type(primitive, *wanted) && are_same_sizes(sizes, wanted_sizes.as_slice())
        }
        PartType::Counted(_, _) => false,
    }
}

/// A variable that takes a count, and an array of one dimension that takes the components.
fn counted_target(
    line: u32,
    part: &PartType,
    number: (Primitive, Part),
    array: (Primitive, Part),
) -> Result<Target, CheckFault>
    ensures { Gives target_of result (counted_target line part.now number array) }
{
    let (counts, number) = number;
    let (holds, array) = array;
    let (number, array) = (Held::new(number), Held::new(array));
    let PartType::Counted(count, of) = part else {
        return Err(CheckFault::Protocol { line });
    };
    match array.value.left.as_slice().split_first() {
        None => Err(CheckFault::Protocol { line }),
        Some((_, others)) => match others.split_first() {
            Some(_) => Err(CheckFault::Protocol { line }),
            None => {
                if is_same_type(counts, *count)
                    && is_same_type(holds, *of)
                    && are_same_sizes(number.value.left.as_slice(), &[])
                {
                    let number = placed(line, number.into_inner());
                    let array = placed(line, array.into_inner());
                    Ok(Target::IntoCounted(line, number, array))
                } else {
                    Err(CheckFault::Protocol { line })
                }
            }
        },
    }
}

/// One target of a list.
fn one_stored(
    context: Context<'_, '_>,
    part: &PartType,
    target: &TargetTree,
) -> Result<Target, CheckFault>
    ensures { Gives target_of result (one_stored_in context.entry part.now target.now) }
{
    match target {
        TargetTree::Whole(variable) => {
            let (primitive, variable) = variable_of(context, variable)?;
            target_of(context.line, part, primitive, variable)
        }
        TargetTree::Counted(number, array) => {
            let number = variable_of(context, number)?;
            let array = variable_of(context, array)?;
            counted_target(context.line, part, number, array)
        }
    }
}

/// As many targets as parts.
fn each_stored(
    context: Context<'_, '_>,
    parts: &[PartType],
    targets: &[TargetTree],
) -> Result<Items<Target>, CheckFault>
    ensures { Gives targets_of result (each_stored_in context.entry parts.now targets.now) }
{
    let mut made = Items::new(context.alloc);
    let mut left = targets;
    for part in parts {
        let Some((target, others)) = left.split_first() else {
            return Err(CheckFault::Protocol { line: context.line });
        };
        let target = match one_stored(context, part, target) {
            Ok(target) => target,
            Err(e) => return Err(e),
        };
        made.push(target)?;
        left = others;
    }
    match left.split_first() {
        None => Ok(made),
        Some(_) => Err(CheckFault::Protocol { line: context.line }),
    }
}

/// That no two targets share a component under constant subscripts, and none stands in a subscript of another.
///
/// # Errors
///
/// `ListTarget` for two that clash, and as `some_clash`.
pub fn apart(alloc: Global, line: u32, targets: &[Target]) -> Result<(), CheckFault>
    ensures { Allows meant.apart result (stretches_at (targets_of targets.now)) }
{
    if some_clash(alloc, targets)? {
        Err(CheckFault::ListTarget { line })
    } else {
        Ok(())
    }
}

/// The targets of one list.
///
/// # Errors
///
/// As `variable_of`, `Protocol` for targets that are not of the parts, and `ListTarget` for two that are not apart.
pub fn stored(
    context: Context<'_, '_>,
    parts: &[PartType],
    targets: &[TargetTree],
) -> Result<Items<Target>, CheckFault>
    ensures { Gives targets_of result (stored_in context.entry parts.now targets.now) }
{
    let made = match each_stored(context, parts, targets) {
        Ok(made) => made,
        Err(e) => return Err(e),
    };
    match apart(context.alloc, context.line, made.as_slice()) {
        Ok(()) => Ok(made),
        Err(e) => Err(e),
    }
}

/// The targets of a list of one or more.
///
/// # Errors
///
/// As `stored`.
pub fn stored_list(
    context: Context<'_, '_>,
    parts: &[PartType],
    targets: &OneOrMore<TargetTree>,
) -> Result<Items<Target>, CheckFault>
    ensures { Gives targets_of result (stored_list_in context.entry parts.now targets.now) }
{
    let made = match list_stored(context, parts, targets) {
        Ok(made) => made,
        Err(e) => return Err(e),
    };
    match apart(context.alloc, context.line, made.as_slice()) {
        Ok(()) => Ok(made),
        Err(e) => Err(e),
    }
}

/// As many targets as parts, where there is one at least.
#[tactic(auto, unfolding(crate::specs::Zipped::zipped))]
fn list_stored(
    context: Context<'_, '_>,
    parts: &[PartType],
    targets: &OneOrMore<TargetTree>,
) -> Result<Items<Target>, CheckFault>
    ensures { Gives targets_of result (list_stored_in context.entry parts.now targets.now) }
{
    match parts.split_first() {
        None => Err(CheckFault::Protocol { line: context.line }),
        Some((part, parts)) => {
            let mut all = Items::new(context.alloc);
            all.push(one_stored(context, part, &targets.first)?)?;
            all.append(each_stored(context, parts, &targets.others)?)?;
            Ok(all)
        }
    }
}
