//! Calls: what the formals stand for under the actuals.

ghost use Rattle.std.specs.Prelude.{◌≡◌};
ghost use Rattle.occ_tree_grammar.specs.Expressions.Trees.{alone, operand_of, expression_of as tree_of};
ghost use Rattle.occ_check_meaning.specs.Calls as meant;
ghost use Rattle.occ_check_meaning.specs.Items as items;
ghost use Rattle.occ_check_lines.specs.View.{Gives, carried_of, channels_known, known_of, variable_known};
ghost use Rattle.occ_check_lines.specs.Declaration.{Opens};
ghost use Rattle.occ_check.specs.Call.{OpensGiven, actual_in, actuals_in, bound_in, channels_bound, name_with, variable_bound, GetsChannels, GetsValue, GetsVariable, all_actuals_in, some_actuals_in};

use crate::formals::{Wanted, WantedFormal};
use crate::given::{Given, all_evaluated, part_of};
use occ_check_lines::context::Context;
use occ_check_lines::declaration::{Opened, has_type, name_value, takes_sizes};
use occ_check_lines::expression::{known_name, typed, typed_subscripts};
use occ_check_lines::fault::CheckFault;
use occ_check_lines::known::{Access, Carried, Known, Stretch};
use occ_check_lines::numbers::Numbers;
use occ_check_lines::operators::is_same_type;
use occ_check_lines::overlap::some_overlap;
use occ_check_lines::types::are_same_sizes;
use occ_held::Held;
use occ_held::letters::Letters;
use occ_term::{Primitive, Protocol};
use occ_tree_grammar::tree::expr::{Expr, Operand};
use occ_tree_grammar::tree::line::OneOrMore;
use std::alloc::Global;

/// An actual of a formal that wants no value: a name, with its subscripts.
fn as_named(line: u32, e: &Expr) -> Result<(&Letters, &[Expr]), CheckFault>
    ensures { Gives name_with result (meant.as_named (tree_of e.now)) }
{
    match e {
        Expr::Operand(operand) => named_operand(line, operand),
        _ => Err(CheckFault::Arguments { line }),
    }
}

fn named_operand(line: u32, operand: &Operand) -> Result<(&Letters, &[Expr]), CheckFault>
    ensures { Gives name_with result (meant.as_named (alone (operand_of operand.now))) }
{
    match operand {
        Operand::Variable(name, subscripts) => Ok((name, subscripts)),
        _ => Err(CheckFault::Arguments { line }),
    }
}

/// A name that may be assigned to: its type, and where it lies. A channel is the wrong argument here.
fn given_variable(line: u32, known: &Known) -> Result<(Primitive, &Stretch), CheckFault>
    ensures { Gives variable_known result (items.as_variable (known_of known.now)) }
{
    match known {
        Known::Cells(Access::Assignable, primitive, stretch) => Ok((*primitive, stretch)),
        Known::Channels(_, _) => Err(CheckFault::Arguments { line }),
        _ => Err(CheckFault::WrongKind { line }),
    }
}

/// A channel's name: what it carries, and where it lies. Variables and values are wrong arguments here.
fn given_channels(line: u32, known: &Known) -> Result<(&Carried, &Stretch), CheckFault>
    ensures { Gives channels_known result (items.as_channels (known_of known.now)) }
{
    match known {
        Known::Channels(carried, stretch) => Ok((carried, stretch)),
        Known::Protocol(_) => Err(CheckFault::WrongKind { line }),
        _ => Err(CheckFault::Arguments { line }),
    }
}

/// What a variable that is given to a formal stands for there.
fn variable_given(
    alloc: Global,
    line: u32,
    name: &Letters,
    sizes: &[Option<u32>],
    primitive: Primitive,
    own: Primitive,
    stretch: &Stretch,
    given: Given,
) -> Result<Opened, CheckFault>
    ensures { OpensGiven result given
        (variable_bound name.now sizes.now primitive own stretch.now) }
{
    if is_same_type(own, primitive) && takes_sizes(sizes, given.left.as_slice()) {
        let Given {
            subscripts,
            left,
            heads,
        } = given;
        let stretch = part_of(alloc, stretch, subscripts, left)?;
        let known = Known::Cells(Access::Assignable, own, stretch);
        Ok(Opened::one_behind(alloc, name, known, heads)?)
    } else {
        Err(CheckFault::Arguments { line })
    }
}

/// What channels that are given to a formal stand for there.
fn channels_given(
    alloc: Global,
    line: u32,
    name: &Letters,
    sizes: &[Option<u32>],
    carried: &Carried,
    own: &Carried,
    stretch: &Stretch,
    given: Given,
) -> Result<Opened, CheckFault>
    ensures { OpensGiven result given
        (channels_bound name.now sizes.now carried.now own.now stretch.now) }
{
    if is_same_carried(carried, own) && takes_sizes(sizes, given.left.as_slice()) {
        let Given {
            subscripts,
            left,
            heads,
        } = given;
        let stretch = part_of(alloc, stretch, subscripts, left)?;
        let known = Known::Channels(own.copy(alloc)?, stretch);
        Ok(Opened::one_behind(alloc, name, known, heads)?)
    } else {
        Err(CheckFault::Arguments { line })
    }
}

/// Whether two channels carry the same: a protocol with a name is only itself.
fn is_same_carried(a: &Carried, b: &Carried) -> bool
    ensures { result ≡ meant.is_same_carried (carried_of a.now) (carried_of b.now) }
{
    match (a.declared, b.declared) {
        (None, None) => is_same_protocol(&a.protocol, &b.protocol),
        (Some(m), Some(n)) => m == n,
        _ => false,
    }
}

fn is_same_protocol(a: &Protocol, b: &Protocol) -> bool
    ensures { result ≡ meant.is_same_protocol a.now b.now }
{
    match (a, b) {
        (Protocol::Simple(sizes, primitive), Protocol::Simple(others, other)) => {
            is_same_type(*other, *primitive) && are_same_sizes(others.as_slice(), sizes.as_slice())
        }
        (Protocol::CountedArray(count, primitive), Protocol::CountedArray(own, other)) => {
            is_same_type(*own, *count) && is_same_type(*other, *primitive)
        }
        _ => false,
    }
}

/// What a formal stands for that wants a value.
fn value_actual(
    numbers: &mut Numbers,
    context: Context<'_, '_>,
    depth: u32,
    name: &Letters,
    sizes: &[Option<u32>],
    primitive: Primitive,
    e: &Expr,
) -> Result<Opened, CheckFault>
    ensures { GetsValue result context.entry numbers.old numbers.new depth name.now sizes.now
        primitive e.now }
{
    let value = Held::new(typed(context, e)?);
    if has_type(sizes, primitive, &value.value) {
        name_value(
            numbers,
            context.alloc,
            context.line,
            depth,
            name,
            value.into_inner(),
        )
    } else {
        Err(CheckFault::Arguments { line: context.line })
    }
}

/// What a formal stands for that wants a variable.
fn variable_actual(
    numbers: &mut Numbers,
    context: Context<'_, '_>,
    depth: u32,
    name: &Letters,
    sizes: &[Option<u32>],
    primitive: Primitive,
    e: &Expr,
) -> Result<Opened, CheckFault>
    ensures { GetsVariable result context.entry numbers.old numbers.new depth name.now sizes.now
        primitive e.now }
{
    let (x, es) = as_named(context.line, e)?;
    let known = known_name(context, x)?;
    let (own, stretch) = given_variable(context.line, known)?;
    let under = typed_subscripts(context, es)?;
    stretch.left.few();
    let given = all_evaluated(
        numbers,
        context.alloc,
        context.line,
        depth,
        name,
        under,
        stretch.left.as_slice(),
    )?;
    variable_given(
        context.alloc,
        context.line,
        name,
        sizes,
        primitive,
        own,
        stretch,
        given,
    )
}

/// What a formal stands for that wants channels.
fn channels_actual(
    numbers: &mut Numbers,
    context: Context<'_, '_>,
    depth: u32,
    name: &Letters,
    sizes: &[Option<u32>],
    carried: &Carried,
    e: &Expr,
) -> Result<Opened, CheckFault>
    ensures { GetsChannels result context.entry numbers.old numbers.new depth name.now sizes.now
        carried.now e.now }
{
    let (x, es) = as_named(context.line, e)?;
    let known = known_name(context, x)?;
    let (own, stretch) = given_channels(context.line, known)?;
    let under = typed_subscripts(context, es)?;
    stretch.left.few();
    let given = all_evaluated(
        numbers,
        context.alloc,
        context.line,
        depth,
        name,
        under,
        stretch.left.as_slice(),
    )?;
    channels_given(
        context.alloc,
        context.line,
        name,
        sizes,
        carried,
        own,
        stretch,
        given,
    )
}

/// What a formal stands for under its actual.
fn actual_of(
    numbers: &mut Numbers,
    context: Context<'_, '_>,
    depth: u32,
    formal: &WantedFormal,
    e: &Expr,
) -> Result<Opened, CheckFault>
    ensures { Opens result numbers.new
        (actual_in context.entry depth formal.now e.now numbers.old) }
{
    let name = &formal.name;
    match &formal.wanted {
        Wanted::Value(sizes, primitive) => {
            let sizes = sizes.as_slice();
            value_actual(numbers, context, depth, name, sizes, *primitive, e)
        }
        Wanted::Variable(sizes, primitive) => {
            let sizes = sizes.as_slice();
            variable_actual(numbers, context, depth, name, sizes, *primitive, e)
        }
        Wanted::Channels(sizes, carried) => {
            let sizes = sizes.as_slice();
            channels_actual(numbers, context, depth, name, sizes, carried, e)
        }
    }
}

fn all_actuals(
    numbers: &mut Numbers,
    context: Context<'_, '_>,
    depth: u32,
    formals: &[WantedFormal],
    actuals: &[Expr],
) -> Result<Opened, CheckFault>
    ensures { Opens result numbers.new
        (all_actuals_in context.entry depth formals.now actuals.now numbers.old) }
{
    let mut opened = Opened::new(context.alloc);
    let mut others = actuals;
    for formal in formals {
        let Some((e, rest)) = others.split_first() else {
            return Err(CheckFault::Arguments { line: context.line });
        };
        let one = actual_of(numbers, context, depth, formal, e)?;
        opened.append(one)?;
        others = rest;
    }
    if others.is_empty() {
        Ok(opened)
    } else {
        Err(CheckFault::Arguments { line: context.line })
    }
}

/// What the formals stand for under all actuals of a call.
fn actuals_of(
    numbers: &mut Numbers,
    context: Context<'_, '_>,
    depth: u32,
    formals: &[WantedFormal],
    actuals: &Option<OneOrMore<Expr>>,
) -> Result<Opened, CheckFault>
    ensures { Opens result numbers.new
        (actuals_in context.entry depth formals.now actuals.now numbers.old) }
{
    match actuals {
        None => all_actuals(numbers, context, depth, formals, &[]),
        Some(actuals) => some_actuals(numbers, context, depth, formals, actuals),
    }
}

fn some_actuals(
    numbers: &mut Numbers,
    context: Context<'_, '_>,
    depth: u32,
    formals: &[WantedFormal],
    actuals: &OneOrMore<Expr>,
) -> Result<Opened, CheckFault>
    ensures { Opens result numbers.new
        (some_actuals_in context.entry depth formals.now actuals.now numbers.old) }
{
    let Some((formal, rest)) = formals.split_first() else {
        return Err(CheckFault::Arguments { line: context.line });
    };
    let mut opened = actual_of(numbers, context, depth, formal, &actuals.first)?;
    let others = all_actuals(numbers, context, depth, rest, &actuals.others)?;
    opened.append(others)?;
    Ok(opened)
}

/// What the formals of a call stand for under its actuals, in the caller's scope. The Locals stand at this depth.
///
/// # Errors
///
/// `Arguments` for an actual that does not fit its formal, or where there are more of the one, `Overlap` for two
/// reference actuals that share a cell, `Unknown`, `WrongKind`, `WrongType` and `Subscript` as in expressions,
/// `TooLarge` for too many cells or nodes, and `Memory`.
pub fn bound(
    numbers: &mut Numbers,
    context: Context<'_, '_>,
    depth: u32,
    formals: &[WantedFormal],
    actuals: &Option<OneOrMore<Expr>>,
) -> Result<Opened, CheckFault>
    ensures { Opens result numbers.new
        (bound_in context.entry depth formals.now actuals.now numbers.old) }
{
    let opened = actuals_of(numbers, context, depth, formals, actuals)?;
    if some_overlap(context.alloc, &opened.names)? {
        Err(CheckFault::Overlap { line: context.line })
    } else {
        Ok(opened)
    }
}
