//! What the formals of a procedure want.

ghost use Rattle.std.specs.Prelude.{◌≡◌, IfOk};
ghost use Rattle.occ_tree_grammar.specs.Lines.Views as lines;
ghost use Rattle.occ_check_meaning.specs.Calls as meant;
ghost use Rattle.occ_check_lines.specs.View.{Gives};
ghost use Rattle.occ_check.specs.Call.{all_formals, formal_of, formals_in, formals_of, listed_formals_in, named_formal, wanted_in, wanted_of, following_spec, other_formals_in, some_formals_in, wants_channels_in, wants_value_in, wants_variable_in};

use occ_check_lines::context::Context;
use occ_check_lines::declaration::once;
use occ_check_lines::fault::CheckFault;
use occ_check_lines::known::Carried;
use occ_check_lines::operators::primitive_of;
use occ_check_lines::types::{carried_by, open_sizes_of};
use occ_held::letters::Letters;
use occ_term::Primitive;
use occ_tree_grammar::tree::line::{Carried as CarriedTree, Formal, Formals, Size, Spec};
use sqlite_items::Items;
use std::alloc::{AllocError, Global};

/// What a formal wants, with its sizes, where none stands for any size.
pub enum Wanted {
    /// A value of the type.
    Value(Items<Option<u32>>, Primitive),
    /// A variable of the type.
    Variable(Items<Option<u32>>, Primitive),
    /// Channels that carry this.
    Channels(Items<Option<u32>>, Carried),
}

impl Drop for Wanted {
    fn drop(self) {
        match self {
            Wanted::Value(_, _) => {}
            Wanted::Variable(_, _) => {}
            Wanted::Channels(_, _) => {}
        }
    }
}

/// A formal, and what it wants.
pub struct WantedFormal {
    /// The name.
    pub name: Letters,
    /// What it wants.
    pub wanted: Wanted,
}

impl Drop for WantedFormal {
    fn drop(self) {
        let WantedFormal { name: _, wanted: _ } = self;
    }
}

/// What a formal of this spec wants.
fn wanted_by(context: Context<'_, '_>, spec: &Spec) -> Result<Wanted, CheckFault>
    ensures { Gives wanted_of result (wanted_in context.entry spec.now) }
{
    match spec {
        Spec::Value(value_type) => {
            let primitive = primitive_of(value_type.of);
            value_wanted(context, &value_type.sizes, primitive)
        }
        Spec::Variable(value_type) => {
            let primitive = primitive_of(value_type.of);
            variable_wanted(context, &value_type.sizes, primitive)
        }
        Spec::Channel(sizes, carried) => channels_wanted(context, sizes, carried),
    }
}

fn value_wanted(
    context: Context<'_, '_>,
    sizes: &[Size],
    primitive: Primitive,
) -> Result<Wanted, CheckFault>
    ensures { Gives wanted_of result (wants_value_in context.entry sizes.now primitive) }
{
    let sizes = open_sizes_of(context, sizes)?;
    Ok(Wanted::Value(sizes, primitive))
}

fn variable_wanted(
    context: Context<'_, '_>,
    sizes: &[Size],
    primitive: Primitive,
) -> Result<Wanted, CheckFault>
    ensures { Gives wanted_of result (wants_variable_in context.entry sizes.now primitive) }
{
    let sizes = open_sizes_of(context, sizes)?;
    Ok(Wanted::Variable(sizes, primitive))
}

fn channels_wanted(
    context: Context<'_, '_>,
    sizes: &[Size],
    carried: &CarriedTree,
) -> Result<Wanted, CheckFault>
    ensures { Gives wanted_of result (wants_channels_in context.entry sizes.now carried.now) }
{
    let sizes = open_sizes_of(context, sizes)?;
    let carried = carried_by(context, carried)?;
    Ok(Wanted::Channels(sizes, carried))
}

/// What the formals of a procedure want, under the names in the scope of its declaration. They are looked at where the
/// procedure is called.
///
/// # Errors
///
/// As `open_sizes_of` and `carried_by`, `Twice` for a name that stands twice, and `Memory`.
pub fn formals_of(
    context: Context<'_, '_>,
    formals: &Option<Box<Formals>>,
) -> Result<Vec<WantedFormal>, CheckFault>
    ensures { Gives all_formals result (formals_in context.entry formals.now) }
{
    match formals {
        None => Ok(Vec::new(context.alloc)),
        Some(formals) => some_formals(context, formals),
    }
}

fn some_formals(
    context: Context<'_, '_>,
    formals: &Formals,
) -> Result<Vec<WantedFormal>, CheckFault>
    ensures { Gives all_formals result (some_formals_in context.entry formals.now) }
{
    let all = listed_formals(context, formals)?;
    let names = formal_names(context.alloc, &all)?;
    once(context.alloc, context.line, names.as_slice())?;
    Ok(all)
}

fn formal_names(alloc: Global, formals: &[WantedFormal]) -> Result<Items<Letters>, AllocError>
    ensures { IfOk result (λ names. names ≡ meant.formal_names (formals_of formals.now)) }
{
    let mut names = Items::new(alloc);
    for formal in formals {
        names.push(formal.name.copy()?)?;
    }
    Ok(names)
}

fn listed_formals(
    context: Context<'_, '_>,
    formals: &Formals,
) -> Result<Vec<WantedFormal>, CheckFault>
    ensures { Gives all_formals result (listed_formals_in context.entry formals.now) }
{
    let first = wanted_formal(context, &formals.spec, &formals.name)?;
    let mut others = other_formals(context, &formals.spec, &formals.others)?;
    let mut all = Vec::new(context.alloc);
    all.push(first)?;
    all.append(&mut others)?;
    Ok(all)
}

fn wanted_formal(
    context: Context<'_, '_>,
    spec: &Spec,
    name: &Letters,
) -> Result<WantedFormal, CheckFault>
    ensures { Gives formal_of result (named_formal name.now (wanted_in context.entry spec.now)) }
{
    let wanted = wanted_by(context, spec)?;
    let name = name.copy()?;
    Ok(WantedFormal { name, wanted })
}

/// The formals after one with this spec, which is that of those that have none of their own.
fn other_formals(
    context: Context<'_, '_>,
    spec: &Spec,
    formals: &[Formal],
) -> Result<Vec<WantedFormal>, CheckFault>
    ensures { Gives all_formals result (other_formals_in context.entry spec.now formals.now) }
{
    let mut all = Vec::new(context.alloc);
    let mut before = spec;
    for formal in formals {
        before = spec_after(before, &formal.spec);
        let one = wanted_formal(context, before, &formal.name)?;
        all.push(one)?;
    }
    Ok(all)
}

/// The spec of a formal behind one of this spec.
pub fn spec_after<'a>(before: &'a Spec, own: &'a Option<Spec>) -> &'a Spec
    ensures { lines.spec_of result.now ≡ following_spec before.now own.now }
{
    match own {
        None => before,
        Some(spec) => spec,
    }
}
