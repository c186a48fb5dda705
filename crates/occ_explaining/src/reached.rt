//! The PROCs that calls reach, by their names.
ghost use Rattle.std.specs.Prelude.{◌≡◌, IfOk, OnOk};
ghost use Rattle.occ_explaining.specs.Calls.{named};
ghost use Rattle.occ_explaining.specs.Passes.{AddsName, Begins, IsPass, Reaches};
ghost use Rattle.occ_explaining.specs.Reach.{among};

use crate::calls::Call;
use occ_held::letters::Letters;
use std::alloc::{AllocError, Global};
use std::collections::HashSet;

/// Whether this name is among those that are reached.
pub(crate) fn is_reached(reached: &HashSet<Letters>, name: &Letters) -> bool
    ensures { result ≡ among reached.now.keys name.now }
{
    reached.contains(name)
}

/// Adds a name to those that are reached.
fn reach(reached: &mut HashSet<Letters>, name: &Letters) -> Result<(), AllocError>
    ensures { OnOk result (AddsName reached.old.keys reached.new.keys name.now) }
{
    reached.insert(name.copy()?)?;
    Ok(())
}

/// Goes through calls, the last one first: what a PROC calls that is reached is reached too. Hands back the calls that stand in
/// others.
fn pass<'a>(
    alloc: Global,
    reached: &mut HashSet<Letters>,
    calls: &[Call<'a>],
) -> Result<Vec<Call<'a>>, AllocError>
    ensures { IfOk result (λ others.
        IsPass calls.now reached.old.keys reached.new.keys others.items) }
{
    let mut others = Vec::new(alloc);
    let mut at = calls.len();
    while at > 0 {
        at -= 1;
        let call = calls[at];
        if is_reached(reached, call.from) {
            reach(reached, call.to)?;
        } else {
            others.push(call)?;
        }
    }
    Ok(others)
}

/// The set that has this name alone, or none.
fn set_of(alloc: Global, main: Option<&Letters>) -> Result<HashSet<Letters>, AllocError>
    ensures { IfOk result (λ reached. Begins (named main.entry) reached.keys) }
{
    let mut reached = HashSet::new(alloc);
    if let Some(main) = main {
        reach(&mut reached, main)?;
    }
    Ok(reached)
}

/// The names of the PROCs that these calls reach from one of this name.
pub(crate) fn reached_from(
    alloc: Global,
    main: Option<&Letters>,
    calls: Vec<Call<'_>>,
) -> Result<HashSet<Letters>, AllocError>
    ensures { IfOk result (λ reached. Reaches main.entry calls.entry.items reached.keys) }
{
    let mut reached = set_of(alloc, main)?;
    let mut left = calls;
    loop {
        let others = pass(alloc, &mut reached, left.as_slice())?;
        if others.len() == left.len() {
            return Ok(reached);
        }
        left = others;
    }
}
