//! Choices that are made from a seed.
ghost use Rattle.std.specs.Prelude.{◌≡◌, IfOk};
ghost use Rattle.occ_choices.specs.Plans.{choices_of};
ghost use Rattle.occ_play_inputs.specs.Seeds.{number_after, seeded};

use occ_choices::Plan;
use occ_net_replay::Choice;
use std::alloc::{AllocError, Global};

/// The number behind this one, of those that are made one from the other.
fn number_after(number: u32) -> u32
    ensures { result ≡ number_after number }
{
    ((u64::from(number) * 1_664_525 + 1_013_904_223) % 4_294_967_296) as u32
}

/// So many choices, made from this seed.
fn seeded_choices(alloc: Global, seed: u32, count: u32) -> Result<Vec<Choice>, AllocError>
    ensures { IfOk result (λ choices. choices.items ≡ seeded seed count) }
{
    let mut choices = Vec::new(alloc);
    let mut number = seed;
    for _ in 0..count {
        let which = number_after(number);
        let pick = number_after(which);
        choices.push(Choice {
            which: which / 65_536,
            pick: pick / 65_536,
        })?;
        number = pick;
    }
    Ok(choices)
}

/// The plan of so many choices that are made from this seed: of the numbers behind it the upper half of one is `which`, that of the
/// next `pick`, and so on.
///
/// # Errors
///
/// A refused growth.
pub fn seeded_plan(alloc: Global, seed: u32, limit: u32) -> Result<Plan, AllocError>
    ensures { IfOk result (λ plan. choices_of plan ≡ seeded seed limit) }
{
    let choices = seeded_choices(alloc, seed, limit)?;
    Ok(Plan::Choices(choices))
}
