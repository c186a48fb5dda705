//! Tries the seeds that the words ask for.
ghost use Rattle.std.specs.Prelude.{◌≡◌, ◌≢◌, ◌+◌, ◌-◌, ◌^◌, ◌≤◌, ◌<◌, IfOk, IfSome, IsFalse, IsTrue, OnOk};
ghost use Rattle.occ_term.specs.declared.ending.Ending.TheVariants.{Ended};
ghost use Rattle.occ_choices.specs.Plans.{choices_of};
ghost use Rattle.occ_play_inputs.specs.Asked.{IsAskedBy, IsSeeded};
ghost use Rattle.occ_program.specs.Coming.{IsTriedBy, IsTriedFrom, IsTriedIn, TriesFrom};
ghost use Rattle.occ_program.specs.Trying.{IsTriedSeed, RefusesWith1, TellsEnd, TellsSeed, seed_line};
ghost use Rattle.occ_play_inputs.specs.Seeds.{seeded};
ghost use Rattle.occ_shown.specs.Counting.{failures_of};

use crate::program::options_of;
use occ_choices::Plan;
use occ_play::{Ending, Options, PlayFault, Played, play_in, status_of_fault};
use occ_play_inputs::{Failure, Inputs, Words, seeded_plan};
use occ_shown::Counted;
use std::alloc::{AllocError, Global};
use std::io::Write;

/// Puts the choices of the first seed by which the run doesn't end into the plan, where the words name a seed; those of the last
/// one that they allow where it always does. Answers that seed; none where the source is refused.
pub(crate) fn take_seed(
    alloc: Global,
    words: &Words<'_>,
    inputs: &mut Inputs,
) -> Result<Option<u32>, Failure>
    requires { IsAskedBy words.now inputs.old.plan }
    ensures asked { OnOk result (IsAskedBy words.now inputs.new.plan) }
    ensures source { inputs.new.source ≡ inputs.old.source }
    ensures keyboard { inputs.new.keyboard ≡ inputs.old.keyboard }
    ensures tried { OnOk result (IsTriedBy words.now
        inputs.new.source.items inputs.new.keyboard.items inputs.new.plan) }
    ensures seed { IfOk result (λ found. IfSome found (IsTriedIn words.now inputs.new)) }
{
    match (words.choices, words.seed) {
        (None, Some(first)) => take_seed_from(alloc, words, inputs, first),
        (None, None) | (Some(_), _) => Ok(None),
    }
}

/// Puts the choices of a seed into the plan, of those that are tried from this one on. A source that is refused is refused by
/// whichever choices.
fn take_seed_from(
    alloc: Global,
    words: &Words<'_>,
    inputs: &mut Inputs,
    first: u32,
) -> Result<Option<u32>, Failure>
    requires { first ≤ 1000000000 }
    ensures seeded { OnOk result (IsSeeded words.now.limit first words.now.tries inputs.new.plan) }
    ensures tried { OnOk result (TriesFrom words.now first inputs.new) }
    ensures seed { IfOk result (λ found. IfSome found (IsTriedFrom words.now first inputs.new)) }
    ensures source { inputs.new.source ≡ inputs.old.source }
    ensures keyboard { inputs.new.keyboard ≡ inputs.old.keyboard }
{
    let tried = tried_seed(
        &options_of(words),
        alloc,
        inputs.source.as_slice(),
        inputs.keyboard.as_slice(),
        words.limit,
        first,
        words.tries,
    );
    match tried {
        Ok(seed) => {
            plan_seed(alloc, words.limit, inputs, seed)?;
            Ok(Some(seed))
        }
        Err(fault) if status_of_fault(&fault) == 1 => {
            plan_seed(alloc, words.limit, inputs, first)?;
            Ok(None)
        }
        Err(_) => Err(Failure::Memory),
    }
}

/// Puts the choices of this seed into the plan.
fn plan_seed(alloc: Global, limit: u32, inputs: &mut Inputs, seed: u32) -> Result<(), Failure>
    ensures planned { OnOk result (choices_of inputs.new.plan ≡ seeded seed limit) }
    ensures source { inputs.new.source ≡ inputs.old.source }
    ensures keyboard { inputs.new.keyboard ≡ inputs.old.keyboard }
{
    let plan = seeded_plan(alloc, seed, limit)?;
    inputs.plan = plan;
    Ok(())
}

/// The first of so many seeds, from this one on, by whose choices a run of the source doesn't end; the last of them where each of
/// the others ends.
fn tried_seed(
    options: &Options,
    alloc: Global,
    source: &[u8],
    keyboard: &[u8],
    limit: u32,
    first: u32,
    tries: u32,
) -> Result<u32, PlayFault>
    requires some { 1 ≤ tries }
    requires few { first + tries < 4294967296 }
    ensures tried { IfOk result (IsTriedSeed options.now source.now keyboard.now limit first tries) }
    ensures refused { RefusesWith1 result options.now source.now }
{
    let last = tries - 1;
    for place in 0..last {
        let ends = ends_by(options, alloc, source, keyboard, limit, first + place)?;
        if !ends {
            return Ok(first + place);
        }
    }
    Ok(first + last)
}

/// Whether the run by the choices of this seed ends.
fn ends_by(
    options: &Options,
    alloc: Global,
    source: &[u8],
    keyboard: &[u8],
    limit: u32,
    seed: u32,
) -> Result<bool, PlayFault>
    ensures ends { TellsEnd result options.now source.now keyboard.now (seeded seed limit) }
    ensures refused { RefusesWith1 result options.now source.now }
{
    let plan = seeded_plan(alloc, seed, limit)?;
    let mut answer = Vec::new(alloc);
    let mut out = Counted::new(&mut answer);
    ends_on(options, alloc, source, keyboard, &plan, &mut out)
}

/// Whether the run by this plan ends.
fn ends_on<W: Write>(
    options: &Options,
    alloc: Global,
    source: &[u8],
    keyboard: &[u8],
    plan: &Plan,
    out: &mut Counted<W>,
) -> Result<bool, PlayFault>
    requires room { failures_of out.old < 2 ^ 64 - 1 }
    ensures ends { TellsEnd result options.now source.now keyboard.now (choices_of plan.now) }
    ensures refused { RefusesWith1 result options.now source.now }
{
    match play_in(options, alloc, source, keyboard, plan, false, out) {
        Ok(played) => Ok(has_ended(&played)),
        Err(fault) => Err(fault),
    }
}

fn has_ended(played: &Played) -> bool
    ensures ends { IsTrue result → played.now.ending ≡ Ended }
    ensures other { IsFalse result → played.now.ending ≢ Ended }
{
    played.ending == Ending::Ended
}

/// What is told of the seed that was tried last, where there are several and the run by it does not end; else nothing is.
pub(crate) fn seed_told(
    alloc: Global,
    words: &Words<'_>,
    seed: Option<u32>,
    came: &Result<Played, PlayFault>,
) -> Option<Vec<u8>>
    ensures { IfSome result (λ text. TellsSeed words.now.tries seed came.now text.items) }
{
    let (Some(seed), Ok(played)) = (seed, came) else {
        return None;
    };
    if words.tries == 1 || has_ended(played) {
        return None;
    }
    match seed_line(alloc, seed) {
        Ok(text) => Some(text),
        Err(_) => None,
    }
}

/// The line of a seed.
fn seed_line(alloc: Global, seed: u32) -> Result<Vec<u8>, AllocError>
    ensures { IfOk result (λ text. text.items ≡ seed_line seed) }
{
    let text = format!(in alloc; "seed {seed}: the first one by which the run does not end\n")?;
    Ok(text.into_bytes())
}
