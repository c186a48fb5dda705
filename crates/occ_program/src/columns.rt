//! Refuses words that name no column of a chart.
ghost use Rattle.std.specs.Prelude.{◌≡◌, ◌⊎◌, [], IfErr, Ok};
ghost use Rattle.occ_play_inputs.specs.Failures.{failure_status};
ghost use Rattle.occ_play_inputs.specs.declared.failure.Failure.{Failure};

use crate::program::options_of;
use occ_explaining::{Studied, nameless, study};
use occ_play_inputs::{Failure, Inputs, Words, nameless as refusal_of};
use std::alloc::Global;

/// Refuses a word that gives a column to no process of the source, or takes it from none, before anything is played. Where the source is
/// refused, the run tells that.
pub(crate) fn check_columns(
    alloc: Global,
    words: &Words<'_>,
    inputs: &Inputs,
) -> Result<(), Failure>
    ensures unasked { words.now.only.items ≡ [] → words.now.without.items ≡ [] → result ≡ Ok tt }
    ensures refused { IfErr result
        (λ failure. (failure_status failure ≡ 7) ⊎ (failure ≡ Failure.Memory)) }
{
    if words.only.is_empty() && words.without.is_empty() {
        return Ok(());
    }
    match study(&options_of(words), alloc, inputs.source.as_slice()) {
        Ok(studied) => check_words(alloc, words, &studied),
        Err(_) => Ok(()),
    }
}

/// Refuses such a word, by what is known of the source.
fn check_words(alloc: Global, words: &Words<'_>, studied: &Studied) -> Result<(), Failure>
    ensures { IfErr result
        (λ failure. (failure_status failure ≡ 7) ⊎ (failure ≡ Failure.Memory)) }
{
    if let Some(word) = nameless(studied, alloc, words.only.as_slice())? {
        return Err(refusal_of(alloc, word));
    }
    if let Some(word) = nameless(studied, alloc, words.without.as_slice())? {
        return Err(refusal_of(alloc, word));
    }
    Ok(())
}
