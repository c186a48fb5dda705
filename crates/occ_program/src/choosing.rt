//! Tells where a file of choices may be that of another program.
ghost use Rattle.std.specs.Prelude.{◌≡◌, IfOk};
ghost use Rattle.occ_program.specs.Explained.{IfTold, TellsPast, past_text};

use crate::explaining::{print_told, studied_of};
use occ_explaining::past_of;
use occ_files::printed_name;
use occ_net_replay::Choice;
use occ_play::{PlayFault, Played};
use occ_play_inputs::{Inputs, Words};
use std::alloc::{AllocError, Global};

/// Prints, where a file of choices was played, which of its choices names none of the processes that were ready, if one does. Choices
/// that are made from a seed do so from the first one on, and those of a run without choices count the turns: nothing is printed of
/// either.
pub(crate) fn explain_choices<R: Eprint>(
    rt: &R,
    alloc: Global,
    words: &Words<'_>,
    inputs: &Inputs,
    came: &Result<Played, PlayFault>,
) {
    if words.explain
        && let (Some(path), Ok(played)) = (words.choices, came)
    {
        let told = told_past(alloc, words, inputs, path, played);
        print_told(rt, alloc, words, told);
    }
}

/// What is told of the choices that a run used, from a file of this path.
fn told_past(
    alloc: Global,
    words: &Words<'_>,
    inputs: &Inputs,
    path: &str,
    played: &Played,
) -> Result<Option<Vec<u8>>, AllocError>
    ensures { IfOk result
        (IfTold (TellsPast words.now inputs.now path.now played.now.choices.items)) }
{
    let studied = studied_of(alloc, words, inputs)?;
    let (keyboard, choices) = (inputs.keyboard.as_slice(), played.choices.as_slice());
    let Some(turn) = past_of(&studied, alloc, keyboard, choices)? else {
        return Ok(None);
    };
    if turn < 2 || counts_turns(choices, turn) {
        return Ok(None);
    }
    let text = past_text(alloc, path, turn)?;
    Ok(Some(text))
}

/// Whether the choice of a turn has the number of the turns before it, as in a run that was played without choices.
fn counts_turns(choices: &[Choice], turn: u64) -> bool {
    for place in 0..choices.len() {
        if place as u64 + 1 == turn {
            return u64::from(choices[place].which) == place as u64;
        }
    }
    false
}

/// The file, the line of the choice, and what it may mean.
fn past_text(alloc: Global, path: &str, turn: u64) -> Result<Vec<u8>, AllocError>
    ensures { IfOk result (λ text. text.items ≡ past_text path.now turn) }
{
    let mut text = printed_name(alloc, path.as_bytes())?;
    let told = format!(in alloc;
        ": line {turn} selects past the last ready process, so its number is taken modulo how many are ready; this may be the schedule of another program\n"
    )?;
    text.extend_from_slice(told.as_bytes())?;
    Ok(text)
}
