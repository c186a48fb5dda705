//! Tells what each process stands at where an answer of a search has not ended.
ghost use Rattle.std.specs.Prelude.{codes, ◌≡◌, ◌<◌, IfOk, IsFalse, IsTrue, ◌⊎◌, ◌≢◌, length};
ghost use Rattle.occ_term.specs.declared.ending.Ending.TheVariants.{Ended};
ghost use Rattle.occ_explaining.specs.Studied.{IsStudied};
ghost use Rattle.occ_program.specs.Coming.{options_in};
ghost use Rattle.occ_program.specs.Explained.{EndsLike, IfTold, IsReported, NoneEnds, SomeEnds, TellsAnswers, TellsAt, TellsWait, answer_head, below_ending};

use crate::explaining::{print_told, run_report, studied_of};
use occ_explaining::Studied;
use occ_exploring::{Answer, Waiting};
use occ_play::Ending;
use occ_play_inputs::{Inputs, Words};
use std::alloc::{AllocError, Global};

/// Prints, where the words ask for it, the report of the first of these answers with each ending but that of a whole run, and of
/// stops the first of each kind. Where memory runs out for that, `memory` is printed.
pub(crate) fn explain_answers<R: Eprint>(
    rt: &R,
    alloc: Global,
    words: &Words<'_>,
    inputs: &Inputs,
    answers: &[Answer],
) {
    if words.explain {
        let told = answers_told(alloc, words, inputs, answers);
        print_told(rt, alloc, words, told);
    }
}

/// Prints, where the words ask for it, the report of the state where these wait for good, if some do. Where memory runs out for that,
/// `memory` is printed.
pub(crate) fn explain_waiting<R: Eprint>(
    rt: &R,
    alloc: Global,
    words: &Words<'_>,
    inputs: &Inputs,
    waiting: &Option<Waiting>,
) {
    if words.explain
        && let Some(waiting) = waiting
    {
        let told = waiting_told(alloc, words, inputs, waiting);
        print_told(rt, alloc, words, told);
    }
}

/// What is told of those that wait for good.
fn waiting_told(
    alloc: Global,
    words: &Words<'_>,
    inputs: &Inputs,
    waiting: &Waiting,
) -> Result<Option<Vec<u8>>, AllocError>
    ensures { IfOk result (IfTold (TellsWait words.now inputs.now waiting.now)) }
{
    let studied = studied_of(alloc, words, inputs)?;
    let text = waiting_report(alloc, words, inputs, &studied, waiting)?;
    Ok(Some(text))
}

/// What stands above the report of a state where some wait for good.
fn waiting_head(alloc: Global) -> Result<Vec<u8>, AllocError>
    ensures { IfOk result (λ head. head.items ≡ codes "while others go on:\n") }
{
    Vec::from_slice(alloc, b"while others go on:\n")
}

/// That, and the report of the run by their choices.
fn waiting_report(
    alloc: Global,
    words: &Words<'_>,
    inputs: &Inputs,
    studied: &Studied,
    waiting: &Waiting,
) -> Result<Vec<u8>, AllocError>
    requires { IsStudied (options_in words.now) inputs.now.source.items studied.now }
    ensures { IfOk result (λ text. TellsWait words.now inputs.now waiting.now text.items) }
{
    let mut text = waiting_head(alloc)?;
    let report = run_report(alloc, words, inputs, studied, waiting.choices.as_slice())?;
    text.extend_from_slice(report.as_slice())?;
    Ok(text)
}

/// What is told of these answers.
fn answers_told(
    alloc: Global,
    words: &Words<'_>,
    inputs: &Inputs,
    answers: &[Answer],
) -> Result<Option<Vec<u8>>, AllocError>
    ensures { IfOk result (IfTold (TellsAnswers words.now inputs.now answers.now)) }
{
    let studied = studied_of(alloc, words, inputs)?;
    let mut text = Vec::new(alloc);
    for place in 0..answers.len() {
        let part = told_at(alloc, words, inputs, &studied, answers, place)?;
        text.extend_from_slice(part.as_slice())?;
    }
    Ok(Some(text))
}

/// What is told of the answer at this place, from 0.
fn told_at(
    alloc: Global,
    words: &Words<'_>,
    inputs: &Inputs,
    studied: &Studied,
    answers: &[Answer],
    place: usize,
) -> Result<Vec<u8>, AllocError>
    requires studied { IsStudied (options_in words.now) inputs.now.source.items studied.now }
    requires place { place < length answers.now }
    ensures { IfOk result (λ text. TellsAt words.now inputs.now answers.now place text.items) }
{
    let answer = &answers[place];
    if is_new(&answers[..place], answer) {
        reported(alloc, words, inputs, studied, place + 1, answer)
    } else {
        Ok(Vec::new(alloc))
    }
}

/// Whether an answer is that of no whole run, and none of these ends like it.
fn is_new(before: &[Answer], answer: &Answer) -> bool
    ensures new { IsTrue result → (answer.now.ending ≢ Ended) × NoneEnds before.now answer.now }
    ensures old { IsFalse result → (answer.now.ending ≡ Ended) ⊎ SomeEnds before.now answer.now }
{
    answer.ending != Ending::Ended && none_ends(before, answer)
}

/// Whether both have one ending, by stops of one kind.
fn ends_like(answer: &Answer, like: &Answer) -> bool
    ensures yes { IsTrue result → EndsLike answer.now like.now }
    ensures no { IsFalse result → EndsLike answer.now like.now → ⊥ }
{
    answer.ending == like.ending && answer.kind == like.kind
}

/// Whether none of these answers ends like it.
fn none_ends(answers: &[Answer], like: &Answer) -> bool
    ensures none { IsTrue result → NoneEnds answers.now like.now }
    ensures some { IsFalse result → SomeEnds answers.now like.now }
{
    for answer in answers {
        if ends_like(answer, like) {
            return false;
        }
    }
    true
}

/// The number of an answer, its ending, and the report of the run by its choices.
fn reported(
    alloc: Global,
    words: &Words<'_>,
    inputs: &Inputs,
    studied: &Studied,
    number: usize,
    answer: &Answer,
) -> Result<Vec<u8>, AllocError>
    requires { IsStudied (options_in words.now) inputs.now.source.items studied.now }
    ensures { IfOk result (λ text. IsReported words.now inputs.now number answer.now text.items) }
{
    let mut text = answer_head(alloc, number, answer.ending)?;
    let report = run_report(alloc, words, inputs, studied, answer.choices.as_slice())?;
    text.extend_from_slice(report.as_slice())?;
    Ok(text)
}

/// What stands between an ending and its report: the report of a stop begins with its kind.
fn below_ending(ending: Ending) -> &'static str
    ensures { result.now ≡ below_ending ending }
{
    match ending {
        Ending::Stopped | Ending::StoppedBy(_) => ", ",
        Ending::Ended | Ending::Fault(_) | Ending::Limit => ":\n",
    }
}

/// The number and the ending of an answer.
fn answer_head(alloc: Global, number: usize, ending: Ending) -> Result<Vec<u8>, AllocError>
    ensures { IfOk result (λ head. head.items ≡ answer_head number ending) }
{
    let below = below_ending(ending);
    let head = format!(in alloc; "{number} {ending}{below}")?;
    Ok(head.into_bytes())
}
