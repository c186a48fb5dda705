//! Tells what all lists of choices of a source come to.
ghost use Rattle.std.specs.Prelude.{[], ◌≡◌, ◌∷◌, ◌≤◌, ◌<◌, ◌-◌, ◌^◌, IfErr, IfOk, IsTrue, OnErr, OnOk, length, take};
ghost use Rattle.occ_exploring.specs.Alone.{only_status, only_text};
ghost use Rattle.occ_files.specs.Leaving.{AddsFiles, AddsSome, LeavesNothing};
ghost use Rattle.occ_files.specs.declared.reason.Reason.{Reason};
ghost use Rattle.occ_play_inputs.specs.Failures.{FailsToWrite, trouble};
ghost use Rattle.occ_play_inputs.specs.declared.failure.Failure.{Failure};
ghost use Rattle.occ_play_inputs.specs.declared.failure.Stream.TheVariants as stream;
ghost use Rattle.occ_program.specs.Coming.{IsSearchStatus, OnlyTo, Prints, SearchedTo, found_status, search_text};
ghost use Rattle.occ_program.specs.Pages.{AreRecorded, answer_file, answer_files, waiting_files, waiting_file};
ghost use Rattle.occ_play.specs.Status.{fault_status};
ghost use Rattle.occ_shown.specs.Counting.{failures_of};

use crate::counting::Counter;
use crate::explaining::explain_fault;
use crate::graphing::leave_graph;
use crate::page::write_text;
use crate::paging::show_answers;
use crate::program::{options_of, tell};
use crate::reading::read_inputs;
use crate::reporting::{explain_answers, explain_waiting};
use crate::troubles::answer_path;
use occ_choices::choices_text;
use occ_exploring::{
    Answer, Asked, Exploration, MOST_ANSWERS, Progress, Waiting, exploration_text, explore_in,
    only_answer_in, only_text, status_of_only, status_of_search, turns_within,
};
use occ_files::{Disk, Folder, Noting, Reason, are_one_file};
use occ_play::{Choice, PlayFault, status_of};
use occ_play_inputs::{Failure, Inputs, Stream, Trouble, Words};
use occ_shown::{Counted, write_answer};
use std::alloc::{AllocError, Global};
use std::io::{IsTerminal, Write};
use std::rt::Files;
use std::{io, slice};

/// What is told where a search doesn't know all states.
const UNDRAWN: &str = "the graph was not written: the search has not come to all states";

/// Tells what all lists of choices of the source that the words name come to: from one run, where that tells it, else by a
/// search. Where the words name a file to be written, the choices of each answer that is printed go into one of that name, the
/// answer's number and `choices`; those by which some come to wait for good have the number 0.
pub(crate) fn explore_words<R: Files + Input + Print + Eprint>(
    rt: &R,
    alloc: Global,
    words: &Words<'_>,
    asked: Asked,
    on_terminal: bool,
) -> Result<u8, Failure>
where
    R::Reader: IsTerminal,
    ensures came { IfOk result (IsSearchStatus words.now asked) }
    ensures small { IfOk result (λ status. status ≤ 7) }
{
    check_records(rt, alloc, words)?;
    let inputs = read_inputs(rt, alloc, words)?;
    explore_inputs(rt, alloc, words, asked, &inputs, on_terminal)
}

/// Tells what the lists of choices come to of what was read.
fn explore_inputs<R: Files + Print + Eprint>(
    rt: &R,
    alloc: Global,
    words: &Words<'_>,
    asked: Asked,
    inputs: &Inputs,
    on_terminal: bool,
) -> Result<u8, Failure>
    ensures came { IfOk result (IsSearchStatus words.now asked) }
    ensures small { IfOk result (λ status. status ≤ 7) }
{
    if words.graph.is_some() {
        return searched(rt, alloc, words, asked, inputs, on_terminal);
    }
    match only(alloc, words, inputs) {
        Ok(Some(answer)) => only_told(rt, alloc, words, asked, inputs, &answer),
        Ok(None) => searched(rt, alloc, words, asked, inputs, on_terminal),
        Err(fault) => Ok(refused(rt, alloc, words, inputs, fault)),
    }
}

/// Prints and records the one answer, explains it, and answers the exit status.
fn only_told<R: Files + Print + Eprint>(
    rt: &R,
    alloc: Global,
    words: &Words<'_>,
    asked: Asked,
    inputs: &Inputs,
    answer: &Answer,
) -> Result<u8, Failure>
    ensures { IfOk result (λ s. s ≡ only_status answer.now) }
{
    tell_only(rt, alloc, words, asked, answer)?;
    let mut folder = Disk::new(rt, alloc);
    show_answers(
        &mut folder,
        alloc,
        words,
        asked,
        inputs,
        slice::from_ref(answer),
    )?;
    explain_answers(rt, alloc, words, inputs, slice::from_ref(answer));
    Ok(status_of_only(answer))
}

/// Searches, prints and records what was found, explains it, and answers the exit status.
fn searched<R: Files + Print + Eprint>(
    rt: &R,
    alloc: Global,
    words: &Words<'_>,
    asked: Asked,
    inputs: &Inputs,
    on_terminal: bool,
) -> Result<u8, Failure>
    ensures came { IfOk result (IsSearchStatus words.now asked) }
    ensures small { IfOk result (λ status. status ≤ 7) }
{
    let mut counter = Counter::new(rt, alloc, Some(asked), on_terminal);
    let found = search(alloc, words, inputs, asked, &mut counter);
    counter.clear();
    tell_found(rt, alloc, words, asked, &found)?;
    show_found(rt, alloc, words, asked, inputs, &found)?;
    draw_found(rt, alloc, words, inputs, &found)?;
    explain_found(rt, alloc, words, inputs, &found);
    Ok(status_of_found(found))
}

/// Prints why the source was refused, and answers the exit status.
pub(crate) fn refused<R: Eprint>(
    rt: &R,
    alloc: Global,
    words: &Words<'_>,
    inputs: &Inputs,
    fault: PlayFault,
) -> u8
    ensures { result ≡ fault_status fault }
{
    tell(rt, &fault);
    explain_fault(
        rt,
        alloc,
        words,
        inputs.source.as_slice(),
        inputs.ends.as_slice(),
        &fault,
    );
    status_of(&Err(fault))
}

/// The one answer of a program without an ALT, where one run tells it.
fn only(alloc: Global, words: &Words<'_>, inputs: &Inputs) -> Result<Option<Answer>, PlayFault>
    ensures { OnlyTo words.now inputs.now.source.items inputs.now.keyboard.items result }
{
    only_answer_in(
        &options_of(words),
        alloc,
        inputs.source.as_slice(),
        inputs.keyboard.as_slice(),
        turns_within(words.states, words.memory),
    )
}

/// Prints the one answer, and records it as the words ask.
fn tell_only<R: Files + Print>(
    rt: &R,
    alloc: Global,
    words: &Words<'_>,
    asked: Asked,
    answer: &Answer,
) -> Result<(), Failure> {
    let mut screen = Noting::new(io::writer(rt));
    let printed = print_only(&mut Counted::new(&mut screen), alloc, asked, answer)?;
    check_printed(printed, screen.reason())?;
    let mut folder = Disk::new(rt, alloc);
    record_only(&mut folder, alloc, words, answer)
}

/// Refuses where standard output was not written, for this reason.
pub(crate) fn check_printed(printed: bool, reason: Reason) -> Result<(), Failure>
    ensures printed { OnOk result (IsTrue printed) }
    ensures failed { IfErr result (λ failure.
        failure ≡ Failure.Write (trouble stream.Output reason)) }
{
    if printed {
        return Ok(());
    }
    let stream = Stream::Output;
    Err(Failure::Write(Trouble { stream, reason }))
}

/// Prints the one answer, and says whether all of it was written.
fn print_only<W: Write>(
    out: &mut Counted<W>,
    alloc: Global,
    asked: Asked,
    answer: &Answer,
) -> Result<bool, AllocError>
    requires room { failures_of out.old < 2 ^ 64 - 1 }
    ensures { IfOk result (Prints W.contents (only_text asked answer.now) out.old out.new) }
{
    let text = only_text(alloc, asked, answer)?;
    Ok(write_answer(text.as_slice(), out).is_ok())
}

/// Writes the choices of the one answer into a file, where the words name one.
pub(crate) fn record_only<F: Folder>(
    folder: &mut F,
    alloc: Global,
    words: &Words<'_>,
    answer: &Answer,
) -> Result<(), Failure>
    ensures { AreRecorded words.now.«record» (answer.now ∷ []) (F.left folder.old)
        (F.left folder.new) result }
{
    match words.record {
        Some(stem) => record_answer(folder, alloc, stem, 1, answer.choices.as_slice()),
        None => Ok(()),
    }
}

/// Prints what a search has found and records it as the words ask, or prints why the source was refused.
fn tell_found<R: Files + Print + Eprint>(
    rt: &R,
    alloc: Global,
    words: &Words<'_>,
    asked: Asked,
    found: &Result<Exploration, PlayFault>,
) -> Result<(), Failure> {
    match found {
        Ok(exploration) => {
            let mut screen = Noting::new(io::writer(rt));
            let mut out = Counted::new(&mut screen);
            let printed = print_answers(&mut out, alloc, words, asked, exploration)?;
            drop(out);
            check_printed(printed, screen.reason())?;
            let mut folder = Disk::new(rt, alloc);
            record_answers(&mut folder, alloc, words, exploration.answers.as_slice())?;
            record_waiting(&mut folder, alloc, words, &exploration.waiting)
        }
        Err(fault) => {
            tell(rt, fault);
            Ok(())
        }
    }
}

/// Writes a page of the answers that are printed, where the words name a file for it.
fn show_found<R: Files>(
    rt: &R,
    alloc: Global,
    words: &Words<'_>,
    asked: Asked,
    inputs: &Inputs,
    found: &Result<Exploration, PlayFault>,
) -> Result<(), Failure> {
    match found {
        Ok(exploration) => {
            let mut folder = Disk::new(rt, alloc);
            let answers = exploration.answers.as_slice();
            show_answers(&mut folder, alloc, words, asked, inputs, answers)
        }
        Err(_) => Ok(()),
    }
}

/// Writes the graph of all states, where the words name a file for it. Where the search doesn't know all states, a line on standard
/// error says that there is none.
fn draw_found<R: Files + Eprint>(
    rt: &R,
    alloc: Global,
    words: &Words<'_>,
    inputs: &Inputs,
    found: &Result<Exploration, PlayFault>,
) -> Result<(), Failure> {
    let Ok(exploration) = found else {
        return Ok(());
    };
    if words.graph.is_some() && exploration.graph.is_none() {
        let _ = eprintln!(rt; "{UNDRAWN}");
    }
    let mut folder = Disk::new(rt, alloc);
    leave_graph(&mut folder, alloc, words, inputs, exploration)
}

/// Explains what a search has found, or why the source was refused.
fn explain_found<R: Eprint>(
    rt: &R,
    alloc: Global,
    words: &Words<'_>,
    inputs: &Inputs,
    found: &Result<Exploration, PlayFault>,
) {
    match found {
        Ok(exploration) => {
            let answers = first_answers(exploration.answers.as_slice());
            explain_answers(rt, alloc, words, inputs, answers);
            explain_waiting(rt, alloc, words, inputs, &exploration.waiting);
        }
        Err(fault) => explain_fault(
            rt,
            alloc,
            words,
            inputs.source.as_slice(),
            inputs.ends.as_slice(),
            fault,
        ),
    }
}

/// Refuses to write the choices of an answer into a file that the source is read from, by whatever path.
pub(crate) fn check_records<R: Files>(
    rt: &R,
    alloc: Global,
    words: &Words<'_>,
) -> Result<(), Failure> {
    let (Some(stem), Some(file)) = (words.record, words.file) else {
        return Ok(());
    };
    check_record(rt, alloc, stem, file)?;
    for file in words.more.as_slice() {
        check_record(rt, alloc, stem, *file)?;
    }
    Ok(())
}

/// Refuses to write the choices of an answer into this file.
pub(crate) fn check_record<R: Files>(
    rt: &R,
    alloc: Global,
    stem: &str,
    file: &str,
) -> Result<(), Failure> {
    for number in 0..=MOST_ANSWERS {
        let path = answer_path(alloc, stem, number)?;
        if path.as_str() == file || are_one_file(rt, path.as_str(), file) {
            return Err(Failure::Paths);
        }
    }
    Ok(())
}

/// What the lists of choices come to, as the words ask.
fn search<P: Progress>(
    alloc: Global,
    words: &Words<'_>,
    inputs: &Inputs,
    asked: Asked,
    progress: &mut P,
) -> Result<Exploration, PlayFault>
    ensures { SearchedTo words.now inputs.now.source.items inputs.now.keyboard.items asked result }
{
    explore_in(
        &options_of(words),
        alloc,
        inputs.source.as_slice(),
        inputs.keyboard.as_slice(),
        asked,
        words.full,
        words.first,
        words.graph.is_some(),
        words.states,
        words.memory,
        progress,
    )
}

/// The exit status of a search, or of what refused it.
fn status_of_found(found: Result<Exploration, PlayFault>) -> u8
    ensures { result ≡ found_status found }
{
    match found {
        Ok(exploration) => status_of_search(&exploration),
        Err(fault) => status_of(&Err(fault)),
    }
}

/// Prints what a search has found, and says whether all of it was written.
fn print_answers<W: Write>(
    out: &mut Counted<W>,
    alloc: Global,
    words: &Words<'_>,
    asked: Asked,
    found: &Exploration,
) -> Result<bool, AllocError>
    requires room { failures_of out.old < 2 ^ 64 - 1 }
    ensures { IfOk result
        (Prints W.contents (search_text words.now asked found.now) out.old out.new) }
{
    let text = exploration_text(alloc, found, asked, words.states, words.memory)?;
    Ok(write_answer(text.as_slice(), out).is_ok())
}

/// Those of the answers that are printed.
pub(crate) fn first_answers(answers: &[Answer]) -> &[Answer]
    ensures first { result.now ≡ take 100 answers.now }
    ensures few { length result.now ≤ 100 }
{
    if answers.len() > MOST_ANSWERS {
        &answers[..MOST_ANSWERS]
    } else {
        answers
    }
}

/// Writes the choices of each answer that is printed into a file of its own, where the words name one.
fn record_answers<F: Folder>(
    folder: &mut F,
    alloc: Global,
    words: &Words<'_>,
    answers: &[Answer],
) -> Result<(), Failure>
    ensures { AreRecorded words.now.«record» answers.now (F.left folder.old) (F.left folder.new)
        result }
{
    match words.record {
        Some(stem) => record_each(folder, alloc, stem, first_answers(answers)),
        None => Ok(()),
    }
}

/// Writes the choices of each answer into a file of its own.
fn record_each<F: Folder>(
    folder: &mut F,
    alloc: Global,
    stem: &str,
    answers: &[Answer],
) -> Result<(), Failure>
    requires { length answers.now ≤ 100 }
    ensures ok { OnOk result
        (AddsFiles F.left folder.old folder.new (answer_files stem.now 1 answers.now)) }
    ensures err { OnErr result
        (AddsSome F.left folder.old folder.new (answer_files stem.now 1 answers.now)) }
{
    let mut number = 1;
    for answer in answers {
        record_answer(folder, alloc, stem, number, answer.choices.as_slice())?;
        number += 1;
    }
    Ok(())
}

/// Writes the choices by which some come to wait for good, under the number 0, where some do and the words name a file.
fn record_waiting<F: Folder>(
    folder: &mut F,
    alloc: Global,
    words: &Words<'_>,
    waiting: &Option<Waiting>,
) -> Result<(), Failure>
    ensures ok { OnOk result (AddsFiles F.left folder.old folder.new
        (waiting_files words.now.«record» waiting.now)) }
    ensures err { OnErr result (AddsSome F.left folder.old folder.new
        (waiting_files words.now.«record» waiting.now)) }
{
    match words.record {
        Some(stem) => record_waiting_at(folder, alloc, stem, waiting),
        None => Ok(()),
    }
}

fn record_waiting_at<F: Folder>(
    folder: &mut F,
    alloc: Global,
    stem: &str,
    waiting: &Option<Waiting>,
) -> Result<(), Failure>
    ensures ok { OnOk result (AddsFiles F.left folder.old folder.new
        (waiting_file stem.now waiting.now)) }
    ensures err { OnErr result (AddsSome F.left folder.old folder.new
        (waiting_file stem.now waiting.now)) }
{
    match waiting {
        Some(waiting) => record_answer(folder, alloc, stem, 0, waiting.choices.as_slice()),
        None => Ok(()),
    }
}

fn record_answer<F: Folder>(
    folder: &mut F,
    alloc: Global,
    stem: &str,
    number: usize,
    choices: &[Choice],
) -> Result<(), Failure>
    ensures ok { OnOk result
        (AddsFiles F.left folder.old folder.new (answer_file stem.now number choices.now ∷ [])) }
    ensures failed { IfErr result (FailsToWrite (stream.Answer number)) }
    ensures err { OnErr result (LeavesNothing (F.left folder.old) (F.left folder.new)) }
{
    let path = answer_path(alloc, stem, number)?;
    let text = choices_text(alloc, choices)?;
    write_text(
        folder,
        Stream::Answer(number),
        path.as_str(),
        text.as_slice(),
    )
}
