//! Says what a search has found.
ghost use Rattle.std.specs.Prelude.{◌≡◌, ◌≤◌, IfOk, OnOk, length};
ghost use Rattle.occ_exploring.specs.Texts.{all_text, answer_line, answer_lines, answers_text, bound_text, heavy_text, so_many, error_text, exploration_text, first_text, found_line, held_text, known_text, rest_text, stop_kind_text, lasting_text, left_text, process_named, processes_named, said_of, waiting_head, waiting_line, waiting_text, waits_word};
ghost use Rattle.occ_shown.specs.Answers.{AddsText};

use crate::strings::write_string;
use occ_ends::Kind;
use occ_explore::{Answer, Asked, Exploration, Lasting, Verdict, Waiting};
use std::alloc::{AllocError, Global};

/// How many answers have a line.
pub const MOST_ANSWERS: usize = 100;

/// So many of a thing.
pub(crate) fn write_counted(
    alloc: Global,
    out: &mut Vec<u8>,
    count: usize,
    word: &[u8],
) -> Result<(), AllocError>
    ensures { OnOk result (AddsText out.old out.new (so_many count word.now)) }
{
    let number = format!(in alloc; "{count} ")?;
    out.extend_from_slice(number.as_bytes())?;
    out.extend_from_slice(word)?;
    if count != 1 {
        out.push(b's')?;
    }
    Ok(())
}

/// What the error channel holds, where it holds anything.
fn write_error(alloc: Global, out: &mut Vec<u8>, bytes: &[u8]) -> Result<(), AllocError>
    ensures { OnOk result (AddsText out.old out.new (error_text bytes.now)) }
{
    if bytes.is_empty() {
        return Ok(());
    }
    out.extend_from_slice(b" error ")?;
    write_string(alloc, out, bytes)
}

/// What the screen and the error channel hold, where that was asked for.
fn write_held(
    alloc: Global,
    out: &mut Vec<u8>,
    asked: Asked,
    answer: &Answer,
) -> Result<(), AllocError>
    ensures { OnOk result (AddsText out.old out.new (held_text asked answer.now)) }
{
    match asked {
        Asked::Answers => {
            out.push(b' ')?;
            write_string(alloc, out, answer.screen.as_slice())?;
            write_error(alloc, out, answer.error.as_slice())
        }
        Asked::Endings => Ok(()),
    }
}

/// Of what kind a stop is, where that is told.
fn kind_text(kind: Option<Kind>) -> &'static [u8]
    ensures { result.now ≡ stop_kind_text kind }
{
    match kind {
        None => b"",
        Some(Kind::Circle) => b": circle",
        Some(Kind::Halted) => b": halted",
        Some(Kind::Unfinished) => b": unfinished",
        Some(Kind::Idle) => b": idle",
    }
}

/// The line of an answer: its number, its ending, what is then held, how many choices come to it, and the kind of its stop.
///
/// # Errors
///
/// A refused growth.
pub fn answer_line(
    alloc: Global,
    asked: Asked,
    number: usize,
    answer: &Answer,
) -> Result<Vec<u8>, AllocError>
    ensures { IfOk result (λ line. line.items ≡ answer_line asked number answer.now) }
{
    let mut line = Vec::new(alloc);
    write_answer(alloc, &mut line, asked, number, answer)?;
    Ok(line)
}

pub(crate) fn write_answer(
    alloc: Global,
    out: &mut Vec<u8>,
    asked: Asked,
    number: usize,
    answer: &Answer,
) -> Result<(), AllocError>
    ensures { OnOk result (AddsText out.old out.new (answer_line asked number answer.now)) }
{
    let head = format!(in alloc; "{number} {}", answer.ending)?;
    out.extend_from_slice(head.as_bytes())?;
    write_rest(alloc, out, asked, answer)
}

/// What an answer holds, how many choices come to it, and of what kind its stop is.
fn write_rest(
    alloc: Global,
    out: &mut Vec<u8>,
    asked: Asked,
    answer: &Answer,
) -> Result<(), AllocError>
    ensures { OnOk result (AddsText out.old out.new (rest_text asked answer.now)) }
{
    write_held(alloc, out, asked, answer)?;
    out.extend_from_slice(b" by ")?;
    write_counted(alloc, out, answer.choices.len(), b"choice")?;
    out.extend_from_slice(kind_text(answer.kind))?;
    out.push(b'\n')?;
    Ok(())
}

/// What is told of an answer while the search goes on: that it was found, its ending, what is then held, how many choices come to it,
/// and the kind of its stop. It has no number yet.
///
/// # Errors
///
/// A refused growth.
pub fn found_line(alloc: Global, asked: Asked, answer: &Answer) -> Result<Vec<u8>, AllocError>
    ensures { IfOk result (λ line. line.items ≡ found_line asked answer.now) }
{
    let head = format!(in alloc; "found: {}", answer.ending)?;
    let mut line = head.into_bytes();
    write_rest(alloc, &mut line, asked, answer)?;
    Ok(line)
}

fn write_answers(
    alloc: Global,
    out: &mut Vec<u8>,
    asked: Asked,
    answers: &[Answer],
) -> Result<(), AllocError>
    requires { length answers.now ≤ 100 }
    ensures { OnOk result (AddsText out.old out.new (answer_lines asked 1 answers.now)) }
{
    let mut number = 1;
    for answer in answers {
        write_answer(alloc, out, asked, number, answer)?;
        number += 1;
    }
    Ok(())
}

/// How many more answers there are.
fn write_left(alloc: Global, out: &mut Vec<u8>, count: usize) -> Result<(), AllocError>
    ensures { OnOk result (AddsText out.old out.new (left_text count)) }
{
    let line = format!(in alloc; "and {count} more\n")?;
    out.extend_from_slice(line.as_bytes())
}

/// A line for each answer, or for the first ones with how many more there are.
fn write_first(
    alloc: Global,
    out: &mut Vec<u8>,
    asked: Asked,
    answers: &[Answer],
) -> Result<(), AllocError>
    ensures { OnOk result (AddsText out.old out.new (answers_text asked answers.now)) }
{
    if answers.len() > MOST_ANSWERS {
        write_answers(alloc, out, asked, &answers[..MOST_ANSWERS])?;
        write_left(alloc, out, answers.len() - MOST_ANSWERS)
    } else {
        write_answers(alloc, out, asked, answers)
    }
}

/// How long runs go on.
pub(crate) fn write_lasting(
    alloc: Global,
    out: &mut Vec<u8>,
    lasting: &Lasting,
) -> Result<(), AllocError>
    ensures { OnOk result (AddsText out.old out.new (lasting_text lasting.now)) }
{
    match lasting {
        Lasting::Within(turns) => {
            out.extend_from_slice(b"each run ends within ")?;
            write_counted(alloc, out, *turns, b"turn")?;
            out.push(b'\n')?;
            Ok(())
        }
        Lasting::Forever { .. } => out.extend_from_slice(b"some run goes on for ever\n"),
    }
}

/// That these are all answers, by so many states.
fn write_all(alloc: Global, out: &mut Vec<u8>, states: usize) -> Result<(), AllocError>
    ensures { OnOk result (AddsText out.old out.new (all_text states)) }
{
    out.extend_from_slice(b"all, ")?;
    write_counted(alloc, out, states, b"state")?;
    out.push(b'\n')?;
    Ok(())
}

/// That there are more states than were allowed.
fn write_bound(alloc: Global, out: &mut Vec<u8>, most: u32) -> Result<(), AllocError>
    ensures { OnOk result (AddsText out.old out.new (bound_text most)) }
{
    out.extend_from_slice(b"these at least: the bound of ")?;
    write_counted(alloc, out, most as usize, b"state")?;
    out.extend_from_slice(b" was passed\n")?;
    Ok(())
}

/// That the search held more than so many megabytes.
fn write_heavy(alloc: Global, out: &mut Vec<u8>, memory: u32) -> Result<(), AllocError>
    ensures { OnOk result (AddsText out.old out.new (heavy_text memory)) }
{
    let line = format!(in alloc; "these at least: the bound of {memory} MB was passed\n")?;
    out.extend_from_slice(line.as_bytes())
}

/// That the search ended at the answer above, after so many states.
fn write_ended(alloc: Global, out: &mut Vec<u8>, states: usize) -> Result<(), AllocError>
    ensures { OnOk result (AddsText out.old out.new (first_text states)) }
{
    out.extend_from_slice(b"the search ended here, after ")?;
    write_counted(alloc, out, states, b"state")?;
    out.extend_from_slice(b": there may be other answers\n")?;
    Ok(())
}

/// A process, by its number.
fn write_number(alloc: Global, out: &mut Vec<u8>, number: u32) -> Result<(), AllocError>
    ensures { OnOk result (AddsText out.old out.new (process_named number)) }
{
    let text = format!(in alloc; "p{number} ")?;
    out.extend_from_slice(text.as_bytes())
}

/// Processes, by their numbers.
fn write_numbers(alloc: Global, out: &mut Vec<u8>, numbers: &[u32]) -> Result<(), AllocError>
    ensures { OnOk result (AddsText out.old out.new (processes_named numbers.now)) }
{
    let mut rest = numbers;
    while let Some((number, others)) = rest.split_first() {
        write_number(alloc, out, *number)?;
        rest = others;
    }
    Ok(())
}

fn waits_word(numbers: &[u32]) -> &'static [u8]
    ensures { result.now ≡ waits_word numbers.now }
{
    if numbers.len() == 1 {
        b"waits"
    } else {
        b"wait"
    }
}

/// Who waits for good while others go on.
fn write_waiting_head(alloc: Global, out: &mut Vec<u8>, numbers: &[u32]) -> Result<(), AllocError>
    ensures { OnOk result (AddsText out.old out.new (waiting_head numbers.now)) }
{
    write_numbers(alloc, out, numbers)?;
    out.extend_from_slice(waits_word(numbers))?;
    out.extend_from_slice(b" for good while others go on, by ")?;
    Ok(())
}

/// The same, and by how many choices.
fn write_waiting_line(alloc: Global, out: &mut Vec<u8>, waiting: &Waiting) -> Result<(), AllocError>
    ensures { OnOk result (AddsText out.old out.new (waiting_line waiting.now)) }
{
    write_waiting_head(alloc, out, waiting.numbers.as_slice())?;
    write_counted(alloc, out, waiting.choices.len(), b"choice")?;
    out.push(b'\n')?;
    Ok(())
}

/// The same, where somebody was found.
fn write_waiting(
    alloc: Global,
    out: &mut Vec<u8>,
    waiting: &Option<Waiting>,
) -> Result<(), AllocError>
    ensures { OnOk result (AddsText out.old out.new (waiting_text waiting.now)) }
{
    match waiting {
        Some(waiting) => write_waiting_line(alloc, out, waiting),
        None => Ok(()),
    }
}

/// Who was found to wait for good, and that these are all answers.
fn write_known(
    alloc: Global,
    out: &mut Vec<u8>,
    exploration: &Exploration,
) -> Result<(), AllocError>
    ensures { OnOk result (AddsText out.old out.new (known_text exploration.now)) }
{
    write_waiting(alloc, out, &exploration.waiting)?;
    write_all(alloc, out, exploration.states)
}

/// Whether these are all answers, how long runs go on, and who was found to wait for good.
fn write_verdict(
    alloc: Global,
    out: &mut Vec<u8>,
    exploration: &Exploration,
    most: u32,
    memory: u32,
) -> Result<(), AllocError>
    ensures { OnOk result (AddsText out.old out.new
        (said_of exploration.now most memory)) }
{
    match &exploration.verdict {
        Verdict::All(lasting) => {
            write_lasting(alloc, out, lasting)?;
            write_known(alloc, out, exploration)
        }
        Verdict::More => {
            write_waiting(alloc, out, &exploration.waiting)?;
            write_bound(alloc, out, most)
        }
        Verdict::Heavy => {
            write_waiting(alloc, out, &exploration.waiting)?;
            write_heavy(alloc, out, memory)
        }
        Verdict::OutOfMemory => {
            write_waiting(alloc, out, &exploration.waiting)?;
            out.extend_from_slice(b"these at least: memory ran out\n")
        }
        Verdict::First => {
            write_waiting(alloc, out, &exploration.waiting)?;
            write_ended(alloc, out, exploration.states)
        }
    }
}

/// What is printed of a search that might come to `most` states, and hold `memory` megabytes: a line for each of the first 100 answers, how many more
/// there are, how long runs go on, who was found to wait for good, and whether these are all.
///
/// # Errors
///
/// A refused growth.
pub fn exploration_text(
    alloc: Global,
    exploration: &Exploration,
    asked: Asked,
    most: u32,
    memory: u32,
) -> Result<Vec<u8>, AllocError>
    ensures { IfOk result (λ bytes.
        bytes.items ≡ exploration_text asked most memory exploration.now) }
{
    let mut out = Vec::new(alloc);
    write_first(alloc, &mut out, asked, exploration.answers.as_slice())?;
    write_verdict(alloc, &mut out, exploration, most, memory)?;
    Ok(out)
}
