//! Writes a page that shows the answers of a search.
ghost use Rattle.std.specs.Prelude.{◌≡◌, ◌++◌, ◌≤◌, IfErr, IfOk, length};
ghost use Rattle.occ_explaining.specs.Studied.{IsStudied};
ghost use Rattle.occ_exploring.specs.Texts.{answer_line};
ghost use Rattle.occ_play_inputs.specs.Failures.{FailsToWrite};
ghost use Rattle.occ_play_inputs.specs.declared.failure.Stream.TheVariants as stream;
ghost use Rattle.occ_program.specs.Coming.{options_in};
ghost use Rattle.occ_program.specs.Pages.{AnswersPage, AreRunsOf, IsLeft, ShowsAnswers, more_text};

use crate::explaining::studied_of;
use crate::exploring::first_answers;
use crate::page::{Page, write_page};
use occ_explaining::{Studied, page_of, run_texts};
use occ_exploring::{Answer, Asked, MOST_ANSWERS, answer_line};
use occ_files::Folder;
use occ_play_inputs::{Failure, Inputs, Stream, Words};
use occ_shown::RunTexts;
use std::alloc::{AllocError, Global};

/// Writes a page that shows the runs of the first of these answers, and says how many more there are, into the file that the words name.
pub(crate) fn show_answers<F: Folder>(
    folder: &mut F,
    alloc: Global,
    words: &Words<'_>,
    asked: Asked,
    inputs: &Inputs,
    answers: &[Answer],
) -> Result<(), Failure>
    ensures left { IsLeft F.left folder.old folder.new
        (AnswersPage words.now inputs.now asked answers.now) result }
    ensures failed { IfErr result (FailsToWrite stream.Page) }
{
    let page = shown_page(alloc, words, asked, inputs, answers)?;
    write_page(folder, Stream::Page, &page)
}

/// What is to be written, and where.
fn shown_page<'a>(
    alloc: Global,
    words: &Words<'a>,
    asked: Asked,
    inputs: &Inputs,
    answers: &[Answer],
) -> Result<Option<Page<'a>>, AllocError>
    ensures { IfOk result (AnswersPage words.now inputs.now asked answers.now) }
{
    match words.page {
        Some(path) => {
            let text = shown(alloc, words, asked, inputs, answers)?;
            Ok(Some(Page { path, text }))
        }
        None => Ok(None),
    }
}

/// The page.
fn shown(
    alloc: Global,
    words: &Words<'_>,
    asked: Asked,
    inputs: &Inputs,
    answers: &[Answer],
) -> Result<Vec<u8>, AllocError>
    ensures { IfOk result (λ text.
        ShowsAnswers words.now inputs.now asked answers.now text.items) }
{
    let source = inputs.source.as_slice();
    let studied = studied_of(alloc, words, inputs)?;
    let more = more_text(alloc, answers)?;
    let first = first_answers(answers);
    let runs = runs_of(
        alloc,
        words,
        asked,
        inputs,
        &studied,
        more.as_slice(),
        first,
    )?;
    let text = page_of(&studied, alloc, source, runs.as_slice())?;
    Ok(text)
}

/// What is said of the answers that the page does not have.
fn more_text(alloc: Global, answers: &[Answer]) -> Result<Vec<u8>, AllocError>
    ensures { IfOk result (λ text. text.items ≡ more_text answers.now) }
{
    if answers.len() > MOST_ANSWERS {
        let count = answers.len() - MOST_ANSWERS;
        let text = format!(in alloc; "and {count} more\n")?;
        return Vec::from_slice(alloc, text.as_bytes());
    }
    Ok(Vec::new(alloc))
}

/// The line of an answer, and behind it this text.
fn head_of(
    alloc: Global,
    asked: Asked,
    number: usize,
    answer: &Answer,
    more: &[u8],
) -> Result<Vec<u8>, AllocError>
    ensures { IfOk result (λ head. head.items ≡ answer_line asked number answer.now ++ more.now) }
{
    let mut head = answer_line(alloc, asked, number, answer)?;
    head.extend_from_slice(more)?;
    Ok(head)
}

/// What the page has of each answer.
fn runs_of(
    alloc: Global,
    words: &Words<'_>,
    asked: Asked,
    inputs: &Inputs,
    studied: &Studied,
    more: &[u8],
    answers: &[Answer],
) -> Result<Vec<RunTexts>, AllocError>
    requires studied { IsStudied (options_in words.now) inputs.now.source.items studied.now }
    requires few { length answers.now ≤ 100 }
    ensures { IfOk result (λ runs.
        AreRunsOf words.now inputs.now asked more.now 1 answers.now runs.items) }
{
    let mut runs = Vec::new(alloc);
    let mut number = 1;
    let mut rest = answers;
    while let Some((first, others)) = rest.split_first() {
        let head = head_of(alloc, asked, number, first, more)?;
        let keyboard = inputs.keyboard.as_slice();
        let choices = first.choices.as_slice();
        let run = run_texts(studied, alloc, keyboard, head.as_slice(), choices)?;
        runs.push(run)?;
        number += 1;
        rest = others;
    }
    Ok(runs)
}
