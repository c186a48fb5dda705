//! Writes the choices of a run into a file, by which it can be played again.
ghost use Rattle.std.specs.Prelude.{◌≡◌, IfErr, IfOk};
ghost use Rattle.occ_choices.specs.Lines.{choice_text};
ghost use Rattle.occ_play_inputs.specs.Failures.{FailsToWrite};
ghost use Rattle.occ_play_inputs.specs.declared.failure.Stream.TheVariants.{Record};
ghost use Rattle.occ_program.specs.Pages.{IsLeft, Records};

use crate::page::{Page, write_page};
use occ_choices::choices_text;
use occ_files::Folder;
use occ_play::{PlayFault, Played};
use occ_play_inputs::{Failure, Stream, Words};
use std::alloc::Global;

/// Writes the used choices into the file that the words name, where a run answered.
pub(crate) fn record<F: Folder>(
    folder: &mut F,
    alloc: Global,
    words: &Words<'_>,
    played: &Result<Played, PlayFault>,
) -> Result<(), Failure>
    ensures left { IsLeft F.left folder.old folder.new
        (Records words.now.«record» played.now) result }
    ensures failed { IfErr result (FailsToWrite Record) }
{
    let page = recorded(alloc, words, played)?;
    write_page(folder, Stream::Record, &page)
}

/// What is to be recorded, and where: all choices that a run used, in the file that the words name.
fn recorded<'a>(
    alloc: Global,
    words: &Words<'a>,
    played: &Result<Played, PlayFault>,
) -> Result<Option<Page<'a>>, Failure>
    ensures recorded { IfOk result (Records words.now.«record» played.now) }
    ensures failed { IfErr result (FailsToWrite Record) }
{
    match (words.record, played) {
        (Some(path), Ok(played)) => {
            let text = choices_text(alloc, played.choices.as_slice())?;
            Ok(Some(Page { path, text }))
        }
        (Some(_), Err(_)) | (None, _) => Ok(None),
    }
}
