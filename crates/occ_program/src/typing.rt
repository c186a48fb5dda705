//! Writes what was typed into a file, on which a run can be played again.
ghost use Rattle.std.specs.Prelude.{◌≡◌, IfErr, IfOk};
ghost use Rattle.occ_play_inputs.specs.Failures.{FailsToWrite};
ghost use Rattle.occ_play_inputs.specs.declared.failure.Stream.TheVariants.{Typed};
ghost use Rattle.occ_program.specs.Pages.{IsLeft, TypedPage};

use crate::page::{Page, write_page};
use occ_files::Folder;
use occ_play::{PlayFault, Played};
use occ_play_inputs::{Failure, Inputs, Stream, Words};
use std::alloc::Global;

/// Writes the keyboard's bytes into the file that the words name, where a run answered.
pub(crate) fn leave_typed<F: Folder>(
    folder: &mut F,
    alloc: Global,
    words: &Words<'_>,
    inputs: &Inputs,
    played: &Result<Played, PlayFault>,
) -> Result<(), Failure>
    ensures left { IsLeft F.left folder.old folder.new
        (TypedPage words.now inputs.now played.now) result }
    ensures failed { IfErr result (FailsToWrite Typed) }
{
    let page = typed_page(alloc, words, inputs, played)?;
    write_page(folder, Stream::Typed, &page)
}

/// What was typed, and where it is to be written: the keyboard's bytes of a run, in the file that the words name.
fn typed_page<'a>(
    alloc: Global,
    words: &Words<'a>,
    inputs: &Inputs,
    played: &Result<Played, PlayFault>,
) -> Result<Option<Page<'a>>, Failure>
    ensures typed { IfOk result (TypedPage words.now inputs.now played.now) }
    ensures failed { IfErr result (FailsToWrite Typed) }
{
    match (words.typed, played) {
        (Some(path), Ok(_)) => {
            let text = Vec::from_slice(alloc, inputs.keyboard.as_slice())?;
            Ok(Some(Page { path, text }))
        }
        (Some(_), Err(_)) | (None, _) => Ok(None),
    }
}
