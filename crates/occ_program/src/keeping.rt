//! Tells whether all that a source can come to is what its specification can come to.
ghost use Rattle.std.specs.Prelude.{◌≡◌, ◌≤◌, ◌<◌, ◌-◌, ◌^◌, IfOk};
ghost use Rattle.occ_exploring.specs.Within.{kept_text};
ghost use Rattle.occ_play.specs.Status.{fault_status};
ghost use Rattle.occ_program.specs.Coming.{IsKeepStatus, KeptTo, Prints, asked_in};
ghost use Rattle.occ_program.specs.Explained.{IfTold, TellsOfSpecification};
ghost use Rattle.occ_program.specs.Pages.{RecordsOutside};
ghost use Rattle.occ_shown.specs.Counting.{failures_of};

use crate::counting::Counter;
use crate::explaining::print_told;
use crate::exploring::{check_printed, check_record, check_records, record_only, refused};
use crate::program::{options_of, tell};
use crate::reading::read_inputs;
use crate::reporting::explain_answers;
use occ_explaining::{Files as Named, explained_fault};
use occ_exploring::{
    Asked, KeepFault, Kept, Progress, keep_in, kept_text, outside_of, status_of_kept,
};
use occ_files::{Disk, Folder, Noting};
use occ_play::{PlayFault, status_of};
use occ_play_inputs::{Failure, Inputs, Joined, Words, read_specification};
use occ_shown::{Counted, write_answer};
use std::alloc::{AllocError, Global};
use std::io::{IsTerminal, Write};
use std::rt::Files;
use std::{io, slice};

/// Tells whether each answer of the source that the words name is one of this specification's. Where one is not, and the words name a
/// file to be written, its choices go into one of that name, the number 1 and `choices`.
pub(crate) fn keep_words<R: Files + Input + Print + Eprint>(
    rt: &R,
    alloc: Global,
    words: &Words<'_>,
    path: &str,
    on_terminal: bool,
) -> Result<u8, Failure>
where
    R::Reader: IsTerminal,
    ensures came { IfOk result (IsKeepStatus words.now) }
    ensures small { IfOk result (λ status. status ≤ 7) }
{
    check_records(rt, alloc, words)?;
    if let Some(stem) = words.record {
        check_record(rt, alloc, stem, path)?;
    }
    let specification = read_specification(rt, alloc, path)?;
    let inputs = read_inputs(rt, alloc, words)?;
    keep_inputs(rt, alloc, words, path, &specification, &inputs, on_terminal)
}

/// Tells that of what was read.
fn keep_inputs<R: Files + Print + Eprint>(
    rt: &R,
    alloc: Global,
    words: &Words<'_>,
    path: &str,
    specification: &Joined,
    inputs: &Inputs,
    on_terminal: bool,
) -> Result<u8, Failure>
    ensures came { IfOk result (IsKeepStatus words.now) }
    ensures small { IfOk result (λ status. status ≤ 7) }
{
    let mut counter = Counter::new(rt, alloc, None, on_terminal);
    let found = keep(alloc, words, specification, inputs, &mut counter);
    counter.clear();
    match found {
        Ok(kept) => {
            tell_kept(rt, alloc, words, inputs, &kept)?;
            Ok(status_of_kept(&kept))
        }
        Err(KeepFault::Source(fault)) => Ok(refused(rt, alloc, words, inputs, fault)),
        Err(KeepFault::Specification(fault)) => {
            Ok(refused_as(rt, alloc, words, path, specification, fault))
        }
    }
}

/// How the answers of the source stand to those of its specification, as the words ask.
fn keep<P: Progress>(
    alloc: Global,
    words: &Words<'_>,
    specification: &Joined,
    inputs: &Inputs,
    progress: &mut P,
) -> Result<Kept, KeepFault>
    ensures { KeptTo words.now specification.now.bytes.items inputs.now.source.items
        inputs.now.keyboard.items result }
{
    keep_in(
        &options_of(words),
        alloc,
        specification.bytes.as_slice(),
        inputs.source.as_slice(),
        inputs.keyboard.as_slice(),
        asked_in(words),
        words.full,
        words.states,
        words.memory,
        progress,
    )
}

/// What is compared: answers, where the words do not ask for endings.
fn asked_in(words: &Words<'_>) -> Asked
    ensures { result ≡ asked_in words.now }
{
    words.explore.unwrap_or(Asked::Answers)
}

/// Prints what is told, records the answer that is none of the specification's, and explains it.
fn tell_kept<R: Files + Print + Eprint>(
    rt: &R,
    alloc: Global,
    words: &Words<'_>,
    inputs: &Inputs,
    kept: &Kept,
) -> Result<(), Failure> {
    let mut screen = Noting::new(io::writer(rt));
    let asked = asked_in(words);
    let printed = print_kept(&mut Counted::new(&mut screen), alloc, words, asked, kept)?;
    check_printed(printed, screen.reason())?;
    record_kept(&mut Disk::new(rt, alloc), alloc, words, kept)?;
    if let Some(answer) = outside_of(kept) {
        explain_answers(rt, alloc, words, inputs, slice::from_ref(answer));
    }
    Ok(())
}

/// Prints what is told, and says whether all of it was written.
fn print_kept<W: Write>(
    out: &mut Counted<W>,
    alloc: Global,
    words: &Words<'_>,
    asked: Asked,
    kept: &Kept,
) -> Result<bool, AllocError>
    requires room { failures_of out.old < 2 ^ 64 - 1 }
    ensures { IfOk result
        (Prints W.contents (kept_text asked words.now.states kept.now) out.old out.new) }
{
    let text = kept_text(alloc, kept, asked, words.states)?;
    Ok(write_answer(text.as_slice(), out).is_ok())
}

/// Writes the choices of the answer that is none of the specification's into a file, where there is one and the words name a file.
fn record_kept<F: Folder>(
    folder: &mut F,
    alloc: Global,
    words: &Words<'_>,
    kept: &Kept,
) -> Result<(), Failure>
    ensures { RecordsOutside words.now kept.now (F.left folder.old) (F.left folder.new) result }
{
    match outside_of(kept) {
        Some(answer) => record_only(folder, alloc, words, answer),
        None => Ok(()),
    }
}

/// Prints why the specification was refused, and answers the exit status.
fn refused_as<R: Eprint>(
    rt: &R,
    alloc: Global,
    words: &Words<'_>,
    path: &str,
    specification: &Joined,
    fault: PlayFault,
) -> u8
    ensures { result ≡ fault_status fault }
{
    let _ = eprint!(rt; "specification: ");
    tell(rt, &fault);
    if words.explain {
        let told = told_of(alloc, path, specification.bytes.as_slice(), &fault);
        print_told(rt, alloc, words, told);
    }
    status_of(&Err(fault))
}

/// The explanation of a fault, where it refuses the specification in the file of this path.
fn told_of(
    alloc: Global,
    path: &str,
    source: &[u8],
    fault: &PlayFault,
) -> Result<Option<Vec<u8>>, AllocError>
    ensures { IfOk result (IfTold (TellsOfSpecification path.now source.now fault.now)) }
{
    let files = Named {
        first: path,
        more: &[],
        ends: &[],
    };
    let told = explained_fault(alloc, source, &files, fault)?;
    Ok(told)
}
