//! Tells more of a refusal and of an ending, where the words ask for it.
ghost use Rattle.std.specs.Prelude.{◌≡◌, IfOk, IsTrue, true};
ghost use Rattle.occ_play_inputs.specs.Failures.{trouble};
ghost use Rattle.occ_play_inputs.specs.declared.failure.Stream.TheVariants.{Output};
ghost use Rattle.occ_program.specs.Explained.{Explains, IfTold, RefusesBytes, ReportsEnd, ReportsRun, TellsOf, TellsWhy, files_in, has_zero, limit_told, no_text, source_name, told_below};
ghost use Rattle.occ_explaining.specs.Files.{files_of};
ghost use Rattle.occ_explaining.specs.Studied.{IsStudied};
ghost use Rattle.occ_program.specs.Coming.{options_in};
ghost use Rattle.occ_program.specs.Troubles.{trouble_text};

use crate::program::options_of;
use crate::terminal::in_bold;
use crate::troubles::{path_or, trouble_text};
use occ_explaining::{Files, Studied, beginnings, explained_fault, report_of, study};
use occ_files::{Reason, printed_name};
use occ_net_replay::Choice;
use occ_play::{PlayFault, Played};
use occ_play_inputs::{Inputs, Stream, Trouble, Words};
use occ_term::Ending;
use occ_text::TextFault;
use std::alloc::{AllocError, Global};

/// Prints, behind the line of a refusal, where its mistake is, behind that of a failed write why it failed, and behind an ending that
/// is not that of a whole run what each process stands at. Where memory runs out for that, nothing more is printed.
pub(crate) fn explain<R: Eprint>(
    rt: &R,
    alloc: Global,
    words: &Words<'_>,
    inputs: &Inputs,
    came: &Result<Played, PlayFault>,
    reason: Reason,
) {
    if words.explain {
        let told = explanation(alloc, words, inputs, came, reason);
        print_told(rt, alloc, words, told);
    }
}

/// Prints where the mistake of a source is, of which nothing else is asked.
pub(crate) fn explain_fault<R: Eprint>(
    rt: &R,
    alloc: Global,
    words: &Words<'_>,
    source: &[u8],
    ends: &[u32],
    fault: &PlayFault,
) {
    if words.explain {
        let told = told_of(alloc, words, source, ends, fault);
        print_told(rt, alloc, words, told);
    }
}

/// What the files of a source are called, the first one by a hyphen where standard input is the source; and where they end.
pub(crate) fn files_of<'a>(words: &'a Words<'a>, ends: &'a [u32]) -> Files<'a>
    ensures { files_of result ≡ files_in words.now ends.now }
{
    let first = path_or("-", words.file);
    let more = words.more.as_slice();
    Files { first, more, ends }
}

/// The explanation of a fault, where it refuses the source.
fn told_of(
    alloc: Global,
    words: &Words<'_>,
    source: &[u8],
    ends: &[u32],
    fault: &PlayFault,
) -> Result<Option<Vec<u8>>, AllocError>
    ensures { IfOk result (IfTold (TellsOf words.now source.now ends.now fault.now)) }
{
    if words.more.is_empty() && is_no_text(source, fault) {
        let text = no_text(alloc, path_or("-", words.file))?;
        return Ok(Some(text));
    }
    let told = explained_fault(alloc, source, &files_of(words, ends), fault)?;
    Ok(told)
}

/// Whether a source is refused for what it is, and has a byte that is 0, as no text has.
fn is_no_text(source: &[u8], fault: &PlayFault) -> bool
    ensures zero { IsTrue result → has_zero source.now ≡ true }
    ensures refused { IsTrue result → RefusesBytes fault.now }
{
    match fault {
        PlayFault::Text(TextFault::BadByte { .. }) | PlayFault::Text(TextFault::TooLong) => {
            source.contains(&0)
        }
        _ => false,
    }
}

/// What is told of a file that is no text.
fn no_text(alloc: Global, file: &str) -> Result<Vec<u8>, AllocError>
    ensures { IfOk result (λ text. text.items ≡ no_text file.now) }
{
    let mut text = printed_name(alloc, file.as_bytes())?;
    text.extend_from_slice(b": this is not a text file: it contains NUL bytes\n")?;
    Ok(text)
}

/// Why standard output was not written, or the explanation of a refusal.
fn why(
    alloc: Global,
    words: &Words<'_>,
    inputs: &Inputs,
    fault: &PlayFault,
    reason: Reason,
) -> Result<Option<Vec<u8>>, AllocError>
    ensures { IfOk result (IfTold (TellsWhy words.now inputs.now reason fault.now)) }
{
    match fault {
        PlayFault::Write { .. } => unwritten(alloc, words, reason),
        fault => told_of(
            alloc,
            words,
            inputs.source.as_slice(),
            inputs.ends.as_slice(),
            fault,
        ),
    }
}

/// Why standard output was not written.
fn unwritten(
    alloc: Global,
    words: &Words<'_>,
    reason: Reason,
) -> Result<Option<Vec<u8>>, AllocError>
    ensures { IfOk result
        (IfTold (λ text. text ≡ trouble_text words.now (trouble Output reason))) }
{
    let stream = Stream::Output;
    let text = trouble_text(alloc, words, Trouble { stream, reason })?;
    Ok(Some(text))
}

/// What is told of what a play came to; nothing of a run that ended.
fn explanation(
    alloc: Global,
    words: &Words<'_>,
    inputs: &Inputs,
    came: &Result<Played, PlayFault>,
    reason: Reason,
) -> Result<Option<Vec<u8>>, AllocError>
    ensures { IfOk result (IfTold (Explains words.now inputs.now reason came.now)) }
{
    match came {
        Ok(played) => reported(alloc, words, inputs, played),
        Err(fault) => why(alloc, words, inputs, fault, reason),
    }
}

/// What is known of the source of the inputs. It has a program, since it was run or searched, so reading it again fails for want of memory
/// alone.
pub(crate) fn studied_of(
    alloc: Global,
    words: &Words<'_>,
    inputs: &Inputs,
) -> Result<Studied, AllocError>
    ensures { IfOk result (IsStudied (options_in words.now) inputs.now.source.items) }
{
    match study(&options_of(words), alloc, inputs.source.as_slice()) {
        Ok(studied) => Ok(studied),
        Err(_) => Err(AllocError),
    }
}

/// What each process stands at where a run has not ended.
fn reported(
    alloc: Global,
    words: &Words<'_>,
    inputs: &Inputs,
    played: &Played,
) -> Result<Option<Vec<u8>>, AllocError>
    ensures { IfOk result (IfTold (ReportsEnd words.now inputs.now played.now)) }
{
    if let Ending::Ended = played.ending {
        return Ok(None);
    }
    let studied = studied_of(alloc, words, inputs)?;
    let text = cut_report(alloc, words, inputs, &studied, played)?;
    Ok(Some(text))
}

/// The report of a run, and where its choices were used up what allows more turns.
fn cut_report(
    alloc: Global,
    words: &Words<'_>,
    inputs: &Inputs,
    studied: &Studied,
    played: &Played,
) -> Result<Vec<u8>, AllocError>
    requires { IsStudied (options_in words.now) inputs.now.source.items studied.now }
    ensures { IfOk result (λ text. ReportsEnd words.now inputs.now played.now text.items) }
{
    let mut text = run_report(alloc, words, inputs, studied, played.choices.as_slice())?;
    let below = told_below(words.choices, played.ending);
    text.extend_from_slice(below.as_bytes())?;
    Ok(text)
}

/// What allows more turns, where a run has used up its choices, which are those of a file where this is its path.
fn told_below(choices: Option<&str>, ending: Ending) -> &'static str
    ensures { result.now ≡ told_below choices.entry ending }
{
    match ending {
        Ending::Limit => limit_told(choices),
        Ending::Ended | Ending::Stopped | Ending::Fault(_) | Ending::StoppedBy(_) => "",
    }
}

/// What allows more turns than a run had, whose choices are those of a file where this is its path.
fn limit_told(choices: Option<&str>) -> &'static str
    ensures { result.now ≡ limit_told choices.entry }
{
    match choices {
        None => {
            "  the limit is reached: --limit N allows more turns, --quantum N makes each longer\n"
        }
        Some(_) => "  the schedule ends here: a longer one lets the run go on\n",
    }
}

/// What each process stands at behind the run of the inputs by these choices, and where the source's files begin.
pub(crate) fn run_report(
    alloc: Global,
    words: &Words<'_>,
    inputs: &Inputs,
    studied: &Studied,
    choices: &[Choice],
) -> Result<Vec<u8>, AllocError>
    requires { IsStudied (options_in words.now) inputs.now.source.items studied.now }
    ensures { IfOk result (λ text. ReportsRun words.now inputs.now choices.now text.items) }
{
    let mut text = report_of(studied, alloc, inputs.keyboard.as_slice(), choices)?;
    let below = beginnings(alloc, &files_of(words, inputs.ends.as_slice()))?;
    text.extend_from_slice(below.as_slice())?;
    Ok(text)
}

/// Prints what is told, if anything is; and `memory` where there was none to tell it.
pub(crate) fn print_told<R: Eprint>(
    rt: &R,
    alloc: Global,
    words: &Words<'_>,
    told: Result<Option<Vec<u8>>, AllocError>,
) {
    match told {
        Ok(Some(text)) => print_text(rt, alloc, words, text.as_slice()),
        Ok(None) => {}
        Err(AllocError) => tell_memory(rt),
    }
}

/// Prints that there was no memory for what is told.
pub(crate) fn tell_memory<R: Eprint>(rt: &R) {
    let _ = eprintln!(rt; "memory");
}

/// Prints a text to standard error, with its first line in bold where that is wanted.
pub(crate) fn print_text<R: Eprint>(rt: &R, alloc: Global, words: &Words<'_>, text: &[u8]) {
    if !words.bold || text.is_empty() {
        print_bytes(rt, alloc, text);
    } else {
        match in_bold(alloc, text) {
            Ok(shown) => print_bytes(rt, alloc, shown.as_slice()),
            Err(_) => tell_memory(rt),
        }
    }
}

/// Prints bytes to standard error; for those that are no UTF-8, as a source may have in its comments, stands U+FFFD.
pub(crate) fn print_bytes<R: Eprint>(rt: &R, alloc: Global, text: &[u8]) {
    match String::from_utf8_lossy(alloc, text) {
        Ok(text) => {
            let _ = eprint!(rt; "{text}");
        }
        Err(_) => tell_memory(rt),
    }
}
