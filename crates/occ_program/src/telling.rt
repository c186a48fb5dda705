//! Writes what the words ask to be told of a run, each into a file of its own.
ghost use Rattle.std.specs.Prelude.{◌≡◌, IfErr, IfOk};
ghost use Rattle.occ_explaining.specs.Studied.{IsStudied};
ghost use Rattle.occ_play_inputs.specs.Failures.{FailsToWrite};
ghost use Rattle.occ_play_inputs.specs.declared.failure.Stream.TheVariants as stream;
ghost use Rattle.occ_program.specs.Charted.{ChartsAsked};
ghost use Rattle.occ_program.specs.Coming.{RefusesSource, options_in};
ghost use Rattle.occ_program.specs.Pages.{ShowsBy, ChartIsLeft, PageIsLeft, TraceIsLeft, TurnsAreLeft, form_in, part_in};

use crate::page::write_text;
use crate::program::options_of;
use occ_chart::Part;
use occ_explaining::{Form, Studied, chart_of, page_of, run_texts, save_steps, save_trace, study};
use occ_files::Folder;
use occ_play::{Choice, PlayFault, Played};
use occ_play_inputs::failure::of_write;
use occ_play_inputs::{Failure, Inputs, Stream, Words};
use std::alloc::{AllocError, Global};
use std::slice;

/// Writes the files that the words name, of a run that answered, by the choices that it used: the chart, the trace, the turns and the
/// page. The source is read once for all of them. Where one of them fails, the next ones are not begun.
pub(crate) fn tell_files<F: Folder>(
    folder: &mut F,
    alloc: Global,
    words: &Words<'_>,
    inputs: &Inputs,
    played: &Result<Played, PlayFault>,
) -> Result<Result<(), PlayFault>, Failure>
    ensures { IfOk result (λ told. IfErr told (RefusesSource words.now inputs.now)) }
{
    let Ok(played) = played else {
        return Ok(Ok(()));
    };
    if !is_asked(words) {
        return Ok(Ok(()));
    }
    let studied = match study(&options_of(words), alloc, inputs.source.as_slice()) {
        Ok(studied) => studied,
        Err(fault) => return Ok(Err(fault)),
    };
    tell_chart(folder, alloc, words, inputs, played, &studied)?;
    tell_trace(folder, alloc, words, inputs, played, &studied)?;
    tell_turns(folder, alloc, words, inputs, played, &studied)?;
    tell_page(folder, alloc, words, inputs, played, &studied)?;
    Ok(Ok(()))
}

/// Whether the words name one of the files.
fn is_asked(words: &Words<'_>) -> bool {
    words.chart.is_some()
        || words.trace_to.is_some()
        || words.steps.is_some()
        || words.page.is_some()
}

/// Writes a chart of the run's communications, where the words ask for it.
fn tell_chart<F: Folder>(
    folder: &mut F,
    alloc: Global,
    words: &Words<'_>,
    inputs: &Inputs,
    played: &Played,
    studied: &Studied,
) -> Result<(), Failure>
    requires { IsStudied (options_in words.now) inputs.now.source.items studied.now }
    ensures left { ChartIsLeft F.left folder.old folder.new words.now inputs.now played.now result }
    ensures failed { IfErr result (FailsToWrite stream.Chart) }
{
    let (keyboard, choices) = (inputs.keyboard.as_slice(), played.choices.as_slice());
    match words.chart {
        Some(path) => {
            let text = charted(studied, alloc, words, keyboard, choices)?;
            write_text(folder, Stream::Chart, path, text.as_slice())
        }
        None => Ok(()),
    }
}

/// Writes the run's trace, where the words ask for it.
fn tell_trace<F: Folder>(
    folder: &mut F,
    alloc: Global,
    words: &Words<'_>,
    inputs: &Inputs,
    played: &Played,
    studied: &Studied,
) -> Result<(), Failure>
    requires { IsStudied (options_in words.now) inputs.now.source.items studied.now }
    ensures left { TraceIsLeft F.left folder.old folder.new words.now inputs.now played.now result }
    ensures failed { IfErr result (FailsToWrite stream.Trace) }
{
    let (keyboard, choices) = (inputs.keyboard.as_slice(), played.choices.as_slice());
    let form = form_of(words);
    match words.trace_to {
        Some(path) => match save_trace(folder, path, studied, alloc, keyboard, choices, form) {
            Ok(()) => Ok(()),
            Err(error) => Err(of_write(Stream::Trace, error)),
        },
        None => Ok(()),
    }
}

/// Writes a line for each turn of the run, where the words ask for it.
fn tell_turns<F: Folder>(
    folder: &mut F,
    alloc: Global,
    words: &Words<'_>,
    inputs: &Inputs,
    played: &Played,
    studied: &Studied,
) -> Result<(), Failure>
    requires { IsStudied (options_in words.now) inputs.now.source.items studied.now }
    ensures left { TurnsAreLeft F.left folder.old folder.new words.now inputs.now played.now result }
    ensures failed { IfErr result (FailsToWrite stream.Turns) }
{
    let (keyboard, choices) = (inputs.keyboard.as_slice(), played.choices.as_slice());
    match words.steps {
        Some(path) => match save_steps(folder, path, studied, alloc, keyboard, choices) {
            Ok(()) => Ok(()),
            Err(error) => Err(of_write(Stream::Turns, error)),
        },
        None => Ok(()),
    }
}

/// Writes a page that goes through the run, where the words ask for it.
fn tell_page<F: Folder>(
    folder: &mut F,
    alloc: Global,
    words: &Words<'_>,
    inputs: &Inputs,
    played: &Played,
    studied: &Studied,
) -> Result<(), Failure>
    requires { IsStudied (options_in words.now) inputs.now.source.items studied.now }
    ensures left { PageIsLeft F.left folder.old folder.new words.now inputs.now played.now result }
    ensures failed { IfErr result (FailsToWrite stream.Page) }
{
    let (source, keyboard) = (inputs.source.as_slice(), inputs.keyboard.as_slice());
    let choices = played.choices.as_slice();
    match words.page {
        Some(path) => {
            let text = shown(studied, alloc, source, keyboard, choices)?;
            write_text(folder, Stream::Page, path, text.as_slice())
        }
        None => Ok(()),
    }
}

/// A chart of the run of this source by these choices, as the words want it.
fn charted(
    studied: &Studied,
    alloc: Global,
    words: &Words<'_>,
    keyboard: &[u8],
    choices: &[Choice],
) -> Result<Vec<u8>, AllocError>
    ensures { IfOk result (ChartsAsked words.now studied.now keyboard.now choices.now) }
{
    let (only, without) = (words.only.as_slice(), words.without.as_slice());
    let part = part_of(words);
    chart_of(studied, alloc, keyboard, choices, part, only, without)
}

/// A page that shows the run of this source by these choices.
fn shown(
    studied: &Studied,
    alloc: Global,
    source: &[u8],
    keyboard: &[u8],
    choices: &[Choice],
) -> Result<Vec<u8>, AllocError>
    ensures { IfOk result (ShowsBy studied.now source.now keyboard.now choices.now) }
{
    let run = run_texts(studied, alloc, keyboard, b"", choices)?;
    let text = page_of(studied, alloc, source, slice::from_ref(&run))?;
    Ok(text)
}

/// Which communications are drawn, as the words say.
fn part_of(words: &Words<'_>) -> Part
    ensures { result ≡ part_in words.now.arrows words.now.last }
{
    match words.last {
        Some(last) => Part::Last(last),
        None => Part::First(words.arrows),
    }
}

/// How the words want the trace to be written.
fn form_of(words: &Words<'_>) -> Form
    ensures { result ≡ form_in words.now.json }
{
    if words.json { Form::Json } else { Form::Lines }
}
