//! Tells which file or stream failed, and why, where the words ask for more.
ghost use Rattle.std.specs.Prelude.{◌≡◌, IfOk, string_bytes};
ghost use Rattle.occ_program.specs.Pages.{answer_path};
ghost use Rattle.occ_program.specs.Troubles.{advice, choices_trouble, path_at, path_or, stream_name, trouble_text, trouble_told, wrong_choices};
ghost use Rattle.occ_shown.specs.Answers.{HasWords};

use crate::explaining::print_told;
use occ_choices::ChoiceFault;
use occ_files::{Reason, printed_name};
use occ_play_inputs::{Failure, Stream, Trouble, Words};
use std::alloc::{AllocError, Global};

/// What is told below a source that is missing.
const ADVICE: &str = "  `occam FILE` runs the program in FILE, `occam --help` lists the options\n";

/// Prints, behind the line of a failure, which file or stream failed, and why. Where memory runs out for that, `memory` is printed.
pub(crate) fn explain_failure<R: Eprint>(
    rt: &R,
    alloc: Global,
    words: &Words<'_>,
    failure: &Failure,
) {
    if words.explain {
        let told = trouble_told(alloc, words, failure);
        print_told(rt, alloc, words, told);
    }
}

/// What is told where something could not be read or written, or holds no choices.
fn trouble_told(
    alloc: Global,
    words: &Words<'_>,
    failure: &Failure,
) -> Result<Option<Vec<u8>>, AllocError>
    ensures { IfOk result (HasWords (trouble_told words.now failure.now)) }
{
    match failure {
        Failure::Read(trouble) | Failure::Write(trouble) => {
            Ok(Some(trouble_text(alloc, words, *trouble)?))
        }
        Failure::Choices(fault) => Ok(Some(choices_trouble(alloc, words, fault)?)),
        _ => Ok(None),
    }
}

/// The name of the file of choices, and what is wrong with it.
fn choices_trouble(
    alloc: Global,
    words: &Words<'_>,
    fault: &ChoiceFault,
) -> Result<Vec<u8>, AllocError>
    ensures { IfOk result (λ text. text.items ≡ choices_trouble words.now fault.now) }
{
    let mut text = printed_name(alloc, path_or("", words.choices).as_bytes())?;
    let told = wrong_choices(alloc, fault)?;
    text.extend_from_slice(told.as_bytes())?;
    Ok(text)
}

/// What is wrong with it, and in which line.
fn wrong_choices(alloc: Global, fault: &ChoiceFault) -> Result<String, AllocError>
    ensures { IfOk result (λ told. string_bytes told ≡ wrong_choices fault.now) }
{
    match fault {
        ChoiceFault::BadChoice { line } => bad_choice(alloc, *line),
        ChoiceFault::TooMany => String::from_str(alloc, ": it has more than 10,000,000 lines\n"),
        ChoiceFault::Memory => String::from_str(alloc, ": memory ran out\n"),
    }
}

/// That this line is no choice.
fn bad_choice(alloc: Global, line: u32) -> Result<String, AllocError>
    ensures { IfOk result (λ told.
        string_bytes told ≡ wrong_choices (ChoiceFault.BadChoice line)) }
{
    let told = format!(in alloc;
        ":{line}: a line has two numbers with one space between, as `0 3`\n"
    )?;
    Ok(told)
}

/// The name of a file or a stream that failed, and the reason.
pub(crate) fn trouble_text(
    alloc: Global,
    words: &Words<'_>,
    trouble: Trouble,
) -> Result<Vec<u8>, AllocError>
    ensures { IfOk result (λ text. text.items ≡ trouble_text words.now trouble) }
{
    let name = stream_name(alloc, words, trouble.stream)?;
    let mut text = printed_name(alloc, name.as_bytes())?;
    let reason = format!(in alloc; ": {}\n", trouble.reason)?;
    text.extend_from_slice(reason.as_bytes())?;
    text.extend_from_slice(advice(trouble).as_bytes())?;
    Ok(text)
}

/// What is told below a source that is missing: a word may have been taken for its name.
fn advice(trouble: Trouble) -> &'static str
    ensures { result.now ≡ advice trouble }
{
    match (trouble.stream, trouble.reason) {
        (Stream::Source, Reason::Missing) => ADVICE,
        _ => "",
    }
}

/// The path that a word gives, and another text where it gives none.
pub(crate) fn path_or<'a>(other: &'a str, path: Option<&'a str>) -> &'a str
    ensures { result.now ≡ path_or other.now path.entry }
{
    match path {
        Some(path) => path,
        None => other,
    }
}

/// The path in this place, from 0.
fn path_at<'a>(paths: &[&'a str], place: usize) -> &'a str
    ensures { result.now ≡ path_at paths.now place }
{
    match paths.get(place) {
        Some(path) => *path,
        None => "",
    }
}

/// A file by its path, and a stream by its name.
fn stream_name(alloc: Global, words: &Words<'_>, stream: Stream) -> Result<String, AllocError>
    ensures { IfOk result (λ name. string_bytes name ≡ stream_name words.now stream) }
{
    match stream {
        Stream::Source => String::from_str(alloc, path_or("standard input", words.file)),
        Stream::More(number) => String::from_str(alloc, path_at(words.more.as_slice(), number)),
        Stream::Specification => String::from_str(alloc, path_or("", words.within)),
        Stream::Keyboard => String::from_str(alloc, "standard input"),
        Stream::Choices => String::from_str(alloc, path_or("", words.choices)),
        Stream::Output => String::from_str(alloc, "standard output"),
        Stream::Record => String::from_str(alloc, path_or("", words.record)),
        Stream::Answer(number) => answer_path(alloc, path_or("", words.record), number),
        Stream::Chart => String::from_str(alloc, path_or("", words.chart)),
        Stream::Trace => String::from_str(alloc, path_or("", words.trace_to)),
        Stream::Turns => String::from_str(alloc, path_or("", words.steps)),
        Stream::Page => String::from_str(alloc, path_or("", words.page)),
        Stream::Graph => String::from_str(alloc, path_or("", words.graph)),
        Stream::Typed => String::from_str(alloc, path_or("", words.typed)),
    }
}

/// The file that the choices of the answer with this number go into.
pub(crate) fn answer_path(alloc: Global, stem: &str, number: usize) -> Result<String, AllocError>
    ensures { IfOk result (λ path. string_bytes path ≡ answer_path stem.now number) }
{
    let path = format!(in alloc; "{stem}.{number}.choices")?;
    Ok(path)
}
