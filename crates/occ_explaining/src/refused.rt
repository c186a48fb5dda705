//! Explanations of what a play was refused for.
ghost use Rattle.std.specs.Prelude.{◌≡◌, IfOk, Some, None, option_map};
ghost use Rattle.occ_explaining.specs.Files.{files_of};
ghost use Rattle.occ_explaining.specs.Explaining.{TellsFault, number_and_line, numbered_of, refusal_in};

use crate::files::{Files, place_told};
use occ_check_lines::fault::CheckFault;
use occ_code::CodeFault;
use occ_explain::{Reader, Refusal, explain, explained};
use occ_play::PlayFault;
use occ_text::TextFault;
use occ_tree_grammar::ParseFault;
use occ_usage::UsageFault;
use std::alloc::{AllocError, Global};

/// A refusal without a name, with what the reader tells of it.
fn read(number: u32, line: u32, reader: Reader) -> Option<Refusal<'static>>
    ensures { option_map numbered_of result ≡ Some (number_and_line number line) }
{
    Some(Refusal {
        number,
        line,
        reader,
        name: b"",
    })
}

/// A refusal without a name.
fn nameless(number: u32, line: u32) -> Option<Refusal<'static>>
    ensures { option_map numbered_of result ≡ Some (number_and_line number line) }
{
    read(number, line, Reader::Nothing)
}

fn of_text(fault: &TextFault) -> Option<Refusal<'static>>
    ensures { option_map numbered_of result ≡ refusal_in (PlayFault.Text fault.now) }
{
    match fault {
        TextFault::TooLong => nameless(1, 0),
        TextFault::BadByte { line } => nameless(2, *line),
        TextFault::OddIndent { line } => nameless(3, *line),
        TextFault::BadLiteral { line } => nameless(4, *line),
        TextFault::BadEscape { line } => nameless(5, *line),
        TextFault::OpenString { line } => nameless(6, *line),
        TextFault::BadBreak { line } => nameless(7, *line),
        TextFault::Memory => None,
    }
}

fn of_parse(fault: &ParseFault) -> Option<Refusal<'static>>
    ensures { option_map numbered_of result ≡ refusal_in (PlayFault.Parse fault.now) }
{
    match fault {
        ParseFault::Unexpected(line, stop) => read(20, *line, Reader::Stop(*stop)),
        ParseFault::Level(line, level) => read(21, *line, Reader::Level(*level)),
        ParseFault::Missing(line, level) => read(22, *line, Reader::Level(*level)),
        ParseFault::TooDeep(line, stop) => read(23, *line, Reader::Stop(*stop)),
        ParseFault::Memory => None,
    }
}

/// A refusal of a name.
fn named(number: u32, line: u32, name: &String) -> Option<Refusal<'_>>
    ensures { option_map numbered_of result ≡ Some (number_and_line number line) }
{
    Some(Refusal {
        number,
        line,
        reader: Reader::Nothing,
        name: name.as_bytes(),
    })
}

fn of_check(fault: &CheckFault) -> Option<Refusal<'_>>
    ensures { option_map numbered_of result ≡ refusal_in (PlayFault.Check fault.now) }
{
    match fault {
        CheckFault::Unknown { line, name } => named(30, *line, name),
        CheckFault::Twice { line, name } => named(31, *line, name),
        CheckFault::WrongKind { line } => nameless(32, *line),
        CheckFault::WrongType { line } => nameless(33, *line),
        CheckFault::NotConstant { line } => nameless(34, *line),
        CheckFault::BadCount { line } => nameless(35, *line),
        CheckFault::Subscript { line } => nameless(36, *line),
        CheckFault::Protocol { line } => nameless(37, *line),
        CheckFault::Tag { line } => nameless(38, *line),
        CheckFault::Arguments { line } => nameless(39, *line),
        CheckFault::Overlap { line } => nameless(40, *line),
        CheckFault::ListTarget { line } => nameless(41, *line),
        CheckFault::NoMain => nameless(42, 0),
        CheckFault::TooLarge => nameless(43, 0),
        CheckFault::Memory => None,
    }
}

fn of_usage(fault: &UsageFault) -> Option<Refusal<'_>>
    ensures { option_map numbered_of result ≡ refusal_in (PlayFault.Usage fault.now) }
{
    match fault {
        UsageFault::SharedVariable { line, name } => named(50, *line, name),
        UsageFault::TwoInputs { line, name } => named(51, *line, name),
        UsageFault::TwoOutputs { line, name } => named(52, *line, name),
        UsageFault::Memory => None,
    }
}

fn of_code(fault: &CodeFault) -> Option<Refusal<'static>>
    ensures { option_map numbered_of result ≡ refusal_in (PlayFault.Code fault.now) }
{
    match fault {
        CodeFault::TooLarge => nameless(60, 0),
        CodeFault::BadQuantum | CodeFault::Memory => None,
    }
}

/// The refusal of a text that a fault is.
pub(crate) fn refusal_of(fault: &PlayFault) -> Option<Refusal<'_>>
    ensures { option_map numbered_of result ≡ refusal_in fault.now }
{
    match fault {
        PlayFault::Text(fault) => of_text(fault),
        PlayFault::Parse(fault) => of_parse(fault),
        PlayFault::Check(fault) => of_check(fault),
        PlayFault::Usage(fault) => of_usage(fault),
        PlayFault::Code(fault) => of_code(fault),
        PlayFault::Write { .. } | PlayFault::Run(_) | PlayFault::Memory(_) => None,
    }
}

/// The explanation of a fault, where it refuses the text: `FILE:LINE:COLUMN: what is wrong`, the line behind its number, a
/// caret under the column, and a hint where there is one.
///
/// # Errors
///
/// A refused growth.
pub fn explained_fault(
    alloc: Global,
    source: &[u8],
    files: &Files<'_>,
    fault: &PlayFault,
) -> Result<Option<Vec<u8>>, AllocError>
    ensures { IfOk result (TellsFault source.now (files_of files.now) fault.now) }
{
    let Some(refusal) = refusal_of(fault) else {
        return Ok(None);
    };
    let mut explanation = explain(alloc, source, &refusal)?;
    let (file, line) = place_told(files, explanation.line);
    explanation.line = line;
    Ok(Some(explained(alloc, file.as_bytes(), &explanation)?))
}
