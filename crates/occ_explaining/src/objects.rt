//! A refusal as an object of JSON.
ghost use Rattle.std.specs.Prelude.{◌≡◌, ◌≤◌, IfOk, drop, length, map};
ghost use Rattle.occ_explaining.specs.Files.{files_of};
ghost use Rattle.occ_text.specs.Spelling.{is_name_part};
ghost use Rattle.occ_explaining.specs.Objects.{TellsObject, word_end, name_length, object_told, refusal_name, refusal_name_in};

use crate::files::{Files, place_told};
use crate::refusal_names::NAMES;
use crate::refused::refusal_of;
use occ_explain::{Explanation, explain};
use occ_play::PlayFault;
use occ_shown::{Member, Value, object_line};
use std::alloc::{AllocError, Global};

/// Whether a name may have this byte.
fn is_name_part(byte: u8) -> bool
    ensures { result ≡ is_name_part byte }
{
    byte.is_ascii_alphanumeric() || byte == b'.'
}

/// How many bytes of a text a name may have, from its first on.
fn name_length(mut bytes: &[u8]) -> usize
    ensures value { result ≡ name_length bytes.entry.now }
    ensures within { result ≤ length bytes.entry.now }
{
    let mut count = 0;
    while let [byte, rest @ ..] = bytes {
        if !is_name_part(*byte) {
            break;
        }
        count += 1;
        bytes = rest;
    }
    count
}

/// The column behind the word that stands in a column of a line.
fn word_end(line: &[u8], column: usize) -> usize
    ensures { result ≡ word_end line.now column }
{
    let before = column.saturating_sub(1).min(line.len());
    let rest = &line[before..];
    let long = name_length(rest).max(rest.len().min(1));
    before + long + 1
}

/// The name beside a number.
fn find(mut rows: &[(u32, &'static str)], number: u32) -> &'static str
    ensures { result.now
        ≡ refusal_name_in (map (λ row. (row.0, row.1.now)) rows.entry.now) number }
{
    while let [row, rest @ ..] = rows {
        if row.0 == number {
            return row.1;
        }
        rows = rest;
    }
    ""
}

/// The name of a refusal, by its number.
#[tactic(auto, unfolding(crate::specs::Objects::refusal_name))]
fn refusal_name(number: u32) -> &'static str
    ensures { result.now ≡ refusal_name number }
{
    find(&NAMES, number)
}

/// The object of a refusal of this number.
fn object_of<'x>(
    alloc: Global,
    file: &'x str,
    number: u32,
    explanation: &'x Explanation<'_>,
) -> Result<Vec<u8>, AllocError>
    ensures { IfOk result (λ text. text.items ≡ object_told file.now number explanation.now) }
{
    let (line, column) = (u64::from(explanation.line), explanation.column);
    let end = word_end(explanation.source, column);
    let members = [
        Member {
            name: "file",
            value: Value::Exact(file),
        },
        Member {
            name: "line",
            value: Value::Number(line),
        },
        Member {
            name: "column",
            value: Value::Number(column as u64),
        },
        Member {
            name: "end",
            value: Value::Number(end as u64),
        },
        Member {
            name: "number",
            value: Value::Number(u64::from(number)),
        },
        Member {
            name: "name",
            value: Value::Text(refusal_name(number).as_bytes()),
        },
        Member {
            name: "text",
            value: Value::Text(explanation.wrong.as_slice()),
        },
        Member {
            name: "hint",
            value: Value::Text(explanation.hint.as_slice()),
        },
    ];
    object_line(alloc, "refused", &members)
}

/// A refusal as an object of JSON on a line, where the fault refuses the text: the file, the line, the column, the column behind the
/// word that stands there, the number, the name, what is wrong and the hint.
///
/// # Errors
///
/// A refused growth.
pub fn refusal_object(
    alloc: Global,
    source: &[u8],
    files: &Files<'_>,
    fault: &PlayFault,
) -> Result<Option<Vec<u8>>, AllocError>
    ensures { IfOk result (TellsObject source.now (files_of files.now) fault.now) }
{
    let Some(refusal) = refusal_of(fault) else {
        return Ok(None);
    };
    let mut explanation = explain(alloc, source, &refusal)?;
    let (file, line) = place_told(files, explanation.line);
    explanation.line = line;
    Ok(Some(object_of(alloc, file, refusal.number, &explanation)?))
}
