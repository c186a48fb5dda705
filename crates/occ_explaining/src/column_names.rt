//! What processes are called over a chart, and which of them have a column of their own.
ghost use Rattle.std.specs.Prelude.{◌≡◌, IfOk, None, map};
ghost use Rattle.std.specs.Option.{option_copied};
ghost use Rattle.occ_explaining.specs.ColumnNames.{branch_name, column_names, column_name, line_of_first, is_named_among, is_word_for, leaves_out, left_out_of, line_or, named_by_line, lower, lowest_behind, nameless, names_some};
ghost use Rattle.occ_explaining.specs.Studied.{NamesNone};
ghost use Rattle.occ_chart.specs.Labels.{texts_of};

use crate::studied::Studied;
use occ_report::{Places, Stop};
use std::alloc::{AllocError, Global};

/// How many processes have a name at most, and may stand at the foot.
pub(crate) const MOST_NAMED: usize = 4_294_967_295;

/// The lower of two lines, where there is a first one.
fn lower(found: Option<u32>, line: u32) -> u32
    ensures { result ≡ lower found line }
{
    match found {
        Some(other) => other.min(line),
        None => line,
    }
}

/// The lowest line behind a line at which one of these stops stands.
fn lowest_behind(line: u32, stops: &[Stop]) -> Option<u32>
    ensures { result ≡ lowest_behind line None stops.now }
{
    let mut found = None;
    let mut rest = stops;
    while let Some((stop, others)) = rest.split_first() {
        if line < stop.line {
            found = Some(lower(found, stop.line));
        }
        rest = others;
    }
    found
}

fn line_of_first(stops: &[Stop]) -> u32
    ensures { result ≡ line_of_first stops.now }
{
    match stops.split_first() {
        Some((stop, _)) => stop.line,
        None => 0,
    }
}

fn named_by_line(alloc: Global, line: u32) -> Result<Vec<u8>, AllocError>
    ensures { IfOk result (λ text. text.items ≡ named_by_line line) }
{
    let text = format!(in alloc; "line {line}")?;
    Vec::from_slice(alloc, text.as_bytes())
}

/// That line; else that of the first of these stops, and this name where there is none.
fn line_or(
    alloc: Global,
    name: &[u8],
    line: Option<u32>,
    stops: &[Stop],
) -> Result<Vec<u8>, AllocError>
    ensures { IfOk result (λ text. text.items ≡ line_or name.now line stops.now) }
{
    if let Some(line) = line {
        return named_by_line(alloc, line);
    }
    match stops.split_first() {
        Some((stop, _)) => named_by_line(alloc, stop.line),
        None => Vec::from_slice(alloc, name),
    }
}

/// What a branch in the body of the main process is called.
fn branch_name(alloc: Global, places: &Places, number: u32) -> Result<Vec<u8>, AllocError>
    ensures { IfOk result (λ text. text.items ≡ branch_name places.now number) }
{
    let stops = places.stops(number);
    let line = lowest_behind(line_of_first(places.stops(0)), stops);
    line_or(alloc, places.name(number), line, stops)
}

/// What a process is called: by its PROC, and by its line where that is the main one.
fn column_name(alloc: Global, places: &Places, number: u32) -> Result<Vec<u8>, AllocError>
    ensures { IfOk result (λ text. text.items ≡ column_name places.now number) }
{
    let name = places.name(number);
    if number > 0 && name == places.name(0) {
        branch_name(alloc, places, number)
    } else {
        Vec::from_slice(alloc, name)
    }
}

/// What the first so many processes are called.
pub(crate) fn column_names(
    alloc: Global,
    places: &Places,
    count: u32,
) -> Result<Vec<Vec<u8>>, AllocError>
    ensures { IfOk result
        (λ names. map (λ v. v.items) names.items ≡ column_names places.now count) }
{
    let mut names = Vec::new(alloc);
    for number in 0..count {
        names.push(column_name(alloc, places, number)?)?;
    }
    Ok(names)
}

/// Whether a word names the process of this name and this number.
fn is_word_for(alloc: Global, name: &[u8], number: usize, word: &str) -> Result<bool, AllocError>
    ensures { IfOk result (λ named. named ≡ is_word_for name.now number word.now) }
{
    let text = format!(in alloc; "{number}")?;
    let behind = format!(in alloc; "p{number}")?;
    let bytes = word.as_bytes();
    Ok(bytes == name || bytes == text.as_bytes() || bytes == behind.as_bytes())
}

/// Whether one of these words names it.
fn is_named_among(
    alloc: Global,
    words: &[&str],
    name: &[u8],
    number: usize,
) -> Result<bool, AllocError>
    ensures { IfOk result (λ named. named ≡ is_named_among words.now name.now number) }
{
    for word in words {
        if is_word_for(alloc, name, number, word)? {
            return Ok(true);
        }
    }
    Ok(false)
}

/// Whether a process has no column of its own.
fn leaves_out(
    alloc: Global,
    only: &[&str],
    without: &[&str],
    name: &[u8],
    number: usize,
) -> Result<bool, AllocError>
    ensures { IfOk result (λ out. out ≡ leaves_out only.now without.now name.now number) }
{
    if !only.is_empty() && !is_named_among(alloc, only, name, number)? {
        return Ok(true);
    }
    is_named_among(alloc, without, name, number)
}

/// Which of the processes with these names have no column of their own: where some are to have one, the others, and those that are to have
/// none.
pub(crate) fn left_out(
    alloc: Global,
    names: &[Vec<u8>],
    only: &[&str],
    without: &[&str],
) -> Result<Vec<bool>, AllocError>
    ensures { IfOk result
        (λ left. left.items ≡ left_out_of only.now without.now (texts_of names.now)) }
{
    let mut left = Vec::new(alloc);
    let mut number = 0;
    let mut rest = names;
    while let Some((first, others)) = rest.split_first() {
        left.push(leaves_out(alloc, only, without, first.as_slice(), number)?)?;
        number += 1;
        rest = others;
    }
    Ok(left)
}

/// Whether a word names one of the processes that have these names.
fn names_some(alloc: Global, names: &[Vec<u8>], word: &str) -> Result<bool, AllocError>
    ensures { IfOk result (λ some. some ≡ names_some 0 (texts_of names.now) word.now) }
{
    let mut number = 0;
    let mut rest = names;
    while let Some((first, others)) = rest.split_first() {
        if is_word_for(alloc, first.as_slice(), number, word)? {
            return Ok(true);
        }
        number += 1;
        rest = others;
    }
    Ok(false)
}

/// The first of these words that names no process of a source, as charts call them.
///
/// # Errors
///
/// A refused growth.
pub fn nameless<'w>(
    studied: &Studied,
    alloc: Global,
    words: &[&'w str],
) -> Result<Option<&'w str>, AllocError>
    ensures { IfOk result (λ word. NamesNone studied.now words.now (option_copied word)) }
{
    let count = studied.code.len().min(MOST_NAMED) as u32;
    let names = column_names(alloc, &studied.places, count)?;
    for word in words {
        if !names_some(alloc, names.as_slice(), word)? {
            return Ok(Some(*word));
        }
    }
    Ok(None)
}
