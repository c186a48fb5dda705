//! The files that a source is made of.
ghost use Rattle.std.specs.Prelude.{◌≡◌, ◌++◌, IfOk, OnOk};
ghost use Rattle.occ_explaining.specs.Files.{beginning, beginnings, files_of, file_name, later_beginnings, place_told};

use occ_files::{place_in_files, printed_name};
use std::alloc::{AllocError, Global};

/// The files of a source.
#[derive(Clone, Copy)]
pub struct Files<'a> {
    /// The name of the first.
    pub first: &'a str,
    /// The names of the others, in order.
    pub more: &'a [&'a str],
    /// The number of the last line of each but the last, in the whole source.
    pub ends: &'a [u32],
}

/// The name of a file, by its number from 0.
fn file_name<'a>(files: &Files<'a>, number: usize) -> &'a str
    ensures { result.now ≡ file_name (files_of files.now) number }
{
    if number == 0 {
        return files.first;
    }
    match files.more.get(number - 1) {
        Some(name) => *name,
        None => files.first,
    }
}

/// The file in which a line of the source stands, and the line's number in it.
pub(crate) fn place_told<'a>(files: &Files<'a>, line: u32) -> (&'a str, u32)
    ensures file { result.0.now ≡ (place_told (files_of files.now) line).0 }
    ensures line { result.1 ≡ (place_told (files_of files.now) line).1 }
{
    let (number, line) = place_in_files(files.ends, line);
    (file_name(files, number), line)
}

/// In which line of the source a file begins that has so many lines before it.
fn beginning(alloc: Global, name: &str, before: u32) -> Result<Vec<u8>, AllocError>
    ensures { IfOk result (λ text. text.items ≡ beginning name.now before) }
{
    let mut text = printed_name(alloc, name.as_bytes())?;
    let line = u64::from(before) + 1;
    let rest = format!(in alloc; " begins at line {line}\n")?;
    text.extend_from_slice(rest.as_bytes())?;
    Ok(text)
}

/// Writes the same of each file but the first.
fn write_beginnings(alloc: Global, out: &mut Vec<u8>, files: &Files<'_>) -> Result<(), AllocError>
    ensures { OnOk result (out.new.items ≡ out.old.items ++ later_beginnings (files_of files.now)) }
{
    let (mut names, mut ends) = (files.more, files.ends);
    while let [name, others @ ..] = names {
        let [end, left @ ..] = ends else {
            break;
        };
        let text = beginning(alloc, *name, *end)?;
        out.extend_from_slice(text.as_slice())?;
        names = others;
        ends = left;
    }
    Ok(())
}

/// In which line of the source each of its files begins, where it has several: a report counts the lines through all of them.
///
/// # Errors
///
/// A refused growth.
pub fn beginnings(alloc: Global, files: &Files<'_>) -> Result<Vec<u8>, AllocError>
    ensures { IfOk result (λ text. text.items ≡ beginnings (files_of files.now)) }
{
    if files.more.is_empty() {
        return Ok(Vec::new(alloc));
    }
    let mut text = beginning(alloc, files.first, 0)?;
    write_beginnings(alloc, &mut text, files)?;
    Ok(text)
}
