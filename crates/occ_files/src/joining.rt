//! The texts of several files, one behind the other.
ghost use Rattle.std.specs.Prelude.{◌≡◌, ◌≤◌, ◌<◌, ◌+◌, ◌++◌, OnOk, length, take};
ghost use Rattle.occ_files.specs.Sources.{ended, has_end, line_feeds};

use std::alloc::AllocError;

/// Whether the last line of a text has its end, or there is none.
fn has_end(text: &[u8]) -> bool
    ensures { result ≡ has_end text.now }
{
    match text.last() {
        Some(byte) => *byte == b'\n',
        None => true,
    }
}

/// Ends the last line of a text, where it lacks its end.
fn end_line(text: &mut Vec<u8>) -> Result<(), AllocError>
    ensures { OnOk result (text.new.items ≡ ended text.old.items) }
{
    if !has_end(text) {
        text.push(b'\n')?;
    }
    Ok(())
}

/// Adds the text of a file to those before it, whose last line gets its end. Of all together there are at most `most` bytes.
///
/// # Errors
///
/// A refused growth.
pub fn add_text(joined: &mut Vec<u8>, text: &[u8], most: usize) -> Result<(), AllocError>
    ensures { OnOk result (joined.new.items ≡ take most (ended joined.old.items ++ text.now)) }
{
    end_line(joined)?;
    joined.extend_from_slice(text)?;
    joined.truncate(most);
    Ok(())
}

/// How many line feeds a text has.
fn line_feeds(mut text: &[u8]) -> u32
    requires { length text.now < 4294967295 }
    ensures value { result ≡ line_feeds text.entry.now }
    ensures few { result ≤ length text.entry.now }
{
    let mut count: u32 = 0;
    while let [byte, rest @ ..] = text {
        if *byte == b'\n' {
            count += 1;
        }
        text = rest;
    }
    count
}

/// The number of the last line of a text, once it has its end.
pub fn last_line(text: &[u8]) -> u32
    requires { length text.now < 4294967295 }
    ensures { result ≡ line_feeds (ended text.now) }
{
    let count = line_feeds(text);
    if has_end(text) { count } else { count + 1 }
}
