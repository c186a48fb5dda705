//! What a terminal is given: explanations without being asked, with their first line in bold.
ghost use Rattle.std.specs.Prelude.{◌≡◌, ◌≤◌, ◌<◌, IfOk, length};
ghost use Rattle.occ_program.specs.Terminals.{EndsLine, IsInBold, explains};

use std::alloc::{AllocError, Global};
use std::env;
use std::env::VarError;
use std::rt::Env;

/// Whether explanations are printed: where the words ask for them, and on a terminal unless they decline.
pub(crate) fn explains(asked: bool, declined: bool, on_terminal: bool) -> bool
    ensures { result ≡ explains asked declined on_terminal }
{
    asked || on_terminal && !declined
}

/// Whether the environment allows bold letters: TERM is not `dumb`, and NO_COLOR is empty or not set.
pub(crate) fn allows_bold<R: Env + AllocGlobal>(rt: &R) -> bool {
    let is_dumb = match env::var(rt, "TERM") {
        Ok(name) => name.as_str() == "dumb",
        Err(_) => false,
    };
    let is_plain = match env::var(rt, "NO_COLOR") {
        Ok(value) => !value.is_empty(),
        Err(VarError::NotPresent) => false,
        Err(_) => true,
    };
    !is_dumb && !is_plain
}

/// Where the first line of a text ends.
fn line_end(text: &[u8]) -> usize
    ensures within { result ≤ length text.now }
    ensures ends { EndsLine text.now result }
{
    for place in 0..text.len() {
        if text[place] == b'\n' {
            return place;
        }
    }
    text.len()
}

/// The text with its first line in bold.
pub(crate) fn in_bold(alloc: Global, text: &[u8]) -> Result<Vec<u8>, AllocError>
    ensures { IfOk result (λ shown. IsInBold text.now shown.items) }
{
    let end = line_end(text);
    let mut shown = Vec::new(alloc);
    shown.extend_from_slice(b"\x1b[1m")?;
    shown.extend_from_slice(&text[..end])?;
    shown.extend_from_slice(b"\x1b[0m")?;
    shown.extend_from_slice(&text[end..])?;
    Ok(shown)
}
