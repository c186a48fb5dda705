//! The one answer of a source without an ALT.
ghost use Rattle.std.specs.Prelude.{◌≡◌, IfErr, IfNone, IfOk, IfSome};
ghost use Rattle.occ_exploring.specs.Alone.{IsOnlyFor, IsUntoldFor, only_status, only_text, turns_within};
ghost use Rattle.occ_play.specs.Playing.{Refuses};

use crate::lines::{write_answer, write_counted};
use crate::using::uses_of;
use occ_explore::{Answer, Asked, only_answer};
use occ_play::{Options, PlayFault, code_of};
use occ_term::Ending;
use std::alloc::{AllocError, Global};

/// How many turns of one run a megabyte is reckoned to hold.
const TURNS: u64 = 16_384;

/// How many turns one run may have that tells the only answer: as many as a search may have states, where so many megabytes hold them.
pub fn turns_within(most: u32, memory: u32) -> u32
    ensures { result ≡ turns_within most memory }
{
    let turns = u64::from(memory) * TURNS;
    if turns < u64::from(most) {
        turns as u32
    } else {
        most
    }
}

/// The one answer that all lists of choices come to by which a source can be played on the keyboard's bytes, by turns of these
/// options: where its program has no ALT, and one run of at most `most` turns comes to an end without a fault. None where that
/// cannot be said, for which a search is needed.
///
/// # Errors
///
/// As of `explore_in`.
pub fn only_answer_in(
    options: &Options,
    alloc: Global,
    source: &[u8],
    keyboard: &[u8],
    most: u32,
) -> Result<Option<Answer>, PlayFault>
    ensures only { IfOk result
        (λ found. IfSome found (IsOnlyFor options.now source.now keyboard.now)) }
    ensures untold { IfOk result
        (λ found. IfNone found (IsUntoldFor options.now source.now keyboard.now most)) }
    ensures refused { IfErr result (Refuses options.now source.now) }
{
    let code = code_of(options, alloc, source)?;
    let uses = uses_of(alloc, source)?;
    let found = only_answer(alloc, uses.as_slice(), &code, keyboard, most)?;
    Ok(found)
}

/// What is printed of the one answer: its line, how long each run is, and why there is no other.
///
/// # Errors
///
/// A refused growth.
pub fn only_text(alloc: Global, asked: Asked, answer: &Answer) -> Result<Vec<u8>, AllocError>
    ensures { IfOk result (λ bytes. bytes.items ≡ only_text asked answer.now) }
{
    let mut out = Vec::new(alloc);
    write_answer(alloc, &mut out, asked, 1, answer)?;
    out.extend_from_slice(b"each run ends after ")?;
    write_counted(alloc, &mut out, answer.choices.len(), b"turn")?;
    out.extend_from_slice(b"\none answer: the program has no ALT\n")?;
    Ok(out)
}

/// The exit status of the one answer, as of a search that finds it alone: 2 where it has stopped, 3 where it is a fault, else 0.
pub fn status_of_only(answer: &Answer) -> u8
    ensures { result ≡ only_status answer.now }
{
    match answer.ending {
        Ending::Fault(_) => 3,
        Ending::Stopped | Ending::StoppedBy(_) => 2,
        Ending::Ended | Ending::Limit => 0,
    }
}
