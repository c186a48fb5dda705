//! Whether choices are those of a source.
ghost use Rattle.std.specs.Prelude.{IfOk};
ghost use Rattle.occ_explaining.specs.Studied.{PastBy};

use crate::studied::Studied;
use occ_net_replay::Choice;
use occ_report::first_past;
use std::alloc::{AllocError, Global};

/// The turn, from 1, of the first of these choices that names none of the processes that are ready then in the run of a source; none
/// where each choice that the run uses names one.
///
/// # Errors
///
/// A refused growth.
pub fn past_of(
    studied: &Studied,
    alloc: Global,
    keyboard: &[u8],
    choices: &[Choice],
) -> Result<Option<u64>, AllocError>
    ensures { IfOk result (PastBy studied.now keyboard.now choices.now) }
{
    let turn = first_past(alloc, &studied.code, keyboard, choices)?;
    Ok(turn)
}
