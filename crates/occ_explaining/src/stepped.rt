//! The turns of the run of a source.
ghost use Rattle.std.specs.Prelude.{IfOk, OnErr};
ghost use Rattle.occ_explaining.specs.Studied.{SavesSteps, StepsBy};
ghost use Rattle.occ_files.specs.Leaving.{LeavesNothing};

use crate::studied::Studied;
use occ_files::{Folder, whole_text};
use occ_net_replay::Choice;
use occ_report::TurnLines;
use std::alloc::{AllocError, Global};
use std::io;

/// Writes the line of each turn of the run of a source by these choices, with the lines of the source at which turns stop, into the file
/// of this path. Of its text a part is held at a time.
///
/// # Errors
///
/// A refused growth, and what the system says of what it could not do.
pub fn save_steps<F: Folder>(
    folder: &mut F,
    path: &str,
    studied: &Studied,
    alloc: Global,
    keyboard: &[u8],
    choices: &[Choice],
) -> io::Result<()>
    ensures saved { SavesSteps result F.left folder.old folder.new path.now studied.now keyboard.now
        choices.now }
    ensures failed { OnErr result (LeavesNothing (F.left folder.old) (F.left folder.new)) }
{
    let mut lines = TurnLines::new(alloc, &studied.code, &studied.places, keyboard, choices)?;
    folder.save(path, &mut lines)
}

/// The line of each turn of the run of a source by these choices, with the lines of the source at which turns stop.
///
/// # Errors
///
/// A refused growth.
pub(crate) fn steps_of(
    studied: &Studied,
    alloc: Global,
    keyboard: &[u8],
    choices: &[Choice],
) -> Result<Vec<u8>, AllocError>
    ensures { IfOk result (StepsBy studied.now keyboard.now choices.now) }
{
    let mut lines = TurnLines::new(alloc, &studied.code, &studied.places, keyboard, choices)?;
    whole_text(alloc, &mut lines)
}
