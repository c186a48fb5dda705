//! The trace of a run as a text of its own.
ghost use Rattle.std.specs.Prelude.{IfOk, OnErr, OnOk};
ghost use Rattle.occ_net_tables.specs.Outcomes.{IsOutcome};
ghost use Rattle.occ_explaining.specs.Studied.{SavesTrace, TracesBy};
ghost use Rattle.occ_files.specs.Leaving.{LeavesNothing};

use crate::reported::plan_of;
use crate::studied::Studied;
use crate::trace_pieces::TracePieces;
use occ_files::{Folder, whole_text};
use occ_net_replay::Choice;
use occ_net_tables::{Outcome, run};
use std::alloc::{AllocError, Global};
use std::io;

/// How a trace is written.
#[derive(Clone, Copy, Debug, Drop)]
pub enum Form {
    /// As the lines that an answer has of it.
    Lines,
    /// As an object of JSON for each communication, and one for the ending.
    Json,
}

/// What the run of a source by these choices comes to.
fn outcome_of(
    studied: &Studied,
    alloc: Global,
    keyboard: &[u8],
    choices: &[Choice],
) -> Result<Outcome, AllocError>
    ensures { IfOk result (IsOutcome studied.now.code keyboard.now choices.now) }
{
    let plan = plan_of(alloc, choices)?;
    run(alloc, &studied.code, keyboard, &plan)
}

/// Writes the trace of the run of a source by these choices, with its ending, in this form, into the file of this path. Of its text a
/// part is held at a time.
///
/// # Errors
///
/// A refused growth, and what the system says of what it could not do.
pub fn save_trace<F: Folder>(
    folder: &mut F,
    path: &str,
    studied: &Studied,
    alloc: Global,
    keyboard: &[u8],
    choices: &[Choice],
    form: Form,
) -> io::Result<()>
    ensures saved { SavesTrace result F.left folder.old folder.new path.now studied.now keyboard.now
        choices.now form }
    ensures failed { OnErr result (LeavesNothing (F.left folder.old) (F.left folder.new)) }
{
    let outcome = outcome_of(studied, alloc, keyboard, choices)?;
    let mut pieces = TracePieces::new(alloc, studied.code.channels(), &outcome, form);
    folder.save(path, &mut pieces)
}

/// The trace of the run of a source by these choices, with its ending, in this form.
///
/// # Errors
///
/// A refused growth.
pub(crate) fn trace_of(
    studied: &Studied,
    alloc: Global,
    keyboard: &[u8],
    choices: &[Choice],
    form: Form,
) -> Result<Vec<u8>, AllocError>
    ensures { IfOk result (TracesBy studied.now keyboard.now choices.now form) }
{
    let outcome = outcome_of(studied, alloc, keyboard, choices)?;
    let mut pieces = TracePieces::new(alloc, studied.code.channels(), &outcome, form);
    whole_text(alloc, &mut pieces)
}
