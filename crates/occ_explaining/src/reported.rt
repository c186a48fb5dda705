//! Reports of what a play came to.
ghost use Rattle.std.specs.Prelude.{◌≡◌, IfOk};
ghost use Rattle.occ_choices.specs.Plans.{choices_of};
ghost use Rattle.occ_explaining.specs.Studied.{ReportsBy};

use crate::studied::Studied;
use occ_choices::Plan;
use occ_net_replay::Choice;
use occ_report::report;
use std::alloc::{AllocError, Global};

/// The report of the run of a source by these choices: after how many communications it stands where it stands, and of each
/// process that is left its PROC, its line, what it waits for and who is at the other end; and processes that wait in a circle.
///
/// # Errors
///
/// A refused growth.
pub fn report_of(
    studied: &Studied,
    alloc: Global,
    keyboard: &[u8],
    choices: &[Choice],
) -> Result<Vec<u8>, AllocError>
    ensures { IfOk result (ReportsBy studied.now keyboard.now choices.now) }
{
    let plan = plan_of(alloc, choices)?;
    let uses = studied.uses.as_slice();
    let source = studied.source.as_slice();
    let bytes = report(
        alloc,
        &studied.code,
        uses,
        keyboard,
        &plan,
        &studied.places,
        source,
        &studied.unfolded,
    )?;
    Ok(bytes)
}

/// The plan of these choices.
pub(crate) fn plan_of(alloc: Global, choices: &[Choice]) -> Result<Plan, AllocError>
    ensures { IfOk result (λ plan. choices_of plan ≡ choices.now) }
{
    Ok(Plan::Choices(Vec::from_slice(alloc, choices)?))
}
