//! What the processes of a source use.
ghost use Rattle.std.specs.Prelude.{IfErr, IfOk};
ghost use Rattle.occ_exploring.specs.Using.{HasUses, RefusesUses};

use occ_ends::{ProcessUses, process_uses};
use occ_play::{PlayFault, unfolded_of};
use std::alloc::Global;

/// What each process of the program of a source uses.
///
/// # Errors
///
/// `Text`, `Parse` and `Check` refuse the source, and `Memory` tells of a refused growth.
pub(crate) fn uses_of(alloc: Global, source: &[u8]) -> Result<Vec<ProcessUses>, PlayFault>
    ensures told { IfOk result (λ uses. HasUses source.now uses.items) }
    ensures refused { IfErr result (RefusesUses source.now) }
{
    let unfolded = unfolded_of(alloc, source)?;
    let uses = process_uses(alloc, unfolded.term())?;
    Ok(uses)
}
