//! Turns that a worker takes in a row, outside the lock.
ghost use Rattle.std.specs.Prelude.{◌≡◌, ◌<◌, ◌↔◌, IfErr, IfOk, IsTrue};
ghost use Rattle.std.specs.Arc.{arc_value};
ghost use Rattle.occ_net.specs.Leases.{CanTakeTurn};
ghost use Rattle.occ_proc.specs.Stretches.{InRow};
ghost use Rattle.occ_net.specs.Stretches.{CanGoOn};

use crate::gate::Gate;
use occ_machine::{Task, Wait};
use occ_net::Lease;
use occ_proc::Scratch;
use std::alloc::Global;

/// How many stops of loops a stretch comes to at most, but for its first turn. So a worker comes back to the network in some
/// microseconds, or after one turn.
const STOPS: u32 = 256;

/// Turns that a process took in a row.
#[derive(Drop)]
pub struct Stretch {
    /// The number of the process.
    pub number: u32,
    /// How many turns it took.
    pub count: u32,
    /// Its task after them.
    pub after: Task,
}

/// How many turns of this quantum a stretch has at most.
pub fn most_turns(quantum: u32) -> u32 {
    if quantum == 0 {
        return 1;
    }
    STOPS / quantum
}

/// Whether a process that stands at this is ready, and has nothing to take.
fn is_ready(wait: &Wait) -> bool
    ensures { IsTrue result ↔ (wait.now ≡ Wait.Ready) }
{
    match wait {
        Wait::Ready => true,
        _ => false,
    }
}

/// Takes a turn by the gate, and more while they leave the process ready, up to so many. The error is the number of the process,
/// after a refused growth.
pub fn take_turns<G: Gate>(
    alloc: Global,
    gate: &G,
    scratch: &mut Scratch,
    lease: Lease,
    most: u32,
) -> Result<Stretch, u32>
    requires can { CanTakeTurn lease }
    requires goes_on { CanGoOn lease }
    ensures number { IfOk result (λ s. s.number ≡ lease.task.number) }
    ensures some { IfOk result (λ s. 0 < s.count) }
    ensures turns { IfOk result (λ s. InRow (arc_value lease.body) lease.task s.count s.after) }
    ensures refused { IfErr result (λ number. number ≡ lease.task.number) }
{
    let Lease { body, mut task } = lease;
    let number = task.number;
    if gate.go_on(alloc, scratch, &body, &mut task).is_err() {
        return Err(number);
    }
    let mut count = 1;
    while count < most && is_ready(&task.wait) {
        match gate.go_on(alloc, scratch, &body, &mut task) {
            Ok(()) => count += 1,
            Err(_) => return Err(number),
        }
    }
    Ok(Stretch {
        number,
        count,
        after: task,
    })
}
