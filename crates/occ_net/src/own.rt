//! Whether a turn is of the network's own.
ghost use Rattle.std.specs.Prelude.{◌≡◌, ◌↔◌, IsTrue, Some, slice_get};
ghost use Rattle.occ_net_replay.specs.Replay.{HasTask, turns_at};
ghost use Rattle.occ_net_tables.specs.Holding.{HeldBy};
ghost use Rattle.occ_net.specs.Networks.{InState};
ghost use Rattle.occ_net.specs.Settling.{IsOwn};

use crate::network::Network;
use occ_machine::{Body, Code, Task};
use occ_net_tables::Tables;
use occ_proc::Segment;

/// Whether this is the body of the process with this number.
fn is_own_body(code: &Code, number: u32, body: &Body) -> bool
    ensures { IsTrue result ↔ (slice_get code.now.bodies number ≡ Some body.now) }
{
    match code.body(number as usize) {
        Some(own) => own.is_same(body),
        None => false,
    }
}

/// Whether this is the task of its process.
fn is_own_task(tables: &Tables, task: &Task) -> bool
    ensures { HeldBy tables.now (λ net.
        IsTrue result ↔ HasTask net.tasks task.now.number task.now) }
{
    match tables.task(task.number) {
        Some(own) => own.is_same(task),
        None => false,
    }
}

impl Network {
    /// Whether the turn's body and the task before it are the network's own, by content.
    pub(crate) fn is_own(&self, segment: &Segment) -> bool
        ensures { InState self.now (λ net. IsTrue result ↔ IsOwn self.now net segment.now) }
    {
        let before = segment.before();
        is_own_task(&self.tables, before) && is_own_body(&self.code, before.number, segment.body())
    }

    /// How many turns the process with this number has taken.
    pub(crate) fn turns(&self, number: u32) -> u64
        ensures { InState self.now (λ net. result ≡ turns_at net.tasks number) }
    {
        self.tables.turns(number)
    }
}
