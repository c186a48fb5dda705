//! What the tables hold, for those who look.
ghost use Rattle.std.specs.Prelude.{◌≡◌, IfNone, IfSome};
ghost use Rattle.occ_machine.specs.declared.task.Task.{Task};
ghost use Rattle.occ_net_replay.specs.Replay.{ready_from, turns_at};
ghost use Rattle.occ_net_tables.specs.Holding.{HeldBy};
ghost use Rattle.occ_net_tables.specs.Tasks.{HasNoTask, HoldsTask};

use crate::forking::turns_at;
use crate::tables::Tables;
use occ_machine::Task;

impl Tables {
    /// The numbers of the processes that may take a turn, in rising order.
    pub fn ready(&self) -> &[u32]
        ensures { HeldBy self.now (λ net. result.now ≡ ready_from 0 net.tasks) }
    {
        &self.ready
    }

    /// The task of the process with this number, where it has begun.
    pub fn task(&self, number: u32) -> Option<&Task>
        ensures some { IfSome result (λ t. HoldsTask self.now number t.now) }
        ensures none { IfNone result (HasNoTask self.now number) }
    {
        match self.tasks.get(number as usize) {
            Some(Some(task)) => Some(task),
            _ => None,
        }
    }

    /// How many turns the process with this number has taken; none where it has not begun.
    pub fn turns(&self, number: u32) -> u64
        ensures { HeldBy self.now (λ net. result ≡ turns_at net.tasks number) }
    {
        turns_at(&self.tasks, number)
    }
}
