//! Turns that a process took in a row are taken in.
ghost use Rattle.std.specs.Prelude.{◌≡◌, ◌+◌, ◌<◌, ◌≤◌, ◌^◌, IfErr, IfOk, length, vec_capacity, vec_len};
ghost use Rattle.occ_net_replay.specs.Replay.{HasTask};
ghost use Rattle.occ_net.specs.Networks.{InState};
ghost use Rattle.occ_net.specs.Stretches.{SettlesAll, TakesAll, choices_from};

use crate::leasing::mark;
use crate::network::Network;
use crate::settling::place_of;
use occ_machine::Task;
use occ_net_replay::Choice;
use std::alloc::Global;

/// Puts so many choices of one place behind the others, with picks that count on from this one.
fn push_all(choices: &mut Vec<Choice>, which: u32, pick: u32, count: u32)
    requires room { vec_len choices.old + count ≤ vec_capacity choices.old }
    requires picks { pick + count < 2 ^ 32 }
    ensures { choices.new.items ≡ choices_from which pick choices.old.items count }
{
    for more in 0..count {
        choices.push_reserved(Choice {
            which,
            pick: pick + more,
        });
    }
}

impl Network {
    /// Takes in so many turns that a process took in a row, each but the last of which left it ready, and what the last one makes
    /// possible happens by its pick. Their picks count on from this one. The caller knows that the network goes on and
    /// that the turns are of its own. This is the process's task after them; the one that the network had is no longer wanted,
    /// and is handed out.
    ///
    /// # Errors
    ///
    /// A refused growth hands the task back; then nothing has changed.
    pub fn settle_all(
        &mut self,
        alloc: Global,
        number: u32,
        count: u32,
        after: Task,
        pick: u32,
    ) -> Result<Task, Task>
        requires turns { InState self.old (λ net. TakesAll self.old net number count after) }
        requires picks { pick + count < 2 ^ 32 }
        ensures settled { IfOk result (λ _. SettlesAll self.old number count pick self.new) }
        ensures spent { IfOk result (λ t. InState self.old (λ net. HasTask net.tasks number t)) }
        ensures back { IfErr result (λ t. t ≡ after) }
        ensures same { IfErr result (λ _. self.new ≡ self.old) }
    {
        self.code.compiled();
        if self.choices.reserve(count as usize).is_err() {
            return Err(after);
        }
        let place = place_of(self.tables.ready(), number);
        let last = pick + (count - 1);
        let spent = match self.tables.settle_last(
            alloc,
            &self.code,
            &self.keyboard,
            place,
            number,
            after,
            last,
        ) {
            Ok(spent) => spent,
            Err((after, _)) => return Err(after),
        };
        push_all(&mut self.choices, place as u32, pick, count);
        mark(&mut self.out, number, false);
        Ok(spent)
    }
}
