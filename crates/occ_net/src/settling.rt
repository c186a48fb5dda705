//! Turns that were taken elsewhere are taken in.
ghost use Rattle.std.specs.Prelude.{◌≡◌, IfErr, IfOk, OnOk, Some, slice_get};
ghost use Rattle.std.specs.Arc.{arc_value};
ghost use Rattle.occ_machine.specs.SameStop.{IsRising};
ghost use Rattle.occ_net.specs.Networks.{InState};
ghost use Rattle.occ_net.specs.Settling.{IsAmong, RefusesTurn, HasSettled, CanSettle};

use crate::fault::NetFault;
use crate::leasing::{Lease, mark};
use crate::network::Network;
use occ_net_replay::Choice;
use occ_proc::Segment;
use std::alloc::Global;

/// The place of a number that is among rising ones.
pub(crate) fn place_of(ready: &[u32], number: u32) -> usize
    requires rising { IsRising ready.now }
    requires among { IsAmong ready.now number }
    ensures { slice_get ready.now result ≡ Some number }
{
    match ready.binary_search(&number) {
        Ok(place) => place,
        Err(_) => unreachable!(),
    }
}

impl Network {
    /// Takes a turn in, and what it makes possible happens by this pick. The turn's body and the task
    /// before it have to be the network's own; whether the process is out is not asked, and it is in
    /// from then on. The error hands the turn back; then nothing has changed.
    ///
    /// # Errors
    ///
    /// `Over` after an ending, before all else; then `Stale` for a turn that is not of the network's own,
    /// and `Memory` for a refused growth.
    pub fn settle(
        &mut self,
        alloc: Global,
        segment: Segment,
        pick: u32,
    ) -> Result<(), (Segment, NetFault)>
        ensures settled { OnOk result
            (InState self.old (λ net. HasSettled self.old net segment pick self.new)) }
        ensures refused { IfErr result
            (λ e. InState self.old (λ net. RefusesTurn self.old net segment e.1)) }
        ensures back { IfErr result (λ e. e.0 ≡ segment) }
        ensures same { IfErr result (λ _. self.new ≡ self.old) }
    {
        if let Some(ending) = self.ending() {
            return Err((segment, NetFault::Over { ending }));
        }
        if !self.is_own(&segment) {
            let number = segment.before().number;
            let turns = self.turns(number);
            return Err((segment, NetFault::Stale { number, turns }));
        }
        match self.settle_own(alloc, segment, pick) {
            Ok(_spent) => Ok(()),
            Err(segment) => Err((segment, NetFault::Memory)),
        }
    }

    /// Takes a turn in as `settle` does, for a caller who knows that the network goes on and that the
    /// turn is its own: nothing is compared. What the turn was leased with is no longer wanted, and is
    /// handed out; so it can be let go outside a lock.
    ///
    /// # Errors
    ///
    /// A refused growth hands the turn back; then nothing has changed.
    pub fn settle_own(
        &mut self,
        alloc: Global,
        segment: Segment,
        pick: u32,
    ) -> Result<Lease, Segment>
        requires { InState self.old (λ net. CanSettle self.old net segment) }
        ensures settled { IfOk result
            (λ _. InState self.old (λ net. HasSettled self.old net segment pick self.new)) }
        ensures spent { IfOk result
            (λ l. (arc_value l.body ≡ segment.body) × (l.task ≡ segment.before)) }
        ensures back { IfErr result (λ s. s ≡ segment) }
        ensures same { IfErr result (λ _. self.new ≡ self.old) }
    {
        self.code.compiled();
        if self.choices.reserve(1).is_err() {
            return Err(segment);
        }
        let (body, before, after) = segment.into_parts();
        let number = before.number;
        let place = place_of(self.tables.ready(), number);
        match self.tables.settle_turn(
            alloc,
            &self.code,
            &self.keyboard,
            place,
            number,
            after,
            pick,
        ) {
            Ok(()) => {}
            Err((after, _)) => return Err(Segment::from_parts(body, before, after)),
        }
        let which = place as u32;
        self.choices.push_reserved(Choice { which, pick });
        mark(&mut self.out, number, false);
        Ok(Lease { body, task: before })
    }
}
