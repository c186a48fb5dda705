//! How far the workers have come: what lies under the lock, and the steps that they take there.
ghost use Rattle.std.specs.Prelude.{◌≡◌, ◌-◌, IfErr, IfNone, IfOk, IfSome, None, false, length};
ghost use Rattle.occ_net.specs.Networks.{with_out};
ghost use Rattle.occ_run.specs.Steps.{AreTurnsOf, GivesBack, IsOpen, IsOver, IsStep, IsWake, KeepsCounts, TakesIn, first_stop};

use crate::stretch::{Stretch, most_turns};
use occ_machine::Task;
use occ_net::{Lease, Network};
use std::alloc::{AllocError, Global};

/// Turns that were taken in a row, or the number of the process that was refused one.
pub type Done = Result<Stretch, u32>;

/// Why a run stops before its limit and before its network ends.
#[derive(Clone, Copy, PartialEq, Eq)]
pub enum Stop {
    /// A thread was refused.
    Spawn,
    /// A growth was refused.
    Memory,
}

/// How far the workers have come.
#[derive(Drop)]
pub struct Progress {
    /// What they run.
    pub network: Network,
    /// How many turns may be settled.
    pub limit: u32,
    /// Why the run stops before that, if it does.
    pub stop: Option<Stop>,
    /// How many processes are out.
    pub out: u32,
    /// At most so many workers that rest are still to be woken.
    pub resting: u32,
}

/// What a worker does next.
#[derive(Drop)]
pub enum Next {
    /// Runs this turn, and at most so many in a row.
    Run(Lease, u32),
    /// Rests until it is woken.
    Rest,
    /// Leaves.
    Leave,
}

/// Which of the workers that rest are to be woken.
#[derive(Clone, Copy, PartialEq, Eq)]
pub enum Wake {
    /// None of them.
    Nobody,
    /// One of them, for which there is a turn to run.
    One,
    /// All of them, since the run is over.
    All,
}

impl Progress {
    /// The start of a run.
    pub fn new(network: Network, limit: u32) -> Progress
        ensures network { result.network ≡ network }
        ensures limit { result.limit ≡ limit }
        ensures stop { result.stop ≡ None }
        ensures out { result.out ≡ 0 }
        ensures resting { result.resting ≡ 0 }
    {
        Progress {
            network,
            limit,
            stop: None,
            out: 0,
            resting: 0,
        }
    }

    /// The number of the next choice; none where the run is over.
    pub fn next_pick(&self) -> Option<u32>
        ensures open { IfSome result (λ pick. (pick ≡ length self.now.network.choices)
            × IsOpen self.now) }
        ensures over { IfNone result (IsOver self.now) }
    {
        let settled = self.network.choices().len();
        if self.stop.is_some() || settled >= self.limit as usize {
            return None;
        }
        if self.network.ending().is_some() {
            return None;
        }
        Some(settled as u32)
    }

    /// Stops the run, since a thread was refused.
    pub fn refuse_thread(&mut self)
        ensures network { self.new.network ≡ self.old.network }
        ensures limit { self.new.limit ≡ self.old.limit }
        ensures stop { self.new.stop ≡ first_stop self.old.stop Stop.Spawn }
        ensures counts { KeepsCounts self.old self.new }
    {
        self.halt(Stop::Spawn);
    }

    /// Stops the run, since a growth was refused beside it.
    pub fn refuse_growth(&mut self)
        ensures network { self.new.network ≡ self.old.network }
        ensures limit { self.new.limit ≡ self.old.limit }
        ensures stop { self.new.stop ≡ first_stop self.old.stop Stop.Memory }
        ensures counts { KeepsCounts self.old self.new }
    {
        self.halt(Stop::Memory);
    }

    /// Stops the run. The first reason stands.
    fn halt(&mut self, stop: Stop)
        ensures network { self.new.network ≡ self.old.network }
        ensures limit { self.new.limit ≡ self.old.limit }
        ensures stop { self.new.stop ≡ first_stop self.old.stop stop }
        ensures counts { KeepsCounts self.old self.new }
    {
        if self.stop.is_none() {
            self.stop = Some(stop);
        }
    }

    /// Takes out the next turn to run, where there is one.
    pub fn next(&mut self, alloc: Global) -> Next
        ensures step { IsStep self.old self.new result }
        ensures limit { self.new.limit ≡ self.old.limit }
    {
        let Some(settled) = self.next_pick() else {
            return Next::Leave;
        };
        match self.network.lease(alloc) {
            Ok(Some(lease)) => {
                self.out = self.out.saturating_add(1);
                let left = self.limit.saturating_sub(settled);
                let most = most_turns(lease.body.quantum()).min(left);
                Next::Run(lease, most)
            }
            Ok(None) => {
                self.resting = self.resting.saturating_add(1);
                Next::Rest
            }
            Err(AllocError) => {
                self.halt(Stop::Memory);
                Next::Leave
            }
        }
    }

    /// Takes in turns that were taken in a row, which are the network's own, or gives their process back. The task that
    /// the network had, where they were settled, is handed out.
    pub fn take_in(&mut self, alloc: Global, done: Done) -> Option<Task>
        requires { IfOk done (AreTurnsOf self.old.network) }
        ensures limit { self.new.limit ≡ self.old.limit }
        ensures ran { IfOk done (λ s. TakesIn self.old self.new s.number s.count) }
        ensures refused { IfErr done (GivesBack self.old self.new) }
        ensures out { self.new.out ≡ self.old.out - 1 }
        ensures resting { self.new.resting ≡ self.old.resting }
    {
        self.out = self.out.saturating_sub(1);
        match done {
            Ok(stretch) => self.take_stretch(alloc, stretch),
            Err(refused) => {
                self.give_back(refused);
                None
            }
        }
    }

    fn take_stretch(&mut self, alloc: Global, stretch: Stretch) -> Option<Task>
        requires { AreTurnsOf self.old.network stretch }
        ensures limit { self.new.limit ≡ self.old.limit }
        ensures takes { TakesIn self.old self.new stretch.number stretch.count }
        ensures counts { KeepsCounts self.old self.new }
    {
        let Stretch {
            number,
            count,
            after,
        } = stretch;
        let Some(pick) = self.next_pick() else {
            let_go(after);
            self.network.release(number);
            return None;
        };
        if count > self.limit - pick {
            let_go(after);
            self.network.release(number);
            return None;
        }
        match self.network.settle_all(alloc, number, count, after, pick) {
            Ok(spent) => Some(spent),
            Err(after) => {
                let_go(after);
                self.give_back(number);
                None
            }
        }
    }

    /// The process is in again, and the run stops, since a growth was refused.
    fn give_back(&mut self, number: u32)
        ensures network { self.new.network ≡ with_out self.old.network number false }
        ensures limit { self.new.limit ≡ self.old.limit }
        ensures stop { self.new.stop ≡ first_stop self.old.stop Stop.Memory }
        ensures counts { KeepsCounts self.old self.new }
    {
        self.network.release(number);
        self.halt(Stop::Memory);
    }

    /// Which workers are to be woken now; they count as woken.
    pub fn wake(&mut self) -> Wake
        ensures network { self.new.network ≡ self.old.network }
        ensures limit { self.new.limit ≡ self.old.limit }
        ensures stop { self.new.stop ≡ self.old.stop }
        ensures out { self.new.out ≡ self.old.out }
        ensures wakes { IsWake self.old self.new result }
    {
        if self.resting == 0 {
            return Wake::Nobody;
        }
        if self.next_pick().is_none() {
            self.resting = 0;
            return Wake::All;
        }
        if self.network.ready_count() > self.out as usize {
            self.resting -= 1;
            return Wake::One;
        }
        Wake::Nobody
    }
}

/// A task that is no longer wanted.
fn let_go(task: Task) {
    drop(task);
}
