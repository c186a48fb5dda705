//! Whether a turn looks past the bytes that the keyboard has so far, and bytes that come behind them.
ghost use Rattle.std.specs.Prelude.{◌≡◌, ◌↔◌, IsFalse, IsTrue, None};
ghost use Rattle.occ_live_laws.specs.Live.{IsDeaf};
ghost use Rattle.occ_net_tables.specs.Halves.{HasOwnTask, LooksPastBytes, StaysWithinBytes, with_used};
ghost use Rattle.occ_net_tables.specs.Choosing.{offered_by};

use crate::choosing::{choose_arm, is_same_arm};
use crate::tables::Tables;
use crate::turning::Begun;
use occ_machine::Wait;
use occ_proc::TurnEnd;
use occ_term::KEYBOARD;

impl Tables {
    /// Whether this turn looks past the keyboard's bytes: none of them is left, and what the process
    /// does next depends on whether there is another one.
    #[inline(always)]
    pub fn asks(&self, keyboard: &[u8], begun: Begun, pick: u32) -> bool
        requires { HasOwnTask self.now begun.number }
        ensures within { IsFalse result → StaysWithinBytes keyboard.now self.now begun pick }
        ensures past { IsTrue result → LooksPastBytes keyboard.now self.now begun pick }
    {
        if self.used < keyboard.len() {
            return false;
        }
        match begun.end {
            TurnEnd::Awaits(chan) => chan == KEYBOARD,
            TurnEnd::Other => match &self.tasks[begun.number as usize] {
                Some(task) => self.hears(&task.wait, pick),
                None => unreachable!(),
            },
            TurnEnd::Ready | TurnEnd::Offers(_, _) | TurnEnd::OffersOne(_, _, _) => false,
        }
    }

    /// Whether what a process does that stands at this depends on whether the keyboard has a byte: it is at an input from
    /// it, or at a choice that would take another arm.
    fn hears(&self, wait: &Wait, pick: u32) -> bool
        ensures { IsFalse result ↔ IsDeaf pick (offered_by None self.now.offering.items) wait.now }
    {
        match wait {
            Wait::Awaits { chan } => *chan == KEYBOARD,
            Wait::Chooses { pri, arms } => {
                let arms = arms.as_slice();
                let with = choose_arm(Some(KEYBOARD), &self.offering, *pri, pick, arms);
                let without = choose_arm(None, &self.offering, *pri, pick, arms);
                !is_same_arm(arms, with, without)
            }
            _ => false,
        }
    }

    /// The bytes that come behind the first `known` ones are the keyboard's next ones, where all of those are taken.
    pub fn reach(&mut self, known: usize)
        ensures { self.new ≡ with_used self.old known }
    {
        self.used = known;
    }
}
