//! A network, and what is read from it.
ghost use Rattle.std.specs.Prelude.{◌≡◌, ◌↔◌, ◌<◌, IfErr, IfNone, IfOk, IfSome, IsSome, None, Some, length, replicate, false};
ghost use Rattle.occ_net_replay.specs.Replay.{Net, ending_of};
ghost use Rattle.occ_net.specs.Networks.{InState, IsNetwork, IsState, fresh, ready_in, ready_task};
ghost use Rattle.occ_net.specs.Histories.{HasHistories, IsHistory};
ghost use Rattle.occ_net.specs.Outcomes.{EndsClean, IsReplayOf};

use crate::fault::NetFault;
use crate::history::History;
use occ_machine::{Code, Task};
use occ_net_replay::Choice;
use occ_net_tables as tables;
use occ_net_tables::{Tables, Trace};
use occ_term::Ending;
use std::alloc::{AllocError, Global};
use std::marker::Model;

/// The processes of a program, between two turns.
///
/// Contracts see what it was made of: its code and keyboard, the choices of its turns, and which
/// processes are out. The replay of these is the state that it is in.
pub struct Network {
    pub(crate) code: Code,
    pub(crate) keyboard: Vec<u8>,
    pub(crate) tables: Tables,
    /// Each `which` is a place among the processes that were ready then.
    pub(crate) choices: Vec<Choice>,
    /// By process number.
    pub(crate) out: Vec<bool>,
}

impl Drop for Network {
    fn drop(self) {
        let Network {
            code: _,
            keyboard: _,
            tables: _,
            choices: _,
            out: _,
        } = self;
    }
}

impl Model for Network {
    ghost use Rattle.occ_net.specs.Networks.{Past};

    ghost Value = { Past };

    ghost use Rattle.occ_net.specs.Keeping.{KeepsReplay};

    ghost view = { λ n. record { program = n.code; keyboard = n.keyboard.items; choices = n.choices.items; out = n.out.items } };

    ghost invariant = { λ n. KeepsReplay (record { program = n.code; keyboard = n.keyboard.items; choices = n.choices.items; out = n.out.items }) n.tables };
}

/// So many marks that are not set.
pub(crate) fn no_marks(alloc: Global, count: usize) -> Result<Vec<bool>, AllocError>
    ensures { IfOk result (λ marks. marks.items ≡ replicate count false) }
{
    vec![in alloc; false; count]
}

impl Network {
    /// The network before its first turn.
    ///
    /// # Errors
    ///
    /// `Memory` alone.
    pub fn new(alloc: Global, code: Code, keyboard: Vec<u8>) -> Result<Network, NetFault>
        ensures ok { IfOk result (λ n. n ≡ fresh code keyboard.items) }
        ensures refused { IfErr result (λ fault. fault ≡ NetFault.Memory) }
    {
        code.compiled();
        let tables = Tables::new(alloc, &code)?;
        let out = no_marks(alloc, code.len())?;
        Ok(Network {
            code,
            keyboard,
            tables,
            choices: Vec::new(alloc),
            out,
        })
    }

    /// What every network keeps: it is in the state that the replay of its choices comes to.
    pub fn replayed(&self)
        ensures { IsNetwork self.now }
    {
        self.code.compiled();
    }

    /// What every state of a network keeps: on each channel the messages output are those input, in
    /// order, each of the channel's protocol, and no fault was noted where it has ended.
    pub fn obeyed(&self)
        ensures histories { InState self.now (HasHistories self.now.program) }
        ensures clean { InState self.now (EndsClean self.now.program) }
    {
        self.code.compiled();
    }

    /// Its code.
    pub fn code(&self) -> &Code
        ensures { result.now ≡ self.now.program }
    {
        &self.code
    }

    /// The bytes of the keyboard.
    pub fn keyboard(&self) -> &[u8]
        ensures { result.now ≡ self.now.keyboard }
    {
        &self.keyboard
    }

    /// The choices of its turns, in order. Each `which` is a place among the ready processes.
    pub fn choices(&self) -> &[Choice]
        ensures { result.now ≡ self.now.choices }
    {
        &self.choices
    }

    /// How many processes may take a turn.
    pub fn ready_count(&self) -> usize
        ensures { (net : Net) → IsState self.now net → result ≡ length (ready_in net) }
    {
        self.tables.ready().len()
    }

    /// The task of the process at this place among those that may take a turn, in the order of their
    /// numbers.
    pub fn ready_at(&self, i: usize) -> Option<&Task>
        ensures some { IfSome result (λ t. (net : Net) → IsState self.now net
            → ready_task net i ≡ Some t.now) }
        ensures none { IfNone result ((net : Net) → IsState self.now net
            → ready_task net i ≡ None) }
    {
        match self.tables.ready().get(i) {
            Some(number) => self.tables.task(*number),
            None => None,
        }
    }

    /// How it has ended, if it has.
    pub fn ending(&self) -> Option<Ending>
        ensures { (net : Net) → IsState self.now net
            → result ≡ ending_of self.now.program.errors net }
    {
        self.tables.ending(self.code.errors())
    }

    /// The communications that there were, in order.
    pub fn trace(&self) -> &Trace
        ensures { (net : Net) → IsState self.now net → net.trace ≡ result.now }
    {
        self.tables.trace()
    }

    /// What its choices come to when they are played on one thread. Nothing is copied; the network is used up.
    pub fn into_replay(self) -> tables::Outcome
        ensures { (net : Net) → IsState self net → IsReplayOf self net result }
    {
        let ending = self.ending().unwrap_or(Ending::Limit);
        let Network {
            code: _,
            keyboard: _,
            tables,
            choices,
            out: _,
        } = self;
        tables::Outcome {
            ending,
            choices,
            trace: tables.into_trace(),
        }
    }

    /// The messages that were output, and input, on this channel, each of the channel's protocol; none
    /// past the last channel. A message that is offered and not yet taken is not among them.
    pub fn history(&self, chan: u32) -> Option<History<'_>>
        ensures some { IfSome result (λ h. (net : Net) → IsState self.now net
            → IsHistory self.now.program net chan h) }
        ensures there { IsSome result ↔ (chan < length self.now.program.channels) }
    {
        self.code.compiled();
        if chan as usize >= self.code.channels().len() {
            return None;
        }
        Some(History::new(self.tables.trace().entries(), chan))
    }
}
