//! How a turn ended, in a few numbers where it can be told so, and what its process stands at then.
ghost use Rattle.std.specs.Prelude.{◌≡◌, IfNone, IfSome, List};
ghost use Rattle.occ_term.specs.declared.message.Part.{Part};
ghost use Rattle.occ_proc.specs.Doing.{wait_of};
ghost use Rattle.occ_proc.specs.Turns.{IsEndOf, IsHeavy, IsLeftReady, left_message, one_message, standing_at};

use crate::scratch::Scratch;
use crate::stop::Stop;
use occ_machine::Wait;
use occ_term::{Message, Part, Parts, Primitive};

/// What a process stands at after its turn, where that is light enough to be handed over.
#[derive(Clone, Copy, PartialEq, Eq)]
pub enum TurnEnd {
    /// It is ready.
    Ready,
    /// It offers the message that its turn left, with this tag where it has one, on this channel.
    Offers(Option<u32>, u32),
    /// It offers a message of this one value, with no tag, on this channel.
    OffersOne(Primitive, i64, u32),
    /// It awaits a message on this channel.
    Awaits(u32),
    /// Something else, which is in its task.
    Other,
}

/// How a turn ended with this stop. What isn't handed over is put into the task of its process.
#[inline(always)]
pub(crate) fn turn_end(stop: Stop, wait: &mut Wait) -> TurnEnd
    requires { wait.old ≡ Wait.Ready }
    ensures stands { (queue : List Part) → standing_at result queue wait.new ≡ wait_of stop queue }
    ensures left { IsLeftReady result wait.new }
{
    if let Some(end) = light_end(&stop) {
        return end;
    }
    stand_at(stop, wait);
    TurnEnd::Other
}

/// How a turn ended with this stop, where that is light enough to be handed over.
#[inline(always)]
fn light_end(stop: &Stop) -> Option<TurnEnd>
    ensures some { IfSome result (λ end. IsEndOf stop.now end) }
    ensures none { IfNone result (IsHeavy stop.now) }
{
    match stop {
        Stop::Loops(_) => Some(TurnEnd::Ready),
        Stop::Offers(tag, chan) => Some(TurnEnd::Offers(*tag, *chan)),
        Stop::Awaits(chan) => Some(TurnEnd::Awaits(*chan)),
        Stop::Faults(_) | Stop::Chooses(_, _, _) | Stop::Forks(_) | Stop::Halts | Stop::Ends => {
            None
        }
    }
}

/// What the process stands at is put into its task.
#[inline(never)]
fn stand_at(stop: Stop, wait: &mut Wait)
    requires { IsHeavy stop }
    ensures { (queue : List Part) → wait.new ≡ wait_of stop queue }
{
    match stop {
        Stop::Faults(fault) => *wait = Wait::Faulted(fault),
        Stop::Chooses(pri, _, arms) => *wait = Wait::Chooses { pri, arms },
        Stop::Forks(branches) => *wait = Wait::Joins { branches },
        Stop::Halts => *wait = Wait::Halted,
        Stop::Ends => *wait = Wait::Done,
        Stop::Loops(_) | Stop::Offers(_, _) | Stop::Awaits(_) => unreachable!(),
    }
}

/// What the process stands at that was handed over is put into its task.
pub(crate) fn put_wait(end: TurnEnd, scratch: &mut Scratch, wait: &mut Wait)
    requires { IsLeftReady end wait.old }
    ensures { wait.new ≡ standing_at end (left_message scratch.old) wait.old }
{
    match end {
        TurnEnd::Ready | TurnEnd::Other => {}
        TurnEnd::Offers(tag, chan) => {
            let message = scratch.take_message(tag);
            *wait = Wait::Offers { chan, message };
        }
        TurnEnd::OffersOne(primitive, value, chan) => {
            let message = one_message(primitive, value);
            *wait = Wait::Offers { chan, message };
        }
        TurnEnd::Awaits(chan) => *wait = Wait::Awaits { chan },
    }
}

/// The message of one value, with no tag.
#[inline(always)]
pub fn one_message(primitive: Primitive, value: i64) -> Message
    ensures { result ≡ one_message primitive value }
{
    Message {
        tag: None,
        items: Parts::one(Part::One(primitive, value)),
    }
}
