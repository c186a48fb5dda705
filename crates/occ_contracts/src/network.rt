//! Networks: what a call on two equal networks answers and leaves.
ghost use Rattle.std.specs.Prelude.{◌≡◌, ◌↔◌, ◌+◌, ◌<◌, ◌^◌, IfErr, IsTrue};
ghost use Rattle.std.specs.Option.{option_copied, option_map};
ghost use Rattle.occ_net.specs.Networks.{InState};
ghost use Rattle.occ_net.specs.Settling.{CanSettle};
ghost use Rattle.occ_net.specs.Stretches.{TakesAll};
ghost use Rattle.occ_contracts.specs.Agreement.{Agree, BothGive};
ghost use Rattle.occ_contracts.specs.Networks.{leased_of, told};

use occ_machine::{Code, Task};
use occ_net::{History, Lease, NetFault, Network, Outcome};
use occ_net_replay::Choice;
use occ_net_tables as tables;
use occ_net_tables::Trace;
use occ_proc::Segment;
use occ_term::Ending;
use std::alloc::{AllocError, Global};

/// The code and the keyboard fix the network before its first turn.
pub fn new_twice(
    alloc: Global,
    code: Code,
    keyboard: Vec<u8>,
    same_code: Code,
    same_keyboard: Vec<u8>,
) -> (Result<Network, NetFault>, Result<Network, NetFault>)
    requires code { same_code ≡ code }
    requires keyboard { same_keyboard.items ≡ keyboard.items }
    ensures { Agree (λ n. n) (λ e. e ≡ NetFault.Memory) result.0 result.1 }
{
    (
        Network::new(alloc, code, keyboard),
        Network::new(alloc, same_code, same_keyboard),
    )
}

/// What is read of a network is fixed.
pub fn read_twice<'a>(
    one: &'a Network,
    other: &'a Network,
) -> (
    (&'a Code, &'a [u8], &'a [Choice]),
    (&'a Code, &'a [u8], &'a [Choice]),
)
    requires { other.now ≡ one.now }
    ensures code { result.0.0.now ≡ result.1.0.now }
    ensures keyboard { result.0.1.now ≡ result.1.1.now }
    ensures choices { result.0.2.now ≡ result.1.2.now }
{
    (
        (one.code(), one.keyboard(), one.choices()),
        (other.code(), other.keyboard(), other.choices()),
    )
}

/// Whether it has ended, and how, is fixed.
pub fn ending_twice(one: &Network, other: &Network) -> (Option<Ending>, Option<Ending>)
    requires { other.now ≡ one.now }
    ensures { result.0 ≡ result.1 }
{
    one.replayed();
    (one.ending(), other.ending())
}

/// How many processes may take a turn is fixed.
pub fn ready_count_twice(one: &Network, other: &Network) -> (usize, usize)
    requires { other.now ≡ one.now }
    ensures { result.0 ≡ result.1 }
{
    one.replayed();
    (one.ready_count(), other.ready_count())
}

/// The task of the process at a place among them is fixed.
pub fn ready_at_twice<'a>(
    one: &'a Network,
    other: &'a Network,
    i: usize,
) -> (Option<&'a Task>, Option<&'a Task>)
    requires { other.now ≡ one.now }
    ensures { option_copied result.0 ≡ option_copied result.1 }
{
    one.replayed();
    (one.ready_at(i), other.ready_at(i))
}

/// The communications that there were are fixed.
pub fn trace_twice<'a>(one: &'a Network, other: &'a Network) -> (&'a Trace, &'a Trace)
    requires { other.now ≡ one.now }
    ensures { result.0.now ≡ result.1.now }
{
    one.replayed();
    (one.trace(), other.trace())
}

/// The messages of a channel are fixed.
pub fn history_twice<'a>(
    one: &'a Network,
    other: &'a Network,
    chan: u32,
) -> (Option<History<'a>>, Option<History<'a>>)
    requires { other.now ≡ one.now }
    ensures { result.0 ≡ result.1 }
{
    one.replayed();
    (one.history(chan), other.history(chan))
}

/// How many messages there are is fixed.
pub fn history_len_twice(one: &History<'_>, other: &History<'_>) -> (usize, usize)
    requires { other.now ≡ one.now }
    ensures { result.0 ≡ result.1 }
{
    (one.len(), other.len())
}

/// A history is empty just where it has 0 messages.
pub fn history_empty_at_none(history: &History<'_>) -> (bool, usize)
    ensures { IsTrue result.0 ↔ (result.1 ≡ 0) }
{
    (history.is_empty(), history.len())
}

/// What a network gives for one thread's outcome is fixed.
pub fn replay_twice(one: Network, other: Network) -> (tables::Outcome, tables::Outcome)
    requires { other ≡ one }
    ensures ending { result.0.ending ≡ result.1.ending }
    ensures choices { result.0.choices.items ≡ result.1.choices.items }
    ensures trace { result.0.trace ≡ result.1.trace }
{
    one.replayed();
    (one.into_replay(), other.into_replay())
}

/// What a network came to is fixed. A refusal hands the network back.
pub fn outcome_twice(
    alloc: Global,
    one: Network,
    other: Network,
) -> (
    Result<Outcome, (Network, NetFault)>,
    Result<Outcome, (Network, NetFault)>,
)
    requires { other ≡ one }
    ensures given { Agree told (λ e. e.1 ≡ NetFault.Memory) result.0 result.1 }
    ensures back { IfErr result.0 (λ e. e.0 ≡ one) }
{
    one.replayed();
    (one.into_outcome(alloc), other.into_outcome(alloc))
}

/// A turn that comes in twice leaves one network, or is refused for one cause. A refusal hands it back, and leaves the network as it was.
pub fn settle_twice(
    alloc: Global,
    one: &mut Network,
    other: &mut Network,
    segment: Segment,
    same_segment: Segment,
    pick: u32,
) -> (
    Result<(), (Segment, NetFault)>,
    Result<(), (Segment, NetFault)>,
)
    requires network { other.old ≡ one.old }
    requires segment { same_segment ≡ segment }
    ensures given { Agree (λ u. u) (λ e. e.1 ≡ NetFault.Memory) result.0 result.1 }
    ensures left { BothGive (λ _ _. one.new ≡ other.new) result.0 result.1 }
    ensures refused { IfErr result.0 (λ e. IfErr result.1 (λ f. e.1 ≡ f.1)) }
    ensures back { IfErr result.0 (λ e. (e.0 ≡ segment) × (one.new ≡ one.old)) }
{
    one.replayed();
    (
        one.settle(alloc, segment, pick),
        other.settle(alloc, same_segment, pick),
    )
}

/// So it is where the caller knows that the turn is the network's own. The body and the task that it spends are fixed too.
pub fn settle_own_twice(
    alloc: Global,
    one: &mut Network,
    other: &mut Network,
    segment: Segment,
    same_segment: Segment,
    pick: u32,
) -> (Result<Lease, Segment>, Result<Lease, Segment>)
    requires network { other.old ≡ one.old }
    requires segment { same_segment ≡ segment }
    requires own { InState one.old (λ net. CanSettle one.old net segment) }
    requires own_again { InState other.old (λ net. CanSettle other.old net same_segment) }
    ensures left { BothGive (λ _ _. one.new ≡ other.new) result.0 result.1 }
    ensures spent { BothGive (λ l m. leased_of l ≡ leased_of m) result.0 result.1 }
    ensures back { IfErr result.0 (λ s. (s ≡ segment) × (one.new ≡ one.old)) }
{
    one.replayed();
    (
        one.settle_own(alloc, segment, pick),
        other.settle_own(alloc, same_segment, pick),
    )
}

/// Turns in a row that come in twice leave one network, and spend one task. A refusal hands the task after them back.
pub fn settle_all_twice(
    alloc: Global,
    one: &mut Network,
    other: &mut Network,
    number: u32,
    count: u32,
    after: Task,
    same_after: Task,
    pick: u32,
) -> (Result<Task, Task>, Result<Task, Task>)
    requires network { other.old ≡ one.old }
    requires turns { InState one.old (λ net. TakesAll one.old net number count after) }
    requires same_turns { InState other.old
        (λ net. TakesAll other.old net number count same_after) }
    requires picks { pick + count < 2 ^ 32 }
    ensures left { BothGive (λ _ _. one.new ≡ other.new) result.0 result.1 }
    ensures spent { BothGive (λ t u. t ≡ u) result.0 result.1 }
    ensures back { IfErr result.0 (λ t. (t ≡ after) × (one.new ≡ one.old)) }
{
    one.replayed();
    (
        one.settle_all(alloc, number, count, after, pick),
        other.settle_all(alloc, number, count, same_after, pick),
    )
}

/// The process that is leased, its body and its task are fixed, and so is what the lease leaves.
pub fn lease_twice(
    alloc: Global,
    one: &mut Network,
    other: &mut Network,
) -> (
    Result<Option<Lease>, AllocError>,
    Result<Option<Lease>, AllocError>,
)
    requires { other.old ≡ one.old }
    ensures leased { BothGive (λ a b. option_map leased_of a ≡ option_map leased_of b)
        result.0 result.1 }
    ensures left { BothGive (λ _ _. one.new ≡ other.new) result.0 result.1 }
    ensures back { IfErr result.0 (λ _. one.new ≡ one.old) }
{
    one.replayed();
    (one.lease(alloc), other.lease(alloc))
}

/// Whether a process was out is fixed, and so is what its release leaves.
pub fn release_twice(one: &mut Network, other: &mut Network, number: u32) -> (bool, bool)
    requires { other.old ≡ one.old }
    ensures was { result.0 ≡ result.1 }
    ensures left { one.new ≡ other.new }
{
    (one.release(number), other.release(number))
}

/// What a recall leaves is fixed.
pub fn recall_twice(one: &mut Network, other: &mut Network)
    requires { other.old ≡ one.old }
    ensures { one.new ≡ other.new }
{
    one.recall();
    other.recall();
}
