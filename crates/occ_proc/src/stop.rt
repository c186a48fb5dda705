//! Why a process stops, and where it goes on after it.
ghost use Rattle.std.specs.Prelude.{◌≡◌, ◌<◌, ◌+◌, ◌-◌, ◌^◌, IfNone, IfSome};
ghost use Rattle.occ_proc.specs.Doing.{pc_after};
ghost use Rattle.occ_proc.specs.Turns.{IsLast};

use occ_machine::Arm;
use occ_term::Fault;
use sqlite_items::Items;

/// Why a process stops at an instruction.
#[derive(Drop)]
pub enum Stop {
    /// By a fault.
    Faults(Fault),
    /// At the end of a loop's body; it will go on so many instructions before.
    Loops(usize),
    /// It offers the message, with this tag where it has one, on this channel.
    Offers(Option<u32>, u32),
    /// It awaits a message on this channel.
    Awaits(u32),
    /// It chooses among these arms, by priority where the truth value says so; it will go on so many
    /// instructions before.
    Chooses(bool, usize, Items<Arm>),
    /// It waits for the end of these processes, its branches.
    Forks(Items<u32>),
    /// It halts.
    Halts,
    /// It is at its end.
    Ends,
}

/// How far a stop of a loop leads back, where it isn't the last stop of the turn.
pub(crate) fn passed_back(stop: &Stop, left: u32) -> Option<usize>
    ensures some { IfSome result (λ count. (stop.now ≡ Stop.Loops count) × (0 < left)) }
    ensures none { IfNone result (IsLast left stop.now) }
{
    match stop {
        Stop::Loops(count) if left > 0 => Some(*count),
        _ => None,
    }
}

/// Where the process goes on after a stop at this pc.
pub(crate) fn pc_after(pc: u32, stop: &Stop) -> u32
    requires { pc + 1 < 2 ^ 32 }
    ensures { result ≡ pc_after pc stop.now }
{
    match stop {
        Stop::Loops(count) => before(pc, *count),
        Stop::Chooses(_, count, _) => before(pc, *count),
        Stop::Offers(_, _) | Stop::Awaits(_) | Stop::Forks(_) => pc + 1,
        Stop::Faults(_) | Stop::Halts | Stop::Ends => pc,
    }
}

/// The pc so many instructions before.
pub(crate) fn before(pc: u32, count: usize) -> u32
    ensures { result ≡ pc - count }
{
    (pc as usize).saturating_sub(count) as u32
}
