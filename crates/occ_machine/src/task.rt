//! A process between two of its turns.
ghost use Rattle.std.specs.Prelude.{◌≡◌, ◌↔◌, IsTrue, IfOk};

use crate::indices::Indices;
use occ_term::same::{same_numbers, same_values};
use occ_term::{Fault, Frame, Message};
use sqlite_items::Items;
use std::alloc::{AllocError, Global};

/// An alternative of a choosing process.
#[derive(Drop)]
pub struct Arm {
    /// What it is named by in the code of its ALT: how far it stands from the end of that code, never 0.
    pub number: u32,
    /// The channel that it inputs from; none for SKIP.
    pub chan: Option<u32>,
    /// The values of its replicators' indices, outermost first.
    pub indices: Indices,
}

/// What a process stands at.
#[derive(Drop)]
pub enum Wait {
    /// May take its next turn.
    Ready,
    /// Took an alternative or an input, and may take its next turn. `arm` is the number of the
    /// alternative taken, as its `Arm` has it, with its `indices`; 0 and none for an input. SKIP has no
    /// message.
    Took {
        arm: u32,
        indices: Indices,
        message: Option<Message>,
    },
    /// Offers a message on a channel.
    Offers {
        chan: u32,
        message: Message,
    },
    /// Awaits a message on a channel.
    Awaits {
        chan: u32,
    },
    /// Chooses among alternatives, with or without priority.
    Chooses {
        pri: bool,
        arms: Items<Arm>,
    },
    /// Waits for the end of these processes, its branches.
    Joins {
        branches: Items<u32>,
    },
    /// Halted, for good.
    Halted,
    /// At its end.
    Done,
    /// An evaluation faulted.
    Faulted(Fault),
}

/// A process at one of its stops.
pub struct Task {
    /// The number of its process.
    pub number: u32,
    /// How many turns it has taken.
    pub turns: u64,
    /// Its program counter: the instruction of its body where it goes on.
    pub pc: u32,
    /// Its variables.
    pub frame: Frame,
    /// What it stands at.
    pub wait: Wait,
}

impl Drop for Task {
    fn drop(self) {
        let Task {
            number: _,
            turns: _,
            pc: _,
            frame: _,
            wait: _,
        } = self;
    }
}

impl Arm {
    /// A copy. The error is a refused growth.
    pub(crate) fn copy(&self, alloc: Global) -> Result<Arm, AllocError>
        ensures { IfOk result (λ copy. copy ≡ self.now) }
    {
        Ok(Arm {
            number: self.number,
            chan: self.chan,
            indices: self.indices.copy(alloc)?,
        })
    }

    /// Whether both have the same content.
    pub fn is_same(&self, other: &Arm) -> bool
        ensures { IsTrue result ↔ (self.now ≡ other.now) }
    {
        self.number == other.number
            && self.chan == other.chan
            && same_values(self.indices.as_slice(), other.indices.as_slice())
    }
}

impl Wait {
    /// A copy. The error is a refused growth.
    pub(crate) fn copy(&self, alloc: Global) -> Result<Wait, AllocError>
        ensures { IfOk result (λ copy. copy ≡ self.now) }
    {
        match self {
            Wait::Ready => Ok(Wait::Ready),
            Wait::Took {
                arm,
                indices,
                message,
            } => took(alloc, *arm, indices, message),
            Wait::Offers { chan, message } => offers(alloc, *chan, message),
            Wait::Awaits { chan } => Ok(Wait::Awaits { chan: *chan }),
            Wait::Chooses { pri, arms } => chooses(alloc, *pri, arms.as_slice()),
            Wait::Joins { branches } => joins(alloc, branches.as_slice()),
            Wait::Halted => Ok(Wait::Halted),
            Wait::Done => Ok(Wait::Done),
            Wait::Faulted(fault) => Ok(Wait::Faulted(*fault)),
        }
    }

    /// Whether both have the same content.
    pub fn is_same(&self, other: &Wait) -> bool
        ensures { IsTrue result ↔ (self.now ≡ other.now) }
    {
        match (self, other) {
            (Wait::Ready, Wait::Ready) => true,
            (
                Wait::Took {
                    arm: a,
                    indices: i,
                    message: m,
                },
                Wait::Took {
                    arm: b,
                    indices: j,
                    message: n,
                },
            ) => a == b && same_values(i.as_slice(), j.as_slice()) && are_same(m, n),
            (
                Wait::Offers {
                    chan: c,
                    message: m,
                },
                Wait::Offers {
                    chan: d,
                    message: n,
                },
            ) => c == d && m.is_same(n),
            (Wait::Awaits { chan: c }, Wait::Awaits { chan: d }) => c == d,
            (Wait::Chooses { pri: p, arms: a }, Wait::Chooses { pri: q, arms: b }) => {
                p == q && same_arms(a.as_slice(), b.as_slice())
            }
            (Wait::Joins { branches: b }, Wait::Joins { branches: c }) => {
                same_numbers(b.as_slice(), c.as_slice())
            }
            (Wait::Halted, Wait::Halted) => true,
            (Wait::Done, Wait::Done) => true,
            (Wait::Faulted(e), Wait::Faulted(f)) => e == f,
            _ => false,
        }
    }
}

impl Task {
    /// A copy. The error is a refused growth.
    pub fn copy(&self, alloc: Global) -> Result<Task, AllocError>
        ensures { IfOk result (λ copy. copy ≡ self.now) }
    {
        Ok(Task {
            number: self.number,
            turns: self.turns,
            pc: self.pc,
            frame: self.frame.copy(alloc)?,
            wait: self.wait.copy(alloc)?,
        })
    }

    /// Whether both have the same content.
    pub fn is_same(&self, other: &Task) -> bool
        ensures { IsTrue result ↔ (self.now ≡ other.now) }
    {
        self.number == other.number
            && self.turns == other.turns
            && self.pc == other.pc
            && self.frame.is_same(&other.frame)
            && self.wait.is_same(&other.wait)
    }
}

fn took(
    alloc: Global,
    arm: u32,
    indices: &Indices,
    message: &Option<Message>,
) -> Result<Wait, AllocError>
    ensures { IfOk result (λ wait. wait ≡ Wait.Took arm indices.now message.now) }
{
    let indices = indices.copy(alloc)?;
    let message = copy_of(alloc, message)?;
    Ok(Wait::Took {
        arm,
        indices,
        message,
    })
}

fn offers(alloc: Global, chan: u32, message: &Message) -> Result<Wait, AllocError>
    ensures { IfOk result (λ wait. wait ≡ Wait.Offers chan message.now) }
{
    let message = message.copy(alloc)?;
    Ok(Wait::Offers { chan, message })
}

fn chooses(alloc: Global, pri: bool, arms: &[Arm]) -> Result<Wait, AllocError>
    ensures { IfOk result (λ wait. wait ≡ Wait.Chooses pri arms.now) }
{
    let mut copies = Items::new(alloc);
    for arm in arms {
        copies.push(arm.copy(alloc)?)?;
    }
    Ok(Wait::Chooses { pri, arms: copies })
}

fn joins(alloc: Global, branches: &[u32]) -> Result<Wait, AllocError>
    ensures { IfOk result (λ wait. wait ≡ Wait.Joins branches.now) }
{
    let branches = Items::from_slice(alloc, branches)?;
    Ok(Wait::Joins { branches })
}

fn copy_of(alloc: Global, message: &Option<Message>) -> Result<Option<Message>, AllocError>
    ensures { IfOk result (λ copy. copy ≡ message.now) }
{
    match message {
        Some(message) => Ok(Some(message.copy(alloc)?)),
        None => Ok(None),
    }
}

fn are_same(message: &Option<Message>, other: &Option<Message>) -> bool
    ensures { IsTrue result ↔ (message.now ≡ other.now) }
{
    match (message, other) {
        (Some(m), Some(n)) => m.is_same(n),
        (None, None) => true,
        _ => false,
    }
}

fn same_arms(arms: &[Arm], others: &[Arm]) -> bool
    ensures { IsTrue result ↔ (arms.now ≡ others.now) }
{
    if arms.len() != others.len() {
        return false;
    }
    for i in 0..arms.len() {
        if !arms[i].is_same(&others[i]) {
            return false;
        }
    }
    true
}
