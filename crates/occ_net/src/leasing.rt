//! Processes go out for a turn.
ghost use Rattle.std.specs.Prelude.{◌≡◌, IfErr, IfOk, IfSome, Some, false, length, replicate, slice_set};
ghost use Rattle.occ_net.specs.Networks.{all_in, first_in, is_out, leased, with_out, InState};
ghost use Rattle.occ_net.specs.Leases.{CanTakeTurn, IsOwnLease, Leases};
ghost use Rattle.occ_net.specs.Stretches.{CanGoOn};

use crate::network::Network;
use occ_machine::{Body, Task};
use std::alloc::{AllocError, Global};
use std::sync::Arc;

/// A process that is out for a turn: its body, and a copy of its task.
#[derive(Drop)]
pub struct Lease {
    pub body: Arc<Body, Global>,
    pub task: Task,
}

/// Whether the process with this number is out.
fn is_out(out: &[bool], number: u32) -> bool
    ensures { result ≡ is_out out.now number }
{
    match out.get(number as usize) {
        Some(is) => *is,
        None => false,
    }
}

/// Marks the process with this number.
pub(crate) fn mark(out: &mut Vec<bool>, number: u32, is: bool)
    ensures { out.new.items ≡ slice_set out.old.items number is }
{
    let place = number as usize;
    if place < out.len() {
        out[place] = is;
    }
}

/// Sets all marks back.
fn unmark(out: &mut Vec<bool>)
    ensures { out.new.items ≡ replicate (length out.old.items) false }
{
    for place in 0..out.len() {
        out[place] = false;
    }
}

/// The first of these numbers that is not out.
fn first_in(out: &[bool], ready: &[u32]) -> Option<u32>
    ensures { result ≡ first_in out.now ready.now }
{
    for number in ready {
        if !is_out(out, *number) {
            return Some(*number);
        }
    }
    None
}

impl Network {
    /// The number of the process that the next lease gives.
    fn next_in(&self) -> Option<u32>
        ensures { InState self.now (λ net. result ≡ leased self.now net) }
    {
        if self.tables.ending(self.code.errors()).is_some() {
            return None;
        }
        first_in(&self.out, self.tables.ready())
    }

    /// The body and the task of a process that may take a turn.
    fn lease_of(&self, alloc: Global, number: u32) -> Result<Lease, AllocError>
        requires { InState self.now (λ net. leased self.now net ≡ Some number) }
        ensures own { IfOk result
            (λ l. InState self.now (λ net. IsOwnLease self.now net number l)) }
        ensures can { IfOk result CanTakeTurn }
        ensures goes_on { IfOk result CanGoOn }
    {
        self.code.compiled();
        let Some(body) = self.code.body(number as usize) else {
            unreachable!()
        };
        let Some(task) = self.tables.task(number) else {
            unreachable!()
        };
        let body = Arc::try_clone(body)?;
        let task = task.copy(alloc)?;
        Ok(Lease { body, task })
    }

    /// Leases the first process that may take a turn and is not out. It is out from then on, until its
    /// turn is settled or it is released. None where there is none, and none after an ending.
    ///
    /// # Errors
    ///
    /// A refused growth; then nothing has changed.
    pub fn lease(&mut self, alloc: Global) -> Result<Option<Lease>, AllocError>
        ensures leased { IfOk result
            (λ found. InState self.old (λ net. Leases self.old net found self.new)) }
        ensures can { IfOk result (λ found. IfSome found CanTakeTurn) }
        ensures goes_on { IfOk result (λ found. IfSome found CanGoOn) }
        ensures refused { IfErr result (λ _. self.new ≡ self.old) }
    {
        let Some(number) = self.next_in() else {
            return Ok(None);
        };
        let lease = self.lease_of(alloc, number)?;
        mark(&mut self.out, number, true);
        Ok(Some(lease))
    }

    /// The process with this number is no longer out. Says whether it was.
    pub fn release(&mut self, number: u32) -> bool
        ensures was { result ≡ is_out self.old.out number }
        ensures in_again { self.new ≡ with_out self.old number false }
    {
        let was = is_out(&self.out, number);
        mark(&mut self.out, number, false);
        was
    }

    /// No process is out any more.
    pub fn recall(&mut self)
        ensures { self.new ≡ all_in self.old }
    {
        unmark(&mut self.out);
    }
}
