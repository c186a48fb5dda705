//! The network: its parts, its start and its ending.
ghost use Rattle.std.specs.Prelude.{◌≡◌, IfOk, None, map, replicate};
ghost use Rattle.occ_net_replay.specs.Replay.{ending_of, is_done, main_done, stopped_by};
ghost use Rattle.occ_net_tables.specs.Endings.{ends_by};
ghost use Rattle.occ_net_tables.specs.Holding.{HeldBy, HoldsFirst, trace_in};

use crate::Trace;
use crate::entries::{empty, no_counts};
use crate::tasks::put_task;
use occ_machine::{Code, Task, Wait};
use occ_term::{Ending, Errors, Fault, Frame};
use std::alloc::{AllocError, Global};

/// The processes of a program with their channels, the keyboard, the screen and the error channel.
pub struct Tables {
    /// By process number; none has not begun.
    pub(crate) tasks: Vec<Option<Task>>,
    /// The processes that may take a turn, in rising order.
    pub(crate) ready: Vec<u32>,
    /// By channel: who offers a message on it.
    pub(crate) offering: Vec<Option<u32>>,
    /// By channel: who awaits a message on it.
    pub(crate) awaiting: Vec<Option<u32>>,
    /// By process number: who waits for its end, among that of others.
    pub(crate) parents: Vec<Option<u32>>,
    /// By process number: for how many branches a process still waits that waits for some.
    pub(crate) unfinished: Vec<usize>,
    /// The first fault that a turn ended with.
    pub(crate) fault: Option<Fault>,
    /// How many of the keyboard's bytes are taken.
    pub(crate) used: usize,
    /// The communications that there were.
    pub(crate) trace: Trace,
}

impl Drop for Tables {
    fn drop(self) {
        let Tables {
            tasks: _,
            ready: _,
            offering: _,
            awaiting: _,
            parents: _,
            unfinished: _,
            fault: _,
            used: _,
            trace: _,
        } = self;
    }
}

/// So many processes that have not begun.
fn none_begun(alloc: Global, count: usize) -> Result<Vec<Option<Task>>, AllocError>
    ensures { IfOk result (λ tasks. tasks.items ≡ replicate count None) }
{
    let mut tasks = Vec::new(alloc);
    for _slot in 0..count {
        tasks.push(None)?;
    }
    Ok(tasks)
}

/// Whether the main process is at its end.
fn main_done(tasks: &[Option<Task>]) -> bool
    ensures { result ≡ main_done tasks.now }
{
    match tasks.first() {
        Some(Some(task)) => is_done(&task.wait),
        _ => false,
    }
}

fn is_done(wait: &Wait) -> bool
    ensures { result ≡ is_done wait.now }
{
    match wait {
        Wait::Done => true,
        _ => false,
    }
}

/// The fault that ends the run, where this one was the first.
fn ends_by(errors: Errors, fault: Option<Fault>) -> Option<Fault>
    ensures { result ≡ ends_by errors fault }
{
    match errors {
        Errors::Halt => fault,
        Errors::Stop => None,
    }
}

/// What stops a run in which no process may take a turn.
fn stopped_by(fault: Option<Fault>) -> Ending
    ensures { result ≡ stopped_by fault }
{
    match fault {
        Some(fault) => Ending::StoppedBy(fault),
        None => Ending::Stopped,
    }
}

impl Tables {
    /// The network before its first turn.
    pub fn new(alloc: Global, code: &Code) -> Result<Tables, AllocError>
        ensures { IfOk result (HoldsFirst code.now) }
    {
        code.compiled();
        let Some(body) = code.body(0) else {
            unreachable!()
        };
        let frame = Frame::new(alloc, body.cells(), body.loops() as usize)?;
        let main = Task {
            number: 0,
            turns: 0,
            pc: 0,
            frame,
            wait: Wait::Ready,
        };
        let count = code.len();
        let channels = code.channels().len();
        let mut tasks = none_begun(alloc, count)?;
        put_task(&mut tasks, 0, main);
        let mut ready = Vec::new(alloc);
        ready.push(0)?;
        let offering = empty(alloc, channels)?;
        let awaiting = empty(alloc, channels)?;
        let parents = empty(alloc, count)?;
        let unfinished = no_counts(alloc, count)?;
        let trace = Trace::new(alloc);
        Ok(Tables {
            tasks,
            ready,
            offering,
            awaiting,
            parents,
            unfinished,
            fault: None,
            used: 0,
            trace,
        })
    }

    /// How the run has ended, if it has, where a fault does this.
    pub fn ending(&self, errors: Errors) -> Option<Ending>
        ensures { HeldBy self.now (λ net. result ≡ ending_of errors net) }
    {
        if let Some(fault) = ends_by(errors, self.fault) {
            return Some(Ending::Fault(fault));
        }
        if main_done(&self.tasks) {
            return Some(Ending::Ended);
        }
        if self.ready.is_empty() {
            return Some(stopped_by(self.fault));
        }
        None
    }

    /// The communications that there were, in order.
    pub fn trace(&self) -> &Trace
        ensures { HeldBy self.now (λ net. net.trace ≡ result.now) }
    {
        &self.trace
    }

    /// The same, also between a turn's stop and what happens behind it.
    pub fn trace_so_far(&self) -> &Trace
        ensures { result.now ≡ trace_in self.now }
    {
        &self.trace
    }

    /// The same, where the network is no longer wanted.
    pub fn into_trace(self) -> Trace
        ensures { HeldBy self (λ net. net.trace ≡ result) }
    {
        let Tables {
            tasks: _,
            ready: _,
            offering: _,
            awaiting: _,
            parents: _,
            unfinished: _,
            fault: _,
            used: _,
            trace,
        } = self;
        trace
    }
}
