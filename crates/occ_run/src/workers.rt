//! The threads of a run.
ghost use Rattle.std.specs.Prelude.{◌≡◌, None};
ghost use Rattle.crossbeam_utils.specs.Seq.{cell_view};
ghost use Rattle.occ_board.specs.Editions.{blank, reached};
ghost use Rattle.occ_net.specs.Networks.{fresh};
ghost use Rattle.occ_run.specs.Held.{IsConcluded};
ghost use Rattle.occ_run.specs.Tokens.{opening, teller};

use crate::desk::{Desk, OneRun, Ran, Step, Ticket, Turn};
use crate::gate::Gate;
use crate::progress::{Progress, Wake};
use crate::tokens::{Token, Tokens};
use occ_board::{Front, Head};
use occ_proc::Scratch;
use std::alloc::Global;
use std::hint::spin_loop;
use std::sync::{Condvar, Mutex, MutexGuard, Wait};
use std::thread;
use std::thread::Threads;

/// How often a worker looks for the lock before it sleeps until it has it.
const LOOKS: u32 = 100;

/// How long it pauses between two looks. That is some microseconds, in which another worker can take several short turns while
/// the network is near its processor.
const PAUSES: u32 = 1000;

/// What the workers share.
pub(crate) struct Shared<U: OneRun> {
    desk: Mutex<Desk<U>>,
    tokens: Tokens,
    /// Where workers rest.
    moved: Condvar,
    /// Where the one rests who publishes the trace, or waits for the end: woken there, no worker misses a call of his own.
    pub(crate) grown: Condvar,
    ghost named: { tokens.table.shared.table_id ≡ U.tokens },
}

impl<U: OneRun> Shared<U> {
    pub(crate) fn new(
        progress: Progress,
        tokens: Tokens,
        keeper: Token,
        head: Head,
        told: Front,
    ) -> Shared<U>
        requires network { progress.network ≡ fresh U.program U.keyboard }
        requires limit { progress.limit ≡ U.limit }
        requires stop { progress.stop ≡ None }
        requires tokens { tokens.table.shared.table_id ≡ U.tokens }
        requires opening_keeper { (keeper.table_id ≡ U.tokens) × (cell_view keeper ≡ opening) }
        requires takings { (head ≡ U.takings) × (told ≡ reached U.takings blank) }
    {
        Shared {
            desk: Mutex::new(Desk::new(progress, keeper, head, told)),
            tokens,
            moved: Condvar::new(),
            grown: Condvar::new(),
        }
    }

    /// How far the workers came, when all have left and one has a word that the run is over.
    pub(crate) fn into_progress<R: Wait>(self, rt: &R, ended: Ticket<U>) -> Progress
        requires { ended ≡ teller }
        ensures { IsConcluded U.program U.keyboard U.limit result }
    {
        let Shared {
            desk,
            tokens,
            moved: _,
            grown: _,
        } = self;
        desk.into_inner().conclude(rt, &tokens, ended)
    }

    /// Stops the run, since a thread was refused: all leave.
    pub(crate) fn refuse_thread<R: Wait>(&self, rt: &R) {
        self.desk.lock(rt).refuse_thread();
        self.moved.notify_all();
    }

    /// Stops the run, since a growth was refused: all leave.
    pub(crate) fn refuse_growth<R: Wait>(&self, rt: &R) {
        self.desk.lock(rt).refuse_growth();
        self.moved.notify_all();
    }

    /// Takes the lock. Turns are short, so a worker looks for it for a while before it sleeps.
    pub(crate) fn enter<R: Wait>(&self, rt: &R) -> MutexGuard<'_, Desk<U>> {
        for _ in 0..LOOKS {
            if let Some(desk) = self.desk.try_lock() {
                return desk;
            }
            for _ in 0..PAUSES {
                spin_loop();
            }
        }
        self.desk.lock(rt)
    }

    /// Waits until the run is over, and gives a word of it.
    pub(crate) fn wait_for_end<R: Wait>(&self, rt: &R) -> Ticket<U>
        ensures { result ≡ teller }
    {
        let mut desk = self.desk.lock(rt);
        for _ in rt.forever() {
            if let Some(ended) = desk.ended(&self.tokens) {
                return ended;
            }
            desk = self.grown.wait(rt, desk);
        }
        unreachable!()
    }

    fn notify(&self, wake: Wake) {
        match wake {
            Wake::Nobody => {}
            Wake::One => self.moved.notify_one(),
            Wake::All => self.moved.notify_all(),
        }
    }
}

/// Takes in what was done, and then waits for a turn to take; none where the worker is to leave. What is no longer wanted is let
/// go when the lock is free again.
fn next_turn<U: OneRun, R: Wait>(
    rt: &R,
    alloc: Global,
    shared: &Shared<U>,
    ran: Option<Ran<U>>,
) -> Option<Turn<U>> {
    let mut desk = shared.enter(rt);
    let communicated = desk.progress().network.trace().len();
    let _spent = match ran {
        Some(ran) => desk.take_in(rt, alloc, &shared.tokens, ran),
        None => None,
    };
    if desk.progress().network.trace().len() != communicated {
        shared.grown.notify_one();
    }
    for _ in rt.forever() {
        match desk.next(alloc, &shared.tokens) {
            Step::Take(turn) => {
                let wake = desk.wake();
                drop(desk);
                shared.notify(wake);
                return Some(turn);
            }
            Step::Rest => desk = shared.moved.wait(rt, desk),
            Step::Leave => {
                let wake = desk.wake();
                drop(desk);
                shared.notify(wake);
                shared.grown.notify_one();
                return None;
            }
        }
    }
    unreachable!()
}

/// One worker: it gets a turn under the lock, takes it outside, and those behind it that leave the process ready, and hands them in
/// where it gets the next one under the lock.
pub(crate) fn work<U: OneRun, R: Wait, G: Gate>(
    rt: &R,
    alloc: Global,
    shared: &Shared<U>,
    gate: &G,
) {
    let mut scratch = Scratch::new(alloc);
    let mut ran = None;
    for _ in rt.forever() {
        let Some(turn) = next_turn(rt, alloc, shared, ran) else {
            return;
        };
        ran = Some(turn.take(alloc, gate, &mut scratch));
    }
}

/// Lets so many workers run until all have left.
fn run_crew<U: OneRun + Send + Sync, R: Threads + Wait + Sync, G: Gate + Sync>(
    rt: &R,
    alloc: Global,
    shared: &Shared<U>,
    workers: u32,
    gate: &G,
) {
    thread::scope(thread::scope_env(), rt, |scope| {
        for _ in 0..workers {
            if scope.spawn(move || work(rt, alloc, shared, gate)).is_err() {
                shared.refuse_thread(rt);
                break;
            }
        }
    });
}

/// Lets so many workers run, and gives back how far they came when all have left.
pub(crate) fn run_all<U: OneRun + Send + Sync, R: Threads + Wait + Sync, G: Gate + Sync>(
    rt: &R,
    alloc: Global,
    progress: Progress,
    tokens: Tokens,
    keeper: Token,
    head: Head,
    told: Front,
    workers: u32,
    gate: &G,
) -> Progress
    requires network { progress.network ≡ fresh U.program U.keyboard }
    requires limit { progress.limit ≡ U.limit }
    requires stop { progress.stop ≡ None }
    requires tokens { tokens.table.shared.table_id ≡ U.tokens }
    requires opening_keeper { (keeper.table_id ≡ U.tokens) × (cell_view keeper ≡ opening) }
    requires takings { (head ≡ U.takings) × (told ≡ reached U.takings blank) }
    ensures { IsConcluded U.program U.keyboard U.limit result }
{
    let shared: Shared<U> = Shared::new(progress, tokens, keeper, head, told);
    run_crew(rt, alloc, &shared, workers, gate);
    let ended = shared.wait_for_end(rt);
    shared.into_progress(rt, ended)
}
