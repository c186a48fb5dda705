//! A turn that is held until a watcher has seen an entry and has left: what is communicated is published while the run goes on.
ghost use Rattle.std.specs.Prelude.{◌≡◌, IfSome, List, false};
ghost use Rattle.occ_term.specs.Runs.{Entry};

use crate::compared::check_bytes;
use crate::sources::{PIPELINE, code};
use crate::threads::watched::{PIPED, lines_told};
use occ_board::{Board, Naming, Note, Opened, Publisher, Watcher};
use occ_machine::{Body, Code, Task};
use occ_proc::{Segment, turn};
use occ_run::{Gate, RunFault, run_watched};
use std::alloc::{AllocError, Global};
use std::hint::spin_loop;
use std::marker::Brand;
use std::process::Abort;
use std::sync::atomic::{AtomicBool, Ordering};
use std::sync::{Arc, Wait};
use std::thread::{Threads, join};

/// How often a watcher looks, and how often the held turn looks for its flag.
const LOOKS: u32 = 100_000_000;

/// How many runs there are.
const RUNS: u32 = 200;

/// A gate that holds the second turn of process 6 until an entry was seen by the watcher that leaves.
#[derive(Drop)]
struct Holding {
    seen: AtomicBool,
    missed: AtomicBool,
}

impl Holding {
    fn hold(&self) {
        for _ in 0..LOOKS {
            if self.seen.load(Ordering::SeqCst) {
                return;
            }
            spin_loop();
        }
        self.missed.store(true, Ordering::SeqCst);
    }
}

impl Gate for Holding {
    fn run(
        &self,
        alloc: Global,
        body: Arc<Body, Global>,
        before: Task,
    ) -> Result<Segment, (Task, AllocError)> {
        if before.number == 6 && before.turns == 1 {
            self.hold();
        }
        turn(alloc, body, before)
    }
}

/// Looks until an entry is seen, the gate has missed it, or it has looked so often; and says whether one was seen.
fn look_on<J: Naming>(watcher: Watcher<J>, gate: &Holding) -> (Watcher<J>, bool) {
    let mut watcher = watcher;
    for _ in 0..LOOKS {
        let (next, is_seen) = match watcher.look(|list| !list.is_empty()) {
            Ok(seen) => seen,
            Err(watcher) => (watcher, false),
        };
        watcher = next;
        if is_seen || gate.missed.load(Ordering::SeqCst) {
            return (watcher, is_seen);
        }
    }
    (watcher, false)
}

/// Looks until an entry is seen, lets its watcher go, and only then the held turn.
fn look_and_leave<J: Naming>(watcher: Watcher<J>, gate: &Holding) {
    let (watcher, is_seen) = look_on(watcher, gate);
    drop(watcher);
    gate.seen.store(is_seen, Ordering::SeqCst);
}

/// Runs the pipeline with the publisher that is there, and puts it back where the run answered.
fn run_held<J: Naming, R: Threads + Wait + Sync>(
    rt: &R,
    alloc: Global,
    code: &Code,
    gate: &Holding,
    slot: &mut Option<Publisher<J>>,
) -> Result<Note<J>, RunFault>
    requires going { IfSome slot.old (λ p. p.closed ≡ false) }
    requires may { (xs : List Entry) → J.may xs }
{
    let Some(publisher) = slot.take() else {
        return Err(RunFault::Foreign);
    };
    match run_watched(rt, alloc, code, b"", 4, 1000, gate, publisher) {
        Ok((_, publisher, note)) => {
            put_back(rt, slot, publisher);
            Ok(note)
        }
        Err(fault) => Err(fault),
    }
}

fn put_back<J: Naming, R: Wait>(rt: &R, slot: &mut Option<Publisher<J>>, publisher: Publisher<J>) {
    end(rt, std::mem::replace(slot, Some(publisher)));
}

fn end<J: Naming, R: Wait>(rt: &R, slot: Option<Publisher<J>>) {
    match slot {
        Some(publisher) => publisher.end(rt),
        None => {}
    }
}

/// Three watchers look at once, and the third one leaves.
fn look_all<J: Naming + Send + Sync, R: Threads + Wait + Sync>(
    rt: &R,
    gate: &Holding,
    one: Watcher<J>,
    other: Watcher<J>,
    third: Watcher<J>,
) -> (Watcher<J>, Watcher<J>) {
    let (_, (one, other)) = join(
        rt,
        || look_and_leave(third, gate),
        || join(rt, || look_on(one, gate).0, || look_on(other, gate).0),
    );
    (one, other)
}

/// The run beside three watchers, of which the third leaves before it is over, and what each of the others is shown at last.
fn run_beside<J: Naming + Send + Sync, R: Threads + Wait + Sync>(
    rt: &R,
    alloc: Global,
    code: &Code,
    gate: &Holding,
    slot: &mut Option<Publisher<J>>,
    watchers: (Watcher<J>, Watcher<J>, Watcher<J>),
) -> Result<[Option<Vec<u8>>; 2], RunFault>
    requires going { IfSome slot.old (λ p. p.closed ≡ false) }
    requires may { (xs : List Entry) → J.may xs }
{
    let (one, other, third) = watchers;
    let ((one, other), note) = join(
        rt,
        || look_all(rt, gate, one, other, third),
        || -> Result<Note<J>, RunFault>
            requires going { IfSome slot.now (λ p. p.closed ≡ false) }
            requires may { (xs : List Entry) → J.may xs }
        { run_held(rt, alloc, code, gate, slot) },
    );
    let note = note?;
    Ok([
        lines_told(alloc, one, &note),
        lines_told(alloc, other, &note),
    ])
}

/// A board, a run of the pipeline, and what the two of its three watchers are shown that stay.
fn shown<J: Naming + Send + Sync, R: Threads + Wait + Sync>(
    rt: &R,
    alloc: Global,
    opened: Opened,
    code: &Code,
    gate: &Holding,
) -> Result<[Option<Vec<u8>>; 2], RunFault>
    requires book { opened ≡ J.book }
    requires may { (xs : List Entry) → J.may xs }
{
    let (publisher, mut watchers) = match Board::new::<J>(opened, alloc, 3) {
        Ok(board) => board,
        Err(_) => return Err(RunFault::Memory),
    };
    let mut slot = Some(publisher);
    let lines = match (watchers.pop(), watchers.pop(), watchers.pop()) {
        (Some(one), Some(other), Some(third)) => {
            run_beside(rt, alloc, code, gate, &mut slot, (one, other, third))
        }
        _ => Err(RunFault::Foreign),
    };
    end(rt, slot);
    lines
}

/// The lines of the pipeline were shown.
fn check_lines(rt: &impl Abort, lines: &Option<Vec<u8>>) {
    match lines {
        Some(text) => check_bytes(rt, "the lines", text.as_slice(), PIPED),
        None => assert!(rt; false, "no lines"),
    }
}

fn check_held<R: Threads + Wait + Abort + Sync + AllocGlobal>(rt: &R, code: &Code) {
    let gate = Holding {
        seen: AtomicBool::new(false),
        missed: AtomicBool::new(false),
    };
    let lines = shown::<Brand, _>(rt, rt.alloc(), Opened::new(), code, &gate);
    assert!(rt;
        !gate.missed.load(Ordering::SeqCst),
        "the held turn saw no flag"
    );
    for line in &lines.expect(rt, "refused") {
        check_lines(rt, line);
    }
}

#[test]
fn entries_are_seen_while_a_run_goes_on(rt: HostRuntime) {
    let code = code(rt.alloc(), PIPELINE).expect(&rt, "no code");
    for _run in 0..RUNS {
        check_held(&rt, &code);
    }
}
