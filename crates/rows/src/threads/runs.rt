//! Runs by workers: their numbers, limits, picks and refusals.
use crate::compared::{check_bytes, check_count};
use crate::sources::{FOUR, LETTER, LONG, code};
use occ_machine::{Body, Code, Task};
use occ_net::Outcome;
use occ_net_replay::Choice;
use occ_proc::{Segment, turn};
use occ_run::{FreeGate, Gate, RunFault, run_workers};
use occ_term::Ending;
use std::alloc::{AllocError, Global};
use std::process::Abort;
use std::sync::atomic::{AtomicU64, Ordering};
use std::sync::{Arc, Wait};
use std::thread::Threads;

/// What a run by so many workers comes to.
fn outcome_of<R: Threads + Wait + Abort + Sync + AllocGlobal>(
    rt: &R,
    code: &Code,
    workers: u32,
    limit: u32,
) -> Outcome {
    run_workers(rt, rt.alloc(), code, b"", workers, limit, &FreeGate).expect(rt, "refused")
}

/// Why a run by four workers is refused.
fn refusal_of<R: Threads + Wait + Sync + AllocGlobal>(
    rt: &R,
    code: &Code,
    gate: &Refusing,
) -> Option<RunFault> {
    run_workers(rt, rt.alloc(), code, b"", 4, 100, gate).err()
}

/// Such a run has come to its end, in so many turns.
fn check_ended(rt: &impl Abort, outcome: &Outcome, turns: usize) {
    assert!(rt; matches!(outcome.ending, Ending::Ended));
    check_count(rt, "turns", outcome.choices.len(), turns);
}

/// The letter is on the screen, by these choices.
fn check_letter(rt: &impl Abort, all: &Outcome) {
    check_ended(rt, all, 2);
    check_bytes(rt, "the screen", all.screen.as_slice(), b"A");
    let used = [Choice { which: 0, pick: 0 }, Choice { which: 0, pick: 1 }];
    assert!(rt; all.choices.as_slice() == used.as_slice());
}

#[test]
fn workers_play_within_their_limit(rt: HostRuntime) {
    let code = code(rt.alloc(), LETTER).expect(&rt, "no code");
    let none = outcome_of(&rt, &code, 1, 0);
    assert!(rt; matches!(none.ending, Ending::Limit) && none.choices.is_empty());
    check_letter(&rt, &outcome_of(&rt, &code, 3, 10));
}

/// A run of many turns goes on to its end.
#[test]
fn workers_settle_many_turns(rt: HostRuntime) {
    let code = code(rt.alloc(), LONG).expect(&rt, "no code");
    check_ended(&rt, &outcome_of(&rt, &code, 2, 5_000), 2_002);
}

/// A gate that refuses the turn with this number, from 0, as if memory had run out.
#[derive(Drop)]
struct Refusing {
    runs: AtomicU64,
    refused: u64,
}

impl Gate for Refusing {
    fn run(
        &self,
        alloc: Global,
        body: Arc<Body, Global>,
        before: Task,
    ) -> Result<Segment, (Task, AllocError)> {
        if self.runs.fetch_add(1, Ordering::SeqCst) == self.refused {
            return Err((before, AllocError));
        }
        turn(alloc, body, before)
    }
}

/// The run of a source of six turns ends for want of memory where one of them is refused, and only there.
#[test]
fn a_refused_turn_ends_the_run(rt: HostRuntime) {
    let code = code(rt.alloc(), FOUR).expect(&rt, "no code");
    for refused in 0..7u64 {
        let gate = Refusing {
            runs: AtomicU64::new(0),
            refused,
        };
        let wanted = if refused < 6 {
            Some(RunFault::Memory)
        } else {
            None
        };
        let met = refusal_of(&rt, &code, &gate);
        assert!(rt; met == wanted);
    }
}
