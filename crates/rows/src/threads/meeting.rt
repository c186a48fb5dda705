//! Turns run at once, outside the lock: four of them look for one another.
use crate::sources::{FOUR, code};
use occ_machine::{Body, Code, Task};
use occ_proc::{Segment, turn};
use occ_run::{Gate, run_workers};
use occ_term::Ending;
use std::alloc::{AllocError, Global};
use std::hint::spin_loop;
use std::process::Abort;
use std::sync::atomic::{AtomicBool, AtomicU64, Ordering};
use std::sync::{Arc, Wait};
use std::thread::Threads;

/// How often a turn looks for the others.
const LOOKS: u32 = 100_000_000;

/// How many runs there are.
const RUNS: u32 = 200;

/// A gate in which the first turn of each of the processes 1 to 4 looks for the other three.
#[derive(Drop)]
struct Meeting {
    here: [AtomicBool; 4],
    missed: AtomicBool,
    runs: AtomicU64,
}

impl Meeting {
    fn new() -> Meeting {
        Meeting {
            here: [
                AtomicBool::new(false),
                AtomicBool::new(false),
                AtomicBool::new(false),
                AtomicBool::new(false),
            ],
            missed: AtomicBool::new(false),
            runs: AtomicU64::new(0),
        }
    }

    fn is_missed(&self) -> bool {
        self.missed.load(Ordering::SeqCst)
    }

    /// Looks until all four are here, or one turn has looked in vain.
    fn look_for_all(&self) {
        for _ in 0..LOOKS {
            if self.here.iter().all(|flag| flag.load(Ordering::SeqCst)) || self.is_missed() {
                return;
            }
            spin_loop();
        }
        self.missed.store(true, Ordering::SeqCst);
    }

    /// The turn of a process, which looks for the others where it is the first one.
    fn meet(&self, number: u32, turns: u64) {
        self.runs.fetch_add(1, Ordering::SeqCst);
        if turns > 0 || number == 0 {
            return;
        }
        if let Some(flag) = self.here.get(number as usize - 1) {
            flag.store(true, Ordering::SeqCst);
            self.look_for_all();
        }
    }
}

impl Gate for Meeting {
    fn run(
        &self,
        alloc: Global,
        body: Arc<Body, Global>,
        before: Task,
    ) -> Result<Segment, (Task, AllocError)> {
        self.meet(before.number, before.turns);
        turn(alloc, body, before)
    }
}

/// One run, in which the four turns meet.
fn check_meeting<R: Threads + Wait + Abort + Sync + AllocGlobal>(rt: &R, code: &Code) {
    let gate = Meeting::new();
    let run = run_workers(rt, rt.alloc(), code, b"", 4, 100, &gate);
    assert!(rt; !gate.is_missed(), "a flag was not seen");
    assert!(rt; gate.runs.load(Ordering::SeqCst) == 6);
    let outcome = run.expect(rt, "refused");
    assert!(rt; outcome.choices.len() == 6 && matches!(outcome.ending, Ending::Ended));
}

#[test]
fn turns_run_at_once(rt: HostRuntime) {
    let code = code(rt.alloc(), FOUR).expect(&rt, "no code");
    for _run in 0..RUNS {
        check_meeting(&rt, &code);
    }
}
