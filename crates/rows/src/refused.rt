//! What is given beside a source and refused: the command line takes no such number, so only a caller of the library meets it.
use crate::compared::{check_count, check_text};
use occ_play::{
    Counted, Errors, FreeGate, Options, Plan, PlayFault, Played, play_in, play_workers, status_of,
};
use std::alloc::Global;
use std::process::Abort;
use std::sync::Wait;
use std::thread::Threads;

const LETTER: &[u8] = b"PROC main (CHAN OF BYTE keyboard, screen)\n  screen ! 'A'\n:\n";

const TWO_OUTPUTS: &[u8] =
    b"PROC main (CHAN OF BYTE keyboard, screen)\n  PAR\n    screen ! 'a'\n    screen ! 'b'\n:\n";

/// A source, a number that is given beside it, and the refusal with its exit status: a fault of the source comes first.
struct Row(&'static [u8], u32, &'static str, u8);

/// Numbers of ends of a loop's body that a turn may pass.
static QUANTA: [Row; 4] = [
    Row(LETTER, 0, "refused 62 BadQuantum", 7),
    Row(LETTER, 65_537, "refused 62 BadQuantum", 7),
    Row(b"", 0, "refused 42 NoMain", 1),
    Row(
        TWO_OUTPUTS,
        70_000,
        "refused 52 TwoOutputs line 4 screen",
        1,
    ),
];

/// Numbers of threads.
static CREWS: [Row; 3] = [
    Row(LETTER, 0, "refused 81 BadWorkers", 7),
    Row(LETTER, 65, "refused 81 BadWorkers", 7),
    Row(b"", 0, "refused 42 NoMain", 1),
];

/// Compares the refusal and the exit status, and that nothing was written.
fn check_refused(
    rt: &impl Abort,
    alloc: Global,
    row: &Row,
    came: &Result<Played, PlayFault>,
    answer: &[u8],
) {
    let Row(_, _, refusal, status) = row;
    check_count(
        rt,
        refusal,
        usize::from(status_of(came)),
        usize::from(*status),
    );
    check_count(rt, refusal, answer.len(), 0);
    match came {
        Ok(_) => assert!(rt; false, "{refusal}: played"),
        Err(fault) => {
            let told = fault.to_string(alloc).expect(rt, "memory");
            check_text(rt, refusal, told.as_str(), refusal);
        }
    }
}

fn check_quantum(rt: &impl Abort, alloc: Global, row: &Row) {
    let options = Options {
        quantum: row.1,
        errors: Errors::Halt,
    };
    let plan = Plan::Turns(10);
    let mut answer = Vec::new(alloc);
    let mut out = Counted::new(&mut answer);
    let came = play_in(&options, alloc, row.0, b"", &plan, false, &mut out);
    drop(out);
    check_refused(rt, alloc, row, &came, answer.as_slice());
}

fn check_crew<R: Threads + Wait + Abort + Sync + AllocGlobal>(rt: &R, row: &Row) {
    let mut answer = Vec::new(rt.alloc());
    let mut out = Counted::new(&mut answer);
    let came = play_workers(
        rt,
        rt.alloc(),
        row.0,
        b"",
        row.1,
        10,
        false,
        &FreeGate,
        &mut out,
    );
    drop(out);
    check_refused(rt, rt.alloc(), row, &came, answer.as_slice());
}

#[test]
fn quanta_are_refused(rt: HostRuntime) {
    for row in &QUANTA {
        check_quantum(&rt, rt.alloc(), row);
    }
    let plain = Options::plain();
    assert!(rt; plain.quantum == 1 && plain.errors == Errors::Halt);
}

#[test]
fn crews_are_refused(rt: HostRuntime) {
    for row in &CREWS {
        check_crew(&rt, row);
    }
}
