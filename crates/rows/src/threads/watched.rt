//! Runs at which a watcher looks when they are over: what it is shown, in whatever way they end.
ghost use Rattle.std.specs.Prelude.{◌≡◌, List, false};
ghost use Rattle.occ_term.specs.Runs.{Entry};

use crate::compared::check_text;
use crate::sources::{FOUR, LETTER, PIPELINE, code};
use occ_board::{Board, BoardFault, Naming, Note, Opened, Publisher, Shown, Watcher};
use occ_machine::{Body, Code, Task};
use occ_proc::Segment;
use occ_run::{FreeGate, Gate, RunFault, run_watched};
use occ_shown::watch_lines;
use occ_term::{End, Message, Name, Part, Parts, Primitive};
use std::alloc::{AllocError, Global};
use std::marker::Brand;
use std::process::Abort;
use std::sync::{Arc, Wait};
use std::thread::Threads;

pub(crate) const PIPED: &[u8] =
    b"1 c3 c[0] p1>p3 1\n2 c4 c[1] p3>p4 2\n3 c5 c[2] p4>p5 3\n4 c6 c[3] p5>p6 4\n5 c1 screen p6>screen 52\n";

/// The lines that a watcher is shown who was told a note twice.
pub(crate) fn lines_told<J: Naming>(
    alloc: Global,
    watcher: Watcher<J>,
    note: &Note<J>,
) -> Option<Vec<u8>> {
    let (_watcher, lines) = watcher
        .told(note)
        .told(note)
        .look(|list| watch_lines(alloc, list))
        .ok()?;
    lines.ok()
}

/// A gate that refuses every turn, as if memory had run out.
#[derive(Drop)]
struct Refusing;

impl Gate for Refusing {
    fn run(
        &self,
        _alloc: Global,
        _body: Arc<Body, Global>,
        before: Task,
    ) -> Result<Segment, (Task, AllocError)> {
        Err((before, AllocError))
    }
}

/// Why a run of this code by so many workers is refused.
fn fault_of<J: Naming, R: Threads + Wait + Sync, G: Gate + Sync>(
    rt: &R,
    alloc: Global,
    code: &Code,
    workers: u32,
    gate: &G,
    publisher: Publisher<J>,
) -> Option<RunFault>
    requires going { publisher.closed ≡ false }
    requires may { (xs : List Entry) → J.may xs }
{
    match run_watched(rt, alloc, code, b"", workers, 100, gate, publisher) {
        Ok((_, publisher, _)) => {
            publisher.end(rt);
            None
        }
        Err(fault) => Some(fault),
    }
}

/// The same, where its watcher sees nothing any more.
fn refusal<J: Naming, R: Threads + Wait + Sync, G: Gate + Sync>(
    rt: &R,
    alloc: Global,
    opened: Opened,
    code: &Code,
    workers: u32,
    gate: &G,
) -> Option<RunFault>
    requires book { opened ≡ J.book }
    requires may { (xs : List Entry) → J.may xs }
{
    let (publisher, mut watchers) = match Board::new::<J>(opened, alloc, 8) {
        Ok(board) => board,
        Err(_) => return None,
    };
    let fault = fault_of(rt, alloc, code, workers, gate, publisher);
    match watchers.pop()?.look(|_| ()) {
        Ok(_) => None,
        Err(_) => fault,
    }
}

#[test]
fn a_refused_run_ends_its_publisher(rt: HostRuntime) {
    let alloc = rt.alloc();
    let code = code(alloc, FOUR).expect(&rt, "no code");
    for workers in [0, 65] {
        let refused = refusal::<Brand, _, _>(&rt, alloc, Opened::new(), &code, workers, &FreeGate);
        assert!(rt; refused == Some(RunFault::BadWorkers));
    }
    let refused = refusal::<Brand, _, _>(&rt, alloc, Opened::new(), &code, 2, &Refusing);
    assert!(rt; refused == Some(RunFault::Memory));
}

/// The byte 65 on a channel without a name, with this number.
fn shown(alloc: Global, number: u64) -> Result<Shown, AllocError> {
    let name = Name::new(alloc, b"")?;
    let message = Message {
        tag: None,
        items: Parts::one(Part::One(Primitive::Byte, 65)),
    };
    Ok(Shown::new(number, 9, name, End::Keyboard, End::Error, None, message))
}

/// How many entries are shown of a run before which one was published and one appended, and the number of the last.
fn shown_behind<J: Naming, R: Threads + Wait + Sync>(
    rt: &R,
    alloc: Global,
    code: &Code,
    publisher: Publisher<J>,
    watcher: Watcher<J>,
    entries: (Shown, Shown),
) -> Option<(usize, u64)>
    requires going { publisher.closed ≡ false }
    requires may { (xs : List Entry) → J.may xs }
{
    let (first, second) = entries;
    let mut publisher = publisher;
    let _ = publisher.append(first);
    let (mut publisher, _) = publisher.publish(rt);
    let _ = publisher.append(second);
    match run_watched(rt, alloc, code, b"", 1, 10, &FreeGate, publisher) {
        Ok((_, publisher, note)) => {
            let read = watcher.told(&note).look(|list| {
                (
                    list.len(),
                    match list.last() {
                        Some(shown) => shown.number(),
                        None => 0,
                    },
                )
            });
            publisher.end(rt);
            Some(read.ok()?.1)
        }
        Err(_) => None,
    }
}

/// The same on a board of its own.
fn held_and_shown<J: Naming, R: Threads + Wait + Sync>(
    rt: &R,
    alloc: Global,
    opened: Opened,
    code: &Code,
    entries: (Shown, Shown),
) -> Option<(usize, u64)>
    requires book { opened ≡ J.book }
    requires may { (xs : List Entry) → J.may xs }
{
    match Board::new::<J>(opened, alloc, 1) {
        Ok((publisher, mut watchers)) => match watchers.pop() {
            Some(watcher) => shown_behind(rt, alloc, code, publisher, watcher, entries),
            None => {
                publisher.end(rt);
                None
            }
        },
        Err(_) => None,
    }
}

#[test]
fn a_run_is_shown_behind_what_was_held(rt: HostRuntime) {
    let alloc = rt.alloc();
    let code = code(alloc, LETTER).expect(&rt, "no code");
    let first = shown(alloc, 7).expect(&rt, "memory");
    let second = shown(alloc, 8).expect(&rt, "memory");
    let read = held_and_shown::<Brand, _>(&rt, alloc, Opened::new(), &code, (first, second));
    assert!(rt; matches!(read, Some((3, 1))));
}

/// How many of these watchers are shown just these lines when they are told the note.
fn count_shown<J: Naming>(
    alloc: Global,
    watchers: Vec<Watcher<J>>,
    note: &Note<J>,
    lines: &[u8],
) -> u32 {
    let mut watchers = watchers;
    let mut count = 0;
    for _ in 0..8 {
        if let Some(watcher) = watchers.pop() {
            if is_shown(alloc, watcher, note, lines) {
                count = u32::saturating_add(count, 1);
            }
        }
    }
    count
}

/// Whether a watcher is shown just these lines.
fn is_shown<J: Naming>(alloc: Global, watcher: Watcher<J>, note: &Note<J>, lines: &[u8]) -> bool {
    match lines_told(alloc, watcher, note) {
        Some(shown) => shown.as_slice() == lines,
        None => false,
    }
}

/// How many of eight watchers are shown all of a run.
fn eight_shown<J: Naming, R: Threads + Wait + Sync>(
    rt: &R,
    alloc: Global,
    opened: Opened,
    code: &Code,
) -> u32
    requires book { opened ≡ J.book }
    requires may { (xs : List Entry) → J.may xs }
{
    let (publisher, watchers) = match Board::new::<J>(opened, alloc, 8) {
        Ok(board) => board,
        Err(_) => return 0,
    };
    match run_watched(rt, alloc, code, b"", 2, 1000, &FreeGate, publisher) {
        Ok((_, publisher, note)) => {
            let count = count_shown(alloc, watchers, &note, PIPED);
            publisher.end(rt);
            count
        }
        Err(_) => 0,
    }
}

#[test]
fn eight_watchers_are_shown_the_trace(rt: HostRuntime) {
    let alloc = rt.alloc();
    let code = code(alloc, PIPELINE).expect(&rt, "no code");
    let count = eight_shown::<Brand, _>(&rt, alloc, Opened::new(), &code);
    assert!(rt; count == 8);
}

#[test]
fn faults_of_a_board_have_their_lines(rt: HostRuntime) {
    let alloc = rt.alloc();
    let many = format!(in alloc; "{}", BoardFault::BadWatchers).expect(&rt, "memory");
    check_text(&rt, "the fault", many.as_str(), "refused 82 BadWatchers");
    let refused = format!(in alloc; "{}", BoardFault::Refused).expect(&rt, "memory");
    check_text(&rt, "the fault", refused.as_str(), "refused 87 Refused");
}
