//! Turns that are settled, and turns that are not.
use crate::compared::{check_count, check_text};
use crate::sources::{DIVIDES, LETTER};
use crate::turned::{check_refused, network_of, next_turn, settle, step, turn_by};
use occ_net::{Network, Outcome};
use occ_proc::Segment;
use std::alloc::Global;
use std::process::Abort;

/// Two branches have taken their turns, and the first one has failed. The second one's turn is left.
fn faulted(rt: &impl Abort, alloc: Global) -> (Network, Segment) {
    let mut network = network_of(rt, alloc, DIVIDES, b"");
    step(rt, alloc, &mut network, 0);
    let first = turn_by(rt, alloc, &mut network, 1);
    let second = turn_by(rt, alloc, &mut network, 2);
    settle(rt, alloc, &mut network, first);
    (network, second)
}

/// Nothing was communicated before this ending, in so many turns.
fn check_outcome(rt: &impl Abort, alloc: Global, outcome: &Outcome, ending: &str, turns: usize) {
    let told = outcome.ending.to_string(alloc).expect(rt, "memory");
    check_text(rt, "the ending", told.as_str(), ending);
    check_count(rt, "turns", outcome.choices.len(), turns);
    assert!(rt; outcome.network.trace().is_empty());
}

const OVER: &str = "Over { ending: Fault(Fault { kind: Arith, line: 4 }) }";

/// The same network, which has refused the turn that was left.
fn late_turn_refused(rt: &impl Abort, alloc: Global) -> Network {
    let (mut network, late) = faulted(rt, alloc);
    check_refused(rt, alloc, &mut network, late, OVER);
    network
}

/// What it came to. No process can take a turn.
fn late_outcome(rt: &impl Abort, alloc: Global) -> Option<Outcome> {
    let mut network = late_turn_refused(rt, alloc);
    let next = next_turn(alloc, &mut network).expect(rt, "memory");
    assert!(rt; next.is_none());
    network.into_outcome(alloc).ok()
}

#[test]
fn a_fault_ends_a_network(rt: HostRuntime) {
    let outcome = late_outcome(&rt, rt.alloc()).expect(&rt, "no outcome");
    check_outcome(&rt, rt.alloc(), &outcome, "fault ARITH line 4", 2);
}

/// A source of one process, how many turns it has taken when it takes one twice, and how the second of these is refused.
struct Twice(&'static [u8], u32, &'static str);

const LOOPS: &[u8] = b"PROC main (CHAN OF BYTE keyboard, screen)\n  WHILE TRUE\n    SKIP\n:\n";

static TWICE: [Twice; 3] = [
    Twice(LOOPS, 0, "Stale { number: 0, turns: 1 }"),
    Twice(LETTER, 0, "Stale { number: 0, turns: 1 }"),
    Twice(LETTER, 1, "Over { ending: Ended }"),
];

/// The network of a source whose main process has taken so many turns.
fn network_after(rt: &impl Abort, alloc: Global, source: &[u8], turns: u32) -> Network {
    let mut network = network_of(rt, alloc, source, b"");
    for _ in 0..turns {
        step(rt, alloc, &mut network, 0);
    }
    network
}

/// The main process has taken so many turns, and one more twice, of which the second is left.
fn turned_twice(rt: &impl Abort, alloc: Global, source: &[u8], turns: u32) -> (Network, Segment) {
    let mut network = network_after(rt, alloc, source, turns);
    let first = turn_by(rt, alloc, &mut network, 0);
    assert!(rt; network.release(0));
    assert!(rt; !network.release(0));
    let again = turn_by(rt, alloc, &mut network, 0);
    assert!(rt; again.before().turns == u64::from(turns));
    settle(rt, alloc, &mut network, first);
    (network, again)
}

/// A turn that was taken twice is settled once.
fn check_twice(rt: &impl Abort, alloc: Global, row: &Twice) {
    let (mut network, again) = turned_twice(rt, alloc, row.0, row.1);
    check_refused(rt, alloc, &mut network, again, row.2);
}

#[test]
fn a_turn_is_settled_once(rt: HostRuntime) {
    for row in &TWICE {
        check_twice(&rt, rt.alloc(), row);
    }
}
