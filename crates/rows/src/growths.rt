//! Networks that meet a refused growth: what is done again gives what it would have given. `tools/refuse --test rows growths::`
//! tries this with each growth refused in turn.
ghost use Rattle.std.specs.Prelude.{IfSome};
ghost use Rattle.occ_net.specs.Leases.{CanTakeTurn};

use crate::compared::check_bytes;
use crate::sources::{DIVIDES, MERGE, PIPELINE, TAGS};
use crate::turned::{network_of, next_turn, settle, turn_of};
use occ_net::{Lease, NetFault, Network, Outcome};
use occ_proc::Segment;
use occ_term::{Ending, Fault, FaultKind};
use std::alloc::Global;
use std::process::Abort;

/// A source, its keyboard, and what its run writes to the screen and how it ends, whichever process goes first.
struct Row(&'static [u8], &'static [u8], &'static [u8], Ending);

const CHOOSES: &[u8] =
    b"PROC main (CHAN OF BYTE keyboard, screen)\n  CHAN OF INT a, b:\n  PAR\n    a ! 1\n    b ! 2\n    INT x:\n    SEQ\n      PRI ALT\n        a ? x\n          SKIP\n        b ? x\n          SKIP\n      screen ! BYTE (x + 48)\n:\n";

const WAITS: &[u8] =
    b"PROC main (CHAN OF BYTE keyboard, screen)\n  CHAN OF INT c:\n  PAR\n    SEQ i = 0 FOR 4\n      INT n:\n      ALT\n        c ? n\n          screen ! BYTE (n + 48)\n    SEQ i = 0 FOR 4\n      c ! i\n:\n";

const COUNTED: &[u8] =
    b"PROC main (CHAN OF BYTE keyboard, screen)\n  CHAN OF INT::[]BYTE c:\n  PAR\n    [4]BYTE buf:\n    SEQ\n      buf[0] := 'a'\n      buf[1] := 'b'\n      c ! 2::buf\n    INT n:\n    [4]BYTE got:\n    SEQ\n      c ? n::got\n      screen ! got[n - 1]\n:\n";

const ECHOES: &[u8] =
    b"PROC main (CHAN OF BYTE keyboard, screen)\n  SEQ i = 0 FOR 3\n    BYTE b:\n    SEQ\n      keyboard ? b\n      screen ! b\n:\n";

static ROWS: [Row; 8] = [
    Row(PIPELINE, b"", b"4", Ending::Ended),
    Row(MERGE, b"", b"3", Ending::Ended),
    Row(CHOOSES, b"", b"1", Ending::Stopped),
    Row(WAITS, b"", b"0123", Ending::Ended),
    Row(TAGS, b"", b"5", Ending::Stopped),
    Row(COUNTED, b"", b"b", Ending::Ended),
    Row(ECHOES, b"hi", b"hi", Ending::Stopped),
    Row(
        DIVIDES,
        b"",
        b"",
        Ending::Fault(Fault {
            kind: FaultKind::Arith,
            line: 4,
        }),
    ),
];

/// The next lease, again after a refused growth.
fn leased(alloc: Global, network: &mut Network) -> Option<Lease>
    ensures { IfSome result CanTakeTurn }
{
    match network.lease(alloc) {
        Ok(found) => found,
        Err(_) => match network.lease(alloc) {
            Ok(found) => found,
            Err(_) => None,
        },
    }
}

/// The next turn, again after a refused growth.
fn next(rt: &impl Abort, alloc: Global, network: &mut Network) -> Option<Segment> {
    let lease = leased(alloc, network)?;
    let number = lease.task.number;
    match turn_of(alloc, lease) {
        Ok(segment) => Some(segment),
        Err(_) => {
            assert!(rt; network.release(number));
            next_turn(alloc, network).ok()?
        }
    }
}

/// Settles a turn, again after a refused growth, unless a turn before it has ended the network.
fn settle_again(rt: &impl Abort, alloc: Global, network: &mut Network, segment: Segment) {
    if network.ending().is_some() {
        return;
    }
    match network.settle(alloc, segment, 0) {
        Ok(()) => {}
        Err((segment, fault)) => {
            assert!(rt; matches!(fault, NetFault::Memory));
            settle(rt, alloc, network, segment);
        }
    }
}

/// Takes turns until no process can be leased. Up to two processes are out at a time.
fn take_turns(rt: &impl Abort, alloc: Global, network: &mut Network) {
    for _ in 0..40 {
        let Some(first) = next(rt, alloc, network) else {
            return;
        };
        let second = next(rt, alloc, network);
        settle_again(rt, alloc, network, first);
        if let Some(second) = second {
            settle_again(rt, alloc, network, second);
        }
    }
}

/// What a network came to, again after a refused growth.
fn outcome_of(rt: &impl Abort, alloc: Global, network: Network) -> Option<Outcome> {
    match network.into_outcome(alloc) {
        Ok(outcome) => Some(outcome),
        Err((network, fault)) => {
            assert!(rt; matches!(fault, NetFault::Memory));
            network.into_outcome(alloc).ok()
        }
    }
}

/// Process 0 alone may take a turn of a network that is new.
fn check_new(rt: &impl Abort, network: &Network) {
    assert!(rt; network.ready_count() == 1);
    let first = network.ready_at(0).expect(rt, "no process");
    assert!(rt; first.number == 0);
}

/// A network that meets a refused growth comes to what the row says.
fn check_row(rt: &impl Abort, alloc: Global, row: &Row) {
    let mut network = network_of(rt, alloc, row.0, row.1);
    check_new(rt, &network);
    take_turns(rt, alloc, &mut network);
    let outcome = outcome_of(rt, alloc, network).expect(rt, "no outcome");
    check_bytes(rt, "the screen", outcome.screen.as_slice(), row.2);
    assert!(rt; outcome.ending == row.3);
}

#[test]
fn refused_growths_change_no_answer(rt: HostRuntime) {
    for row in &ROWS {
        check_row(&rt, rt.alloc(), row);
    }
}
