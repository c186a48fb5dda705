//! Runs that get the keyboard's bytes while they go on: when they read, and what they have written by then.
use crate::compared::check_bytes;
use crate::inputs::Halting;
use crate::sources::LETTER;
use occ_files::{CountedReader, Reason};
use occ_live::{LiveFault, run_live};
use occ_play::{Counted, Ending, Options, Plan, code_of};
use std::alloc::Global;
use std::process::Abort;

/// Asks for each byte, and shows it, up to a full stop.
const ASKING: &[u8] =
    b"PROC main (CHAN OF BYTE keyboard, screen)\n  BYTE b:\n  SEQ\n    b := ' '\n    WHILE b <> '.'\n      SEQ\n        screen ! '>'\n        keyboard ? b\n        screen ! b\n:\n";

/// Takes a byte where one stands, and else shows a dash.
const LOOKING: &[u8] =
    b"PROC main (CHAN OF BYTE keyboard, screen)\n  BYTE b:\n  PRI ALT\n    keyboard ? b\n      screen ! b\n    TRUE & SKIP\n      screen ! '-'\n:\n";

const NEVER: u32 = 1_000;

/// The source, what is typed, and the number of the read that fails; then the screen, how many reads there were, how it ended, and
/// whether the keyboard may have more.
#[derive(Clone, Copy)]
struct Row(
    &'static [u8],
    &'static [u8],
    u32,
    &'static [u8],
    u32,
    Result<(Ending, bool), LiveFault>,
);

const UNREAD: LiveFault = LiveFault::Read(Reason::Other(0));

static ROWS: [Row; 9] = [
    Row(LETTER, b"x", NEVER, b"A", 0, Ok((Ending::Ended, true))),
    Row(
        ASKING,
        b"ab.",
        NEVER,
        b">a>b>.",
        3,
        Ok((Ending::Ended, true)),
    ),
    Row(ASKING, b"a", NEVER, b">a>", 2, Ok((Ending::Stopped, false))),
    // what the screen has is there before a read that fails
    Row(ASKING, b"ab.", 0, b">", 1, Err(UNREAD)),
    Row(ASKING, b"ab.", 1, b">a>", 2, Err(UNREAD)),
    Row(ASKING, b"ab.", 2, b">a>b>", 3, Err(UNREAD)),
    // a choice that would take another arm
    Row(LOOKING, b"k", NEVER, b"k", 1, Ok((Ending::Ended, true))),
    Row(LOOKING, b"", NEVER, b"-", 1, Ok((Ending::Ended, false))),
    Row(LOOKING, b"k", 0, b"", 1, Err(UNREAD)),
];

fn check_row(rt: &impl Abort, alloc: Global, row: &Row) {
    let code = code_of(&Options::plain(), alloc, row.0).ok();
    let code = code.expect(rt, "refused");
    let mut halting = Halting::failing(row.1, row.2);
    let mut keys = CountedReader::new(&mut halting);
    let mut keyboard = Vec::new(alloc);
    let mut screen = Vec::new(alloc);
    let mut out = Counted::new(&mut screen);
    let plan = Plan::Turns(1_000);
    let lived = run_live(alloc, &code, &mut keys, &mut keyboard, &plan, &mut out);
    drop(out);
    drop(keys);
    check_bytes(rt, "the screen", screen.as_slice(), row.3);
    assert!(rt; halting.reads() == row.4);
    match (lived, row.5) {
        (Ok(lived), Ok((ending, is_open))) => {
            assert!(rt; lived.outcome.ending == ending && lived.is_open == is_open);
        }
        (Err(fault), Err(wanted)) => assert!(rt; fault == wanted),
        _ => assert!(rt; false, "another answer"),
    }
}

#[test]
fn a_live_run_reads_where_a_byte_matters(rt: HostRuntime) {
    for row in &ROWS {
        check_row(&rt, rt.alloc(), row);
    }
}
