//! Programs that several tests run.
use occ_check::unfold;
use occ_code::compile;
use occ_machine::Code;
use occ_term::Unfolded;
use occ_text::{Source, read_lines};
use occ_tree::parse;
use occ_usage::check_usage;
use std::alloc::Global;

/// The unfolded program of these lines, where there is one.
fn unfolded(alloc: Global, lines: &Source) -> Option<Unfolded> {
    let tree = parse(alloc, lines).ok()?;
    unfold(alloc, &tree).ok()
}

/// The code of a source, by the call of each layer, where it is accepted.
pub(crate) fn code(alloc: Global, source: &[u8]) -> Option<Code> {
    let lines = read_lines(alloc, source).ok()?;
    let unfolded = unfolded(alloc, &lines)?;
    let checked = check_usage(alloc, unfolded).ok()?;
    compile(alloc, &checked).ok()
}

/// A letter on the screen.
pub(crate) const LETTER: &[u8] = b"PROC main (CHAN OF BYTE keyboard, screen)\n  screen ! 'A'\n:\n";

/// Four processes, of which each comes to its end in its first turn.
pub(crate) const FOUR: &[u8] =
    b"PROC main (CHAN OF BYTE keyboard, screen)\n  PAR i = 0 FOR 4\n    SKIP\n:\n";

/// A loop of two thousand turns, and a letter.
pub(crate) const LONG: &[u8] =
    b"PROC main (CHAN OF BYTE keyboard, screen)\n  INT n:\n  SEQ\n    n := 0\n    WHILE n < 2000\n      n := n + 1\n    screen ! 'A'\n:\n";

/// A fault beside a process that has something to say.
pub(crate) const DIVIDES: &[u8] =
    b"PROC main (CHAN OF BYTE keyboard, screen)\n  INT z:\n  PAR\n    z := 1 / z\n    screen ! 'a'\n:\n";

/// A pipeline of five processes.
pub(crate) const PIPELINE: &[u8] =
    b"PROC main (CHAN OF BYTE keyboard, screen)\n  [4]CHAN OF INT c:\n  PAR\n    c[0] ! 1\n    PAR i = 0 FOR 3\n      INT x:\n      SEQ\n        c[i] ? x\n        c[i + 1] ! x + 1\n    INT y:\n    SEQ\n      c[3] ? y\n      screen ! BYTE (y + 48)\n:\n";

/// Branches that work on copies, which are put together again.
pub(crate) const MERGE: &[u8] =
    b"PROC main (CHAN OF BYTE keyboard, screen)\n  [2]INT a:\n  INT n:\n  SEQ\n    n := 0\n    WHILE n < 2\n      SEQ\n        PAR\n          a[0] := a[0] + 1\n          a[1] := a[1] + n\n        n := n + 1\n    screen ! BYTE ((a[0] + a[1]) + 48)\n:\n";

/// A tag that is not listed.
pub(crate) const TAGS: &[u8] =
    b"PROTOCOL msg\n  CASE\n    data; INT\n    quit\n:\nPROC main (CHAN OF BYTE keyboard, screen)\n  CHAN OF msg c:\n  PAR\n    SEQ\n      c ! data; 5\n      c ! quit\n    INT x:\n    SEQ\n      c ? CASE data; x\n      screen ! BYTE (x + 48)\n      c ? CASE data; x\n:\n";

/// Arms within arms, three deep.
pub(crate) const ARMS: &[u8] =
    b"PROC main (CHAN OF BYTE keyboard, screen)\n  [4]CHAN OF INT c:\n  PAR\n    c[1] ! 2\n    INT x:\n    ALT i = 0 FOR 2\n      VAL INT row IS i * 2:\n      ALT j = 0 FOR 2\n        VAL INT place IS row + j:\n        ALT\n          c[place] ? x\n            SEQ\n              screen ! BYTE (i + 48)\n              screen ! BYTE (row + 48)\n              screen ! BYTE (j + 48)\n              screen ! BYTE (place + 48)\n              screen ! BYTE (x + 48)\n:\n";

/// Branches within branches, by PROCs.
pub(crate) const CELLS: &[u8] =
    b"PROC cell (CHAN OF INT in, out)\n  INT x:\n  SEQ\n    in ? x\n    out ! x\n:\nPROC row (CHAN OF INT in, out)\n  CHAN OF INT middle:\n  PAR\n    cell (in, middle)\n    cell (middle, out)\n:\nPROC main (CHAN OF BYTE keyboard, screen)\n  [3]CHAN OF INT c:\n  SEQ\n    PAR i = 0 FOR 0\n      STOP\n    PAR\n      PAR i = 0 FOR 2\n        row (c[i], c[i + 1])\n      c[0] ! 7\n:\n";
