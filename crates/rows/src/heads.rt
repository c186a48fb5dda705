//! The examples in the heads of the crates that callers use, each just as it stands there.
use occ_check::unfold;
use occ_exploring::{Asked, Untold, explore_in};
use occ_play::{Counted, Ending, Options, Plan, play};
use occ_text::read_lines;
use occ_tree::parse;
use occ_usage::check_usage;
use std::test::Fail;

#[test]
fn text_has_lines(rt: HostRuntime) -> Result<(), Fail> {
    let alloc = rt.alloc();
    let source = read_lines(alloc, b"SEQ\n  x := 1\n")?;
    assert_eq!(rt; source.lines.len(), 2);
    Ok(())
}

#[test]
fn lines_have_a_tree(rt: HostRuntime) -> Result<(), Fail> {
    let alloc = rt.alloc();
    let hello = b"PROC main (CHAN OF BYTE keyboard, screen)\n  screen ! 'A'\n:\n";
    let program = parse(alloc, &read_lines(alloc, hello)?)?;
    assert_eq!(rt; program.items.len(), 1);
    Ok(())
}

#[test]
fn tree_is_unfolded(rt: HostRuntime) -> Result<(), Fail> {
    let alloc = rt.alloc();
    let hello = b"PROC main (CHAN OF BYTE keyboard, screen)\n  screen ! 'A'\n:\n";
    let program = parse(alloc, &read_lines(alloc, hello)?)?;
    let unfolded = unfold(alloc, &program)?;
    assert_eq!(rt; unfolded.channels().len(), 3); // the keyboard, the screen and the error channel
    Ok(())
}

#[test]
fn sharing_is_refused(rt: HostRuntime) -> Result<(), Fail> {
    let alloc = rt.alloc();
    let twice =
        b"PROC main (CHAN OF BYTE keyboard, screen)\n  PAR\n    screen ! 'A'\n    screen ! 'B'\n:\n";
    let program = parse(alloc, &read_lines(alloc, twice)?)?;
    let unfolded = unfold(alloc, &program)?;
    assert!(rt; check_usage(alloc, unfolded).is_err()); // two branches output on one channel
    Ok(())
}

#[test]
fn source_is_played(rt: HostRuntime) -> Result<(), Fail> {
    let alloc = rt.alloc();
    let hello = b"PROC main (CHAN OF BYTE keyboard, screen)\n  screen ! 'A'\n:\n";
    let mut screen = Counted::new(Vec::new(alloc));
    let played = play(alloc, hello, b"", &Plan::Turns(10), false, &mut screen)?;
    assert_eq!(rt; played.ending, Ending::Ended);
    Ok(())
}

#[test]
fn schedules_are_searched(rt: HostRuntime) -> Result<(), Fail> {
    let alloc = rt.alloc();
    let hello = b"PROC main (CHAN OF BYTE keyboard, screen)\n  screen ! 'A'\n:\n";
    let (options, asked) = (Options::plain(), Asked::Answers);
    let found = explore_in(
        &options,
        alloc,
        hello,
        b"",
        asked,
        false,
        false,
        false,
        1_000,
        64,
        &mut Untold,
    )?;
    assert_eq!(rt; found.answers.len(), 1); // each schedule shows the same
    Ok(())
}
