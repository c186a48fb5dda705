//! Runs whose keyboard is read and whose screen is written while they go on.
ghost use Rattle.std.specs.Prelude.{◌≡◌, ◌≤◌, ◌<◌, ◌-◌, ◌^◌, [], IfErr, IfOk};
ghost use Rattle.occ_files.specs.Reading.{ReadsNext, failures_of as reads_failed};
ghost use Rattle.occ_live.specs.Living.{EndsRightly};
ghost use Rattle.occ_play_inputs.specs.Asked.{IsAskedBy};
ghost use Rattle.occ_program.specs.Coming.{IsStatusFor, IsStatusOf};
ghost use Rattle.occ_program.specs.Live.{RunsAlone, RefusesLive, live_failure, LivesTo, runs_live};

use crate::columns::check_columns;
use crate::program::{finish, options_of};
use crate::reading::read_untyped;
use occ_files::{CountedReader, Noting, Reason};
use occ_live::{LiveFault, LivePlayFault, LivePlayed, play_live};
use occ_play_inputs::{Failure, Inputs, Stream, Trouble, Words};
use occ_shown::Counted;
use std::alloc::Global;
use std::io;
use std::io::{Input, IsTerminal, Read, Write, empty};
use std::rt::Files;

/// Whether a run is live: where a word asks for it, and where standard input is a terminal and the source has a file; never where
/// threads take the turns, where a thread looks on, or where several seeds are tried.
pub(crate) fn runs_live(words: &Words<'_>, on_terminal: bool) -> bool
    ensures { result ≡ runs_live words.now on_terminal }
{
    let is_alone = words.workers.is_none() && !words.watch && words.tries == 1;
    is_alone && (words.live || words.file.is_some() && on_terminal)
}

/// Reads what the words name but for the keyboard, plays it live on standard input, or on no keys where the source was standard
/// input, and leaves what the words ask for.
pub(crate) fn run_live_words<R: Files + Input + Print + Eprint>(
    rt: &R,
    alloc: Global,
    words: &Words<'_>,
) -> Result<u8, Failure>
where
    R::Reader: IsTerminal,
    requires alone { RunsAlone words.now }
    ensures came { IfOk result (IsStatusFor words.now) }
    ensures small { IfOk result (λ status. status ≤ 7) }
{
    let mut inputs = read_untyped(rt, alloc, words)?;
    check_columns(alloc, words, &inputs)?;
    match words.file {
        Some(_) => {
            let mut keys = CountedReader::new(rt.reader());
            run_live_inputs(rt, alloc, words, &mut inputs, &mut keys)
        }
        None => {
            let mut keys = CountedReader::new(empty());
            run_live_inputs(rt, alloc, words, &mut inputs, &mut keys)
        }
    }
}

/// Plays what was read on these keys, and leaves what the words ask for. The bytes that it reads are then the keyboard's.
fn run_live_inputs<R: Files + Print + Eprint, K: Read>(
    rt: &R,
    alloc: Global,
    words: &Words<'_>,
    inputs: &mut Inputs,
    keys: &mut CountedReader<K>,
) -> Result<u8, Failure>
    requires alone { RunsAlone words.now }
    requires asked { IsAskedBy words.now inputs.old.plan }
    requires keys { reads_failed keys.old < 2 ^ 64 - 1 }
    ensures came { IfOk result
        (IsStatusOf words.now inputs.old.source.items inputs.new.keyboard.items) }
    ensures read { ReadsNext K.remaining keys.old keys.new inputs.new.keyboard.items }
    ensures small { IfOk result (λ status. status ≤ 7) }
{
    let mut screen = Noting::new(io::writer(rt));
    let mut typed = Vec::new(alloc);
    let came = play_keys(alloc, words, inputs, keys, &mut typed, &mut screen);
    inputs.keyboard = typed;
    let played = match came {
        Ok(live) => Ok(live.played),
        Err(LivePlayFault::Source(fault)) => Err(fault),
        Err(LivePlayFault::Run(fault)) => return Err(failure_of(fault, screen.reason())),
    };
    finish(rt, alloc, words, inputs, played, screen.reason())
}

/// What a live run that came to nothing is to the program, where the last failed write had this reason.
fn failure_of(fault: LiveFault, unwritten: Reason) -> Failure
    ensures { result ≡ live_failure unwritten fault }
{
    match fault {
        LiveFault::Read(reason) => Failure::Read(Trouble {
            stream: Stream::Keyboard,
            reason,
        }),
        LiveFault::Write => Failure::Write(Trouble {
            stream: Stream::Output,
            reason: unwritten,
        }),
        LiveFault::Memory => Failure::Memory,
    }
}

/// Plays the source on these keys.
fn play_keys<K: Read, W: Write>(
    alloc: Global,
    words: &Words<'_>,
    inputs: &Inputs,
    keys: &mut CountedReader<K>,
    typed: &mut Vec<u8>,
    screen: &mut W,
) -> Result<LivePlayed, LivePlayFault>
    requires empty { typed.old.items ≡ [] }
    requires keys { reads_failed keys.old < 2 ^ 64 - 1 }
    ensures came { IfOk result (LivesTo words.now inputs.now typed.new.items) }
    ensures read { ReadsNext K.remaining keys.old keys.new typed.new.items }
    ensures end { IfOk result (λ live. EndsRightly K.remaining keys.new live.is_open) }
    ensures refused { IfErr result (RefusesLive words.now inputs.now) }
{
    play_live(
        &options_of(words),
        alloc,
        inputs.source.as_slice(),
        keys,
        typed,
        &inputs.plan,
        words.trace,
        &mut Counted::new(screen),
    )
}
