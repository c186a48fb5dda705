//! The program around `play`: what it reads and prints, and its exit status.
ghost use Rattle.std.specs.Prelude.{◌≡◌, ◌≤◌, ◌<◌, ◌-◌, ◌^◌, ◌⊎◌, IfErr, IfOk, IfSome, None, Some, false, true};
ghost use Rattle.occ_play_inputs.specs.Asked.{IsAskedBy};
ghost use Rattle.occ_program.specs.Coming.{IsLookStatus, IsStatusFor, IsStatusOf, IsTriedBy, PlayedTo, ProgramStatus, RefusesSource, options_in, workers_in};
ghost use Rattle.occ_shown.specs.Counting.{failures_of};
ghost use Rattle.occ_play.specs.Status.{status};
ghost use Rattle.occ_play_inputs.specs.Failures.{failure_status};
ghost use Rattle.occ_program.specs.Lines.{run_line};

use crate::choosing::explain_choices;
use crate::columns::check_columns;
use crate::explaining::explain;
use crate::exploring::explore_words;
use crate::keeping::keep_words;
use crate::live::{run_live_words, runs_live};
use crate::looking::look_at_words;
use crate::reading::read_inputs;
use crate::recording::record;
use crate::seeding::{seed_told, take_seed};
use crate::telling::tell_files;
use crate::terminal::{allows_bold, explains};
use crate::troubles::explain_failure;
use crate::typing::leave_typed;
use crate::watching::play_watching;
use occ_files::{Disk, Folder, Noting, Reason, printed_name, reason_of};
use occ_play::{
    FreeGate, Options, PlayFault, Played, RunFault, play_in, play_workers_in, status_of,
};
use occ_play_inputs::failure::{of_arguments, of_words};
use occ_play_inputs::{Failure, Inputs, Stream, Trouble, Words, read_words};
use occ_shown::Counted;
use std::alloc::Global;
use std::io::{IsTerminal, Write};
use std::rt::{Env, Files};
use std::sync::Wait;
use std::thread::Threads;
use std::{env, io};

/// What is told below wrong words.
const ALLOWED: &str = "occam --help says what is allowed";

/// How many lines are told of wrong words above that.
const MOST_LINES: usize = 2;

/// How the line of `clap` begins that says the same.
const SAME: &str = "For more information";

/// Runs the program on the arguments, the files and the streams of `rt`, and answers its exit status: 0 ended or
/// help or a source that is not refused where that is all that is asked, 1 source refused, 2 stopped, 3 fault, 4 limit, 5 want of memory or
/// threads that gave no answer, 6 a file or stream that couldn't be
/// read or written, 7 wrong words or a refused file of choices.
///
/// `errors` is standard error: where it is a terminal, a search tells there how far it has come.
pub fn run<
    R: Files + Input + Print + Eprint + Env + AllocGlobal + Threads + Wait + Sync,
    E: IsTerminal,
>(rt: &R, errors: &E) -> u8
where
    R::Reader: IsTerminal,
    ensures came { ProgramStatus result }
    ensures small { result ≤ 7 }
{
    match run_arguments(rt, rt.alloc(), errors.is_terminal()) {
        Ok(status) => status,
        Err(failure) => report(rt, rt.alloc(), &failure),
    }
}

fn run_arguments<R: Files + Input + Print + Eprint + Env + AllocGlobal + Threads + Wait + Sync>(
    rt: &R,
    alloc: Global,
    on_terminal: bool,
) -> Result<u8, Failure>
where
    R::Reader: IsTerminal,
    ensures came { IfOk result (λ status. ProgramStatus status) }
    ensures small { IfOk result (λ status. status ≤ 7) }
{
    let arguments: Vec<String> = env::args(rt).map_err(of_arguments)?.collect(alloc)?;
    let words: Vec<&str> = arguments
        .iter()
        .map(|argument| argument.as_str())
        .collect(alloc)?;
    if words.len() < 2 && rt.reader().is_terminal() {
        return Err(Failure::Bare);
    }
    let mut words = read_words(alloc, words.as_slice()).map_err(of_words)?;
    words.explain = explains(words.explain, words.plain, on_terminal);
    words.bold = on_terminal && allows_bold(rt);
    Ok(do_and_tell(rt, alloc, &words, on_terminal))
}

/// Does what the words say, and answers the exit status. Where that fails, why is printed, and more where the words ask for it.
fn do_and_tell<R: Files + Input + Print + Eprint + Threads + Wait + Sync>(
    rt: &R,
    alloc: Global,
    words: &Words<'_>,
    on_terminal: bool,
) -> u8
where
    R::Reader: IsTerminal,
    ensures came { ProgramStatus result }
    ensures small { result ≤ 7 }
{
    match do_words(rt, alloc, words, on_terminal) {
        Ok(status) => status,
        Err(failure) => {
            let status = report(rt, alloc, &failure);
            explain_failure(rt, alloc, words, &failure);
            status
        }
    }
}

/// Compares the source with its specification, searches all lists of choices, looks at the source, or plays one run, as the words ask.
fn do_words<R: Files + Input + Print + Eprint + Threads + Wait + Sync>(
    rt: &R,
    alloc: Global,
    words: &Words<'_>,
    on_terminal: bool,
) -> Result<u8, Failure>
where
    R::Reader: IsTerminal,
    ensures came { IfOk result (λ status. ProgramStatus status) }
    ensures small { IfOk result (λ status. status ≤ 7) }
{
    match words.within {
        Some(path) => keep_words(rt, alloc, words, path, on_terminal),
        None => search_or_run(rt, alloc, words, on_terminal),
    }
}

/// Searches all lists of choices, looks at the source, or plays one run, as the words ask.
fn search_or_run<R: Files + Input + Print + Eprint + Threads + Wait + Sync>(
    rt: &R,
    alloc: Global,
    words: &Words<'_>,
    on_terminal: bool,
) -> Result<u8, Failure>
where
    R::Reader: IsTerminal,
    requires alone { words.now.within ≡ None }
    ensures came { IfOk result (λ status. ProgramStatus status) }
    ensures small { IfOk result (λ status. status ≤ 7) }
{
    match words.explore {
        Some(asked) => explore_words(rt, alloc, words, asked, on_terminal),
        None => look_or_run(rt, alloc, words),
    }
}

/// Looks at the source, or plays one run, as the words ask.
fn look_or_run<R: Files + Input + Print + Eprint + Threads + Wait + Sync>(
    rt: &R,
    alloc: Global,
    words: &Words<'_>,
) -> Result<u8, Failure>
where
    R::Reader: IsTerminal,
    ensures looked { words.now.check ≡ true → IfOk result (IsLookStatus words.now) }
    ensures played { words.now.check ≡ false → IfOk result (IsStatusFor words.now) }
    ensures small { IfOk result (λ status. status ≤ 7) }
{
    if words.check {
        look_at_words(rt, alloc, words)
    } else {
        run_words(rt, alloc, words)
    }
}

/// Reads what the words name, plays it, live or not, records the used choices and what was typed, draws a chart and writes the trace,
/// the turns and the page where the words ask for that. The answer goes to standard output, and a fault's line to standard error.
fn run_words<R: Files + Input + Print + Eprint + Threads + Wait + Sync>(
    rt: &R,
    alloc: Global,
    words: &Words<'_>,
) -> Result<u8, Failure>
where
    R::Reader: IsTerminal,
    ensures came { IfOk result (IsStatusFor words.now) }
    ensures small { IfOk result (λ status. status ≤ 7) }
{
    if runs_live(words, rt.reader().is_terminal()) {
        return run_live_words(rt, alloc, words);
    }
    let mut inputs = read_inputs(rt, alloc, words)?;
    run_inputs(rt, alloc, words, &mut inputs)
}

/// Plays what was read, and leaves what the words ask for.
fn run_inputs<R: Files + Print + Eprint + Threads + Wait + Sync>(
    rt: &R,
    alloc: Global,
    words: &Words<'_>,
    inputs: &mut Inputs,
) -> Result<u8, Failure>
    requires { IsAskedBy words.now inputs.old.plan }
    ensures came { IfOk result
        (IsStatusOf words.now inputs.old.source.items inputs.old.keyboard.items) }
    ensures small { IfOk result (λ status. status ≤ 7) }
{
    check_columns(alloc, words, inputs)?;
    let seed = take_seed(alloc, words, inputs)?;
    let mut screen = Noting::new(io::writer(rt));
    let played = play_on(rt, alloc, words, inputs, &mut screen)?;
    let told = seed_told(alloc, words, seed, &played);
    let status = finish(rt, alloc, words, inputs, played, screen.reason())?;
    tell_text(rt, told);
    Ok(status)
}

/// Leaves what the words ask for, and tells what was played.
pub(crate) fn finish<R: Files + Eprint>(
    rt: &R,
    alloc: Global,
    words: &Words<'_>,
    inputs: &Inputs,
    played: Result<Played, PlayFault>,
    reason: Reason,
) -> Result<u8, Failure>
    requires asked { IsAskedBy words.now inputs.now.plan }
    requires tried { IsTriedBy words.now inputs.now.source.items inputs.now.keyboard.items
        inputs.now.plan }
    requires came { PlayedTo (workers_in words.now) words.now inputs.now played }
    ensures came { IfOk result
        (IsStatusOf words.now inputs.now.source.items inputs.now.keyboard.items) }
    ensures small { IfOk result (λ status. status ≤ 7) }
{
    let mut folder = Disk::new(rt, alloc);
    let left = leave(&mut folder, alloc, words, inputs, &played)?;
    let came = left.and(played);
    Ok(told(rt, alloc, words, inputs, &came, reason))
}

/// Records the used choices and what was typed, draws a chart, and writes the trace, the turns and the page, in this order, where the
/// words ask for that. Where one of them fails, the next ones are not begun.
fn leave<F: Folder>(
    folder: &mut F,
    alloc: Global,
    words: &Words<'_>,
    inputs: &Inputs,
    played: &Result<Played, PlayFault>,
) -> Result<Result<(), PlayFault>, Failure>
    ensures { IfOk result (λ left. IfErr left (RefusesSource words.now inputs.now)) }
{
    record(folder, alloc, words, played)?;
    leave_typed(folder, alloc, words, inputs, played)?;
    tell_files(folder, alloc, words, inputs, played)
}

/// Prints the line of a fault, and more where the words ask for it, and answers the exit status.
fn told<R: Eprint>(
    rt: &R,
    alloc: Global,
    words: &Words<'_>,
    inputs: &Inputs,
    came: &Result<Played, PlayFault>,
    reason: Reason,
) -> u8
    ensures { result ≡ status came.now }
{
    if let Err(fault) = came {
        tell(rt, fault);
    }
    explain(rt, alloc, words, inputs, came, reason);
    explain_choices(rt, alloc, words, inputs, came);
    status_of(came)
}

/// Prints the line of a fault.
pub(crate) fn tell<R: Eprint>(rt: &R, fault: &PlayFault) {
    let _ = match fault {
        PlayFault::Run(fault) => eprintln!(rt; "{}", line_of(*fault)),
        fault => eprintln!(rt; "{fault}"),
    };
}

/// What is printed where the workers gave no answer.
fn line_of(fault: RunFault) -> &'static str
    ensures { result.now ≡ run_line fault }
{
    match fault {
        RunFault::Foreign => "foreign outcome",
        RunFault::BadWorkers => "the number of workers is 1 to 64",
        RunFault::Spawn => "thread refused",
        RunFault::Memory => "memory",
    }
}

/// The length of turns and what a fault does, as the words say.
pub(crate) fn options_of(words: &Words<'_>) -> Options
    ensures { result ≡ options_in words.now }
{
    Options {
        quantum: words.quantum,
        errors: words.errors,
    }
}

/// How many workers take the turns, where the words say so and name no file of choices; a run that is watched has one at
/// least.
fn workers_of(words: &Words<'_>) -> Option<u32>
    ensures { result ≡ workers_in words.now }
{
    match words.choices {
        None if words.watch => Some(words.workers.unwrap_or(1)),
        None => words.workers,
        Some(_) => None,
    }
}

/// Plays the source by the plan, or by workers, and writes the answer.
fn play_on<R: Eprint + Threads + Wait + Sync, W: Write>(
    rt: &R,
    alloc: Global,
    words: &Words<'_>,
    inputs: &Inputs,
    screen: &mut W,
) -> Result<Result<Played, PlayFault>, Failure>
    ensures { IfOk result (PlayedTo (workers_in words.now) words.now inputs.now) }
{
    let mut out = Counted::new(screen);
    play_inputs(rt, alloc, words, inputs, &mut out)
}

/// Plays the source by the plan, or by workers.
fn play_inputs<R: Eprint + Threads + Wait + Sync, W: Write>(
    rt: &R,
    alloc: Global,
    words: &Words<'_>,
    inputs: &Inputs,
    out: &mut Counted<W>,
) -> Result<Result<Played, PlayFault>, Failure>
    requires room { failures_of out.old < 2 ^ 64 - 1 }
    ensures { IfOk result (PlayedTo (workers_in words.now) words.now inputs.now) }
{
    match workers_of(words) {
        None => Ok(play_plan(alloc, words, inputs, out)),
        Some(workers) if words.watch => {
            play_looking(rt, alloc, words, inputs, workers, out).ok_or(Failure::Memory)
        }
        Some(workers) => Ok(play_by(rt, alloc, words, inputs, workers, out)),
    }
}

/// Plays the source by the plan.
fn play_plan<W: Write>(
    alloc: Global,
    words: &Words<'_>,
    inputs: &Inputs,
    out: &mut Counted<W>,
) -> Result<Played, PlayFault>
    requires room { failures_of out.old < 2 ^ 64 - 1 }
    ensures { PlayedTo None words.now inputs.now result }
{
    play_in(
        &options_of(words),
        alloc,
        inputs.source.as_slice(),
        inputs.keyboard.as_slice(),
        &inputs.plan,
        words.trace,
        out,
    )
}

/// Plays the source by so many workers.
fn play_by<R: Threads + Wait + Sync, W: Write>(
    rt: &R,
    alloc: Global,
    words: &Words<'_>,
    inputs: &Inputs,
    workers: u32,
    out: &mut Counted<W>,
) -> Result<Played, PlayFault>
    requires room { failures_of out.old < 2 ^ 64 - 1 }
    ensures { PlayedTo (Some workers) words.now inputs.now result }
{
    let (limit, trace) = (words.limit, words.trace);
    play_workers_in(
        rt,
        &options_of(words),
        alloc,
        inputs.source.as_slice(),
        inputs.keyboard.as_slice(),
        workers,
        limit,
        trace,
        &FreeGate,
        out,
    )
}

/// Plays the source by so many workers, at whose communications a thread looks, and prints the lines of its last look beside an
/// answer; none where there was no memory for a board.
fn play_looking<R: Eprint + Threads + Wait + Sync, W: Write>(
    rt: &R,
    alloc: Global,
    words: &Words<'_>,
    inputs: &Inputs,
    workers: u32,
    out: &mut Counted<W>,
) -> Option<Result<Played, PlayFault>>
    requires room { failures_of out.old < 2 ^ 64 - 1 }
    ensures { IfSome result (PlayedTo (Some workers) words.now inputs.now) }
{
    let (limit, trace) = (words.limit, words.trace);
    let seen = play_watching(
        rt,
        &options_of(words),
        alloc,
        inputs.source.as_slice(),
        inputs.keyboard.as_slice(),
        workers,
        limit,
        trace,
        out,
    )?;
    match seen {
        Ok((played, lines)) => {
            tell_text(rt, lines);
            Some(Ok(played))
        }
        Err(fault) => Some(Err(fault)),
    }
}

/// Prints a text to standard error, where there is one.
fn tell_text<R: Eprint>(rt: &R, text: Option<Vec<u8>>) {
    if let Some(text) = text
        && let Ok(text) = str::from_utf8(text.as_slice())
    {
        let _ = eprint!(rt; "{text}");
    }
}

/// Prints why nothing was played, and answers the exit status. Help and the version go to standard output, and
/// all else to standard error.
fn report<R: Print + Eprint>(rt: &R, alloc: Global, failure: &Failure) -> u8
    ensures { (result ≡ failure_status failure.now)
        ⊎ ((failure_status failure.now ≡ 0) × (result ≡ 6)) }
{
    match failure {
        Failure::Help(help) => {
            if let Err(error) = help.print(rt) {
                let (stream, reason) = (Stream::Output, reason_of(&error));
                return report_line(rt, &Failure::Write(Trouble { stream, reason }));
            }
        }
        Failure::Words(error) => tell_words(rt, alloc, error),
        failure => return report_line(rt, failure),
    }
    failure.status()
}

/// Prints what is wrong with the words, in three lines at most.
fn tell_words<R: Eprint>(rt: &R, alloc: Global, error: &clap::Error) {
    if let Ok(text) = format!(in alloc; "{error}") {
        tell_lines(rt, alloc, text.as_str());
    }
    let _ = eprintln!(rt; "{ALLOWED}");
}

/// Prints the first lines of a text that say something, and not what the line below them says.
fn tell_lines<R: Eprint>(rt: &R, alloc: Global, text: &str) {
    let mut told = 0;
    for line in text.lines() {
        if told < MOST_LINES && !line.is_empty() && !line.starts_with(SAME) {
            tell_line(rt, alloc, line);
            told += 1;
        }
    }
}

/// Prints a line that may have names of files.
fn tell_line<R: Eprint>(rt: &R, alloc: Global, line: &str) {
    if let Ok(line) = printed_name(alloc, line.as_bytes())
        && let Ok(line) = str::from_utf8(line.as_slice())
    {
        let _ = eprintln!(rt; "{line}");
    }
}

fn report_line<R: Eprint>(rt: &R, failure: &Failure) -> u8
    ensures { result ≡ failure_status failure.now }
{
    let _ = eprintln!(rt; "{failure}");
    failure.status()
}
