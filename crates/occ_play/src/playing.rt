//! Plays a program, from its source's bytes to its answer's bytes.
ghost use Rattle.std.specs.Prelude.{◌≡◌, ◌<◌, ◌-◌, ◌^◌, IfOk, IfErr};
ghost use Rattle.occ_shown.specs.Counting.{failures_of};
ghost use Rattle.occ_choices.specs.Plans.{choices_of};
ghost use Rattle.occ_net_replay.specs.declared.choice.Choice.{Choice};
ghost use Rattle.occ_play.specs.Playing.{Fails, IsAnswerBy, IsTextsCode, Plays, Ran, Refuses, RefusesCode, RefusesText, Unfolds, plain};
ghost use Rattle.occ_play.specs.Watching.{TellsAny};
ghost use Rattle.occ_term.specs.UnfoldedProgram.{Lawful};
ghost use Rattle.occ_play.specs.Status.{fault_status, status};

use crate::fault::PlayFault;
use occ_check::{CheckFault, unfold};
use occ_choices::Plan;
use occ_code::{CodeFault, compile_for};
use occ_machine::Code;
use occ_net_replay::Choice;
use occ_net_tables::{Outcome, run};
use occ_run::RunFault;
use occ_shown::{Counted, answer, write_answer};
use occ_term::{Ending, Errors, Unfolded};
use occ_text::{TextFault, read_lines};
use occ_tree::parse;
use occ_tree_grammar::ParseFault;
use occ_usage::{Checked, Refused, UsageFault, check_usage};
use std::alloc::Global;
use std::io::Write;

/// What a run came to.
#[derive(Drop)]
pub struct Played {
    /// How it ended.
    pub ending: Ending,
    /// The choices that were used: a beginning of the plan's.
    pub choices: Vec<Choice>,
}

/// How turns are taken.
#[derive(Clone, Copy, Drop)]
pub struct Options {
    /// How many ends of a loop's body a turn may pass before it stops there, 1 to 65,536.
    pub quantum: u32,
    /// What a fault does.
    pub errors: Errors,
}

impl Options {
    /// Turns that stop at each end of a loop's body, and faults that end the whole run.
    pub fn plain() -> Options
        ensures { result ≡ plain }
    {
        Options {
            quantum: 1,
            errors: Errors::Halt,
        }
    }
}

/// Plays a program: reads its source, runs it on the keyboard's bytes for the plan's choices, and
/// writes the answer.
///
/// The answer is the screen's bytes, the error channel's bytes and a report: with `trace` a line for
/// each communication, and the line of the ending; without it that line alone, and nothing where the
/// run ended. It is built whole before the first write.
///
/// # Errors
///
/// `Text`, `Parse`, `Check`, `Usage` and `Code` refuse the source, `Memory` tells of a refused growth: then
/// `out` is as it was. `Write` tells of a failed write, after the first `written` bytes of the answer.
pub fn play<W: Write>(
    alloc: Global,
    source: &[u8],
    keyboard: &[u8],
    plan: &Plan,
    trace: bool,
    out: &mut Counted<W>,
) -> Result<Played, PlayFault>
    requires room { failures_of out.old < 2 ^ 64 - 1 }
    ensures played { IfOk result
        (Plays W.contents plain source.now keyboard.now plan.now trace out.old out.new) }
    ensures fault { IfErr result
        (Fails W.contents plain source.now keyboard.now plan.now trace out.old out.new) }
{
    play_in(&Options::plain(), alloc, source, keyboard, plan, trace, out)
}

/// Plays a program as `play` does, by turns of these options.
///
/// # Errors
///
/// Those of `play`, and `Code` of `BadQuantum` for a quantum that isn't from 1 to 65,536.
pub fn play_in<W: Write>(
    options: &Options,
    alloc: Global,
    source: &[u8],
    keyboard: &[u8],
    plan: &Plan,
    trace: bool,
    out: &mut Counted<W>,
) -> Result<Played, PlayFault>
    requires room { failures_of out.old < 2 ^ 64 - 1 }
    ensures played { IfOk result
        (Plays W.contents options.now source.now keyboard.now plan.now trace out.old out.new) }
    ensures fault { IfErr result
        (Fails W.contents options.now source.now keyboard.now plan.now trace out.old out.new) }
{
    let (played, bytes) = answered(options, alloc, source, keyboard, plan, trace)?;
    match write_answer(bytes.as_slice(), out) {
        Ok(()) => Ok(played),
        Err(written) => Err(PlayFault::Write { written }),
    }
}

/// What a run of a source comes to, and the answer's bytes.
fn answered(
    options: &Options,
    alloc: Global,
    source: &[u8],
    keyboard: &[u8],
    plan: &Plan,
    trace: bool,
) -> Result<(Played, Vec<u8>), PlayFault>
    ensures answer { IfOk result (λ r.
        IsAnswerBy options.now source.now keyboard.now plan.now trace r.0 r.1.items) }
    ensures refused { IfErr result (Refuses options.now source.now) }
{
    let (code, outcome) = ran(options, alloc, source, keyboard, plan)?;
    let (played, bytes) = told(options, alloc, source, keyboard, &code, outcome, trace)?;
    Ok((played, bytes))
}

/// What an outcome of a source's code comes to, and the answer's bytes.
pub(crate) fn told(
    options: &Options,
    alloc: Global,
    source: &[u8],
    keyboard: &[u8],
    code: &Code,
    outcome: Outcome,
    trace: bool,
) -> Result<(Played, Vec<u8>), PlayFault>
    requires { Ran options.now source.now keyboard.now outcome.choices.items code.now outcome }
    ensures answer { IfOk result (λ r.
        TellsAny options.now source.now keyboard.now trace code.now outcome r.0 r.1.items) }
    ensures choices { IfOk result (λ r. r.0.choices ≡ outcome.choices) }
    ensures ending { IfOk result (λ r. r.0.ending ≡ outcome.ending) }
    ensures refused { IfErr result (Refuses options.now source.now) }
{
    let bytes = answer(
        alloc,
        &outcome.trace,
        code.channels(),
        outcome.ending,
        trace,
    )?;
    let Outcome {
        ending,
        choices,
        trace: _,
    } = outcome;
    Ok((Played { ending, choices }, bytes))
}

/// The code of a source's program, and what its run comes to.
fn ran(
    options: &Options,
    alloc: Global,
    source: &[u8],
    keyboard: &[u8],
    plan: &Plan,
) -> Result<(Code, Outcome), PlayFault>
    ensures ran { IfOk result (λ r.
        Ran options.now source.now keyboard.now (choices_of plan.now) r.0 r.1) }
    ensures refused { IfErr result (Refuses options.now source.now) }
{
    let code = code_of(options, alloc, source)?;
    let outcome = run(alloc, &code, keyboard, plan)?;
    Ok((code, outcome))
}

/// The code of a source's program, for turns of these options.
///
/// # Errors
///
/// As of `play_in`, but for `Memory` and `Write`.
pub fn code_of(options: &Options, alloc: Global, source: &[u8]) -> Result<Code, PlayFault>
    ensures code { IfOk result (IsTextsCode options.now source.now) }
    ensures refused { IfErr result (RefusesCode options.now source.now) }
{
    let checked = accepted(alloc, source)?;
    let code = match compile_for(alloc, &checked, options.quantum) {
        Ok(code) => code,
        Err(fault) => return Err(PlayFault::Code(fault)),
    };
    Ok(code.with_errors(options.errors))
}

/// The program of a source that keeps the usage rules.
fn accepted(alloc: Global, source: &[u8]) -> Result<Checked, PlayFault>
    ensures found { IfOk result (λ c. Unfolds source.now c × Lawful c) }
    ensures refused { IfErr result (RefusesText source.now) }
{
    let unfolded = unfolded_of(alloc, source)?;
    match check_usage(alloc, unfolded) {
        Ok(checked) => Ok(checked),
        Err(refused) => Err(PlayFault::Usage(reason(refused))),
    }
}

/// Why a program was refused, where the program is no longer wanted.
fn reason(refused: Refused) -> UsageFault
    ensures { result ≡ refused.fault }
{
    refused.fault
}

/// The unfolded program of a source.
///
/// # Errors
///
/// `Text`, `Parse` and `Check` refuse the source, with a refused growth among their faults.
pub fn unfolded_of(alloc: Global, source: &[u8]) -> Result<Unfolded, PlayFault>
    ensures found { IfOk result (λ u. Unfolds source.now u) }
    ensures refused { IfErr result (RefusesText source.now) }
{
    let lines = read_lines(alloc, source)?;
    let tree = parse(alloc, &lines)?;
    let unfolded = unfold(alloc, &tree)?;
    unfolded.well_formed();
    Ok(unfolded)
}

/// The exit status of a program that played so: 0 ended, 2 stopped, 3 fault, 4 limit, and else that of the fault.
pub fn status_of(played: &Result<Played, PlayFault>) -> u8
    ensures { result ≡ status played.now }
{
    match played {
        Ok(Played { ending, .. }) => match ending {
            Ending::Ended => 0,
            Ending::Stopped | Ending::StoppedBy(_) => 2,
            Ending::Fault(_) => 3,
            Ending::Limit => 4,
        },
        Err(fault) => status_of_fault(fault),
    }
}

/// The exit status of a program that met this fault: 1 a refused source, 5 want of memory or threads that gave no answer, 6 a failed
/// write, 7 a quantum that isn't from 1 to 65,536 or a number of workers that isn't from 1 to 64.
pub fn status_of_fault(fault: &PlayFault) -> u8
    ensures { result ≡ fault_status fault.now }
{
    match fault {
        PlayFault::Text(TextFault::Memory)
        | PlayFault::Parse(ParseFault::Memory)
        | PlayFault::Check(CheckFault::Memory)
        | PlayFault::Usage(UsageFault::Memory)
        | PlayFault::Code(CodeFault::Memory)
        | PlayFault::Run(RunFault::Foreign | RunFault::Spawn | RunFault::Memory)
        | PlayFault::Memory(_) => 5,
        PlayFault::Code(CodeFault::BadQuantum) | PlayFault::Run(RunFault::BadWorkers) => 7,
        PlayFault::Text(_)
        | PlayFault::Parse(_)
        | PlayFault::Check(_)
        | PlayFault::Usage(_)
        | PlayFault::Code(_) => 1,
        PlayFault::Write { .. } => 6,
    }
}
