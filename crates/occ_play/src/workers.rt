//! Plays a program by several threads.
ghost use Rattle.std.specs.Prelude.{◌<◌, ◌-◌, ◌^◌, IfOk, IfErr};
ghost use Rattle.occ_shown.specs.Counting.{failures_of};
ghost use Rattle.occ_play.specs.Playing.{plain};
ghost use Rattle.occ_choices.specs.Crews.{IsCrew};
ghost use Rattle.occ_play.specs.Working.{FailsBy, IsAnswerWithin, PlaysWithin, WorkersRefuse, FaultBy};

use crate::fault::PlayFault;
use crate::playing::{Options, Played, code_of, told};
use occ_run::{Gate, run_network};
use occ_shown::{Counted, write_answer};
use std::alloc::Global;
use std::io::Write;
use std::sync::Wait;
use std::thread::Threads;

/// Plays a program as `play` does, but by so many workers, each in a thread of its own, for `limit` turns at most. Which turns they
/// take is what they come to: the answer is the one that `play` gives for the choices that are answered.
///
/// # Errors
///
/// Those of `play`, and `Run`: `BadWorkers` for a number that is not from 1 to 64, `Spawn` for a refused thread, and `Memory` for a
/// refused growth. Then `out` is as it was.
pub fn play_workers<R: Threads + Wait + Sync, G: Gate + Sync, W: Write>(
    rt: &R,
    alloc: Global,
    source: &[u8],
    keyboard: &[u8],
    workers: u32,
    limit: u32,
    trace: bool,
    gate: &G,
    out: &mut Counted<W>,
) -> Result<Played, PlayFault>
    requires room { failures_of out.old < 2 ^ 64 - 1 }
    ensures played { IfOk result
        (PlaysWithin W.contents plain source.now keyboard.now limit trace out.old out.new) }
    ensures crew { IfOk result (λ _. IsCrew workers) }
    ensures fault { IfErr result
        (FailsBy W.contents workers plain source.now keyboard.now limit trace out.old out.new) }
{
    let options = Options::plain();
    play_workers_in(
        rt, &options, alloc, source, keyboard, workers, limit, trace, gate, out,
    )
}

/// Plays a program as `play_workers` does, by turns of these options.
///
/// # Errors
///
/// Those of `play_workers`, and `Code` of `BadQuantum` for a quantum that isn't from 1 to 65,536.
pub fn play_workers_in<R: Threads + Wait + Sync, G: Gate + Sync, W: Write>(
    rt: &R,
    options: &Options,
    alloc: Global,
    source: &[u8],
    keyboard: &[u8],
    workers: u32,
    limit: u32,
    trace: bool,
    gate: &G,
    out: &mut Counted<W>,
) -> Result<Played, PlayFault>
    requires room { failures_of out.old < 2 ^ 64 - 1 }
    ensures played { IfOk result
        (PlaysWithin W.contents options.now source.now keyboard.now limit trace out.old out.new) }
    ensures crew { IfOk result (λ _. IsCrew workers) }
    ensures fault { FaultBy result W.contents workers options.now source.now keyboard.now limit trace out.old
        out.new }
{
    let (played, bytes) = gathered(
        rt, options, alloc, source, keyboard, workers, limit, trace, gate,
    )?;
    match write_answer(bytes.as_slice(), out) {
        Ok(()) => Ok(played),
        Err(written) => Err(PlayFault::Write { written }),
    }
}

/// What the workers' run of a source comes to, and the answer's bytes.
fn gathered<R: Threads + Wait + Sync, G: Gate + Sync>(
    rt: &R,
    options: &Options,
    alloc: Global,
    source: &[u8],
    keyboard: &[u8],
    workers: u32,
    limit: u32,
    trace: bool,
    gate: &G,
) -> Result<(Played, Vec<u8>), PlayFault>
    ensures answer { IfOk result (λ r.
        IsAnswerWithin options.now source.now keyboard.now limit trace r.0 r.1.items) }
    ensures crew { IfOk result (λ _. IsCrew workers) }
    ensures refused { IfErr result (WorkersRefuse workers options.now source.now) }
{
    let code = code_of(options, alloc, source)?;
    let network = run_network(rt, alloc, &code, keyboard, workers, limit, gate)?;
    let outcome = network.into_replay();
    let (played, bytes) = told(options, alloc, source, keyboard, &code, outcome, trace)?;
    Ok((played, bytes))
}
