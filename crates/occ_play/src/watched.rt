//! Plays a program by several threads, at whose communications others look meanwhile.
ghost use Rattle.std.specs.Prelude.{◌≡◌, ◌<◌, ◌-◌, ◌^◌, false, true, IfOk};
ghost use Rattle.occ_board.specs.Editions.{edition};
ghost use Rattle.occ_board.specs.Traces.{held_by};
ghost use Rattle.occ_shown.specs.Counting.{failures_of};
ghost use Rattle.occ_choices.specs.Crews.{IsCrew};
ghost use Rattle.occ_play.specs.Playing.{Ran};
ghost use Rattle.occ_play.specs.Watching.{MayTellText, ToldPlay, UntoldPlay, WatchedPlay};
ghost use Rattle.occ_play.specs.Working.{FaultBy};

use crate::fault::PlayFault;
use crate::playing::{Options, Played, code_of, told};
use occ_board::{Naming, Note, Publisher};
use occ_machine::Code;
use occ_net_tables::Outcome;
use occ_run::{Gate, watch_network};
use occ_shown::{Counted, write_answer};
use std::alloc::Global;
use std::io::Write;
use std::sync::Wait;
use std::thread::Threads;

/// Plays a program as `play_workers_in` does, and publishes its communications while it runs. In the end the publisher has
/// published what it held at the call, published and pending, and then the run's trace, and its board is closed; the note is of
/// all that. Each list that is published before is what was held, and behind it all communications of a run of the source on
/// this keyboard, of no more turns than the limit. So the board has to be one that may show these lists, and watchers see no
/// other one, also where there is no answer. They may look until the publisher is ended.
///
/// # Errors
///
/// Those of `play_workers_in`. After each of them the publisher is ended.
pub fn play_watched<J: Naming, R: Threads + Wait + Sync, G: Gate + Sync, W: Write>(
    rt: &R,
    options: &Options,
    alloc: Global,
    source: &[u8],
    keyboard: &[u8],
    workers: u32,
    limit: u32,
    trace: bool,
    gate: &G,
    out: &mut Counted<W>,
    publisher: Publisher<J>,
) -> Result<(Played, Publisher<J>, Note<J>), PlayFault>
    requires room { failures_of out.old < 2 ^ 64 - 1 }
    requires going { publisher.closed ≡ false }
    requires may { MayTellText J.may options.now source.now keyboard.now limit (held_by publisher) }
    ensures played { WatchedPlay result W.contents options.now source.now keyboard.now limit trace publisher
        out.old out.new }
    ensures note { IfOk result (λ r. r.2 ≡ edition r.1.published true) }
    ensures crew { IfOk result (λ _. IsCrew workers) }
    ensures fault { FaultBy result W.contents workers options.now source.now keyboard.now limit trace out.old
        out.new }
{
    let code = match code_of(options, alloc, source) {
        Ok(code) => code,
        Err(fault) => {
            publisher.end(rt);
            return Err(fault);
        }
    };
    let (network, publisher, note) = match watch_network(
        rt, alloc, &code, keyboard, workers, limit, gate, publisher,
    ) {
        Ok(ran) => ran,
        Err(fault) => return Err(PlayFault::Run(fault)),
    };
    let outcome = network.into_replay();
    match written(options, alloc, source, keyboard, &code, outcome, trace, out) {
        Ok(played) => Ok((played, publisher, note)),
        Err(fault) => {
            publisher.end(rt);
            Err(fault)
        }
    }
}

/// What an outcome of a source's code comes to, where its answer was written.
fn written<W: Write>(
    options: &Options,
    alloc: Global,
    source: &[u8],
    keyboard: &[u8],
    code: &Code,
    outcome: Outcome,
    trace: bool,
    out: &mut Counted<W>,
) -> Result<Played, PlayFault>
    requires room { failures_of out.old < 2 ^ 64 - 1 }
    requires ran { Ran options.now source.now keyboard.now outcome.choices.items code.now outcome }
    ensures played { ToldPlay result W.contents options.now source.now keyboard.now trace code.now outcome
        out.old out.new }
    ensures fault { UntoldPlay result W.contents options.now source.now keyboard.now trace code.now outcome
        out.old out.new }
{
    let (played, bytes) = told(options, alloc, source, keyboard, code, outcome, trace)?;
    match write_answer(bytes.as_slice(), out) {
        Ok(()) => Ok(played),
        Err(written) => Err(PlayFault::Write { written }),
    }
}
