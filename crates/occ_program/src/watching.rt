//! Plays a program while a thread of its own looks at its communications.
ghost use Rattle.std.specs.Prelude.{◌≡◌, ◌<◌, ◌-◌, ◌^◌, IfSome, [], false};
ghost use Rattle.occ_board.specs.Traces.{publishing};
ghost use Rattle.occ_play.specs.Watching.{MayTellText};
ghost use Rattle.occ_shown.specs.Counting.{failures_of};
ghost use Rattle.occ_program.specs.Watched.{ToldByCrew, SeenByCrew};

use crate::looks::{last_lines, look_on};
use occ_play::{
    Board, FreeGate, Naming, Note, Opened, Options, PlayFault, Played, Publisher, Watcher,
    play_watched,
};
use occ_shown::Counted;
use std::alloc::Global;
use std::io::Write;
use std::marker::Brand;
use std::sync::Wait;
use std::thread::{Threads, join};

/// Plays a source as `play_workers_in` does, by turns that are free to run, beside a thread that looks at the board a million
/// times. Beside the answer come the lines of what that thread's watcher is shown when the run is over: those of all
/// communications of the run that shows the answer. There are none where there was no memory for them, or where the watcher was
/// given no place at the board. None at all where there was no memory for the board.
pub(crate) fn play_watching<R: Threads + Wait + Sync, W: Write>(
    rt: &R,
    options: &Options,
    alloc: Global,
    source: &[u8],
    keyboard: &[u8],
    workers: u32,
    limit: u32,
    trace: bool,
    out: &mut Counted<W>,
) -> Option<Result<(Played, Option<Vec<u8>>), PlayFault>>
    requires room { failures_of out.old < 2 ^ 64 - 1 }
    ensures { IfSome result (SeenByCrew workers options.now source.now keyboard.now limit
        trace) }
{
    let opened = Opened::new();
    play_named::<Brand, R, W>(
        rt, options, alloc, opened, source, keyboard, workers, limit, trace, out,
    )
}

/// The same on a board that has a name.
fn play_named<J: Naming + Send + Sync, R: Threads + Wait + Sync, W: Write>(
    rt: &R,
    options: &Options,
    alloc: Global,
    opened: Opened,
    source: &[u8],
    keyboard: &[u8],
    workers: u32,
    limit: u32,
    trace: bool,
    out: &mut Counted<W>,
) -> Option<Result<(Played, Option<Vec<u8>>), PlayFault>>
    requires book { opened ≡ J.book }
    requires first { J.may [] }
    requires may { MayTellText J.may options.now source.now keyboard.now limit [] }
    requires room { failures_of out.old < 2 ^ 64 - 1 }
    ensures { IfSome result (SeenByCrew workers options.now source.now keyboard.now limit
        trace) }
{
    match Board::new::<J>(opened, alloc, 1) {
        Ok((publisher, mut watchers)) => match watchers.pop() {
            Some(watcher) => play_beside(
                rt, options, alloc, source, keyboard, workers, limit, trace, out, publisher,
                watcher,
            ),
            None => {
                publisher.end(rt);
                None
            }
        },
        Err(_) => None,
    }
}

/// The same on a board that is there.
fn play_beside<J: Naming + Send + Sync, R: Threads + Wait + Sync, W: Write>(
    rt: &R,
    options: &Options,
    alloc: Global,
    source: &[u8],
    keyboard: &[u8],
    workers: u32,
    limit: u32,
    trace: bool,
    out: &mut Counted<W>,
    publisher: Publisher<J>,
    watcher: Watcher<J>,
) -> Option<Result<(Played, Option<Vec<u8>>), PlayFault>>
    requires fresh { publisher ≡ publishing [] [] false }
    requires may { MayTellText J.may options.now source.now keyboard.now limit [] }
    requires room { failures_of out.old < 2 ^ 64 - 1 }
    ensures { IfSome result (SeenByCrew workers options.now source.now keyboard.now limit
        trace) }
{
    let mut slot = Some(publisher);
    let lent = &mut slot;
    let (watcher, played) = join(
        rt,
        || look_on(watcher),
        || -> Option<Result<(Played, Note<J>), PlayFault>>
            requires fresh { IfSome lent.now (λ p. p ≡ publishing [] [] false) }
            requires may { MayTellText J.may options.now source.now keyboard.now limit [] }
            requires room { failures_of out.now < 2 ^ 64 - 1 }
            ensures { IfSome result (ToldByCrew workers options.entry.now source.entry.now
                keyboard.entry.now limit trace) }
        {
            play_slot(
                rt, options, alloc, source, keyboard, workers, limit, trace, out, lent,
            )
        },
    );
    let seen = match played {
        Some(Ok((played, note))) => Some(Ok((played, last_lines(alloc, watcher, &note)))),
        Some(Err(fault)) => Some(Err(fault)),
        None => None,
    };
    end(rt, slot);
    seen
}

/// Plays a source with the publisher that is there, and puts it back where there is an answer; none without a publisher.
fn play_slot<J: Naming, R: Threads + Wait + Sync, W: Write>(
    rt: &R,
    options: &Options,
    alloc: Global,
    source: &[u8],
    keyboard: &[u8],
    workers: u32,
    limit: u32,
    trace: bool,
    out: &mut Counted<W>,
    slot: &mut Option<Publisher<J>>,
) -> Option<Result<(Played, Note<J>), PlayFault>>
    requires fresh { IfSome slot.old (λ p. p ≡ publishing [] [] false) }
    requires may { MayTellText J.may options.now source.now keyboard.now limit [] }
    requires room { failures_of out.old < 2 ^ 64 - 1 }
    ensures { IfSome result (ToldByCrew workers options.now source.now keyboard.now limit
        trace) }
{
    let Some(publisher) = slot.take() else {
        return None;
    };
    match play_watched(
        rt, options, alloc, source, keyboard, workers, limit, trace, &FreeGate, out, publisher,
    ) {
        Ok((played, publisher, note)) => {
            end(rt, std::mem::replace(slot, Some(publisher)));
            Some(Ok((played, note)))
        }
        Err(fault) => Some(Err(fault)),
    }
}

/// Ends a publisher that is there.
fn end<J: Naming, R: Wait>(rt: &R, slot: Option<Publisher<J>>) {
    match slot {
        Some(publisher) => publisher.end(rt),
        None => {}
    }
}
