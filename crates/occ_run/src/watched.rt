//! A run by several threads, at whose communications others look while it goes on.
ghost use Rattle.std.specs.Prelude.{◌≡◌, ◌+◌, ◌++◌, ◌∷◌, ◌<◌, ◌^◌, ◌↔◌, ◌⊎◌, ◌≢◌, [], drop, false, length, true, IfErr, IfOk, IfSome, IsErrOf, None};
ghost use mathlib.Core.List.{IsPrefix};
ghost use Rattle.occ_board.specs.Editions.{blank, edition, reached};
ghost use Rattle.occ_board.specs.Traces.{all_published, held_by, publishing};
ghost use Rattle.occ_choices.specs.Crews.{most_workers};
ghost use Rattle.crossbeam_utils.specs.Seq.{cell_view};
ghost use Rattle.occ_net.specs.Networks.{fresh};
ghost use Rattle.occ_term.specs.Runs.{entries};
ghost use Rattle.occ_shown.specs.Answers.{names_of};
ghost use Rattle.occ_run.specs.Gathered.{IsGathered, IsRunOf};
ghost use Rattle.occ_run.specs.Held.{IsConcluded};
ghost use Rattle.occ_run.specs.Telling.{IsTake, MayTell, TellsTrace, and_news, and_pending};
ghost use Rattle.occ_run.specs.Tokens.{opening};

use crate::desk::{Desk, OneRun};
use crate::fault::RunFault;
use crate::gate::Gate;
use crate::progress::Progress;
use crate::run::{beginning, gathered, outcome_of};
use crate::tokens::{Token, Tokens, new_tokens};
use crate::workers::{Shared, work};
use core::mem::replace_with;
use occ_board::{Front, Head, Naming, Note, Publisher, Shown, open_history};
use occ_choices::is_crew;
use occ_machine::Code;
use occ_net::{Network, Outcome};
use occ_net_tables::{Mark, News, Trace};
use occ_shown::{is_shown, shown_as};
use occ_term::Channel;
use std::alloc::{AllocError, Global};
use std::marker::Brand;
use std::sync::{MutexGuard, Wait};
use std::thread;
use std::thread::Threads;

/// Runs the code as `run_workers` does, and publishes its communications meanwhile. The calling thread has the publisher: it
/// waits until there are more communications or no further turn is settled, copies the news under the workers' lock, and
/// publishes them outside it. Each list that is published is what the publisher held at the call, published and pending, and
/// behind it the whole trace of a replay of this code on this keyboard, of no more choices than the limit. So the board has to
/// be one that may show these lists, and a watcher sees no other one, also of a run that fails or never ends. In the end that
/// trace is the outcome's, and the board is closed; the note is of all that. Watchers may look until the publisher is ended.
///
/// # Errors
///
/// Those of `run_workers`, `Foreign` where what was published is not the outcome's trace, and `Memory` also where a copy, an
/// append or a publish was refused. After each of them the publisher is ended.
pub fn run_watched<J: Naming, R: Threads + Wait + Sync, G: Gate + Sync>(
    rt: &R,
    alloc: Global,
    code: &Code,
    keyboard: &[u8],
    workers: u32,
    limit: u32,
    gate: &G,
    publisher: Publisher<J>,
) -> Result<(Outcome, Publisher<J>, Note<J>), RunFault>
    requires going { publisher.closed ≡ false }
    requires may { MayTell J.may code.now keyboard.now limit (held_by publisher) }
    ensures run { IfOk result (λ r. IsRunOf code.now keyboard.now limit r.0) }
    ensures shown { IfOk result
        (λ r. TellsTrace code.now.channels (held_by publisher) r.0.network r.1) }
    ensures note { IfOk result (λ r. r.2 ≡ edition r.1.published true) }
    ensures workers { IsErrOf result RunFault.BadWorkers
        ↔ ((workers ≡ 0) ⊎ (most_workers < workers)) }
{
    let (network, publisher, note) = watch_network(
        rt, alloc, code, keyboard, workers, limit, gate, publisher,
    )?;
    match outcome_of(alloc, network) {
        Ok(outcome) => Ok((outcome, publisher, note)),
        Err(fault) => {
            publisher.end(rt);
            Err(fault)
        }
    }
}

/// The same run, of which the network is answered as the workers left it.
///
/// # Errors
///
/// Those of `run_watched`. After each of them the publisher is ended.
pub fn watch_network<J: Naming, R: Threads + Wait + Sync, G: Gate + Sync>(
    rt: &R,
    alloc: Global,
    code: &Code,
    keyboard: &[u8],
    workers: u32,
    limit: u32,
    gate: &G,
    publisher: Publisher<J>,
) -> Result<(Network, Publisher<J>, Note<J>), RunFault>
    requires going { publisher.closed ≡ false }
    requires may { MayTell J.may code.now keyboard.now limit (held_by publisher) }
    ensures run { IfOk result (λ r. IsGathered code.now keyboard.now limit r.0) }
    ensures shown { IfOk result (λ r. TellsTrace code.now.channels (held_by publisher) r.0 r.1) }
    ensures note { IfOk result (λ r. r.2 ≡ edition r.1.published true) }
    ensures workers { IsErrOf result RunFault.BadWorkers
        ↔ ((workers ≡ 0) ⊎ (most_workers < workers)) }
{
    if !is_crew(workers) {
        publisher.end(rt);
        return Err(RunFault::BadWorkers);
    }
    let (publisher, held) = publisher.publish(rt);
    if held.is_err() {
        publisher.end(rt);
        return Err(RunFault::Memory);
    }
    watched(rt, alloc, code, keyboard, workers, limit, gate, publisher)
}

/// The same with nothing pending, by a number of workers that is allowed.
fn watched<J: Naming, R: Threads + Wait + Sync, G: Gate + Sync>(
    rt: &R,
    alloc: Global,
    code: &Code,
    keyboard: &[u8],
    workers: u32,
    limit: u32,
    gate: &G,
    publisher: Publisher<J>,
) -> Result<(Network, Publisher<J>, Note<J>), RunFault>
    requires going { (publisher.pending ≡ []) × (publisher.closed ≡ false) }
    requires may { MayTell J.may code.now keyboard.now limit publisher.published }
    ensures run { IfOk result (λ r. IsGathered code.now keyboard.now limit r.0) }
    ensures shown { IfOk result (λ r. TellsTrace code.now.channels publisher.published r.0 r.1) }
    ensures note { IfOk result (λ r. r.2 ≡ edition r.1.published true) }
    ensures fault { IfErr result (λ fault. fault ≢ RunFault.BadWorkers) }
{
    let mut publisher = publisher;
    match lent(
        rt,
        alloc,
        code,
        keyboard,
        workers,
        limit,
        gate,
        &mut publisher,
    ) {
        Ok((network, note)) => Ok((network, publisher, note)),
        Err(fault) => {
            publisher.end(rt);
            Err(fault)
        }
    }
}

/// The same with a publisher that is lent.
fn lent<J: Naming, R: Threads + Wait + Sync, G: Gate + Sync>(
    rt: &R,
    alloc: Global,
    code: &Code,
    keyboard: &[u8],
    workers: u32,
    limit: u32,
    gate: &G,
    publisher: &mut Publisher<J>,
) -> Result<(Network, Note<J>), RunFault>
    requires going { (publisher.old.pending ≡ []) × (publisher.old.closed ≡ false) }
    requires may { MayTell J.may code.now keyboard.now limit publisher.old.published }
    ensures run { IfOk result (λ r. IsGathered code.now keyboard.now limit r.0) }
    ensures shown { IfOk result
        (λ r. TellsTrace code.now.channels publisher.old.published r.0 publisher.new) }
    ensures note { IfOk result (λ r. r.1 ≡ edition publisher.new.published true) }
    ensures fault { IfErr result (λ fault. fault ≢ RunFault.BadWorkers) }
{
    let held = publisher.published().len();
    let progress = beginning(alloc, code, keyboard, limit)?;
    let (tokens, keeper) = new_tokens(alloc)?;
    let (head, told) = open_history();
    let (progress, note) = run_told::<J, Brand, R, G>(
        rt,
        alloc,
        progress,
        tokens,
        keeper,
        head,
        told,
        workers,
        gate,
        code.channels(),
        publisher,
    );
    let network = gathered(progress)?;
    let note = note?;
    let Some(told) = told_behind(publisher, &note, held) else {
        return Err(RunFault::Foreign);
    };
    if is_shown(alloc, told, network.trace(), code.channels())? {
        return Ok((network, note));
    }
    Err(RunFault::Foreign)
}

/// What a publisher has published behind the first so many, where the note is of all that and none comes after it.
fn told_behind<'a, J: Naming>(
    publisher: &'a Publisher<J>,
    note: &Note<J>,
    held: usize,
) -> Option<&'a [Shown]>
    requires { note.now.last ≡ true }
    ensures closed { IfSome result (λ _. publisher.now ≡ publishing note.now.entries [] true) }
    ensures told { IfSome result (λ told. told.now ≡ drop held note.now.entries) }
{
    if !publisher.is_closed_by(note) {
        return None;
    }
    publisher.published().get(held..)
}

/// Lets so many workers run until all have left, and publishes their communications.
fn tell_crew<J: Naming, U: OneRun + Send + Sync, R: Threads + Wait + Sync, G: Gate + Sync>(
    rt: &R,
    alloc: Global,
    shared: &Shared<U>,
    workers: u32,
    gate: &G,
    channels: &[Channel],
    first: Front,
    publisher: &mut Publisher<J>,
) -> Result<Note<J>, AllocError>
    requires going { (publisher.old.pending ≡ []) × (publisher.old.closed ≡ false) }
    requires channels { channels.now ≡ U.program.channels }
    requires first { first ≡ reached U.takings blank }
    requires may { MayTell J.may U.program U.keyboard U.limit publisher.old.published }
    ensures { IfOk result (λ n. IsPrefix publisher.old.published n.entries × (n.last ≡ true)) }
{
    thread::scope(
        thread::scope_env(),
        rt,
        |scope| -> Result<Note<J>, AllocError>
            requires going { (publisher.now.pending ≡ []) × (publisher.now.closed ≡ false) }
            requires channels { channels.now ≡ U.program.channels }
            requires first { first ≡ reached U.takings blank }
            requires may { MayTell J.may U.program U.keyboard U.limit publisher.now.published }
            ensures { IfOk result (λ n. IsPrefix publisher.entry.now.published n.entries
                × (n.last ≡ true)) }
        {
            for _ in 0..workers {
                if scope.spawn(move || work(rt, alloc, shared, gate)).is_err() {
                    shared.refuse_thread(rt);
                    break;
                }
            }
            tell(rt, alloc, shared, channels, first.again(), publisher)
        },
    )
}

/// Lets so many workers run and publishes their communications, and gives back how far they came when all have left.
fn run_told<J: Naming, U: OneRun + Send + Sync, R: Threads + Wait + Sync, G: Gate + Sync>(
    rt: &R,
    alloc: Global,
    progress: Progress,
    tokens: Tokens,
    keeper: Token,
    head: Head,
    told: Front,
    workers: u32,
    gate: &G,
    channels: &[Channel],
    publisher: &mut Publisher<J>,
) -> (Progress, Result<Note<J>, AllocError>)
    requires network { progress.network ≡ fresh U.program U.keyboard }
    requires limit { progress.limit ≡ U.limit }
    requires stop { progress.stop ≡ None }
    requires tokens { tokens.table.shared.table_id ≡ U.tokens }
    requires opening_keeper { (keeper.table_id ≡ U.tokens) × (cell_view keeper ≡ opening) }
    requires takings { (head ≡ U.takings) × (told ≡ reached U.takings blank) }
    requires going { (publisher.old.pending ≡ []) × (publisher.old.closed ≡ false) }
    requires channels { channels.now ≡ U.program.channels }
    requires may { MayTell J.may U.program U.keyboard U.limit publisher.old.published }
    ensures concluded { IsConcluded U.program U.keyboard U.limit result.0 }
    ensures noted { IfOk result.1 (λ n. IsPrefix publisher.old.published n.entries
        × (n.last ≡ true)) }
{
    let first = told.again();
    let shared: Shared<U> = Shared::new(progress, tokens, keeper, head, told);
    let note = tell_crew(
        rt, alloc, &shared, workers, gate, channels, first, publisher,
    );
    let ended = shared.wait_for_end(rt);
    (shared.into_progress(rt, ended), note)
}

/// Publishes the communications until no further turn is settled, and closes the board. After a refusal the run stops.
fn tell<J: Naming, U: OneRun, R: Wait>(
    rt: &R,
    alloc: Global,
    shared: &Shared<U>,
    channels: &[Channel],
    first: Front,
    publisher: &mut Publisher<J>,
) -> Result<Note<J>, AllocError>
    requires going { (publisher.old.pending ≡ []) × (publisher.old.closed ≡ false) }
    requires channels { channels.now ≡ U.program.channels }
    requires first { first ≡ reached U.takings blank }
    requires may { MayTell J.may U.program U.keyboard U.limit publisher.old.published }
    ensures { IfOk result (λ n. IsPrefix publisher.old.published n.entries × (n.last ≡ true)) }
{
    let told = follow(rt, alloc, shared, channels, first, publisher);
    if told.is_err() {
        shared.refuse_growth(rt);
    }
    told
}

fn follow<J: Naming, U: OneRun, R: Wait>(
    rt: &R,
    alloc: Global,
    shared: &Shared<U>,
    channels: &[Channel],
    first: Front,
    publisher: &mut Publisher<J>,
) -> Result<Note<J>, AllocError>
    requires going { (publisher.old.pending ≡ []) × (publisher.old.closed ≡ false) }
    requires channels { channels.now ≡ U.program.channels }
    requires first { first ≡ reached U.takings blank }
    requires may { MayTell J.may U.program U.keyboard U.limit publisher.old.published }
    ensures { IfOk result (λ n. IsPrefix publisher.old.published n.entries × (n.last ≡ true)) }
{
    let mut mark = Trace::new(alloc).mark();
    let mut news = News::new(alloc);
    let mut front = first;
    let mut number = 0;
    for _ in rt.forever() {
        let (next, over) = take_news(rt, shared, number, &front, &mut mark, &mut news)?;
        front = next;
        number = append_news(alloc, channels, number, &news, publisher)?;
        if over {
            return close(rt, publisher);
        }
        publish(rt, publisher)?;
    }
    unreachable!()
}

/// Waits until there are more than so many communications or no further turn is settled, and answers whether it is so that none
/// is settled.
fn wait_for_news<'a, U: OneRun, R: Wait>(
    rt: &R,
    shared: &'a Shared<U>,
    count: u64,
) -> (MutexGuard<'a, Desk<U>>, bool) {
    let mut desk = shared.enter(rt);
    for _ in rt.forever() {
        let over = desk.progress().next_pick().is_none();
        if over || desk.progress().network.trace().len() as u64 > count {
            return (desk, over);
        }
        desk = shared.grown.wait(rt, desk);
    }
    unreachable!()
}

/// Takes the communications behind the mark, which then stands behind them, when there are more than so many or no further turn is
/// settled. Answers all of them as an edition, and whether no further turn is settled.
fn take_news<U: OneRun, R: Wait>(
    rt: &R,
    shared: &Shared<U>,
    count: u64,
    mine: &Front,
    mark: &mut Mark,
    news: &mut News,
) -> Result<(Front, bool), AllocError>
    requires { mine.now.book ≡ U.takings }
    ensures { IfOk result
        (λ r. IsTake U.program U.keyboard U.limit mine.now mark.old r.0 mark.new news.new) }
{
    let (mut desk, over) = wait_for_news(rt, shared, count);
    let next = desk.take(mine, mark, news)?;
    Ok((next, over))
}

/// Appends the news, numbered on from a number, and gives the last number.
fn append_news<J: Naming>(
    alloc: Global,
    channels: &[Channel],
    number: u64,
    news: &News,
    publisher: &mut Publisher<J>,
) -> Result<u64, AllocError>
    requires going { publisher.old.closed ≡ false }
    requires few { number + length news.now < 2 ^ 63 }
    ensures pending { IfOk result (λ _. publisher.new
        ≡ and_news publisher.old channels.now number news.now) }
    ensures number { IfOk result (λ n. n ≡ number + length news.now) }
{
    let mut number = number;
    for communication in news.entries() {
        number += 1;
        let shown = shown_as(alloc, number, &communication, channels)?;
        append(shown, publisher)?;
    }
    Ok(number)
}

fn append<J: Naming>(shown: Shown, publisher: &mut Publisher<J>) -> Result<(), AllocError>
    requires { publisher.old.closed ≡ false }
    ensures { IfOk result (λ _. publisher.new ≡ and_pending publisher.old (shown ∷ [])) }
{
    publisher.append(shown).map_err(|_| AllocError)
}

/// Publishes what is pending.
fn publish<J: Naming, R: Wait>(rt: &R, publisher: &mut Publisher<J>) -> Result<(), AllocError>
    requires going { publisher.old.closed ≡ false }
    requires may { J.may (held_by publisher.old) }
    ensures { IfOk result (λ _. publisher.new ≡ all_published publisher.old false) }
{
    replace_with(publisher, rt, |publisher, rt| publisher.publish(rt)).map_err(|_| AllocError)
}

/// Publishes what is pending for the last time.
fn shut<J: Naming, R: Wait>(rt: &R, publisher: &mut Publisher<J>) -> Result<(), AllocError>
    requires going { publisher.old.closed ≡ false }
    requires may { J.may (held_by publisher.old) }
    ensures closed { IfOk result (λ _. publisher.new.closed ≡ true) }
    ensures more { IfOk result (λ _. IsPrefix publisher.old.published publisher.new.published) }
{
    replace_with(publisher, rt, |publisher, rt| publisher.close(rt)).map_err(|_| AllocError)
}

/// A note of what is published.
fn noted<J: Naming>(publisher: &mut Publisher<J>) -> Note<J>
    ensures { result ≡ edition publisher.old.published publisher.old.closed }
{
    replace_with(publisher, (), |publisher, _| publisher.note())
}

/// Closes the board and notes what is published.
fn close<J: Naming, R: Wait>(rt: &R, publisher: &mut Publisher<J>) -> Result<Note<J>, AllocError>
    requires going { publisher.old.closed ≡ false }
    requires may { J.may (held_by publisher.old) }
    ensures { IfOk result (λ n. IsPrefix publisher.old.published n.entries × (n.last ≡ true)) }
{
    shut(rt, publisher)?;
    Ok(noted(publisher))
}
