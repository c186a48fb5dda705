//! Runs of several threads: the choices fix what they came to.
ghost use Rattle.std.specs.Prelude.{◌≡◌, ◌≢◌, ◌<◌, ◌≤◌, ◌⊎◌, IfErr, IfOk, IsErrOf, None, false, true};
ghost use Rattle.occ_board.specs.Traces.{held_by};
ghost use Rattle.occ_run.specs.Telling.{MayTell};
ghost use Rattle.occ_run.specs.declared.fault.RunFault.TheVariants.{BadWorkers, Memory, Spawn};
ghost use Rattle.occ_contracts.specs.Agreement.{BothGive};
ghost use Rattle.occ_contracts.specs.Networks.{told};

use occ_board::{Naming, Note, Publisher};
use occ_machine::Code;
use occ_net::{Network, Outcome};
use occ_run::{Gate, RunFault, run_network, run_watched, run_workers, watch_network};
use occ_term::Ending;
use std::alloc::Global;
use std::sync::Wait;
use std::thread::Threads;

/// Two runs with the same choices come to one network.
pub fn network_twice<R: Threads + Wait + Sync, G: Gate + Sync>(
    rt: &R,
    alloc: Global,
    code: &Code,
    keyboard: &[u8],
    workers: u32,
    limit: u32,
    gate: &G,
) -> (Result<Network, RunFault>, Result<Network, RunFault>)
    ensures { BothGive (λ a b. a.choices ≡ b.choices → a ≡ b) result.0 result.1 }
{
    (
        run_network(rt, alloc, code, keyboard, workers, limit, gate),
        run_network(rt, alloc, code, keyboard, workers, limit, gate),
    )
}

/// Two runs with the same choices have one outcome.
pub fn workers_twice<R: Threads + Wait + Sync, G: Gate + Sync>(
    rt: &R,
    alloc: Global,
    code: &Code,
    keyboard: &[u8],
    workers: u32,
    limit: u32,
    gate: &G,
) -> (Result<Outcome, RunFault>, Result<Outcome, RunFault>)
    ensures { BothGive (λ a b. a.network.choices ≡ b.network.choices → told a ≡ told b)
        result.0 result.1 }
{
    code.compiled();
    (
        run_workers(rt, alloc, code, keyboard, workers, limit, gate),
        run_workers(rt, alloc, code, keyboard, workers, limit, gate),
    )
}

/// A run is refused by no worker and by more than 64, and by 1 to 64 only where a thread or memory is.
pub fn run_by_workers<R: Threads + Wait + Sync, G: Gate + Sync>(
    rt: &R,
    alloc: Global,
    code: &Code,
    keyboard: &[u8],
    workers: u32,
    limit: u32,
    gate: &G,
) -> Result<Outcome, RunFault>
    ensures none { workers ≡ 0 → IsErrOf result BadWorkers }
    ensures many { 64 < workers → IsErrOf result BadWorkers }
    ensures crew { 0 < workers → workers ≤ 64
        → IfErr result (λ e. (e ≡ Spawn) ⊎ (e ≡ Memory)) }
{
    run_workers(rt, alloc, code, keyboard, workers, limit, gate)
}

/// A run to a network by 1 to 64 workers is refused only where a thread or memory is.
pub fn network_by_a_crew<R: Threads + Wait + Sync, G: Gate + Sync>(
    rt: &R,
    alloc: Global,
    code: &Code,
    keyboard: &[u8],
    workers: u32,
    limit: u32,
    gate: &G,
) -> Result<Network, RunFault>
    requires some { 0 < workers }
    requires few { workers ≤ 64 }
    ensures { IfErr result (λ e. (e ≡ Spawn) ⊎ (e ≡ Memory)) }
{
    run_network(rt, alloc, code, keyboard, workers, limit, gate)
}

/// A watched run is refused for the number of its workers by none and by more than 64, and not by 1 to 64.
pub fn watched_by_workers<J: Naming, R: Threads + Wait + Sync, G: Gate + Sync>(
    rt: &R,
    alloc: Global,
    code: &Code,
    keyboard: &[u8],
    workers: u32,
    limit: u32,
    gate: &G,
    publisher: Publisher<J>,
) -> Result<(Outcome, Publisher<J>, Note<J>), RunFault>
    requires going { publisher.closed ≡ false }
    requires may { MayTell J.may code.now keyboard.now limit (held_by publisher) }
    ensures none { workers ≡ 0 → IsErrOf result BadWorkers }
    ensures many { 64 < workers → IsErrOf result BadWorkers }
    ensures crew { 0 < workers → workers ≤ 64 → IfErr result (λ e. e ≢ BadWorkers) }
{
    run_watched(rt, alloc, code, keyboard, workers, limit, gate, publisher)
}

/// A watched run to a network by 1 to 64 workers is not refused for their number.
pub fn watched_network_by_a_crew<J: Naming, R: Threads + Wait + Sync, G: Gate + Sync>(
    rt: &R,
    alloc: Global,
    code: &Code,
    keyboard: &[u8],
    workers: u32,
    limit: u32,
    gate: &G,
    publisher: Publisher<J>,
) -> Result<(Network, Publisher<J>, Note<J>), RunFault>
    requires going { publisher.closed ≡ false }
    requires may { MayTell J.may code.now keyboard.now limit (held_by publisher) }
    requires some { 0 < workers }
    requires few { workers ≤ 64 }
    ensures { IfErr result (λ e. e ≢ BadWorkers) }
{
    watch_network(rt, alloc, code, keyboard, workers, limit, gate, publisher)
}

/// A run takes no more turns than it may, and as many unless it ends.
pub fn run_to_limit<R: Threads + Wait + Sync, G: Gate + Sync>(
    rt: &R,
    alloc: Global,
    code: &Code,
    keyboard: &[u8],
    workers: u32,
    limit: u32,
    gate: &G,
) -> Result<(Option<Ending>, usize), RunFault>
    ensures few { IfOk result (λ r. r.1 ≤ limit) }
    ensures whole { IfOk result (λ r. r.0 ≡ None → r.1 ≡ limit) }
{
    match run_network(rt, alloc, code, keyboard, workers, limit, gate) {
        Ok(network) => Ok((network.ending(), network.choices().len())),
        Err(fault) => Err(fault),
    }
}

/// The choices of a watched run fix its outcome and what it published, and its note is of all that.
pub fn watched_outcome_twice<J: Naming, R: Threads + Wait + Sync, G: Gate + Sync>(
    rt: &R,
    alloc: Global,
    code: &Code,
    keyboard: &[u8],
    workers: u32,
    limit: u32,
    gate: &G,
    one: Publisher<J>,
    other: Publisher<J>,
) -> (
    Result<(Outcome, Publisher<J>, Note<J>), RunFault>,
    Result<(Outcome, Publisher<J>, Note<J>), RunFault>,
)
    requires open { one.closed ≡ false }
    requires same { other ≡ one }
    requires may { MayTell J.may code.now keyboard.now limit (held_by one) }
    ensures told { BothGive
        (λ a b. a.0.network.choices ≡ b.0.network.choices → told a.0 ≡ told b.0) result.0 result.1 }
    ensures published { BothGive
        (λ a b. a.0.network.choices ≡ b.0.network.choices → a.1 ≡ b.1) result.0 result.1 }
    ensures note { IfOk result.0 (λ a. (a.2.entries ≡ a.1.published) × (a.2.last ≡ true)) }
{
    code.compiled();
    (
        run_watched(rt, alloc, code, keyboard, workers, limit, gate, one),
        run_watched(rt, alloc, code, keyboard, workers, limit, gate, other),
    )
}

/// So it is of a watched run to a network: the choices fix the network and what was published.
pub fn watched_twice<J: Naming, R: Threads + Wait + Sync, G: Gate + Sync>(
    rt: &R,
    alloc: Global,
    code: &Code,
    keyboard: &[u8],
    workers: u32,
    limit: u32,
    gate: &G,
    one: Publisher<J>,
    other: Publisher<J>,
) -> (
    Result<(Network, Publisher<J>, Note<J>), RunFault>,
    Result<(Network, Publisher<J>, Note<J>), RunFault>,
)
    requires open { one.closed ≡ false }
    requires same { other ≡ one }
    requires may { MayTell J.may code.now keyboard.now limit (held_by one) }
    ensures network { BothGive (λ a b. a.0.choices ≡ b.0.choices → a.0 ≡ b.0) result.0 result.1 }
    ensures published { BothGive (λ a b. a.0.choices ≡ b.0.choices → a.1 ≡ b.1)
        result.0 result.1 }
    ensures note { IfOk result.0 (λ a. (a.2.entries ≡ a.1.published) × (a.2.last ≡ true)) }
{
    (
        watch_network(rt, alloc, code, keyboard, workers, limit, gate, one),
        watch_network(rt, alloc, code, keyboard, workers, limit, gate, other),
    )
}
