//! A run of a program's code by several threads.
ghost use Rattle.std.specs.Prelude.{◌≡◌, ◌≢◌, ◌<◌, ◌↔◌, ◌⊎◌, IfOk, IfErr, IsErrOf, None};
ghost use Rattle.occ_choices.specs.Crews.{most_workers};
ghost use Rattle.occ_net.specs.Networks.{fresh};
ghost use Rattle.occ_run.specs.Gathered.{GivesOutcome, IsGathered, IsNoRun, IsRunOf, stop_fault};
ghost use Rattle.occ_run.specs.Held.{IsConcluded};

use crate::fault::RunFault;
use crate::gate::Gate;
use crate::progress::{Progress, Stop};
use crate::tokens::new_tokens;
use crate::workers::run_all;
use occ_board::open_history;
use occ_choices::is_crew;
use occ_machine::Code;
use occ_net::{Network, Outcome};
use std::alloc::Global;
use std::marker::Brand;
use std::sync::Wait;
use std::thread::Threads;

/// Runs the code on the keyboard's bytes by so many workers, each in a thread of its own, until the network ends or `limit`
/// turns are settled. Each worker takes a process out under a lock, takes its turn by the gate outside, and more in a row while
/// they leave the process ready, and settles them under the lock, each with the number of choices so far as its pick.
///
/// # Errors
///
/// `BadWorkers` for a number that is not from 1 to 64, before all else. When all workers have left, `Spawn` where a thread was
/// refused, and `Memory` where a growth was. `Foreign` never: a gate gives back the turn of the task that it was given, and so
/// each turn that is handed in is the network's own. In an outcome no process is out.
pub fn run_workers<R: Threads + Wait + Sync, G: Gate + Sync>(
    rt: &R,
    alloc: Global,
    code: &Code,
    keyboard: &[u8],
    workers: u32,
    limit: u32,
    gate: &G,
) -> Result<Outcome, RunFault>
    ensures run { IfOk result (IsRunOf code.now keyboard.now limit) }
    ensures workers { IsErrOf result RunFault.BadWorkers
        ↔ ((workers ≡ 0) ⊎ (most_workers < workers)) }
    ensures own { IfErr result (λ fault. fault ≢ RunFault.Foreign) }
{
    let network = run_network(rt, alloc, code, keyboard, workers, limit, gate)?;
    outcome_of(alloc, network)
}

/// The same run, of which the network is answered as the workers left it: nothing of it is copied, and no bytes are made.
///
/// # Errors
///
/// Those of `run_workers`.
pub fn run_network<R: Threads + Wait + Sync, G: Gate + Sync>(
    rt: &R,
    alloc: Global,
    code: &Code,
    keyboard: &[u8],
    workers: u32,
    limit: u32,
    gate: &G,
) -> Result<Network, RunFault>
    ensures run { IfOk result (IsGathered code.now keyboard.now limit) }
    ensures workers { IsErrOf result RunFault.BadWorkers
        ↔ ((workers ≡ 0) ⊎ (most_workers < workers)) }
    ensures own { IfErr result (λ fault. fault ≢ RunFault.Foreign) }
{
    if !is_crew(workers) {
        return Err(RunFault::BadWorkers);
    }
    let progress = beginning(alloc, code, keyboard, limit)?;
    let (tokens, keeper) = new_tokens(alloc)?;
    let (head, told) = open_history();
    let progress = run_all::<Brand, R, G>(
        rt, alloc, progress, tokens, keeper, head, told, workers, gate,
    );
    gathered(progress)
}

/// The network before its first turn.
pub(crate) fn beginning(
    alloc: Global,
    code: &Code,
    keyboard: &[u8],
    limit: u32,
) -> Result<Progress, RunFault>
    ensures network { IfOk result (λ b. b.network ≡ fresh code.now keyboard.now) }
    ensures limit { IfOk result (λ b. b.limit ≡ limit) }
    ensures stop { IfOk result (λ b. b.stop ≡ None) }
    ensures refused { IfErr result (λ fault. fault ≡ RunFault.Memory) }
{
    let code = code.again(alloc)?;
    let keyboard = Vec::from_slice(alloc, keyboard)?;
    match Network::new(alloc, code, keyboard) {
        Ok(network) => Ok(Progress::new(network, limit)),
        Err(_) => Err(RunFault::Memory),
    }
}

/// The outcome of a network that workers gathered.
pub(crate) fn outcome_of(alloc: Global, network: Network) -> Result<Outcome, RunFault>
    ensures run { GivesOutcome network result }
    ensures network { IfOk result (λ o. o.network ≡ network) }
    ensures refused { IfErr result (λ fault. fault ≡ RunFault.Memory) }
{
    match network.into_outcome(alloc) {
        Ok(outcome) => Ok(outcome),
        Err(_) => Err(RunFault::Memory),
    }
}

/// The network that the workers of a run which is over gathered.
pub(crate) fn gathered(progress: Progress) -> Result<Network, RunFault>
    requires { IsConcluded progress.network.program progress.network.keyboard progress.limit
        progress }
    ensures run { IfOk result (IsGathered progress.network.program progress.network.keyboard
        progress.limit) }
    ensures unstopped { IfOk result (λ _. progress.stop ≡ None) }
    ensures fault { IfErr result (IsNoRun progress) }
{
    let Progress {
        mut network,
        stop,
        ..
    } = progress;
    if let Some(stop) = stop {
        return Err(fault_of(stop));
    }
    network.replayed();
    network.recall();
    Ok(network)
}

/// What a run that stopped so answers.
fn fault_of(stop: Stop) -> RunFault
    ensures { result ≡ stop_fault stop }
{
    match stop {
        Stop::Spawn => RunFault::Spawn,
        Stop::Memory => RunFault::Memory,
    }
}
