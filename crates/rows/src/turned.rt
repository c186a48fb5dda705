//! Networks of sources, and turns of their processes.
ghost use Rattle.occ_net.specs.Leases.{CanTakeTurn};

use crate::compared::check_text;
use crate::sources::code;
use occ_net::{Lease, NetFault, Network};
use occ_proc::{Segment, turn};
use std::alloc::{AllocError, Global};
use std::process::Abort;

/// The network of a source before its first turn, where the source is accepted and no growth is refused.
fn new_network(alloc: Global, source: &[u8], keyboard: &[u8]) -> Option<Network> {
    let code = code(alloc, source)?;
    let keyboard = Vec::from_slice(alloc, keyboard).ok()?;
    Network::new(alloc, code, keyboard).ok()
}

/// The network of a source before its first turn. One growth may be refused.
pub(crate) fn network_of(
    rt: &impl Abort,
    alloc: Global,
    source: &[u8],
    keyboard: &[u8],
) -> Network {
    match new_network(alloc, source, keyboard) {
        Some(network) => network,
        None => new_network(alloc, source, keyboard).expect(rt, "refused"),
    }
}

/// The turn of a lease.
pub(crate) fn turn_of(alloc: Global, lease: Lease) -> Result<Segment, AllocError>
    requires { CanTakeTurn lease }
{
    let Lease { body, task } = lease;
    match turn(alloc, body, task) {
        Ok(segment) => Ok(segment),
        Err((_task, refused)) => Err(refused),
    }
}

/// The turn of the process that is leased next, where there is one.
pub(crate) fn next_turn(
    alloc: Global,
    network: &mut Network,
) -> Result<Option<Segment>, AllocError> {
    match network.lease(alloc)? {
        Some(lease) => Ok(Some(turn_of(alloc, lease)?)),
        None => Ok(None),
    }
}

/// The turn of the process that is leased next, which has this number.
pub(crate) fn turn_by(
    rt: &impl Abort,
    alloc: Global,
    network: &mut Network,
    number: u32,
) -> Segment {
    let next = next_turn(alloc, network).expect(rt, "memory");
    let segment = next.expect(rt, "no process");
    assert!(rt; segment.before().number == number);
    segment
}

/// Takes a turn in.
pub(crate) fn settle(rt: &impl Abort, alloc: Global, network: &mut Network, segment: Segment) {
    let settled = network.settle(alloc, segment, 0).is_ok();
    assert!(rt; settled);
}

/// The process that is leased next, which has this number, takes its turn, and it is taken in.
pub(crate) fn step(rt: &impl Abort, alloc: Global, network: &mut Network, number: u32) {
    let segment = turn_by(rt, alloc, network, number);
    settle(rt, alloc, network, segment);
}

/// Why a turn is refused, and the number of the process of the turn that is handed back.
pub(crate) fn refusal(
    alloc: Global,
    network: &mut Network,
    segment: Segment,
) -> Option<(u32, NetFault)> {
    match network.settle(alloc, segment, 0) {
        Ok(()) => None,
        Err((segment, fault)) => Some((segment.before().number, fault)),
    }
}

/// The count of turns of the first ready process, if there is one.
fn first_turns(network: &Network) -> Option<u64> {
    match network.ready_at(0) {
        Some(task) => Some(task.turns),
        None => None,
    }
}

/// A turn is refused so, and the network is left with the choices and the ready processes that it had.
pub(crate) fn check_refused(
    rt: &impl Abort,
    alloc: Global,
    network: &mut Network,
    segment: Segment,
    refused: &str,
) {
    let number = segment.before().number;
    let (choices, ready) = (network.choices().len(), network.ready_count());
    let turns = first_turns(network);
    let (back, fault) = refusal(alloc, network, segment).expect(rt, "settled");
    assert!(rt; back == number);
    assert!(rt; network.choices().len() == choices && network.ready_count() == ready);
    assert!(rt; first_turns(network) == turns);
    let told = format!(in alloc; "{fault:?}").expect(rt, "memory");
    check_text(rt, "the refusal", told.as_str(), refused);
}
