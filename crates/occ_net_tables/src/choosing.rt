//! The rule of ready arms, and arms in the table of those who wait for messages.
ghost use Rattle.std.specs.Prelude.{◌≡◌, ◌↔◌, ◌<◌, IfSome, IsTrue, length};
ghost use Rattle.occ_term.specs.Selecting.{is_ready_on, ready_among};
ghost use Rattle.occ_machine.specs.declared.task.Arm.{Arm};
ghost use Rattle.occ_net_replay.specs.Replay.{arm_chosen};
ghost use Rattle.occ_net_replay.specs.Waiting.{channels_of};
ghost use Rattle.occ_net_tables.specs.Choosing.{arm_at, is_same_number, offered_arm, offered_arms, offered_at, offered_by};
ghost use Rattle.occ_net_tables.specs.Keys.{set_all};

use crate::entries::{entry, set_entry};
use occ_machine::Arm;

/// Whether this channel is the named one.
fn is_named(named: Option<u32>, chan: u32) -> bool
    ensures { result ≡ is_same_number named chan }
{
    match named {
        Some(other) => chan == other,
        None => false,
    }
}

/// Whether an offer stands on the channel: it is the named one, or somebody stands there in the
/// table.
fn is_offered(named: Option<u32>, offering: &[Option<u32>], chan: u32) -> bool
    ensures { result ≡ offered_by named offering.now chan }
{
    is_named(named, chan) || entry(offering, chan).is_some()
}

/// Whether the arm is ready. SKIP always is.
fn is_ready(named: Option<u32>, offering: &[Option<u32>], arm: &Arm) -> bool
    ensures { result ≡ is_ready_on (offered_by named offering.now) arm.now.chan }
{
    match arm.chan {
        Some(chan) => is_offered(named, offering, chan),
        None => true,
    }
}

/// How many arms are ready.
pub(crate) fn count_ready(named: Option<u32>, offering: &[Option<u32>], arms: &[Arm]) -> usize
    ensures { result ≡ length (offered_arms named offering.now arms.now) }
{
    let mut count = 0;
    for arm in arms {
        if is_ready(named, offering, arm) {
            count += 1;
        }
    }
    count
}

/// The place of the ready arm with this number among the ready ones, which are counted from 0.
fn ready_place(
    named: Option<u32>,
    offering: &[Option<u32>],
    arms: &[Arm],
    wanted: usize,
) -> Option<usize>
    ensures arm { arm_at arms.now result ≡ offered_at named offering.now arms.now wanted }
    ensures within { IfSome result (λ place. place < length arms.now) }
{
    let mut left = wanted;
    for (place, arm) in arms.iter().enumerate() {
        if is_ready(named, offering, arm) {
            if left == 0 {
                return Some(place);
            }
            left -= 1;
        }
    }
    None
}

/// The place of the arm that is taken: with priority the first ready one, else the one whose number
/// among the ready ones is `pick` modulo their number.
pub(crate) fn choose_arm(
    named: Option<u32>,
    offering: &[Option<u32>],
    pri: bool,
    pick: u32,
    arms: &[Arm],
) -> Option<usize>
    ensures arm { arm_at arms.now result ≡ offered_arm pri pick named offering.now arms.now }
    ensures within { IfSome result (λ place. place < length arms.now) }
{
    let wanted = if pri {
        0
    } else {
        let count = count_ready(named, offering, arms);
        if count == 0 {
            return None;
        }
        pick as usize % count
    };
    ready_place(named, offering, arms, wanted)
}

/// Whether one arm stands at both places, or none at either.
pub(crate) fn is_same_arm(arms: &[Arm], place: Option<usize>, other: Option<usize>) -> bool
    requires place { IfSome place (λ i. i < length arms.now) }
    requires other { IfSome other (λ i. i < length arms.now) }
    ensures { IsTrue result ↔ (arm_at arms.now place ≡ arm_at arms.now other) }
{
    match (place, other) {
        (Some(place), Some(other)) => arms[place].is_same(&arms[other]),
        (None, None) => true,
        _ => false,
    }
}

/// Lets somebody stand at the channels of these arms, or nobody.
pub(crate) fn set_arms(table: &mut Vec<Option<u32>>, arms: &[Arm], value: Option<u32>)
    ensures { table.new.items ≡ set_all (channels_of arms.now) value table.old.items }
{
    for arm in arms {
        if let Some(chan) = arm.chan {
            set_entry(table, chan, value);
        }
    }
}
