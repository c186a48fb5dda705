//! The ends of a channel: who always takes what is offered there, what is offered, and what a process stands at that took it.
ghost use Rattle.std.specs.Prelude.{◌≡◌, ◌<◌, IfOk, Some, length, slice_get, ℕ};
ghost use Rattle.occ_net_replay.specs.Replay.{byte_message};
ghost use Rattle.occ_net_tables.specs.Choosing.{input_arm, keyboard_at};
ghost use Rattle.occ_net_tables.specs.Settling.{IsOffering, byte_on, outer_taker};
ghost use Rattle.occ_net_tables.specs.Tasks.{IsOffered};

use occ_machine::{Arm, Indices, Task, Wait};
use occ_term::{ERROR, End, KEYBOARD, Message, Part, Parts, Primitive, SCREEN};
use std::alloc::{AllocError, Global};

/// The end that always takes what is offered on this channel.
#[inline(always)]
pub(crate) fn reader(chan: u32) -> Option<End>
    ensures { result ≡ outer_taker chan }
{
    match chan {
        SCREEN => Some(End::Screen),
        ERROR => Some(End::Error),
        _ => None,
    }
}

/// What the keyboard gives on this channel, where so many of its bytes are taken.
#[inline(always)]
pub(crate) fn next_byte(chan: u32, keyboard: &[u8], used: usize) -> Option<u8>
    ensures { result ≡ byte_on chan keyboard.now used }
{
    if chan == KEYBOARD {
        keyboard.get(used).copied()
    } else {
        None
    }
}

/// The keyboard's channel, where not all of its bytes are taken.
pub(crate) fn keyboard_channel(keyboard: &[u8], used: usize) -> Option<u32>
    ensures { result ≡ keyboard_at keyboard.now used }
{
    if used < keyboard.len() {
        Some(KEYBOARD)
    } else {
        None
    }
}

/// The message of one byte.
pub(crate) fn one_byte(byte: u8) -> Message
    ensures { result ≡ byte_message byte }
{
    Message {
        tag: None,
        items: Parts::one(Part::One(Primitive::Byte, i64::from(byte))),
    }
}

/// The message that the process offers.
#[inline(always)]
pub(crate) fn offered(tasks: &[Option<Task>], giver: u32) -> &Message
    requires { (chan : ℕ) × IsOffering tasks.now giver chan }
    ensures { IsOffered tasks.now giver result.now }
{
    match &tasks[giver as usize] {
        Some(task) => match &task.wait {
            Wait::Offers { message, .. } => message,
            _ => unreachable!(),
        },
        None => unreachable!(),
    }
}

/// A copy of the arm at this place.
pub(crate) fn copied_arm(alloc: Global, arms: &[Arm], at: usize) -> Result<Arm, AllocError>
    requires { at < length arms.now }
    ensures { IfOk result (λ arm. slice_get arms.now at ≡ Some arm) }
{
    let arm = &arms[at];
    let indices = arm.indices.copy(alloc)?;
    Ok(Arm {
        number: arm.number,
        chan: arm.chan,
        indices,
    })
}

/// The arm by which an input takes its message.
#[inline(always)]
pub(crate) fn input_arm(chan: u32) -> Arm
    ensures { result ≡ input_arm chan }
{
    Arm {
        number: 0,
        chan: Some(chan),
        indices: Indices::new(),
    }
}

/// What a process stands at that took this arm, with its message.
#[inline(always)]
pub(crate) fn took(arm: Arm, message: Option<Message>) -> Wait
    ensures { result ≡ Wait.Took arm.number arm.indices message }
{
    let Arm {
        number,
        indices,
        ..
    } = arm;
    Wait::Took {
        arm: number,
        indices,
        message,
    }
}
