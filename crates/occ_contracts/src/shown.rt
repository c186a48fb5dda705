//! What a run shows, in bytes.
ghost use Rattle.std.specs.Prelude.{◌≡◌, ◌<◌, ◌-◌, ◌^◌, length, IfNone, IfSome, IsSome, OnErr, OnOk};
ghost use Rattle.occ_shown.specs.Answers.{AreByteMessages};
ghost use Rattle.occ_shown.specs.Counting.{failures_of, writer_of};
ghost use Rattle.occ_contracts.specs.Agreement.{BothGive};

use occ_board::Shown;
use occ_net_tables::{Entry, Trace};
use occ_shown::{
    Counted, answer, channel_bytes, is_shown, shown_as, tag_name, watch_lines, write_answer,
    write_message, write_name, write_value,
};
use occ_term::{Channel, ERROR, Ending, Message, Primitive, SCREEN};
use std::alloc::{AllocError, Global};
use std::io::Write;

/// A run has one answer.
pub fn answer_twice(
    alloc: Global,
    one: &Trace,
    other: &Trace,
    channels: &[Channel],
    ending: Ending,
    with_trace: bool,
) -> (Result<Vec<u8>, AllocError>, Result<Vec<u8>, AllocError>)
    requires same { other.now ≡ one.now }
    requires screen { AreByteMessages SCREEN one.now }
    requires error { AreByteMessages ERROR one.now }
    ensures { BothGive (λ a b. a.items ≡ b.items) result.0 result.1 }
{
    (
        answer(alloc, one, channels, ending, with_trace),
        answer(alloc, other, channels, ending, with_trace),
    )
}

/// The bytes of a channel are fixed.
pub fn bytes_twice(
    alloc: Global,
    one: &Trace,
    other: &Trace,
    chan: u32,
) -> (Result<Vec<u8>, AllocError>, Result<Vec<u8>, AllocError>)
    requires same { other.now ≡ one.now }
    requires bytes { AreByteMessages chan one.now }
    ensures { BothGive (λ a b. a.items ≡ b.items) result.0 result.1 }
{
    (
        channel_bytes(alloc, one, chan),
        channel_bytes(alloc, other, chan),
    )
}

/// A message is written in one way.
pub fn message_twice(
    one: &mut Vec<u8>,
    other: &mut Vec<u8>,
    message: &Message,
    chan: u32,
    channels: &[Channel],
) -> (Result<(), AllocError>, Result<(), AllocError>)
    requires { other.old.items ≡ one.old.items }
    ensures { BothGive (λ _ _. one.new.items ≡ other.new.items) result.0 result.1 }
{
    (
        write_message(one, message, chan, channels),
        write_message(other, message, chan, channels),
    )
}

/// The name of a channel is written in one way.
pub fn name_twice(
    alloc: Global,
    one: &mut Vec<u8>,
    other: &mut Vec<u8>,
    channels: &[Channel],
    chan: u32,
) -> (Result<(), AllocError>, Result<(), AllocError>)
    requires { other.old.items ≡ one.old.items }
    ensures { BothGive (λ _ _. one.new.items ≡ other.new.items) result.0 result.1 }
{
    (
        write_name(alloc, one, channels, chan),
        write_name(alloc, other, channels, chan),
    )
}

/// A value is written in one way.
pub fn value_twice(
    one: &mut Vec<u8>,
    other: &mut Vec<u8>,
    primitive: Primitive,
    value: i64,
) -> (Result<(), AllocError>, Result<(), AllocError>)
    requires { other.old.items ≡ one.old.items }
    ensures { BothGive (λ _ _. one.new.items ≡ other.new.items) result.0 result.1 }
{
    (
        write_value(one, primitive, value),
        write_value(other, primitive, value),
    )
}

/// The name of a tag is fixed.
pub fn tag_twice<'a>(channels: &'a [Channel], chan: u32, tag: u32) -> (&'a [u8], &'a [u8])
    ensures { result.0.now ≡ result.1.now }
{
    (tag_name(channels, chan, tag), tag_name(channels, chan, tag))
}

/// A communication is shown in one way.
pub fn shown_twice(
    alloc: Global,
    number: u64,
    communication: &Entry<'_>,
    channels: &[Channel],
) -> (Result<Shown, AllocError>, Result<Shown, AllocError>)
    ensures { BothGive (λ a b. a ≡ b) result.0 result.1 }
{
    (
        shown_as(alloc, number, communication, channels),
        shown_as(alloc, number, communication, channels),
    )
}

/// Whether a list is a trace's is fixed.
pub fn is_shown_twice(
    alloc: Global,
    list: &[Shown],
    trace: &Trace,
    channels: &[Channel],
) -> (Result<bool, AllocError>, Result<bool, AllocError>)
    ensures { BothGive (λ a b. a ≡ b) result.0 result.1 }
{
    (
        is_shown(alloc, list, trace, channels),
        is_shown(alloc, list, trace, channels),
    )
}

/// The lines of a list are fixed.
pub fn lines_twice(
    alloc: Global,
    list: &[Shown],
) -> (Result<Vec<u8>, AllocError>, Result<Vec<u8>, AllocError>)
    ensures { BothGive (λ a b. a.items ≡ b.items) result.0 result.1 }
{
    (watch_lines(alloc, list), watch_lines(alloc, list))
}

/// The first write counts as failed where it failed.
pub fn first_write<W: Write + Drop>(writer: W, bytes: &[u8]) -> (Option<usize>, u64)
    requires { 0 < length bytes.now }
    ensures failed { IfNone result.0 (result.1 ≡ 1) }
    ensures written { IfSome result.0 (λ _. result.1 ≡ 0) }
{
    let mut counted = Counted::new(writer);
    let written = counted.write_some(bytes);
    (written, counted.failures())
}

/// A whole answer has no failed write, and one that was cut off has one at least.
pub fn first_answer<W: Write + Drop>(writer: W, bytes: &[u8]) -> (Result<(), u64>, u64)
    ensures whole { OnOk result.0 (result.1 ≡ 0) }
    ensures cut { OnErr result.0 (0 < result.1) }
{
    let mut counted = Counted::new(writer);
    let written = write_answer(bytes, &mut counted);
    (written, counted.failures())
}

/// Two writers that were alike have the same bytes once each has a whole answer.
pub fn answer_written_twice<W: Write>(
    bytes: &[u8],
    one: &mut Counted<W>,
    two: &mut Counted<W>,
) -> (Result<(), u64>, Result<(), u64>)
    requires room { failures_of one.old < 2 ^ 64 - 1 }
    requires room_again { failures_of two.old < 2 ^ 64 - 1 }
    requires known { IsSome (W.contents (writer_of one.old)) }
    requires same { W.contents (writer_of two.old) ≡ W.contents (writer_of one.old) }
    ensures { BothGive (λ _ _. W.contents (writer_of one.new) ≡ W.contents (writer_of two.new))
        result.0 result.1 }
{
    (write_answer(bytes, one), write_answer(bytes, two))
}
