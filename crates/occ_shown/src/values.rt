//! Values, names and numbers of processes, in bytes.
ghost use Rattle.std.specs.Prelude.{◌≡◌, OnOk, Some};
ghost use Rattle.std.specs.Fmt.{decimal, signed_decimal};
ghost use Rattle.occ_shown.specs.Answers.{array_text, names_of, numbers_text, spaced_text, tag_name_in, value_text, AddsText};

use itoa::Buffer;
use occ_term::{Channel, Primitive, Protocol};
use std::alloc::{AllocError, Global};

pub(crate) fn write_number(out: &mut Vec<u8>, number: u64) -> Result<(), AllocError>
    ensures { OnOk result (AddsText out.old out.new (decimal number)) }
{
    let mut buffer = Buffer::new();
    out.extend_from_slice(buffer.format(number).as_bytes())
}

pub(crate) fn write_integer(out: &mut Vec<u8>, number: i64) -> Result<(), AllocError>
    ensures { OnOk result (AddsText out.old out.new (signed_decimal number)) }
{
    let mut buffer = Buffer::new();
    out.extend_from_slice(buffer.format(number).as_bytes())
}

/// A value of this type.
///
/// # Errors
///
/// A refused growth.
pub fn write_value(out: &mut Vec<u8>, primitive: Primitive, value: i64) -> Result<(), AllocError>
    ensures { OnOk result (AddsText out.old out.new (value_text primitive value)) }
{
    match primitive {
        Primitive::Bool => {
            if value >= 1 {
                out.extend_from_slice(b"TRUE")
            } else {
                out.extend_from_slice(b"FALSE")
            }
        }
        Primitive::Byte | Primitive::Int => write_integer(out, value),
    }
}

/// Values, each after a space.
fn write_spaced(out: &mut Vec<u8>, primitive: Primitive, values: &[i64]) -> Result<(), AllocError>
    ensures { OnOk result (AddsText out.old out.new (spaced_text primitive values.now)) }
{
    let mut rest = values;
    while let Some((value, others)) = rest.split_first() {
        out.push(b' ')?;
        write_value(out, primitive, *value)?;
        rest = others;
    }
    Ok(())
}

/// The values of an array, in brackets.
///
/// # Errors
///
/// A refused growth.
pub fn write_array(
    out: &mut Vec<u8>,
    primitive: Primitive,
    values: &[i64],
) -> Result<(), AllocError>
    ensures { OnOk result (AddsText out.old out.new (array_text primitive values.now)) }
{
    out.push(b'[')?;
    if let Some((first, others)) = values.split_first() {
        write_value(out, primitive, *first)?;
        write_spaced(out, primitive, others)?;
    }
    out.push(b']')?;
    Ok(())
}

/// The name of a channel; nothing where there is no such channel.
///
/// # Errors
///
/// A refused growth.
pub fn write_name(
    alloc: Global,
    out: &mut Vec<u8>,
    channels: &[Channel],
    chan: u32,
) -> Result<(), AllocError>
    ensures { OnOk result (AddsText out.old out.new ((names_of channels.now).channel_name chan)) }
{
    match channels.get(chan as usize) {
        Some(channel) => channel.name.write(alloc, out),
        None => Ok(()),
    }
}

/// The name of a channel's tag; empty where there is no such tag.
pub fn tag_name(channels: &[Channel], chan: u32, tag: u32) -> &[u8]
    ensures { result.now ≡ (names_of channels.now).tag_name chan tag }
{
    match channels.get(chan as usize) {
        Some(channel) => protocol_tag(&channel.protocol, tag),
        None => &[],
    }
}

/// The name of a protocol's tag; empty where there is no such tag.
fn protocol_tag(protocol: &Protocol, tag: u32) -> &[u8]
    ensures { result.now ≡ tag_name_in (Some protocol.now) tag }
{
    match protocol {
        Protocol::Variant(tags) => match tags.as_slice().get(tag as usize) {
            Some(found) => found.name.as_slice(),
            None => &[],
        },
        _ => &[],
    }
}

/// The numbers of processes, each after a space.
///
/// # Errors
///
/// A refused growth.
pub fn write_numbers(out: &mut Vec<u8>, numbers: &[u32]) -> Result<(), AllocError>
    ensures { OnOk result (AddsText out.old out.new (numbers_text numbers.now)) }
{
    let mut rest = numbers;
    while let Some((first, others)) = rest.split_first() {
        out.extend_from_slice(b" p")?;
        write_number(out, u64::from(*first))?;
        rest = others;
    }
    Ok(())
}
