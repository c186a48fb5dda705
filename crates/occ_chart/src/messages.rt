//! Messages in bytes, as a chart has them.
ghost use Rattle.std.specs.Prelude.{◌≡◌, OnOk};
ghost use Rattle.std.specs.Option.{option_copied};
ghost use Rattle.occ_shown.specs.Answers.{AddsText};
ghost use Rattle.occ_chart.specs.Labels.{byte_shown, item_text, message_text, others_text, message_on};

use occ_shown::{tag_name, write_array, write_value};
use occ_term::{Channel, Message, Part, Primitive};
use std::alloc::{AllocError, Global};

/// A byte's number, and its character where it is printed ASCII.
fn write_byte(alloc: Global, out: &mut Vec<u8>, value: i64) -> Result<(), AllocError>
    ensures { OnOk result (AddsText out.old out.new (byte_shown value)) }
{
    let text = format!(in alloc; "{value}")?;
    out.extend_from_slice(text.as_bytes())?;
    if value >= 32 && value <= 126 {
        out.extend_from_slice(b" '")?;
        out.push(value as u8)?;
        out.push(b'\'')?;
    }
    Ok(())
}

fn write_one(
    alloc: Global,
    out: &mut Vec<u8>,
    primitive: Primitive,
    value: i64,
) -> Result<(), AllocError>
    ensures { OnOk result (AddsText out.old out.new (item_text (Part.One primitive value))) }
{
    match primitive {
        Primitive::Byte => write_byte(alloc, out, value),
        Primitive::Bool => write_value(out, Primitive::Bool, value),
        Primitive::Int => write_value(out, Primitive::Int, value),
    }
}

fn write_item(alloc: Global, out: &mut Vec<u8>, part: &Part) -> Result<(), AllocError>
    ensures { OnOk result (AddsText out.old out.new (item_text part.now)) }
{
    match part {
        Part::One(primitive, value) => write_one(alloc, out, *primitive, *value),
        Part::Many(primitive, values) => write_array(out, *primitive, values.as_slice()),
        Part::Counted(primitive, values) => {
            let count = values.as_slice().len() as u64;
            let head = format!(in alloc; "{count}::")?;
            out.extend_from_slice(head.as_bytes())?;
            write_array(out, *primitive, values.as_slice())
        }
    }
}

/// Items, each after a semicolon and a space.
fn write_others(alloc: Global, out: &mut Vec<u8>, parts: &[Part]) -> Result<(), AllocError>
    ensures { OnOk result (AddsText out.old out.new (others_text parts.now)) }
{
    let mut rest = parts;
    while let Some((part, others)) = rest.split_first() {
        out.extend_from_slice(b"; ")?;
        write_item(alloc, out, part)?;
        rest = others;
    }
    Ok(())
}

/// The items of a message, of which a tag's name is the first.
pub(crate) fn write_items(
    alloc: Global,
    out: &mut Vec<u8>,
    tag: Option<&[u8]>,
    parts: &[Part],
) -> Result<(), AllocError>
    ensures { OnOk result
        (AddsText out.old out.new (message_text (option_copied tag.entry) parts.now)) }
{
    match tag {
        Some(name) => {
            out.extend_from_slice(name)?;
            write_others(alloc, out, parts)
        }
        None => match parts.split_first() {
            Some((first, others)) => {
                write_item(alloc, out, first)?;
                write_others(alloc, out, others)
            }
            None => Ok(()),
        },
    }
}

/// The tag's name and the items of a message on this channel, a single byte with its character where it is printed ASCII.
///
/// # Errors
///
/// A refused growth.
pub fn write_message(
    alloc: Global,
    out: &mut Vec<u8>,
    message: &Message,
    chan: u32,
    channels: &[Channel],
) -> Result<(), AllocError>
    ensures { OnOk result (AddsText out.old out.new (message_on channels.now chan message.now)) }
{
    let items = message.items.as_slice();
    match message.tag {
        Some(tag) => write_items(alloc, out, Some(tag_name(channels, chan, tag)), items),
        None => write_items(alloc, out, None, items),
    }
}
