//! Messages, in bytes, as the lines of a trace have them.
ghost use Rattle.std.specs.Prelude.{OnOk};
ghost use Rattle.std.specs.Option.{option_copied};
ghost use Rattle.occ_shown.specs.Answers.{items_text, later_text, part_text, items_on, AddsText};

use crate::values::{tag_name, write_array, write_number, write_value};
use occ_term::{Channel, Message, Part};
use std::alloc::AllocError;

fn write_part(out: &mut Vec<u8>, part: &Part) -> Result<(), AllocError>
    ensures { OnOk result (AddsText out.old out.new (part_text part.now)) }
{
    match part {
        Part::One(primitive, value) => write_value(out, *primitive, *value),
        Part::Many(primitive, values) => write_array(out, *primitive, values.as_slice()),
        Part::Counted(primitive, values) => {
            write_number(out, values.as_slice().len() as u64)?;
            out.extend_from_slice(b"::")?;
            write_array(out, *primitive, values.as_slice())
        }
    }
}

/// Items, each after a semicolon and a space.
fn write_later(out: &mut Vec<u8>, parts: &[Part]) -> Result<(), AllocError>
    ensures { OnOk result (AddsText out.old out.new (later_text parts.now)) }
{
    let mut rest = parts;
    while let Some((part, others)) = rest.split_first() {
        out.extend_from_slice(b"; ")?;
        write_part(out, part)?;
        rest = others;
    }
    Ok(())
}

/// The items of a message, of which a tag's name is the first.
fn write_items(out: &mut Vec<u8>, tag: Option<&[u8]>, parts: &[Part]) -> Result<(), AllocError>
    ensures { OnOk result
        (AddsText out.old out.new (items_text (option_copied tag.entry) parts.now)) }
{
    match tag {
        Some(name) => {
            out.extend_from_slice(name)?;
            write_later(out, parts)
        }
        None => match parts.split_first() {
            Some((first, others)) => {
                write_part(out, first)?;
                write_later(out, others)
            }
            None => Ok(()),
        },
    }
}

/// The tag's name and the items of a message on this channel, as the lines of a trace have them.
///
/// # Errors
///
/// A refused growth.
pub fn write_message(
    out: &mut Vec<u8>,
    message: &Message,
    chan: u32,
    channels: &[Channel],
) -> Result<(), AllocError>
    ensures { OnOk result (AddsText out.old out.new (items_on channels.now chan message.now)) }
{
    let items = message.items.as_slice();
    match message.tag {
        Some(tag) => write_items(out, Some(tag_name(channels, chan, tag)), items),
        None => write_items(out, None, items),
    }
}
