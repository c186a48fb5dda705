//! Names, values and messages in JSON.
ghost use Rattle.std.specs.Prelude.{◌≡◌, ◌++◌, OnOk};
ghost use Rattle.occ_net_tables.specs.Views.{part_viewed};
ghost use Rattle.occ_shown.specs.Json.{array_json, escaped, escaped_byte, more_parts, more_values, part_json, parts_json, quoted, value_json, values_json};

use crate::values::write_integer;
use occ_net_tables::{PartView, PartViews};
use occ_term::Primitive;
use std::alloc::AllocError;

fn write_byte(out: &mut Vec<u8>, byte: u8) -> Result<(), AllocError>
    ensures { OnOk result (out.new.items ≡ out.old.items ++ escaped_byte byte) }
{
    match byte {
        b'"' => out.extend_from_slice(b"\\\"")?,
        b'\\' => out.extend_from_slice(b"\\\\")?,
        b' '..=b'~' => out.push(byte)?,
        _ => out.push(b'?')?,
    }
    Ok(())
}

fn write_escaped(out: &mut Vec<u8>, bytes: &[u8]) -> Result<(), AllocError>
    ensures { OnOk result (out.new.items ≡ out.old.items ++ escaped bytes.now) }
{
    for i in 0..bytes.len() {
        write_byte(out, bytes[i])?;
    }
    Ok(())
}

/// A name between quotes.
pub(crate) fn write_quoted(out: &mut Vec<u8>, bytes: &[u8]) -> Result<(), AllocError>
    ensures { OnOk result (out.new.items ≡ out.old.items ++ quoted bytes.now) }
{
    out.push(b'"')?;
    write_escaped(out, bytes)?;
    out.push(b'"')?;
    Ok(())
}

fn write_value(out: &mut Vec<u8>, primitive: Primitive, value: &i64) -> Result<(), AllocError>
    ensures { OnOk result (out.new.items ≡ out.old.items ++ value_json primitive value.now) }
{
    match primitive {
        Primitive::Bool => {
            if *value >= 1 {
                out.extend_from_slice(b"true")
            } else {
                out.extend_from_slice(b"false")
            }
        }
        Primitive::Byte | Primitive::Int => write_integer(out, *value),
    }
}

/// Values, each behind a comma.
fn write_more_values(
    out: &mut Vec<u8>,
    primitive: Primitive,
    values: &[i64],
) -> Result<(), AllocError>
    ensures { OnOk result (out.new.items ≡ out.old.items ++ more_values primitive values.now) }
{
    for value in values {
        out.push(b',')?;
        write_value(out, primitive, value)?;
    }
    Ok(())
}

fn write_array(out: &mut Vec<u8>, primitive: Primitive, values: &[i64]) -> Result<(), AllocError>
    ensures { OnOk result (out.new.items ≡ out.old.items ++ array_json primitive values.now) }
{
    out.push(b'[')?;
    if let Some((first, others)) = values.split_first() {
        write_value(out, primitive, first)?;
        write_more_values(out, primitive, others)?;
    }
    out.push(b']')?;
    Ok(())
}

fn write_part(out: &mut Vec<u8>, part: &PartView<'_>) -> Result<(), AllocError>
    ensures { OnOk result (out.new.items ≡ out.old.items ++ part_json (part_viewed part.now)) }
{
    match part {
        PartView::One(primitive, value) => write_value(out, *primitive, value),
        PartView::Many(primitive, values) | PartView::Counted(primitive, values) => {
            write_array(out, *primitive, values)
        }
    }
}

/// Items, each behind a comma.
fn write_more_parts(out: &mut Vec<u8>, parts: PartViews<'_>) -> Result<(), AllocError>
    ensures { OnOk result (out.new.items ≡ out.old.items ++ more_parts parts.entry) }
{
    for part in parts {
        out.push(b',')?;
        write_part(out, &part)?;
    }
    Ok(())
}

/// The items of a message.
pub(crate) fn write_parts(out: &mut Vec<u8>, mut parts: PartViews<'_>) -> Result<(), AllocError>
    ensures { OnOk result (out.new.items ≡ out.old.items ++ parts_json parts.entry) }
{
    match parts.next() {
        Some(first) => {
            write_part(out, &first)?;
            write_more_parts(out, parts)
        }
        None => Ok(()),
    }
}
