//! An object on a line, for what is told of a source.
ghost use Rattle.std.specs.Prelude.{◌≡◌, ◌++◌, ◌<◌, IfOk, OnOk, map};
ghost use Rattle.occ_shown.specs.Objects.{AddsMembers, hex_digit, exact_byte, exact, member_json, member_of, members_json, object_json, said_json, value_said};

use crate::json_values::write_quoted;
use crate::values::write_number;
use std::alloc::{AllocError, Global};

/// What a member of an object says.
#[derive(Clone, Copy)]
pub enum Value<'a> {
    /// A number.
    Number(u64),
    /// A text, which may be no UTF-8: a question mark stands for each byte that is no printed ASCII.
    Text(&'a [u8]),
    /// A text in UTF-8, of which no byte is lost.
    Exact(&'a str),
}

/// A member of an object: its name, which has nothing to escape, and what it says.
#[derive(Clone, Copy)]
pub struct Member<'a> {
    pub name: &'static str,
    pub value: Value<'a>,
}

/// A hexadecimal digit.
pub(crate) fn hex_digit(value: u8) -> u8
    requires { value < 16 }
    ensures { result ≡ hex_digit value }
{
    if value < 10 { b'0' + value } else { 87 + value }
}

fn write_exact_byte(out: &mut Vec<u8>, byte: u8) -> Result<(), AllocError>
    ensures { OnOk result (out.new.items ≡ out.old.items ++ exact_byte byte) }
{
    match byte {
        b'"' => out.extend_from_slice(b"\\\""),
        b'\\' => out.extend_from_slice(b"\\\\"),
        0..=31 => out.extend_from_slice(&[
            b'\\',
            b'u',
            b'0',
            b'0',
            hex_digit(byte / 16),
            hex_digit(byte % 16),
        ]),
        _ => out.extend_from_slice(&[byte]),
    }
}

/// A text in UTF-8 between quotes.
fn write_exact(out: &mut Vec<u8>, bytes: &[u8]) -> Result<(), AllocError>
    ensures { OnOk result (out.new.items ≡ out.old.items ++ exact bytes.now) }
{
    for i in 0..bytes.len() {
        write_exact_byte(out, bytes[i])?;
    }
    Ok(())
}

fn write_value(out: &mut Vec<u8>, value: Value<'_>) -> Result<(), AllocError>
    ensures { OnOk result (out.new.items ≡ out.old.items ++ said_json (value_said value.entry)) }
{
    match value {
        Value::Number(number) => write_number(out, number),
        Value::Text(bytes) => write_quoted(out, bytes),
        Value::Exact(text) => {
            out.push(b'"')?;
            write_exact(out, text.as_bytes())?;
            out.push(b'"')?;
            Ok(())
        }
    }
}

/// A member, behind a comma.
#[tactic(auto, unfolding(crate::specs::Objects::member_json))]
fn write_member(out: &mut Vec<u8>, member: &Member<'_>) -> Result<(), AllocError>
    ensures { OnOk result (out.new.items ≡ out.old.items ++ member_json (member_of member.now)) }
{
    out.extend_from_slice(b",\"")?;
    out.extend_from_slice(member.name.as_bytes())?;
    out.extend_from_slice(b"\":")?;
    write_value(out, member.value)
}

fn write_members(out: &mut Vec<u8>, mut members: &[Member<'_>]) -> Result<(), AllocError>
    ensures { OnOk result (AddsMembers out.old.items out.new.items members.entry.now) }
{
    while let [member, rest @ ..] = members {
        write_member(out, member)?;
        members = rest;
    }
    Ok(())
}

/// An object on a line: first its kind, and then these members.
///
/// # Errors
///
/// A refused growth.
#[tactic(auto, unfolding(crate::specs::Objects::object_json))]
pub fn object_line(
    alloc: Global,
    kind: &'static str,
    members: &[Member<'_>],
) -> Result<Vec<u8>, AllocError>
    ensures { IfOk result (λ bytes. bytes.items ≡ object_json kind.now (map member_of members.now)) }
{
    let mut bytes = Vec::new(alloc);
    bytes.extend_from_slice(b"{\"kind\":\"")?;
    bytes.extend_from_slice(kind.as_bytes())?;
    bytes.extend_from_slice(b"\"")?;
    write_members(&mut bytes, members)?;
    bytes.extend_from_slice(b"}\n")?;
    Ok(bytes)
}
