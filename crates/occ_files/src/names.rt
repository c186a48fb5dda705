//! How a file's name is printed.
ghost use Rattle.std.specs.Prelude.{◌≡◌, ◌++◌, ◌<◌, IfOk, IsTrue, OnOk, drop};
ghost use Rattle.occ_files.specs.Names.{byte_text, digit, ends_control, first_byte, moves, printed_name};

use std::alloc::{AllocError, Global};

/// Whether a byte ends a character from U+0080 to U+009F that 194 begins.
fn ends_control(byte: u8) -> bool
    ensures { result ≡ ends_control byte }
{
    byte > 127 && byte < 160
}

/// Whether a byte would move a terminal, where it stands between these two.
fn moves(before: u8, byte: u8, after: u8) -> bool
    ensures { result ≡ moves before byte after }
{
    byte < b' '
        || byte == 127
        || byte == 194 && ends_control(after)
        || before == 194 && ends_control(byte)
}

/// A hexadecimal digit.
fn digit(value: u8) -> u8
    requires { value < 16 }
    ensures { result ≡ digit value }
{
    if value < 10 { b'0' + value } else { 87 + value }
}

fn write_byte(out: &mut Vec<u8>, before: u8, byte: u8, after: u8) -> Result<(), AllocError>
    ensures { OnOk result (out.new.items ≡ out.old.items ++ byte_text before byte after) }
{
    if moves(before, byte, after) {
        out.extend_from_slice(&[b'\\', b'x', digit(byte / 16), digit(byte % 16)])
    } else {
        out.extend_from_slice(&[byte])
    }
}

/// The byte at this place, and 0 behind the last one.
fn byte_at(name: &[u8], place: usize) -> u8
    ensures { result ≡ first_byte (drop place name.now) }
{
    if place < name.len() { name[place] } else { 0 }
}

fn write_name(out: &mut Vec<u8>, name: &[u8]) -> Result<(), AllocError>
    ensures { OnOk result (out.new.items ≡ out.old.items ++ printed_name name.now) }
{
    let mut before = 0;
    for i in 0..name.len() {
        let byte = name[i];
        write_byte(out, before, byte, byte_at(name, i + 1))?;
        before = byte;
    }
    Ok(())
}

/// A name as it is printed: bytes that would move a terminal are written as `\x` and two digits.
///
/// # Errors
///
/// A refused growth.
pub fn printed_name(alloc: Global, name: &[u8]) -> Result<Vec<u8>, AllocError>
    ensures { IfOk result (λ printed. printed.items ≡ printed_name name.now) }
{
    let mut out = Vec::new(alloc);
    write_name(&mut out, name)?;
    Ok(out)
}
