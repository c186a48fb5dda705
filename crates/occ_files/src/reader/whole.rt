//! Input that is read whole.
ghost use Rattle.std.specs.Prelude.{◌≡◌, ◌+◌, ◌-◌, ◌^◌, ◌<◌, ◌≤◌, IfOk, OnOk, IfErr, IfSome, length, take};
ghost use Rattle.std.specs.Io.KnownBytes.{IsAtEnd};
ghost use Rattle.occ_files.specs.Reading.{Grows, ReadsNext, breaks_of, failures_of, reader_of, TellsReason};

use crate::fault::InputFault;
use crate::reader::CountedReader;
use std::alloc::Global;
use std::io::Read;

/// How many bytes are asked for at a time.
const PIECE: usize = 8192;

/// Reads some more bytes, at most as many as the buffer holds, and answers how many there were.
fn read_more<R: Read>(
    reader: &mut CountedReader<R>,
    buffer: &mut [u8],
    bytes: &mut Vec<u8>,
) -> Result<usize, InputFault>
    requires room { failures_of reader.old < 2 ^ 64 - 1 }
    requires some { 0 < length buffer.old }
    ensures more { IfOk result (λ n. length bytes.new.items ≡ length bytes.old.items + n) }
    ensures within { IfOk result (λ n. n ≤ length buffer.old) }
    ensures read { OnOk result (Grows R.remaining reader.old reader.new bytes.old.items
        bytes.new.items) }
    ensures end { IfOk result (λ n. n ≡ 0 → IsAtEnd (R.remaining (reader_of reader.new))) }
    ensures unbroken { OnOk result (breaks_of reader.new ≡ breaks_of reader.old) }
    ensures counted { OnOk result (failures_of reader.old ≤ failures_of reader.new) }
    ensures room_left { OnOk result (failures_of reader.new < 2 ^ 64 - 1) }
    ensures told { IfErr result (TellsReason reader.old reader.new) }
{
    match reader.read_some(buffer) {
        Some(n) => {
            bytes.extend_from_slice(&buffer[..n])?;
            Ok(n)
        }
        None => Err(InputFault::Read(reader.reason())),
    }
}

/// All bytes of a reader, or the first `most` where it has more. A read that was interrupted is taken up again.
///
/// # Errors
///
/// `Read` where a read failed, and `Memory` of a refused growth; then the bytes that were read are gone.
pub fn read_input<R: Read>(
    alloc: Global,
    reader: &mut CountedReader<R>,
    most: usize,
) -> Result<Vec<u8>, InputFault>
    requires room { failures_of reader.old < 2 ^ 64 - 1 }
    ensures bytes { IfSome (R.remaining (reader_of reader.old))
        (λ all. IfOk result (λ v. v.items ≡ take most all)) }
    ensures few { IfOk result (λ bytes. length bytes.items ≤ most) }
    ensures rest { IfOk result (λ v. ReadsNext R.remaining reader.old reader.new v.items) }
    ensures unbroken { OnOk result (breaks_of reader.new ≡ breaks_of reader.old) }
    ensures told { IfErr result (TellsReason reader.old reader.new) }
{
    let mut buffer = [0; PIECE];
    let mut bytes = Vec::new(alloc);
    while bytes.len() < most {
        let room = PIECE.min(most - bytes.len());
        match read_more(reader, &mut buffer[..room], &mut bytes) {
            Ok(0) => return Ok(bytes),
            Ok(_) => {}
            Err(fault) => return Err(fault),
        }
    }
    Ok(bytes)
}
