//! Bytes that come behind those that were read.
ghost use Rattle.std.specs.Prelude.{◌≡◌, ◌<◌, ◌≤◌, ◌-◌, ◌^◌, IfErr, IfOk, IsFalse, IsTrue, OnErr, OnOk, length};
ghost use Rattle.std.specs.Io.KnownBytes.{IsAtEnd};
ghost use Rattle.occ_files.specs.Reading.{Grows, breaks_of, failures_of, reader_of};
ghost use Rattle.occ_live.specs.Living.{TellsRead};

use crate::fault::LiveFault;
use occ_files::CountedReader;
use std::io::Read;

/// How many bytes are asked for at a time.
const PIECE: usize = 4096;

/// Reads some bytes behind these. It is FALSE where the keyboard is at its end.
pub(crate) fn read_more<K: Read>(
    keys: &mut CountedReader<K>,
    keyboard: &mut Vec<u8>,
) -> Result<bool, LiveFault>
    requires room { failures_of keys.old < 2 ^ 64 - 1 }
    ensures read { Grows K.remaining keys.old keys.new keyboard.old.items keyboard.new.items }
    ensures some { IfOk result (λ some. IsTrue some →
        length keyboard.old.items < length keyboard.new.items) }
    ensures none { IfOk result (λ some. IsFalse some → keyboard.new.items ≡ keyboard.old.items) }
    ensures end { IfOk result (λ some. IsFalse some → IsAtEnd (K.remaining (reader_of keys.new))) }
    ensures room_left { OnOk result (failures_of keys.new < 2 ^ 64 - 1) }
    ensures unbroken { OnOk result (breaks_of keys.new ≡ breaks_of keys.old) }
    ensures kept { OnErr result (keyboard.new.items ≡ keyboard.old.items) }
    ensures grown { OnOk result (failures_of keys.old ≤ failures_of keys.new) }
    ensures told { IfErr result (TellsRead keys.old keys.new) }
{
    keyboard.reserve(PIECE)?;
    let mut piece = [0; PIECE];
    match keys.read_some(&mut piece) {
        Some(0) => Ok(false),
        Some(n) => {
            keyboard.extend_from_slice(&piece[..n])?;
            Ok(true)
        }
        None => Err(LiveFault::Read(keys.reason())),
    }
}
