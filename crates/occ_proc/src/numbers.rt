//! Numbers of cells, of channels and of components, from values.
ghost use Rattle.std.specs.Prelude.{◌≡◌, ◌*◌, ◌<◌, ◌≤◌, ◌^◌, IfNone, IfOk, IfSome, IsTrue, false, nat_abs};
ghost use Rattle.occ_term.specs.Evaluation.{evaluated};
ghost use Rattle.occ_term.specs.Values as meaning;
ghost use Rattle.occ_machine.specs.Machine as machine;
ghost use Rattle.occ_proc.specs.Passing.{IsComponentAt};

use occ_term::{Fault, FaultKind};

/// A value as the number of a cell or channel.
pub fn number(value: i64) -> u64
    ensures is { result ≡ nat_abs value }
    ensures few { result ≤ 2 ^ 63 }
{
    value.unsigned_abs()
}

/// A value as the number of a channel or of an arm, where it is one.
pub fn numbered(value: i64) -> Option<u32>
    ensures some { IfSome result
        (λ n. (n ≡ nat_abs value) × IsTrue (machine.is_number (nat_abs value))) }
    ensures none { IfNone result (machine.is_number (nat_abs value) ≡ false) }
{
    if 0 <= value && value < 4_294_967_296 {
        return Some(value as u32);
    }
    let number = number(value);
    if number < 4_294_967_296 {
        Some(number as u32)
    } else {
        None
    }
}

/// A subscript within a size.
pub fn subscript(line: u32, size: usize, value: i64) -> Result<usize, Fault>
    ensures is { evaluated result ≡ meaning.subscript line size value }
    ensures within { IfOk result (λ at. at < size) }
{
    if 0 <= value && (value as u64) < size as u64 {
        Ok(value as usize)
    } else {
        Err(range(line))
    }
}

/// The fault RANGE, in a line.
pub fn range(line: u32) -> Fault
    ensures { result ≡ record { kind = FaultKind.Range; line = line } }
{
    Fault {
        kind: FaultKind::Range,
        line,
    }
}

/// The number of a component, where the machine has it.
pub fn place_of(first: i64, at: usize, stride: u64) -> Option<i64>
    ensures some { IfSome result (IsComponentAt first (at * stride)) }
    ensures none { IfNone result (machine.is_component first (at * stride) ≡ false) }
{
    if first < 0 {
        return None;
    }
    let offset = (at as u64).checked_mul(stride)?;
    if offset == 0 {
        return Some(first);
    }
    let place = number(first).checked_add(offset)?;
    if place < 4_294_967_296 {
        Some(place as i64)
    } else {
        None
    }
}
