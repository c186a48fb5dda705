//! The counters of replicators: how many values of an index are left, and its last value.
ghost use Rattle.std.specs.Prelude.{◌≡◌, ◌<◌, ◌+◌, ◌+ℤ◌, IfNone, IfSome, IsTrue, false, length, pos};
ghost use Rattle.occ_machine.specs.Machine.{by_place, is_next, kept_as, kept_value, turning};

use occ_machine::Slot;
use occ_term::Frame;

/// The value after the one that a counter keeps, where it is at most the first number past the INTs.
#[inline(always)]
pub fn value_after(kept: u64) -> Option<i64>
    ensures some { IfSome result
        (λ next. (next ≡ kept_value kept +ℤ pos 1) × IsTrue (is_next next)) }
    ensures none { IfNone result (is_next (kept_value kept +ℤ pos 1) ≡ false) }
{
    let last = kept_value(kept);
    if last < 2147483648 {
        Some(last + 1)
    } else {
        None
    }
}

/// Gives the index its next value, with so many left after it.
#[inline(always)]
pub fn turn_to(frame: &mut Frame, slot: u64, index: Slot, left: u64, value: i64)
    requires held { index < length frame.old.values }
    requires counts { slot + 1 < length frame.old.left }
    ensures { frame.new ≡ turning by_place frame.old slot index left value }
{
    let _counters = frame.counters();
    frame.set_in(index.0, value);
    frame.set_left(slot, left);
    frame.set_left(slot + 1, kept_as(value));
}

/// An index's value as a counter.
fn kept_as(value: i64) -> u64
    ensures { result ≡ kept_as value }
{
    if value < 0 {
        (-(value + 1)) as u64 * 2 + 1
    } else {
        value as u64 * 2
    }
}

/// The value that a counter keeps.
fn kept_value(kept: u64) -> i64
    ensures { result ≡ kept_value kept }
{
    let half = (kept / 2) as i64;
    if kept % 2 == 0 { half } else { -half - 1 }
}
