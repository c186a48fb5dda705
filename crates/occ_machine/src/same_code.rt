//! Code with the same instructions.
ghost use Rattle.std.specs.Prelude.{◌≡◌, ◌↔◌, IsTrue};

use crate::instr::{Instr, Slot};

/// Whether both have the same instructions, in the same order.
pub(crate) fn is_same_code(code: &[Instr<Slot>], others: &[Instr<Slot>]) -> bool
    ensures { IsTrue result ↔ (code.now ≡ others.now) }
{
    if code.len() != others.len() {
        return false;
    }
    for i in 0..code.len() {
        if !code[i].is_same(&others[i]) {
            return false;
        }
    }
    true
}
