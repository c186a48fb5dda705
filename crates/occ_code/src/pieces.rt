//! Emitting code from its end to its start.
ghost use Rattle.std.specs.Prelude.{◌≡◌, ◌∷◌, [], ◌-◌, ◌<◌, length, set};
ghost use Rattle.occ_code.specs.Pieces.{AddsPiece};

use occ_machine::Instr;
use std::alloc::AllocError;

/// Puts one instruction before what was emitted.
pub(crate) fn put(code: &mut Vec<Instr<u32>>, instr: Instr<u32>) -> Result<(), AllocError>
    ensures { AddsPiece result code.old code.new (instr ∷ []) }
{
    code.push(instr)?;
    Ok(())
}

/// How many instructions were emitted.
pub(crate) fn emitted(code: &Vec<Instr<u32>>) -> usize
    ensures { result ≡ length code.now.items }
{
    code.len()
}

/// How many instructions were emitted since there were so many.
pub(crate) fn since(code: &Vec<Instr<u32>>, before: usize) -> usize
    ensures { result ≡ length code.now.items - before }
{
    code.len().saturating_sub(before)
}

/// Puts an instruction in the place of one that was emitted.
pub(crate) fn put_at(code: &mut Vec<Instr<u32>>, place: usize, instr: Instr<u32>)
    requires { place < length code.old.items }
    ensures { code.new.items ≡ set code.old.items place instr }
{
    code[place] = instr;
}
