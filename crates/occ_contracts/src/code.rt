//! The code of a program.
ghost use Rattle.std.specs.Prelude.{◌≡◌, ◌*◌, ◌≤◌, ◌⊎◌, All, IfErr, IfOk, IsErrOf};
ghost use Rattle.occ_code.specs.CodeOf.{IsQuantum};
ghost use Rattle.occ_code.specs.declared.compiling.CodeFault.TheVariants.{BadQuantum, Memory, TooLarge};
ghost use Rattle.occ_machine.specs.Compiled.{most_instructions};
ghost use Rattle.occ_term.specs.Sizes.{size_of};
ghost use Rattle.occ_term.specs.UnfoldedProgram.{meaning};
ghost use Rattle.occ_contracts.specs.Agreement.{Agree};

use occ_code::{CodeFault, compile, compile_for};
use occ_machine::Code;
use occ_usage::Checked;
use std::alloc::Global;

/// A program has one code for a quantum. Whether a program that may be too large has one is not fixed.
pub fn compile_twice(
    alloc: Global,
    one: &Checked,
    other: &Checked,
    quantum: u32,
) -> (Result<Code, CodeFault>, Result<Code, CodeFault>)
    requires { other.now ≡ one.now }
    ensures { Agree (λ c. c) (λ e. (e ≡ Memory) ⊎ (e ≡ TooLarge)) result.0 result.1 }
{
    (
        compile_for(alloc, one, quantum),
        compile_for(alloc, other, quantum),
    )
}

/// For a quantum of 1 it is that of `compile`.
pub fn compile_by_one(
    alloc: Global,
    checked: &Checked,
) -> (Result<Code, CodeFault>, Result<Code, CodeFault>)
    ensures { Agree (λ c. c) (λ e. (e ≡ Memory) ⊎ (e ≡ TooLarge)) result.0 result.1 }
{
    (compile(alloc, checked), compile_for(alloc, checked, 1))
}

/// Each body has the quantum.
pub fn compile_keeps_quantum(
    alloc: Global,
    checked: &Checked,
    quantum: u32,
) -> Result<Code, CodeFault>
    ensures { IfOk result (λ c. All (λ b. b.quantum ≡ quantum) c.bodies) }
{
    compile_for(alloc, checked, quantum)
}

/// A program of which 32 times the nodes are no more than the most instructions has a code.
pub fn compile_small(alloc: Global, checked: &Checked, quantum: u32) -> Result<Code, CodeFault>
    requires quantum { IsQuantum quantum }
    requires small { 32 * (size_of (meaning checked.now)).nodes ≤ most_instructions }
    ensures { IfErr result (λ e. e ≡ Memory) }
{
    compile_for(alloc, checked, quantum)
}

/// So it has one by `compile`.
pub fn compile_small_by_one(alloc: Global, checked: &Checked) -> Result<Code, CodeFault>
    requires { 32 * (size_of (meaning checked.now)).nodes ≤ most_instructions }
    ensures { IfErr result (λ e. e ≡ Memory) }
{
    compile(alloc, checked)
}

/// A quantum of 0 is refused.
pub fn compile_for_none(alloc: Global, checked: &Checked) -> Result<Code, CodeFault>
    ensures { IsErrOf result BadQuantum }
{
    compile_for(alloc, checked, 0)
}

/// So is one past the greatest.
pub fn compile_for_too_many(alloc: Global, checked: &Checked) -> Result<Code, CodeFault>
    ensures { IsErrOf result BadQuantum }
{
    compile_for(alloc, checked, 65537)
}
