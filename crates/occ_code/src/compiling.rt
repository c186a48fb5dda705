//! Compiling programs.
ghost use Rattle.std.specs.Prelude.{◌≡◌, ◌≤◌, ◌-◌, ◌^◌, IfOk, IfErr, map, min};
ghost use Rattle.std.specs.Arc.{arc_value};
ghost use Rattle.occ_term.specs.declared.fault.Errors.{Errors};
ghost use Rattle.occ_term.specs.View.{term_of};
ghost use Rattle.occ_machine.specs.Compiled.{most_instructions};
ghost use Rattle.occ_machine.specs.Compiled as compiled;
ghost use Rattle.occ_code.specs.CodeOf.{CodeRefuses, HasBodiesOf, IsCodeOf, IsQuantum};
ghost use Rattle.occ_code.specs.Pieces.{RefusedIfWithin};

use crate::processes::bodies_of;
use occ_machine::{Body, Code, copy_channels};
use occ_term::{Errors, Term};
use occ_usage::Checked;
use std::alloc::{AllocError, AllocFailed, Global};
use std::sync::Arc;
use thiserror::Error;

/// How many instructions a program's bodies may have in all.
pub const MOST_INSTRUCTIONS: usize = 262_144;

/// The greatest quantum.
pub const MOST_QUANTUM: u32 = 65_536;

/// Why a program has no code.
#[derive(Debug, Drop, Error)]
pub enum CodeFault {
    /// It has more than `MOST_INSTRUCTIONS` instructions, as only a program can of which 32 times the nodes are more.
    #[error("refused 60 TooLarge")]
    TooLarge,
    /// The quantum is not from 1 to `MOST_QUANTUM`.
    #[error("refused 62 BadQuantum")]
    BadQuantum,
    /// A growth was refused.
    #[error("memory")]
    Memory,
}

impl From<AllocError> for CodeFault {
    ghost use Rattle.occ_code.specs.declared.compiling.CodeFault.{CodeFault};

    ghost from_gives = { λ e made. made ≡ CodeFault.Memory };

    fn from(_: AllocError) -> CodeFault {
        CodeFault::Memory
    }
}

impl<T: Drop> From<AllocFailed<T>> for CodeFault {
    ghost use Rattle.occ_code.specs.declared.compiling.CodeFault.{CodeFault};

    ghost from_gives = { λ e made. made ≡ CodeFault.Memory };

    fn from(_: AllocFailed<T>) -> CodeFault {
        CodeFault::Memory
    }
}

/// Compiles a program, for turns that take one stop of a loop. A fault ends the whole run.
///
/// # Errors
///
/// As of `compile_for`, but for `BadQuantum`.
pub fn compile(alloc: Global, checked: &Checked) -> Result<Code, CodeFault>
    ensures compiled { IfOk result (λ c. IsCodeOf checked.now 1 c) }
    ensures halts { IfOk result (λ c. c.errors ≡ Errors.Halt) }
    ensures refused { IfErr result (λ fault. CodeRefuses fault 1 checked.now) }
{
    compile_for(alloc, checked, 1)
}

/// Compiles a program, for turns that take so many stops of loops at most. A fault ends the whole run.
///
/// # Errors
///
/// `BadQuantum` for a quantum that isn't from 1 to `MOST_QUANTUM`, before all else; then `TooLarge` past the
/// limit of instructions, and `Memory` for a refused growth.
pub fn compile_for(alloc: Global, checked: &Checked, quantum: u32) -> Result<Code, CodeFault>
    ensures compiled { IfOk result (λ c. IsCodeOf checked.now quantum c) }
    ensures quantum { IfOk result (λ _. IsQuantum quantum) }
    ensures halts { IfOk result (λ c. c.errors ≡ Errors.Halt) }
    ensures refused { IfErr result (λ fault. CodeRefuses fault quantum checked.now) }
{
    if quantum == 0 || quantum > MOST_QUANTUM {
        return Err(CodeFault::BadQuantum);
    }
    let unfolded = checked.unfolded();
    checked.lawful();
    unfolded.well_formed();
    let bodies = match program_bodies(alloc, unfolded.term(), quantum) {
        Ok(bodies) => bodies,
        Err(fault) => return Err(fault),
    };
    let channels = copy_channels(alloc, unfolded.channels())?;
    Ok(Code::new(bodies, channels, Errors::Halt))
}

/// The bodies of a program's processes, in the order of their numbers, within the limit.
fn program_bodies(
    alloc: Global,
    term: &Term,
    quantum: u32,
) -> Result<Vec<Arc<Body, Global>>, CodeFault>
    ensures bodies { IfOk result (HasBodiesOf (term_of term.now) quantum) }
    ensures small { IfOk result
        (λ bodies. compiled.instructions_in (map arc_value bodies.items) ≤ most_instructions) }
    ensures refused { IfErr result (RefusedIfWithin (term_of term.now)) }
{
    let bodies = bodies_of(alloc, quantum, term)?;
    if instructions_in(&bodies) > MOST_INSTRUCTIONS {
        return Err(CodeFault::TooLarge);
    }
    Ok(bodies)
}

/// How many instructions there are, or the most that a machine's word can count.
fn instructions_in(bodies: &[Arc<Body, Global>]) -> usize
    ensures { result ≡ min (compiled.instructions_in (map arc_value bodies.now)) (2 ^ 64 - 1) }
{
    let mut all: usize = 0;
    let mut count = bodies.len();
    while count > 0 {
        count -= 1;
        let own = bodies[count].code().len();
        all = own.saturating_add(all);
    }
    all
}
