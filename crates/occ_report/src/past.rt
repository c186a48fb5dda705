//! Choices that count past the processes that are ready.
ghost use Rattle.std.specs.Prelude.{IfOk};
ghost use Rattle.occ_report.specs.Past.{IsFirstPast};

use occ_machine::Code;
use occ_net_replay::Choice;
use occ_net_tables::Tables;
use occ_proc::Scratch;
use std::alloc::{AllocError, Global};

/// The turn, from 1, of the first of these choices whose number is past the processes that are ready, and so is counted modulo them;
/// none where each choice that the run uses names one of them.
///
/// # Errors
///
/// A refused growth.
pub fn first_past(
    alloc: Global,
    code: &Code,
    keyboard: &[u8],
    choices: &[Choice],
) -> Result<Option<u64>, AllocError>
    ensures { IfOk result (IsFirstPast code.now keyboard.now choices.now) }
{
    let mut scratch = Scratch::new(alloc);
    let mut tables = Tables::new(alloc, code)?;
    let mut turns = 0;
    let mut rest = choices;
    loop {
        if tables.ending(code.errors()).is_some() {
            return Ok(None);
        }
        let Some((choice, others)) = rest.split_first() else {
            return Ok(None);
        };
        turns += 1;
        if choice.which as usize >= tables.ready().len() {
            return Ok(Some(turns));
        }
        tables.take_turn(alloc, code, &mut scratch, keyboard, *choice)?;
        rest = others;
    }
}
