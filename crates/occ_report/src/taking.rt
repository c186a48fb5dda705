//! What a turn comes to, before anything has happened that it makes possible.
ghost use Rattle.std.specs.Prelude.{◌≡◌, IfOk};
ghost use Rattle.occ_net_tables.specs.Settling.{Standing};
ghost use Rattle.occ_report.specs.Steps.{TakesNext};

use crate::heads::selected;
use occ_machine::{Code, Task};
use occ_net_tables::Tables;
use occ_proc::{Scratch, advance};
use std::alloc::{AllocError, Global};

/// The process that takes the next turn by this choice, and the task with which that turn leaves it. The tables stay as they are.
pub(crate) fn next_turn(
    alloc: Global,
    code: &Code,
    scratch: &mut Scratch,
    keyboard: &[u8],
    tables: &Tables,
    which: u32,
) -> Result<(u32, Task), AllocError>
    requires { Standing code.now keyboard.now tables.now }
    ensures { IfOk result (TakesNext code.now keyboard.now tables.now which) }
{
    code.compiled();
    let Some(number) = selected(tables.ready(), which) else {
        unreachable!()
    };
    let Some(body) = code.body(number as usize) else {
        unreachable!()
    };
    let Some(task) = tables.task(number) else {
        unreachable!()
    };
    let mut after = task.copy(alloc)?;
    advance(alloc, body, scratch, &mut after)?;
    Ok((number, after))
}
