//! A turn of a run, and its line.
ghost use Rattle.occ_net_tables.specs.Settling.{Standing};
ghost use Rattle.occ_report.specs.Steps.{AddsStep};

use crate::Places;
use crate::heads::write_head;
use crate::stops::write_tail;
use crate::taking::next_turn;
use occ_machine::Code;
use occ_net_replay::Choice;
use occ_net_tables::{News, Tables};
use occ_proc::Scratch;
use std::alloc::{AllocError, Global};

/// Takes the turn of a choice, and writes its line.
pub(crate) fn step(
    alloc: Global,
    code: &Code,
    places: &Places,
    scratch: &mut Scratch,
    keyboard: &[u8],
    tables: &mut Tables,
    news: &mut News,
    turn: u64,
    choice: Choice,
    out: &mut Vec<u8>,
) -> Result<(), AllocError>
    requires { Standing code.now keyboard.now tables.old }
    ensures { AddsStep result places.now code.now keyboard.now turn choice out.old tables.old
        out.new tables.new }
{
    let (taken, after) = next_turn(alloc, code, scratch, keyboard, tables, choice.which)?;
    write_head(alloc, out, turn, tables.ready(), taken, choice.pick)?;
    let mark = tables.trace().mark();
    tables.take_turn(alloc, code, scratch, keyboard, choice)?;
    let trace = tables.trace();
    trace.copy_behind(&mark, news)?;
    let made = trace.len() as u64;
    write_tail(
        alloc,
        out,
        code.channels(),
        places,
        taken,
        &after,
        made,
        news,
    )?;
    Ok(())
}
