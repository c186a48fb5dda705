//! A turn that looks past the bytes that were read waits for more.
ghost use Rattle.std.specs.Prelude.{◌≡◌, ◌<◌, ◌≤◌, ◌-◌, ◌^◌, IfErr, IfOk, OnErr, OnOk};
ghost use Rattle.occ_files.specs.Reading.{breaks_of, failures_of as reads_failed};
ghost use Rattle.occ_live.specs.Living.{CanHear, EndsOn, HearsBytes, HearsNothing, Marked, ReadsOn, ScreenFails, ScreenGoesOn, TellsFailed};
ghost use Rattle.occ_net_tables.specs.Holding.{trace_in};
ghost use Rattle.occ_shown.specs.Counting.{failures_of};

use crate::fault::LiveFault;
use crate::reading::read_more;
use crate::screen::Screen;
use occ_files::CountedReader;
use occ_machine::Code;
use occ_net_tables::{Begun, Tables};
use occ_shown::Counted;
use std::io::{Read, Write};

/// Where this turn looks past the bytes that were read, what the screen has is written, and more is read. It is TRUE where the
/// keyboard may have more.
pub(crate) fn hear<K: Read, W: Write>(
    code: &Code,
    keys: &mut CountedReader<K>,
    keyboard: &mut Vec<u8>,
    is_open: bool,
    tables: &mut Tables,
    begun: Begun,
    pick: u32,
    screen: &mut Screen,
    out: &mut Counted<W>,
) -> Result<bool, LiveFault>
    requires room { failures_of out.old < 2 ^ 64 - 1 }
    requires keys { reads_failed keys.old < 2 ^ 64 - 1 }
    requires marked { Marked screen.old tables.old }
    requires begun { CanHear code.now keyboard.old.items is_open pick begun tables.old }
    ensures heard { IfOk result (HearsBytes code.now keyboard.old is_open tables.old begun pick
        keyboard.new tables.new) }
    ensures trace { trace_in tables.new ≡ trace_in tables.old }
    ensures shown { OnOk result
        (ScreenGoesOn W.contents out.old screen.old tables.old out.new screen.new tables.old) }
    ensures read { ReadsOn K.remaining keys.old keyboard.old.items keys.new keyboard.new.items }
    ensures none_failed { OnOk result (failures_of out.new ≡ failures_of out.old) }
    ensures unbroken { OnOk result (breaks_of keys.new ≡ breaks_of keys.old) }
    ensures room_left { OnOk result (reads_failed keys.new < 2 ^ 64 - 1) }
    ensures end { IfOk result (EndsOn K.remaining keys.old keys.new is_open) }
    ensures kept { OnErr result (keyboard.new.items ≡ keyboard.old.items) }
    ensures due { IfErr result
        (HearsNothing code.now keyboard.old.items is_open tables.old begun pick) }
    ensures part { IfErr result
        (ScreenFails W.contents out.old screen.old tables.old out.new) }
    ensures told { IfErr result (TellsFailed keys.old keys.new out.old out.new) }
    ensures grown { OnOk result (reads_failed keys.old ≤ reads_failed keys.new) }
{
    if !is_open || !tables.asks(keyboard, begun, pick) {
        return Ok(is_open);
    }
    code.compiled();
    match screen.show(tables.trace_so_far(), out) {
        Ok(()) => {}
        Err(fault) => return Err(fault),
    }
    let known = keyboard.len();
    match read_more(keys, keyboard) {
        Ok(some) => {
            tables.reach(known);
            Ok(some)
        }
        Err(unread) => Err(unread),
    }
}
