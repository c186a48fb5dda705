//! The run.
ghost use Rattle.std.specs.Prelude.{◌≡◌, ◌<◌, ◌≤◌, ◌-◌, ◌^◌, ◌++◌, ◌∷◌, [], IfErr, IfOk, OnOk};
ghost use Rattle.occ_choices.specs.Plans.{choices_of};
ghost use Rattle.occ_files.specs.Reading.{ReadsNext, breaks_of, failures_of as reads_failed};
ghost use Rattle.occ_live.specs.Living.{EndsOn, EndsRightly, FailsIn, FailsLive, HasCome, IsLive, Marked, MayTurn, ReadsOn, RunComesTo, ScreenGoesOn, ScreenShows, ScreenShowsPart, StandsBy, TellsFailed, TellsWrite};
ghost use Rattle.occ_shown.specs.Answers.{channel_bytes};
ghost use Rattle.occ_shown.specs.Counting.{AppendsTo, failures_of};

use crate::asking::hear;
use crate::fault::LiveFault;
use crate::screen::Screen;
use occ_choices::Plan;
use occ_files::CountedReader;
use occ_machine::Code;
use occ_net_replay::Choice;
use occ_net_tables::{Outcome, Tables};
use occ_proc::Scratch;
use occ_shown::Counted;
use occ_term::Ending;
use std::alloc::{AllocError, Global};
use std::io::{Read, Write};

/// After how many turns the screen is written at the latest.
const MOST_TURNS: usize = 256;

/// What a live run came to.
#[derive(Drop)]
pub struct Lived {
    /// What a run comes to that had the bytes from the start.
    pub outcome: Outcome,
    /// Whether the keyboard may have more bytes: whatever they are, it comes to the same.
    pub is_open: bool,
}

/// Keeps a choice behind the others.
fn keep(kept: &mut Vec<Choice>, choice: Choice) -> Result<(), AllocError>
    ensures { OnOk result (kept.new.items ≡ kept.old.items ++ choice ∷ []) }
{
    kept.push(choice)?;
    Ok(())
}

/// One turn, by this choice of the plan, for which more is read where it looks past the bytes. It is TRUE where the keyboard may have more.
fn live_turn<K: Read, W: Write>(
    alloc: Global,
    code: &Code,
    scratch: &mut Scratch,
    keys: &mut CountedReader<K>,
    bytes: &mut Vec<u8>,
    is_open: bool,
    plan: &Plan,
    choice: Choice,
    kept: &mut Vec<Choice>,
    tables: &mut Tables,
    screen: &mut Screen,
    out: &mut Counted<W>,
) -> Result<bool, LiveFault>
    requires room { failures_of out.old < 2 ^ 64 - 1 }
    requires keys { reads_failed keys.old < 2 ^ 64 - 1 }
    requires marked { Marked screen.old tables.old }
    requires stands { MayTurn code.now plan.now bytes.old is_open kept.old choice tables.old }
    ensures stands { IfOk result
        (StandsBy code.now plan.now bytes.new kept.new tables.new) }
    ensures kept { OnOk result (kept.new.items ≡ kept.old.items ++ choice ∷ []) }
    ensures shown { OnOk result
        (ScreenGoesOn W.contents out.old screen.old tables.old out.new screen.new tables.new) }
    ensures read { ReadsOn K.remaining keys.old bytes.old.items keys.new bytes.new.items }
    ensures none_failed { OnOk result (failures_of out.new ≡ failures_of out.old) }
    ensures unbroken { OnOk result (breaks_of keys.new ≡ breaks_of keys.old) }
    ensures room_left { OnOk result (reads_failed keys.new < 2 ^ 64 - 1) }
    ensures end { IfOk result (EndsOn K.remaining keys.old keys.new is_open) }
    ensures part { IfErr result
        (FailsIn W.contents code.now plan.now bytes.new out.old screen.old tables.old out.new) }
    ensures told { IfErr result (TellsFailed keys.old keys.new out.old out.new) }
    ensures grown { OnOk result (reads_failed keys.old ≤ reads_failed keys.new) }
{
    let begun = match tables.begin_turn(alloc, code, scratch, choice) {
        Ok(begun) => begun,
        Err(_refused) => return Err(LiveFault::Memory),
    };
    let heard = hear(
        code,
        keys,
        bytes,
        is_open,
        tables,
        begun,
        choice.pick,
        screen,
        out,
    );
    let still_open = match heard {
        Ok(still_open) => still_open,
        Err(fault) => return Err(fault),
    };
    match tables.end_turn(alloc, code, scratch, bytes, begun, choice.pick) {
        Ok(_going) => {}
        Err(_unsettled) => return Err(LiveFault::Memory),
    }
    match keep(kept, choice) {
        Ok(()) => Ok(still_open),
        Err(_unkept) => Err(LiveFault::Memory),
    }
}

/// Writes what the screen has and that was not written yet.
fn show_all<W: Write>(
    code: &Code,
    keyboard: &[u8],
    kept: &[Choice],
    tables: &Tables,
    screen: &mut Screen,
    out: &mut Counted<W>,
) -> Result<(), LiveFault>
    requires room { failures_of out.old < 2 ^ 64 - 1 }
    requires marked { Marked screen.old tables.now }
    requires stands { HasCome code.now keyboard.now kept.now tables.now }
    ensures shown { OnOk result
        (ScreenShows W.contents out.old screen.old tables.now out.new screen.new) }
    ensures none_failed { OnOk result (failures_of out.new ≡ failures_of out.old) }
    ensures part { IfErr result
        (ScreenShowsPart W.contents out.old screen.old tables.now out.new) }
    ensures told { IfErr result (TellsWrite out.old out.new) }
{
    code.compiled();
    screen.show(tables.trace_so_far(), out)
}

/// Writes what the screen has, after each 256 turns.
fn show_at_times<W: Write>(
    code: &Code,
    keyboard: &[u8],
    kept: &[Choice],
    tables: &Tables,
    screen: &mut Screen,
    out: &mut Counted<W>,
) -> Result<(), LiveFault>
    requires room { failures_of out.old < 2 ^ 64 - 1 }
    requires marked { Marked screen.old tables.now }
    requires stands { HasCome code.now keyboard.now kept.now tables.now }
    ensures shown { OnOk result
        (ScreenGoesOn W.contents out.old screen.old tables.now out.new screen.new tables.now) }
    ensures none_failed { OnOk result (failures_of out.new ≡ failures_of out.old) }
    ensures part { IfErr result
        (ScreenShowsPart W.contents out.old screen.old tables.now out.new) }
    ensures told { IfErr result (TellsWrite out.old out.new) }
{
    if kept.len() % MOST_TURNS == 0 {
        show_all(code, keyboard, kept, tables, screen, out)
    } else {
        Ok(())
    }
}

/// What a run came to, all of whose screen is written.
fn come_to<W: Write>(
    code: &Code,
    keyboard: &[u8],
    tables: Tables,
    kept: Vec<Choice>,
    ending: Ending,
    is_open: bool,
    screen: &mut Screen,
    out: &mut Counted<W>,
) -> Result<Lived, LiveFault>
    requires room { failures_of out.old < 2 ^ 64 - 1 }
    requires marked { Marked screen.old tables }
    requires stands { HasCome code.now keyboard.now kept.items tables }
    ensures lived { IfOk result
        (RunComesTo W.contents out.old screen.old tables kept.items ending is_open out.new) }
    ensures none_failed { OnOk result (failures_of out.new ≡ failures_of out.old) }
    ensures part { IfErr result
        (ScreenShowsPart W.contents out.old screen.old tables out.new) }
    ensures told { IfErr result (TellsWrite out.old out.new) }
{
    show_all(code, keyboard, &kept, &tables, screen, out)?;
    Ok(Lived {
        outcome: Outcome {
            ending,
            choices: kept,
            trace: tables.into_trace(),
        },
        is_open,
    })
}

/// Takes a turn for each choice of the plan, until the network ends. The keyboard's bytes are read behind one another where a turn
/// depends on whether there is another one, and what the screen has is written before; at the latest it is written 256 turns
/// behind its output, and at the end.
///
/// # Errors
///
/// `Read` where a read failed, `Write` where a write did, and `Memory` of a refused growth.
pub fn run_live<K: Read, W: Write>(
    alloc: Global,
    code: &Code,
    keys: &mut CountedReader<K>,
    bytes: &mut Vec<u8>,
    plan: &Plan,
    out: &mut Counted<W>,
) -> Result<Lived, LiveFault>
    requires empty { bytes.old.items ≡ [] }
    requires room { failures_of out.old < 2 ^ 64 - 1 }
    requires keys { reads_failed keys.old < 2 ^ 64 - 1 }
    ensures lived { IfOk result (IsLive code.now bytes.new.items (choices_of plan.now)) }
    ensures shown { IfOk result (λ lived.
        AppendsTo W.contents out.old out.new (channel_bytes 1 lived.outcome.trace)) }
    ensures none_failed { OnOk result (failures_of out.new ≡ failures_of out.old) }
    ensures unbroken { OnOk result (breaks_of keys.new ≡ breaks_of keys.old) }
    ensures read { ReadsNext K.remaining keys.old keys.new bytes.new.items }
    ensures end { IfOk result (λ lived. EndsRightly K.remaining keys.new lived.is_open) }
    ensures fault { IfErr result (FailsLive W.contents code.now bytes.new.items
        (choices_of plan.now) out.old out.new) }
    ensures told { IfErr result (TellsFailed keys.old keys.new out.old out.new) }
{
    let mut scratch = Scratch::new(alloc);
    let mut tables = match Tables::new(alloc, code) {
        Ok(tables) => tables,
        Err(_refused) => return Err(LiveFault::Memory),
    };
    let mut kept = Vec::new(alloc);
    let mut screen = Screen::new(alloc);
    let mut is_open = true;
    loop {
        if let Some(ending) = tables.ending(code.errors()) {
            return come_to(code, bytes, tables, kept, ending, is_open, &mut screen, out);
        }
        let Some(choice) = plan.at(kept.len()) else {
            let ending = Ending::Limit;
            return come_to(code, bytes, tables, kept, ending, is_open, &mut screen, out);
        };
        let turned = live_turn(
            alloc,
            code,
            &mut scratch,
            keys,
            bytes,
            is_open,
            plan,
            choice,
            &mut kept,
            &mut tables,
            &mut screen,
            out,
        );
        match turned {
            Ok(still_open) => is_open = still_open,
            Err(fault) => return Err(fault),
        }
        match show_at_times(code, bytes, &kept, &tables, &mut screen, out) {
            Ok(()) => {}
            Err(unshown) => return Err(unshown),
        }
    }
}
