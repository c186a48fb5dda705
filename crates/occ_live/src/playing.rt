//! Plays a program while its keyboard is read and its screen is written.
ghost use Rattle.std.specs.Prelude.{◌≡◌, ◌<◌, ◌-◌, ◌^◌, IfErr, IfOk, OnOk, []};
ghost use Rattle.occ_files.specs.Reading.{ReadsNext, breaks_of, failures_of as reads_failed};
ghost use Rattle.occ_live.specs.Living.{EndsRightly, TellsWrite};
ghost use Rattle.occ_live.specs.Playing.{FailsPlay, FailsToWriteRest, HasByteScreens, PlaysLive, TellsPlayFault, WritesRest};
ghost use Rattle.occ_shown.specs.Counting.{failures_of};

use crate::fault::{LiveFault, LivePlayFault};
use crate::living::{Lived, run_live};
use occ_choices::Plan;
use occ_files::CountedReader;
use occ_machine::Code;
use occ_net_tables::Outcome;
use occ_play::{Options, Played, code_of};
use occ_shown::{Counted, answer, channel_bytes, write_answer};
use occ_term::SCREEN;
use std::alloc::Global;
use std::io::{Read, Write};

/// What a live run of a source came to.
#[derive(Drop)]
pub struct LivePlayed {
    /// What a run comes to that had the bytes from the start.
    pub played: Played,
    /// Whether the keyboard may have more bytes: whatever they are, the answer is the same.
    pub is_open: bool,
}

/// What was played by a run that came to this.
fn played_of(lived: Lived) -> LivePlayed
    ensures ending { result.played.ending ≡ lived.outcome.ending }
    ensures choices { result.played.choices ≡ lived.outcome.choices }
    ensures open { result.is_open ≡ lived.is_open }
{
    let Lived { outcome, is_open } = lived;
    let Outcome {
        ending,
        choices,
        trace: _,
    } = outcome;
    LivePlayed {
        played: Played { ending, choices },
        is_open,
    }
}

/// Writes what the answer of a run has behind the screen's bytes.
fn write_rest<W: Write>(
    alloc: Global,
    code: &Code,
    outcome: &Outcome,
    trace: bool,
    out: &mut Counted<W>,
) -> Result<(), LiveFault>
    requires room { failures_of out.old < 2 ^ 64 - 1 }
    requires bytes { HasByteScreens outcome.now }
    ensures rest { OnOk result
        (WritesRest W.contents code.now outcome.now trace out.old out.new) }
    ensures none_failed { OnOk result (failures_of out.new ≡ failures_of out.old) }
    ensures part { IfErr result
        (FailsToWriteRest W.contents code.now outcome.now trace out.old out.new) }
    ensures told { IfErr result (TellsWrite out.old out.new) }
{
    let channels = code.channels();
    let whole = answer(alloc, &outcome.trace, channels, outcome.ending, trace)?;
    let screen = channel_bytes(alloc, &outcome.trace, SCREEN)?;
    match write_answer(&whole[screen.len()..], out) {
        Ok(()) => Ok(()),
        Err(_written) => Err(LiveFault::Write),
    }
}

/// Plays a program as `occ_play::play_in` does, but on a keyboard that is read while the run goes on: where what comes next depends on
/// whether there is another byte. What the screen has is written before each read, and what the answer has behind the screen's bytes is
/// written at the end. The bytes that were read stand in `bytes`.
///
/// # Errors
///
/// `Source` refuses the source: then nothing was read and nothing was written. `Run` tells of a failed read, of a failed write, or of
/// a refused growth, as of [`run_live`].
pub fn play_live<K: Read, W: Write>(
    options: &Options,
    alloc: Global,
    source: &[u8],
    keys: &mut CountedReader<K>,
    bytes: &mut Vec<u8>,
    plan: &Plan,
    trace: bool,
    out: &mut Counted<W>,
) -> Result<LivePlayed, LivePlayFault>
    requires empty { bytes.old.items ≡ [] }
    requires room { failures_of out.old < 2 ^ 64 - 1 }
    requires keys { reads_failed keys.old < 2 ^ 64 - 1 }
    ensures played { IfOk result (PlaysLive W.contents options.now source.now
        bytes.new plan.now trace out.old out.new) }
    ensures none_failed { OnOk result (failures_of out.new ≡ failures_of out.old) }
    ensures unbroken { OnOk result (breaks_of keys.new ≡ breaks_of keys.old) }
    ensures read { ReadsNext K.remaining keys.old keys.new bytes.new.items }
    ensures end { IfOk result (λ live. EndsRightly K.remaining keys.new live.is_open) }
    ensures fault { IfErr result (FailsPlay W.contents options.now source.now
        bytes.new plan.now trace out.old out.new) }
    ensures told { IfErr result
        (TellsPlayFault keys.old keys.new bytes.old bytes.new out.old out.new) }
{
    let code = match code_of(options, alloc, source) {
        Ok(code) => code,
        Err(fault) => return Err(LivePlayFault::Source(fault)),
    };
    let lived = match run_live(alloc, &code, keys, bytes, plan, out) {
        Ok(lived) => lived,
        Err(fault) => return Err(LivePlayFault::Run(fault)),
    };
    match write_rest(alloc, &code, &lived.outcome, trace, out) {
        Ok(()) => Ok(played_of(lived)),
        Err(fault) => Err(LivePlayFault::Run(fault)),
    }
}
