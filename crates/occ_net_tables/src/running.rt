//! A run of a plan.
ghost use Rattle.std.specs.Prelude.{◌≡◌, ◌+◌, ◌<◌, ◌≤◌, IfOk, IsTrue, OnOk, length};
ghost use Rattle.occ_net_tables.specs.Endings.{EndsAs, GoesOn};
ghost use Rattle.occ_net_tables.specs.Outcomes.{IsOutcome, IsRan};
ghost use Rattle.occ_net_tables.specs.Places.{IsKeptBy, placed_among};
ghost use Rattle.occ_net_tables.specs.Rows.{CanRunRow, KeepsRow};
ghost use Rattle.occ_net_tables.specs.Turning.{HasRunSoFar};
ghost use Rattle.occ_choices.specs.Plans.{choices_of};

use crate::Trace;
use crate::ready::place_among;
use crate::tables::Tables;
use occ_choices::Plan;
use occ_machine::Code;
use occ_net_replay::Choice;
use occ_proc::Scratch;
use occ_term::Ending;
use std::alloc::{AllocError, Global};

/// How many turns in a row the only process that is ready takes at most.
const MOST_IN_ROW: usize = 256;

/// What is kept of a choice that was used.
#[derive(Clone, Copy, PartialEq, Eq)]
pub enum Keep {
    /// The choice as it was given.
    Given,
    /// The place among the ready processes that it selected, with its pick.
    Places,
}

/// What a run came to, with its tables.
#[derive(Drop)]
pub struct Ran {
    /// How it ended.
    pub ending: Ending,
    /// What was kept of the choices that were used.
    pub kept: Vec<Choice>,
    /// The tables after the last turn.
    pub tables: Tables,
}

/// What a run came to.
#[derive(Drop)]
pub struct Outcome {
    /// How it ended.
    pub ending: Ending,
    /// The choices that were used: a beginning of the plan's.
    pub choices: Vec<Choice>,
    /// The communications that there were, in order.
    pub trace: Trace,
}

/// The choice of the same process by its place among these ready processes.
#[inline(always)]
fn placed_choice(ready: &[u32], choice: Choice) -> Choice
    requires { 0 < length ready.now }
    ensures { result ≡ placed_among ready.now choice }
{
    Choice {
        which: place_among(choice.which, ready.len()) as u32,
        pick: choice.pick,
    }
}

/// What is kept of a choice, which selects this place.
#[inline(always)]
fn kept_choice(choice: Choice, placed: Choice, keep: Keep) -> Choice
    ensures { IsKeptBy keep choice placed result }
{
    match keep {
        Keep::Given => choice,
        Keep::Places => placed,
    }
}

/// How the run has ended, if it has. Where it is known to go on, nothing is looked at.
#[inline(always)]
fn ending_now(tables: &Tables, code: &Code, going: bool) -> Option<Ending>
    requires { IsTrue going → GoesOn code.now tables.now }
    ensures { EndsAs code.now tables.now result }
{
    if going {
        return None;
    }
    tables.ending(code.errors())
}

/// The only process that is ready takes turns in a row, each by the next choice of the plan, if there is one. It is TRUE only where the run
/// hasn't ended by them.
#[inline(never)]
fn run_row(
    alloc: Global,
    code: &Code,
    scratch: &mut Scratch,
    keyboard: &[u8],
    plan: &Plan,
    keep: Keep,
    tables: &mut Tables,
    kept: &mut Vec<Choice>,
) -> Result<bool, AllocError>
    requires run { CanRunRow code.now keyboard.now keep (choices_of plan.now) kept.old.items
        tables.old }
    ensures run { OnOk result
        (HasRunSoFar code.now keyboard.now keep (choices_of plan.now) kept.new tables.new) }
    ensures more { OnOk result (length kept.old.items ≤ length kept.new.items) }
    ensures going { IfOk result (λ going. IsTrue going → GoesOn code.now tables.new) }
{
    let from = kept.len();
    let all = plan.len();
    if from >= all {
        return Ok(true);
    }
    let most = (all - from).min(MOST_IN_ROW) as u32;
    let (count, going) = tables.take_turns(alloc, code, scratch, keyboard, plan, from, most)?;
    keep_row(plan, count, keep, kept)?;
    Ok(going)
}

/// Keeps so many choices of the plan behind those that are kept, which selected the only process that was ready.
fn keep_row(plan: &Plan, count: u32, keep: Keep, kept: &mut Vec<Choice>) -> Result<(), AllocError>
    requires within { length kept.old.items + count ≤ length (choices_of plan.now) }
    ensures { OnOk result
        (KeepsRow keep (choices_of plan.now) count kept.old.items kept.new.items) }
{
    for _more in 0..count {
        let Some(given) = plan.at(kept.len()) else {
            unreachable!()
        };
        let placed = Choice {
            which: 0,
            pick: given.pick,
        };
        kept.push(kept_choice(given, placed, keep))?;
    }
    Ok(())
}

/// Takes a turn for each choice of the plan, until the network ends.
///
/// # Errors
///
/// A refused growth.
pub fn run_tables(
    alloc: Global,
    code: &Code,
    keyboard: &[u8],
    plan: &Plan,
    keep: Keep,
) -> Result<Ran, AllocError>
    ensures { IfOk result (IsRan code.now keyboard.now (choices_of plan.now) keep) }
{
    let mut scratch = Scratch::new(alloc);
    let mut tables = Tables::new(alloc, code)?;
    let mut kept = Vec::new(alloc);
    let mut going = false;
    loop {
        if let Some(ending) = ending_now(&tables, code, going) {
            return Ok(Ran {
                ending,
                kept,
                tables,
            });
        }
        let Some(choice) = plan.at(kept.len()) else {
            let ending = Ending::Limit;
            return Ok(Ran {
                ending,
                kept,
                tables,
            });
        };
        let placed = placed_choice(tables.ready(), choice);
        going = tables.take_turn(alloc, code, &mut scratch, keyboard, placed)?;
        kept.push(kept_choice(choice, placed, keep))?;
        // Each choice selects the only process that is ready.
        if going && tables.ready().len() == 1 {
            going = run_row(
                alloc,
                code,
                &mut scratch,
                keyboard,
                plan,
                keep,
                &mut tables,
                &mut kept,
            )?;
        }
    }
}

/// What a run of the plan comes to.
///
/// # Errors
///
/// A refused growth.
pub fn run(alloc: Global, code: &Code, keyboard: &[u8], plan: &Plan) -> Result<Outcome, AllocError>
    ensures { IfOk result (IsOutcome code.now keyboard.now (choices_of plan.now)) }
{
    let Ran {
        ending,
        kept,
        tables,
    } = run_tables(alloc, code, keyboard, plan, Keep::Given)?;
    let trace = tables.into_trace();
    Ok(Outcome {
        ending,
        choices: kept,
        trace,
    })
}
