//! What a network came to, and runs of plans.
ghost use Rattle.std.specs.Prelude.{◌≡◌, ◌⊎◌, IfErr, IfOk, take};
ghost use Rattle.occ_term.specs.Runs.{bytes_of, messages_on};
ghost use Rattle.occ_choices.specs.Plans.{choices_of, turns_from};
ghost use Rattle.occ_net.specs.Networks.{InState};
ghost use Rattle.occ_net.specs.Outcomes.{IsOutcome, Shows};

use crate::fault::NetFault;
use crate::network::{Network, no_marks};
use occ_choices::Plan;
use occ_machine::Code;
use occ_net_replay::Choice;
use occ_net_tables::{Keep, Ran, run_tables};
use occ_shown::channel_bytes;
use occ_term::{ERROR, Ending, SCREEN};
use std::alloc::{AllocError, Global};

/// What a network came to.
#[derive(Drop)]
pub struct Outcome {
    /// How it ended; `Limit` where it could go on.
    pub ending: Ending,
    /// The choices that were used.
    pub choices: Vec<Choice>,
    /// The bytes that were written to the screen.
    pub screen: Vec<u8>,
    /// The bytes that were written to the error channel.
    pub error: Vec<u8>,
    /// The network, with its trace and its histories.
    pub network: Network,
}

/// The first choices of a plan.
fn first_choices(alloc: Global, plan: &Plan, count: usize) -> Result<Vec<Choice>, AllocError>
    ensures { IfOk result (λ choices. choices.items ≡ take count (choices_of plan.now)) }
{
    let mut choices = Vec::with_capacity(alloc, count)?;
    for number in 0..count {
        let Some(choice) = plan.at(number) else {
            return Ok(choices);
        };
        choices.push(choice)?;
    }
    Ok(choices)
}

impl Network {
    /// The bytes that were input from the screen's or the error channel.
    fn bytes_on(&self, alloc: Global, chan: u32) -> Result<Vec<u8>, AllocError>
        requires { (chan ≡ SCREEN) ⊎ (chan ≡ ERROR) }
        ensures { IfOk result (λ bytes. InState self.now (λ net.
            bytes.items ≡ bytes_of (messages_on chan net.trace))) }
    {
        self.code.compiled();
        let bytes = channel_bytes(alloc, self.tables.trace(), chan)?;
        Ok(bytes)
    }

    /// The outcome, with these choices.
    fn came_to(self, alloc: Global, choices: Vec<Choice>) -> Result<Outcome, (Network, NetFault)>
        ensures network { IfOk result (λ o. o.network ≡ self) }
        ensures choices { IfOk result (λ o. o.choices ≡ choices) }
        ensures shows { IfOk result (λ o. InState self (λ net. Shows net o)) }
        ensures refused { IfErr result (λ e. (e.0 ≡ self) × (e.1 ≡ NetFault.Memory)) }
    {
        let Ok(screen) = self.bytes_on(alloc, SCREEN) else {
            return Err((self, NetFault::Memory));
        };
        let Ok(error) = self.bytes_on(alloc, ERROR) else {
            return Err((self, NetFault::Memory));
        };
        let ending = self.ending().unwrap_or(Ending::Limit);
        self.obeyed();
        Ok(Outcome {
            ending,
            choices,
            screen,
            error,
            network: self,
        })
    }

    /// What it came to.
    ///
    /// # Errors
    ///
    /// `Memory` alone, with the network as it was.
    pub fn into_outcome(self, alloc: Global) -> Result<Outcome, (Network, NetFault)>
        ensures network { IfOk result (λ o. o.network ≡ self) }
        ensures choices { IfOk result (λ o. o.choices.items ≡ self.choices) }
        ensures shows { IfOk result (λ o. InState self (λ net. Shows net o)) }
        ensures refused { IfErr result (λ e. (e.0 ≡ self) × (e.1 ≡ NetFault.Memory)) }
    {
        let Ok(choices) = Vec::from_slice(alloc, self.choices()) else {
            return Err((self, NetFault::Memory));
        };
        self.came_to(alloc, choices)
    }
}

/// Takes a turn for each of these choices, until the network ends. By an empty list no turn is taken, and the ending is `Limit`.
///
/// # Errors
///
/// `Memory` alone.
pub fn run_choices(
    alloc: Global,
    code: Code,
    keyboard: &[u8],
    choices: &[Choice],
) -> Result<Outcome, NetFault>
    ensures ok { IfOk result (IsOutcome code keyboard.now choices.now) }
    ensures refused { IfErr result (λ fault. fault ≡ NetFault.Memory) }
{
    let keyboard = Vec::from_slice(alloc, keyboard)?;
    let plan = Plan::Choices(Vec::from_slice(alloc, choices)?);
    run(alloc, code, keyboard, &plan)
}

/// Takes so many turns, of which the one with number k, from 0, has `which` k and `pick` 0, until the network ends. For a limit
/// of 0 no turn is taken, and the ending is `Limit`.
///
/// # Errors
///
/// `Memory` alone.
pub fn run_turns(
    alloc: Global,
    code: Code,
    keyboard: &[u8],
    limit: u32,
) -> Result<Outcome, NetFault>
    ensures ok { IfOk result (IsOutcome code keyboard.now (turns_from 0 limit)) }
    ensures refused { IfErr result (λ fault. fault ≡ NetFault.Memory) }
{
    let keyboard = Vec::from_slice(alloc, keyboard)?;
    run(alloc, code, keyboard, &Plan::Turns(limit))
}

/// Takes a turn for each choice of the plan, until the network ends. The outcome has the choices as they
/// are in the plan, and its network has the places that they selected.
///
/// # Errors
///
/// `Memory` alone.
pub fn run(alloc: Global, code: Code, keyboard: Vec<u8>, plan: &Plan) -> Result<Outcome, NetFault>
    ensures ok { IfOk result (IsOutcome code keyboard.items (choices_of plan.now)) }
    ensures refused { IfErr result (λ fault. fault ≡ NetFault.Memory) }
{
    code.compiled();
    let Ran { kept, tables, .. } = run_tables(alloc, &code, &keyboard, plan, Keep::Places)?;
    let choices = first_choices(alloc, plan, kept.len())?;
    let out = no_marks(alloc, code.len())?;
    let network = Network {
        code,
        keyboard,
        tables,
        choices: kept,
        out,
    };
    match network.came_to(alloc, choices) {
        Ok(outcome) => Ok(outcome),
        Err((_, fault)) => Err(fault),
    }
}
