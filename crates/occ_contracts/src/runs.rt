//! Runs of one thread: a plan has one outcome.
ghost use Rattle.std.specs.Prelude.{◌≡◌};
ghost use Rattle.occ_choices.specs.Plans.{choices_of};
ghost use Rattle.occ_net.specs.declared.fault.NetFault.TheVariants.{Memory};
ghost use Rattle.occ_contracts.specs.Agreement.{Agree};
ghost use Rattle.occ_contracts.specs.Networks.{told};

use occ_choices::Plan;
use occ_machine::Code;
use occ_net::{NetFault, Outcome, run, run_choices, run_turns};
use occ_net_replay::Choice;
use std::alloc::Global;

/// A list of choices has one outcome.
pub fn choices_twice(
    alloc: Global,
    code: Code,
    same_code: Code,
    keyboard: &[u8],
    choices: &[Choice],
) -> (Result<Outcome, NetFault>, Result<Outcome, NetFault>)
    requires { same_code ≡ code }
    ensures { Agree told (λ e. e ≡ Memory) result.0 result.1 }
{
    code.compiled();
    let _few = choices.len();
    (
        run_choices(alloc, code, keyboard, choices),
        run_choices(alloc, same_code, keyboard, choices),
    )
}

/// The plan of the choices has that outcome.
pub fn choices_as_planned(
    alloc: Global,
    code: Code,
    same_code: Code,
    keyboard: &[u8],
    same_keyboard: Vec<u8>,
    choices: &[Choice],
    plan: &Plan,
) -> (Result<Outcome, NetFault>, Result<Outcome, NetFault>)
    requires code { same_code ≡ code }
    requires keyboard { same_keyboard.items ≡ keyboard.now }
    requires plan { choices_of plan.now ≡ choices.now }
    ensures { Agree told (λ e. e ≡ Memory) result.0 result.1 }
{
    code.compiled();
    let _few = choices.len();
    (
        run_choices(alloc, code, keyboard, choices),
        run(alloc, same_code, same_keyboard, plan),
    )
}

/// So many turns have the outcome of the plan of so many.
pub fn turns_as_planned(
    alloc: Global,
    code: Code,
    same_code: Code,
    keyboard: &[u8],
    same_keyboard: Vec<u8>,
    limit: u32,
) -> (Result<Outcome, NetFault>, Result<Outcome, NetFault>)
    requires code { same_code ≡ code }
    requires keyboard { same_keyboard.items ≡ keyboard.now }
    ensures { Agree told (λ e. e ≡ Memory) result.0 result.1 }
{
    code.compiled();
    (
        run_turns(alloc, code, keyboard, limit),
        run(alloc, same_code, same_keyboard, &Plan::Turns(limit)),
    )
}
