//! Runs of plans.
use crate::compared::{check_bytes, check_text};
use crate::sources::{LETTER, code};
use occ_choices::Plan;
use occ_net::{Network, Outcome, run, run_choices, run_turns};
use occ_net_replay::Choice;
use occ_term::Ending;
use std::alloc::Global;
use std::process::Abort;

/// Twice the first process.
const ZEROS: [Choice; 2] = [Choice { which: 0, pick: 0 }; 2];

/// What a run of the plan comes to.
fn outcome(rt: &impl Abort, alloc: Global, plan: &Plan) -> Outcome {
    let code = code(alloc, LETTER).expect(rt, "refused");
    run(alloc, code, Vec::new(alloc), plan).expect(rt, "memory")
}

/// What an outcome shows, and what its network has.
fn check_outcome(rt: &impl Abort, alloc: Global, outcome: &Outcome, used: &[Choice]) {
    let ending = outcome.ending.to_string(alloc).expect(rt, "memory");
    check_text(rt, "the ending", ending.as_str(), "ended");
    check_bytes(rt, "the screen", outcome.screen.as_slice(), b"A");
    assert!(rt; outcome.error.is_empty());
    assert!(rt; outcome.choices.as_slice() == used);
    assert!(rt; outcome.network.choices() == ZEROS.as_slice());
}

/// How many messages a channel's history has.
fn messages(network: &Network, chan: u32) -> Option<usize> {
    match network.history(chan) {
        Some(history) => Some(history.len()),
        None => None,
    }
}

fn check(rt: &impl Abort, alloc: Global, plan: &Plan, used: &[Choice]) {
    let outcome = outcome(rt, alloc, plan);
    check_outcome(rt, alloc, &outcome, used);
    assert!(rt; matches!(messages(&outcome.network, 1), Some(1)));
    assert!(rt; messages(&outcome.network, 3).is_none());
}

/// What a run by this list comes to, or by so many turns where there is none.
fn outcome_of(rt: &impl Abort, alloc: Global, list: Option<&[Choice]>, turns: u32) -> Outcome {
    let code = code(alloc, LETTER).expect(rt, "refused");
    let run = match list {
        Some(list) => run_choices(alloc, code, b"", list),
        None => run_turns(alloc, code, b"", turns),
    };
    run.expect(rt, "memory")
}

/// Such a run has taken no turn.
fn check_none(rt: &impl Abort, none: &Outcome) {
    assert!(rt; matches!(none.ending, Ending::Limit));
    assert!(rt; none.choices.is_empty());
    assert!(rt; none.screen.is_empty());
}

/// Such a run has come to its end.
fn check_both(rt: &impl Abort, two: &Outcome) {
    assert!(rt; matches!(two.ending, Ending::Ended));
    check_bytes(rt, "the screen", two.screen.as_slice(), b"A");
}

#[test]
fn a_letter_is_run_by_lists(rt: HostRuntime) {
    let none = outcome_of(&rt, rt.alloc(), Some(&[]), 0);
    check_none(&rt, &none);
    let two = outcome_of(&rt, rt.alloc(), Some(&ZEROS), 0);
    check_both(&rt, &two);
}

#[test]
fn a_letter_is_run_by_so_many_turns(rt: HostRuntime) {
    let none = outcome_of(&rt, rt.alloc(), None, 0);
    check_none(&rt, &none);
    let two = outcome_of(&rt, rt.alloc(), None, 2);
    check_both(&rt, &two);
}

#[test]
fn a_letter_is_run(rt: HostRuntime) {
    let alloc = rt.alloc();
    let turns = [Choice { which: 0, pick: 0 }, Choice { which: 1, pick: 0 }];
    check(&rt, alloc, &Plan::Turns(2), &turns);
    let choices = Vec::from_slice(alloc, ZEROS.as_slice()).expect(&rt, "memory");
    check(&rt, alloc, &Plan::Choices(choices), &ZEROS);
}
