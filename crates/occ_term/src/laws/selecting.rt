//! What IF, CASE and ALT select, and what an arm that is taken sets again. Each function's contract is the law; its body does nothing.

ghost use Rattle.occ_term.specs.ArmExamples.{OpensAll, TakesFirst, TakesLast, TakesSecond};
ghost use Rattle.occ_term.specs.Priority.{PriorityTakesFirst};
ghost use Rattle.occ_term.specs.Selecting.{waits_for};
ghost use Rattle.occ_term.specs.SelectingExamples.{ArmRows, ChoiceRows, ChosenRows};
ghost use Rattle.occ_term.specs.TakenArms.{AllOpened, SameAgain};

/// The rule of ready arms.
pub fn ready_arms()
    ensures { ChosenRows }
{}

/// PRI ALT never passes over an earlier arm that is ready.
pub fn priority_takes_first()
    ensures { PriorityTakesFirst waits_for }
{}

/// The enabled arms of an ALT.
pub fn enabled_arms()
    ensures { ArmRows }
{}

/// IF, CASE and replicators.
pub fn choices()
    ensures { ChoiceRows }
{}

/// Every arm is evaluated, each with what stands round it.
pub fn opens_all()
    ensures { OpensAll }
{}

/// The first arm goes on with its own values.
pub fn takes_first()
    ensures { TakesFirst }
{}

/// So does the second.
pub fn takes_second()
    ensures { TakesSecond }
{}

/// An arm with nothing round it sets nothing.
pub fn takes_last()
    ensures { TakesLast }
{}

/// An arm that is taken sets again what stands round it, to the values that this had when it was found open.
pub fn same_again()
    ensures { SameAgain }
{}

/// Each arm that is enabled was found open in some store.
pub fn all_opened()
    ensures { AllOpened }
{}
