//! Private steps. Each function's contract is the law; its body does nothing.

ghost use Rattle.occ_term.specs.Going.{GoingHasStep, SequencePerforms};
ghost use Rattle.occ_term.specs.OneResult.{OneStep, OneTurn};
ghost use Rattle.occ_term.specs.TypedSteps.{StepsKeepTypes};

/// No row of the private steps is missing.
pub fn going_has_step()
    ensures { GoingHasStep }
{}

/// What a sequence does is what its parts do, whatever comes after it.
pub fn sequence_performs()
    ensures { SequencePerforms }
{}

/// A private step keeps the declared types: those of cells, and those of what is left of a process.
pub fn steps_keep_types()
    ensures { StepsKeepTypes }
{}

/// What is left of a process has at most one next step.
pub fn one_step()
    ensures { OneStep }
{}

/// A turn from one place leads to one place.
pub fn one_turn()
    ensures { OneTurn }
{}
