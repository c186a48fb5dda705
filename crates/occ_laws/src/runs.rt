//! Runs and their endings. Each function's contract is the law; its body does nothing.

ghost use Rattle.occ_term.specs.OneResult.{OneEnding};
ghost use Rattle.occ_term.specs.StepRuns.{TurnsAreSteps};

/// Each run by turns is one by single steps, with the same communications.
pub fn turns_are_steps()
    ensures { TurnsAreSteps }
{}

/// A run has at most one ending.
pub fn one_ending()
    ensures { OneEnding }
{}
