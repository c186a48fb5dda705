//! Laws of the definitions, which no code uses.

ghost use Rattle.occ_check_meaning.specs.Meant.{Answered, Implies};
ghost use Rattle.occ_check_meaning.specs.ProgramUnfolding.{ProgramAnswered, ProgramImplies, ProgramUnfolding};
ghost use Rattle.occ_check_meaning.specs.Unfolding.{Unfolding};

/// What the recursion answers is an unfolding.
pub fn sound()
    ensures { Implies Answered Unfolding }
{}

/// Each unfolding is what the recursion answers, so there is one at most.
pub fn complete()
    ensures { Implies Unfolding Answered }
{}

/// The same of whole programs.
pub fn program_sound()
    ensures { ProgramImplies ProgramAnswered ProgramUnfolding }
{}

/// The same of whole programs.
pub fn program_complete()
    ensures { ProgramImplies ProgramUnfolding ProgramAnswered }
{}
