//! Laws of what is promised. Each function's contract is the law; its body does nothing.

ghost use Rattle.occ_play.specs.Again.{PlayedAgain, PlayedAlone};
ghost use Rattle.occ_play.specs.Playing.{AnswersAreOfRuns};

/// A run that is played again, by the same choices or by those that it used, has the same answer.
pub fn played_again()
    ensures { PlayedAgain }
{}

/// What workers play is what one thread plays by the choices that they used.
pub fn played_alone()
    ensures { PlayedAlone }
{}

/// The run that shows an answer has its ending, and where it ends it has noted no fault. On each channel the messages output and those
/// input are, in order, those that it shows, each of the channel's protocol.
pub fn answers_are_of_runs()
    ensures { AnswersAreOfRuns }
{}
