//! The simplest programs, each with the turns that it takes. Each function's contract is the row; its body does nothing.

ghost use Rattle.occ_laws.specs.TurnExamples.{EmptySequence, LetterEnds, LetterGoesOn, LongTurns, MeetsAtOnce, NoTurn, StopStops, ThreeTurns, TwoLetters, WritesA};

/// A letter to the screen: after one turn it is shown, and the run goes on.
pub fn letter_goes_on()
    ensures { LetterGoesOn }
{}

/// A letter to the screen: after two turns the run has ended.
pub fn letter_ends()
    ensures { LetterEnds }
{}

/// A program that writes a letter.
pub fn writes_a()
    ensures { WritesA }
{}

/// STOP: one turn, and nothing can step any more.
pub fn stop_stops()
    ensures { StopStops }
{}

/// A sequence of two letters ends with its third turn.
pub fn two_letters()
    ensures { TwoLetters }
{}

/// A sequence of nothing ends with its first turn.
pub fn empty_sequence()
    ensures { EmptySequence }
{}

/// What can be communicated after a turn is communicated with it.
pub fn meets_at_once()
    ensures { MeetsAtOnce }
{}

/// Before its first turn each program goes on, and shows nothing.
pub fn no_turn()
    ensures { NoTurn }
{}

/// A replicated SEQ of two values takes three turns.
pub fn three_turns()
    ensures { ThreeTurns }
{}

/// A turn that passes the stops of a loop.
pub fn long_turns()
    ensures { LongTurns }
{}
