//! Programs of one process, how it goes on and how it ends. Each function's contract is the row; its body does nothing.

ghost use Rattle.occ_laws.specs.ProcessExamples.{ForEverPlays, Halts, LineThenStopPlays, NoChoicePlays, NoOptionPlays, NoTimePlays, OwnVariablePlays, ThirdChoicePlays};

/// An ALT without an enabled arm behaves like STOP.
pub fn halts()
    ensures { Halts }
{}

/// IF without a true choice behaves like STOP.
pub fn no_choice()
    ensures { NoChoicePlays }
{}

/// CASE without the selector's value behaves like STOP.
pub fn no_option()
    ensures { NoOptionPlays }
{}

/// A line feed, and then STOP.
pub fn line_then_stop()
    ensures { LineThenStopPlays }
{}

/// A loop that never ends goes on after ten turns.
pub fn for_ever()
    ensures { ForEverPlays }
{}

/// A replicated SEQ of no values.
pub fn no_time()
    ensures { NoTimePlays }
{}

/// The first true choice of a replicated IF.
pub fn third_choice()
    ensures { ThirdChoicePlays }
{}

/// What a called body declares is no variable of its caller.
pub fn own_variable()
    ensures { OwnVariablePlays }
{}
