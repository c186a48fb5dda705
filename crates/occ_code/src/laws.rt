//! Laws of the code of processes. Each function's contract is the law; its body does nothing.

ghost use Rattle.occ_code.specs.Layout.{BodiesDo};
ghost use Rattle.occ_code.specs.CodeOf.{OneCode};
ghost use Rattle.occ_code.specs.Emitted.{BodiesAreSmall, CompiledDo, ProgramsAreSmall};
ghost use Rattle.occ_code.specs.Examples.{CountsAsCompiled, FirstOfTwoAsCompiled, TwiceAsCompiled, TwiceTwoAsCompiled};
ghost use Rattle.occ_code.specs.Laws.{CountersAreApart, ExpressionsRun, IndexesAreKept, ItemsRun, PlacesDo, TargetsRun};

/// The code of a typed expression brings its value to the top of the stack, or comes to its fault.
pub fn expressions_run()
    ensures { ExpressionsRun }
{}

/// The code of typed items makes the parts of a message, or comes to their first fault.
pub fn items_run()
    ensures { ItemsRun }
{}

/// The code of typed targets makes their spots, or comes to their first fault.
pub fn targets_run()
    ensures { TargetsRun }
{}

/// Code with places for cells comes to the same stops as with their numbers.
pub fn places_do()
    ensures { PlacesDo }
{}

/// A body in which the code of a term stands does what the term does.
pub fn bodies_do()
    ensures { BodiesDo }
{}

/// The body of a term does what the term does.
pub fn compiled_do()
    ensures { CompiledDo }
{}

/// A body has at most 32 instructions for each node of its term.
pub fn bodies_are_small()
    ensures { BodiesAreSmall }
{}

/// All bodies of a program have at most 32 instructions for each node of its term.
pub fn programs_are_small()
    ensures { ProgramsAreSmall }
{}

/// Counters of replicated SEQs stay apart.
pub fn counters_are_apart()
    ensures { CountersAreApart }
{}

/// A loop that counts is done by its body: the premises of the law can be met.
pub fn counts_as_compiled()
    ensures { CountsAsCompiled }
{}

/// A counter keeps the value of an index.
pub fn indexes_are_kept()
    ensures { IndexesAreKept }
{}

/// So is a replicated SEQ.
pub fn twice_as_compiled()
    ensures { TwiceAsCompiled }
{}

/// So is one with a PAR in it.
pub fn twice_two_as_compiled()
    ensures { TwiceTwoAsCompiled }
{}

/// So is an ALT with a declaration for each value of an index.
pub fn first_of_two_as_compiled()
    ensures { FirstOfTwoAsCompiled }
{}

/// What means the same on the same channels has one code for each quantum and mode of errors.
pub fn one_code()
    ensures { OneCode }
{}
