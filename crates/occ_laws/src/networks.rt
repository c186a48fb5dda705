//! Programs of several processes, and one with a keyboard. Each function's contract is the row; its body does nothing.

ghost use Rattle.occ_laws.specs.NetworkExamples.{BothCountedPlays, CountedPlays, EchoPlays, Joins, LaterOffer, MergePlays, PipelinePlays, ReadersPlays, TaggedPlays, ThreeRun};

/// The end of a PAR.
pub fn joins()
    ensures { Joins }
{}

/// Two outputs and an ALT: with priority the first arm, without it either.
pub fn three_run()
    ensures { ThreeRun }
{}

/// A waiting ALT that an offer reaches.
pub fn later_offer()
    ensures { LaterOffer }
{}

/// A pipeline of three copies.
pub fn pipeline()
    ensures { PipelinePlays }
{}

/// Copies and their merge, in a loop.
pub fn merge()
    ensures { MergePlays }
{}

/// A tag that is listed, and one that is not.
pub fn tagged()
    ensures { TaggedPlays }
{}

/// A counted array of no component.
pub fn counted()
    ensures { CountedPlays }
{}

/// The keyboard echoed, until it has nothing more.
pub fn echo()
    ensures { EchoPlays }
{}

/// Two branches that read one variable.
pub fn readers()
    ensures { ReadersPlays }
{}

/// Two branches, each with a component of its own.
pub fn both_counted()
    ensures { BothCountedPlays }
{}
