//! What a term uses, which terms keep the usage rules, and what rests on a use. Each function's contract is the law; its body does nothing.

ghost use Rattle.occ_term.specs.ReadUses.{ItemsRestOnReads, ValuesRestOnReads};
ghost use Rattle.occ_term.specs.StepReads.{StepsRestOnReads};
ghost use Rattle.occ_term.specs.StepUses.{StepsKeepToTheirUse};
ghost use Rattle.occ_laws.specs.UsageExamples.{Accepts, ReadsClash, Unlawful, UseRows};

/// The cells that a term uses, and its size.
pub fn usage()
    ensures { UseRows }
{}

/// Terms that keep the usage rules.
pub fn accepts()
    ensures { Accepts }
{}

/// What breaks the usage rules.
pub fn unlawful()
    ensures { Unlawful }
{}

/// Each place where a term reads a variable clashes with an assignment to it in another branch.
pub fn reads_clash()
    ensures { ReadsClash }
{}

/// An expression's value rests on the cells that it reads.
pub fn values_rest_on_reads()
    ensures { ValuesRestOnReads }
{}

/// What an item is, rests on the cells that it reads.
pub fn items_rest_on_reads()
    ensures { ItemsRestOnReads }
{}

/// In two stores that agree on the cells that it reads, what is left has the same step, and changes both alike.
pub fn steps_rest_on_reads()
    ensures { StepsRestOnReads }
{}

/// A private step changes only cells that it writes, and what is left then uses no more.
pub fn steps_keep_to_their_use()
    ensures { StepsKeepToTheirUse }
{}
