//! Laws of what is promised. Each function's contract is the law; its body does nothing.

ghost use Rattle.occ_live.specs.Living.{DueReadsMatter, LiveRunsAreReplays};

/// A live run is the replay of a beginning of the list, for the bytes that it read.
pub fn live_runs_are_replays()
    ensures { LiveRunsAreReplays }
{}

/// Where a read is due, what comes next depends on whether there is another byte.
pub fn due_reads_matter()
    ensures { DueReadsMatter }
{}
