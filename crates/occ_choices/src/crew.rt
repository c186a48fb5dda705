//! How many workers may take the turns of a run.
ghost use Rattle.std.specs.Prelude.{◌↔◌, IsTrue};
ghost use Rattle.occ_choices.specs.Crews.{IsCrew};

/// The most workers of a run.
pub const MOST_WORKERS: u32 = 64;

/// Whether so many workers may take the turns of a run: from 1 to `MOST_WORKERS`.
pub fn is_crew(workers: u32) -> bool
    ensures { IsTrue result ↔ IsCrew workers }
{
    workers > 0 && workers <= MOST_WORKERS
}
