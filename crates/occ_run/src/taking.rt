//! How much of a run's trace was taken from under the lock: a history of editions, of which only the length is stored.
ghost use Rattle.std.specs.Prelude.{◌≡◌, IfSome};
ghost use Rattle.occ_run.specs.Telling.{IsNext, taken};

use crate::desk::OneRun;
use logbook::Plain;
use occ_board::{Edition, Front, Head};
use occ_net_tables::Trace;
use std::marker::PhantomData;

/// The edition that is all of a trace.
struct Whole<U: OneRun> {
    of: PhantomData<U>,
}

impl<U: OneRun> Plain<Trace, Edition, u64> for Whole<U> {
    ghost use Rattle.std.specs.Prelude.{false, None};
    ghost use Rattle.occ_board.specs.Editions.{edition};
    ghost use Rattle.occ_shown.specs.Answers.{entries_in};

    ghost ask = { λ xs. edition (entries_in U.program.channels xs) false };

    ghost state = { λ xs. None };
}

/// The edition that is all of a trace, behind what was taken last; none where another took too.
pub(crate) fn all_of<U: OneRun>(head: &Head, told: &Front, trace: &Trace) -> Option<Front>
    requires { IsNext U.program head.now told.now trace.now }
    ensures { IfSome result (λ f. f ≡ taken told.now.book U.program trace.now) }
{
    told.add::<Trace, Whole<U>>(head, trace)
}
