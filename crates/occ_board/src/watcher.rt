//! Watchers, and the notes that they are told.
ghost use Rattle.std.specs.Prelude.{◌≡◌, ◌⊎◌, true, IfOk, MatchResult};
ghost use Rattle.std.specs.Fn.{FnOnceReturnsAt};
ghost use mathlib.Core.List.{IsPrefix};
ghost use Rattle.occ_board.specs.Editions.{Extends};
ghost use Rattle.occ_board.specs.Traces.{Learns, SeesOn, Watching};

use crate::front::{Front, Naming};
use crate::shown::Shown;
use crate::trace::{Sees, TraceReader};
use std::marker::{Model, PhantomData};

/// It stands for a list that was published, and knows whether that was the board's last. Contracts see it as that edition. Any
/// number of watchers may be told it, from any thread.
#[derive(Drop)]
pub struct Note<J: Naming> {
    pub(crate) front: Front,
    pub(crate) of: PhantomData<J>,
}

impl<J: Naming> Model for Note<J> {
    ghost use Rattle.std.specs.Prelude.{◌≡◌};
    ghost use Rattle.occ_board.specs.declared.shown.Edition.{Edition};

    ghost Value = { Edition };

    ghost view = { λ n. n.front.edition };

    ghost invariant = { λ n. n.front.book ≡ J.book };
}

/// One who looks at the list. It waits for nobody and takes no memory. Contracts see the list that it saw last, and the newest
/// edition that it knows of.
#[derive(Drop)]
pub struct Watcher<J: Naming> {
    pub(crate) reader: Option<TraceReader<J>>,
    pub(crate) known: Front,
}

impl<J: Naming> Model for Watcher<J> {
    ghost use Rattle.std.specs.Prelude.{◌≡◌};
    ghost use mathlib.Core.List.{IsPrefix};
    ghost use Rattle.occ_board.specs.Traces.{Watching, watching, seen_by};

    ghost Value = { Watching };

    ghost view = { λ w. watching (seen_by (λ r. r.place.me.0.client) w.reader) w.known.edition };

    ghost invariant = { λ w. (w.known.book ≡ J.book) × IsPrefix (seen_by (λ r. r.place.me.0.client) w.reader) w.known.edition.entries };
}

impl<J: Naming> Watcher<J> {
    /// Lends the published list to `f`, and hands on what `f` answers. The list is one that the board may show, and begins with
    /// all that this watcher saw before, and with all that it was told of.
    ///
    /// # Errors
    ///
    /// The watcher alone: the publisher is gone, and `f` was not called.
    pub fn look<R, F: FnOnce(&[Shown]) -> R + Drop>(
        self,
        f: F,
    ) -> Result<(Watcher<J>, R), Watcher<J>>
        requires { F.IsAlwaysCallable f }
        ensures answer { MatchResult result (λ r. FnOnceReturnsAt F.FnOnce f r.0.seen r.1)
            (λ w. w.known ≡ self.known) }
        ensures seen { MatchResult result (λ r. SeesOn self r.0) (λ w. IsPrefix self.seen w.seen) }
        ensures known { MatchResult result (λ r. Learns self r.0)
            (λ w. IsPrefix w.seen w.known.entries) }
        ensures may { IfOk result (λ r. J.may r.0.seen) }
    {
        let Watcher { reader, known } = self;
        let Some(reader) = reader else {
            return Err(Watcher {
                reader: None,
                known,
            });
        };
        let reading = match reader.enter_as::<Sees<J>>() {
            Ok(reading) => reading,
            Err(reader) => {
                return Err(Watcher {
                    reader: Some(reader),
                    known,
                });
            }
        };
        let trace = reading.get();
        if known.goes_past(&trace.front) {
            return Err(Watcher {
                reader: Some(reading.leave()),
                known,
            });
        }
        let known = trace.front.again();
        let answer = f(trace.entries.as_slice());
        let watcher = Watcher {
            reader: Some(reading.leave()),
            known,
        };
        Ok((watcher, answer))
    }

    /// The watcher, who from now on sees no less than the note's list. Of that list and the list that it saw last one begins the
    /// other. Where the note is of the last list, all that it saw begins that list.
    pub fn told(self, note: &Note<J>) -> Watcher<J>
        ensures seen { result.seen ≡ self.seen }
        ensures known { Extends self.known result.known × Extends note.now result.known }
        ensures order { IsPrefix note.now.entries self.seen ⊎ IsPrefix self.seen note.now.entries }
        ensures last { note.now.last ≡ true → IsPrefix result.seen note.now.entries
            × (result.known ≡ note.now) }
    {
        let Watcher { reader, known } = self;
        if known.goes_past(&note.front) {
            return Watcher { reader, known };
        }
        Watcher {
            reader,
            known: note.front.again(),
        }
    }
}
