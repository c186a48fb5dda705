//! What the publisher shows, and the rule of it. The rule has two kinds of step: the publisher's exchange, and a watcher's entering.
ghost use Rattle.occ_board.specs.Traces.{applied_to};

use crate::front::{Front, Naming};
use crate::shown::Shown;
use crossbeam_utils::rule::{Outcome, Protocol};
use left_right::Absorb;
use left_right::reader::Reader;
use left_right::writer::Writer;
use std::alloc::{AllocError, Global};
use std::marker::PhantomData;

/// A list, and the edition of it.
#[derive(Drop)]
pub struct Trace {
    pub entries: Vec<Shown>,
    pub front: Front,
    pub alloc: Global,
}

/// What the publisher does to a trace.
#[derive(Drop)]
pub enum Change {
    Show(Shown),
    Reach(Front),
}

impl Absorb<Change> for Trace {
    // A clause reads the array as a list of any length.
    type State = ([Shown; 0], Front);

    ghost state = { λ t. (t.entries.items, t.front) };

    ghost applied = { applied_to };

    fn absorb_first(&mut self, operation: &Change, _other: &Trace) -> Result<(), AllocError> {
        match operation {
            Change::Show(shown) => {
                let copy = shown.copy(self.alloc)?;
                self.entries.push(copy).map_err(|_| AllocError)
            }
            Change::Reach(front) => {
                self.front = front.again();
                Ok(())
            }
        }
    }
}

/// What is shown is as its edition says, which is of the board's history, and may be shown, and it begins with all that each
/// watcher saw.
pub struct Ordered<J> {
    of: PhantomData<J>,
}

impl<J: Naming> Protocol<Trace, [Shown; 0]> for Ordered<J> {
    ghost use Rattle.std.specs.Prelude.{[]};
    ghost use Rattle.occ_board.specs.Rules.{KeepsViews};

    ghost holds = { λ x. KeepsViews J.book J.may x.entries.items x.front };

    ghost first = { [] };
}

/// A step after which the view is the list that is shown, which may be shown. It began with the view before.
pub struct Sees<J> {
    of: PhantomData<J>,
}

impl<J: Naming> Outcome<Trace, [Shown; 0]> for Sees<J> {
    ghost use Rattle.occ_board.specs.Rules.{EntersView};

    ghost then = { λ v x y w. EntersView J.book J.may v x.entries.items y.entries.items y.front w };
}

pub type TraceWriter<J> = Writer<Trace, Change, [Shown; 0], Ordered<J>>;

pub type TraceReader<J> = Reader<Trace, [Shown; 0], Ordered<J>>;
