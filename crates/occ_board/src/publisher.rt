//! The publisher, which alone makes the list longer.
ghost use Rattle.std.specs.Prelude.{◌≡◌, ◌≢◌, ◌⊎◌, ◌<◌, ◌≤◌, true, false, [], length, drop, All, Err, IfOk, IfSome, IsTrue, IsFalse, MatchResult, Some, vec_capacity};
ghost use mathlib.Core.List.{IsPrefix};
ghost use Rattle.left_right.specs.Sides.{view};
ghost use Rattle.occ_board.specs.declared.publisher.BoardFault.TheVariants.{BadWatchers};
ghost use Rattle.occ_board.specs.Editions.{blank, edition, reached};
ghost use Rattle.occ_board.specs.FaultTexts.{fault_text};
ghost use Rattle.occ_board.specs.Traces.{all_published, held_by, publishing, watching, PutsEntry};
ghost use Rattle.occ_board.specs.Writers.{held_in, pending_in, published_in, HasReached, ShowsAll};

use crate::front::{Front, Head, Naming, open_history};
use crate::shown::{Edition, Shown};
use crate::trace::{Change, Sees, Trace, TraceWriter};
use crate::watcher::{Note, Watcher};
use left_right::writer::Writer;
use logbook::Plain;
use std::alloc::{AllocError, Global};
use std::error::Error;
use std::fmt;
use std::marker::{Model, PhantomData};
use std::sync::Wait;

/// Why there is no board, or nothing was published.
#[derive(Clone, Copy, Debug, PartialEq, Eq)]
pub enum BoardFault {
    /// The number of watchers is not from 1 to 8.
    BadWatchers,
    /// A growth was refused.
    Refused,
}

impl fmt::Display for BoardFault {
    ghost output = { λ fault. Some (fault_text fault) };

    fn fmt<W: fmt::Write>(&self, f: &mut fmt::Formatter<W>) -> fmt::Result {
        match self {
            BoardFault::BadWatchers => write!(f, "refused 82 BadWatchers"),
            BoardFault::Refused => write!(f, "refused 87 Refused"),
        }
    }
}

impl Error for BoardFault {}

/// A board that has no name yet. Contracts see which history it has.
#[derive(Drop)]
pub struct Opened {
    head: Head,
    front: Front,
}

impl Model for Opened {
    ghost use Rattle.std.specs.Prelude.{◌≡◌};
    ghost use Rattle.logbook.specs.Pages.{Book};
    ghost use Rattle.occ_board.specs.Editions.{blank, reached};

    ghost Value = { Book };

    ghost view = { λ o. o.head };

    ghost invariant = { λ o. o.front ≡ reached o.head blank };
}

impl Opened {
    /// A board of its own. It takes no memory.
    pub fn new() -> Opened {
        let (head, front) = open_history();
        Opened { head, front }
    }
}

/// The list that is published, with its publisher and its watchers.
pub struct Board;

/// The one that makes the list longer. Contracts see what is published, what is pending, and whether the last list was
/// published; then nothing is pending. It is used up by `end` alone.
pub struct Publisher<J: Naming> {
    writer: TraceWriter<J>,
    head: Head,
    front: Front,
}

impl<J: Naming> Model for Publisher<J> {
    ghost use Rattle.std.specs.Prelude.{◌≡◌, [], true};
    ghost use Rattle.occ_board.specs.Traces.{Publishing, publishing};
    ghost use Rattle.occ_board.specs.Writers.{pending_in, published_in, HasReached};

    ghost Value = { Publishing };

    ghost view = { λ p. publishing (published_in p.writer) (pending_in p.writer) p.front.edition.last };

    ghost invariant = { λ p. (p.head ≡ J.book) × HasReached J.book p.writer p.front × (p.front.edition.last ≡ true → pending_in p.writer ≡ []) };
}

/// The edition that a publisher makes of all that it has, which is not the last.
struct Further;

impl<J: Naming> Plain<TraceWriter<J>, Edition, u64> for Further {
    ghost use Rattle.std.specs.Prelude.{false, None};
    ghost use Rattle.occ_board.specs.Editions.{edition};
    ghost use Rattle.occ_board.specs.Writers.{held_in};

    ghost ask = { λ w. edition (held_in w) false };

    ghost state = { λ w. None };
}

/// The last edition that a publisher makes of all that it has.
struct Last;

impl<J: Naming> Plain<TraceWriter<J>, Edition, u64> for Last {
    ghost use Rattle.std.specs.Prelude.{true, None};
    ghost use Rattle.occ_board.specs.Editions.{edition};
    ghost use Rattle.occ_board.specs.Writers.{held_in};

    ghost ask = { λ w. edition (held_in w) true };

    ghost state = { λ w. None };
}

impl Board {
    /// A board that has published nothing, which it may show, and so many watchers.
    ///
    /// # Errors
    ///
    /// `BadWatchers` where they are not 1 to 8, and else `Refused`.
    pub fn new<J: Naming>(
        opened: Opened,
        alloc: Global,
        watchers: u32,
    ) -> Result<(Publisher<J>, Vec<Watcher<J>>), BoardFault>
        requires book { opened ≡ J.book }
        requires may { J.may [] }
        ensures bad { (watchers ≡ 0) ⊎ (8 < watchers) → result ≡ Err BadWatchers }
        ensures good { 0 < watchers → watchers ≤ 8 → result ≢ Err BadWatchers }
        ensures publisher { IfOk result (λ r. r.0 ≡ publishing [] [] false) }
        ensures watchers { IfOk result (λ r. (length r.1.items ≡ watchers)
            × All (λ w. w ≡ watching [] blank) r.1.items) }
    {
        if watchers == 0 || watchers > 8 {
            return Err(BoardFault::BadWatchers);
        }
        let Opened { head, front } = opened;
        let count = watchers as usize;
        let mut seats = match Vec::with_capacity(alloc, count) {
            Ok(seats) => seats,
            Err(_) => return Err(BoardFault::Refused),
        };
        // Nothing may fail once the writer is made, since only a call that waits can end it.
        match empty_writer(alloc, &front, count) {
            Ok(writer) => {
                seat(&writer, &front, count, &mut seats);
                let publisher = Publisher {
                    writer,
                    head,
                    front,
                };
                Ok((publisher, seats))
            }
            Err(_) => Err(BoardFault::Refused),
        }
    }
}

// A writer that shows the empty list.
fn empty_writer<J: Naming>(
    alloc: Global,
    front: &Front,
    readers: usize,
) -> Result<TraceWriter<J>, AllocError>
    requires blank { (front.now ≡ reached J.book blank) × (0 < readers) × (readers ≤ 8) }
    requires may { J.may [] }
    ensures empty { IfOk result (λ w. published_in w ≡ []) }
    ensures blank { IfOk result (λ w. w.desk.shown.value.front ≡ reached J.book blank) }
    ensures none_behind { IfOk result (λ w. drop w.behind w.log.items ≡ []) }
{
    let first = Trace {
        entries: Vec::new(alloc),
        front: front.again(),
        alloc,
    };
    let second = Trace {
        entries: Vec::new(alloc),
        front: front.again(),
        alloc,
    };
    Writer::new(alloc, first, second, readers)
}

// Watchers that have seen nothing. One for whom the writer finds no place sees nothing.
fn seat<J: Naming>(
    writer: &TraceWriter<J>,
    front: &Front,
    watchers: usize,
    seats: &mut Vec<Watcher<J>>,
)
    requires blank { front.now ≡ reached J.book blank }
    requires room { (seats.old.items ≡ []) × (watchers ≤ vec_capacity seats.old) }
    ensures { (length seats.new.items ≡ watchers)
        × All (λ w. w ≡ watching [] blank) seats.new.items }
{
    for _ in 0..watchers {
        seats.push_reserved(Watcher {
            reader: writer.factory().reader().ok(),
            known: front.again(),
        });
    }
}

// The edition of all that the writer has, in the history.
fn recorded<J: Naming>(
    writer: &TraceWriter<J>,
    head: &Head,
    front: &Front,
    last: bool,
) -> Option<Front>
    requires front { (head.now ≡ J.book) × (front.now.book ≡ J.book)
        × (front.now.edition.last ≡ false) }
    requires ahead { IsPrefix front.now.edition.entries (held_in writer.now) }
    ensures { IfSome result (λ f. f ≡ reached J.book (edition (held_in writer.now) last)) }
{
    if last {
        return front.add::<TraceWriter<J>, Last>(head, writer);
    }
    front.add::<TraceWriter<J>, Further>(head, writer)
}

// Shows all that is pending, as the edition `next`, and says whether it did.
fn show<J: Naming, R: Wait>(rt: &R, writer: TraceWriter<J>, next: Front) -> (TraceWriter<J>, bool)
    requires { (next.book ≡ J.book) × (next.edition.entries ≡ held_in writer) × J.may (held_in writer) }
    ensures shown { IsTrue result.1 → ShowsAll result.0 next }
    ensures kept { IsFalse result.1 → result.0.desk.shown.value ≡ writer.desk.shown.value }
    ensures pending { IsFalse result.1 → pending_in result.0 ≡ pending_in writer }
{
    let mut writer = writer;
    let Ok(()) = writer.append(Change::Reach(next)) else {
        return (writer, false);
    };
    let (writer, published) = writer.publish_as::<Sees<J>, R>(rt);
    let Ok(()) = published else {
        return (writer, false);
    };
    (writer, true)
}

// Shows all that is pending, as an edition of the history, and says whether it did.
#[tactic(auto, using(crate::proofs::Orders::ahead_shown, crate::proofs::Orders::ahead_kept))]
fn exchange<J: Naming, R: Wait>(
    rt: &R,
    writer: TraceWriter<J>,
    head: &Head,
    front: Front,
    last: bool,
) -> (TraceWriter<J>, Front, bool)
    requires going { (head.now ≡ J.book) × (front.edition.last ≡ false) }
    requires ahead { HasReached J.book writer front }
    requires may { J.may (held_in writer) }
    ensures shown { IsTrue result.2
        → (published_in result.0 ≡ held_in writer) × (pending_in result.0 ≡ []) }
    ensures last { IsTrue result.2 → result.1.edition.last ≡ last }
    ensures kept { IsFalse result.2 → published_in result.0 ≡ published_in writer }
    ensures pending { IsFalse result.2 → pending_in result.0 ≡ pending_in writer }
    ensures going { IsFalse result.2 → result.1.edition.last ≡ false }
    ensures closed { result.1.edition.last ≡ true → pending_in result.0 ≡ [] }
    ensures ahead { HasReached J.book result.0 result.1 }
{
    let Some(next) = recorded(&writer, head, &front, last) else {
        return (writer, front, false);
    };
    let (writer, done) = show(rt, writer, next.again());
    if done {
        return (writer, next, true);
    }
    if last {
        // The history has its last edition, so nothing is published from now on.
        return (writer, front, false);
    }
    (writer, next, false)
}

impl<J: Naming> Publisher<J> {
    /// Puts an entry behind what is pending. The entry comes back where a growth was refused.
    pub fn append(&mut self, shown: Shown) -> Result<(), (Shown, AllocError)>
        requires { self.old.closed ≡ false }
        ensures { PutsEntry self.old self.new shown result }
    {
        let Err(refused) = self.writer.append(Change::Show(shown)) else {
            return Ok(());
        };
        let Change::Show(shown) = refused else {
            unreachable!();
        };
        Err((shown, AllocError))
    }

    /// Publishes all that is pending, which the board may show behind what is published. It waits for watchers that still look at the list from before the last call.
    ///
    /// # Errors
    ///
    /// `Refused`; what is published and what is pending stay as they were.
    pub fn publish<R: Wait>(self, rt: &R) -> (Publisher<J>, Result<(), BoardFault>)
        requires going { self.closed ≡ false }
        requires may { J.may (held_by self) }
        ensures { MatchResult result.1 (λ _. result.0 ≡ all_published self false)
            (λ _. result.0 ≡ self) }
    {
        self.put_out(rt, false)
    }

    /// Publishes all that is pending, for the last time; it may be nothing. The board may show it behind what is published.
    ///
    /// # Errors
    ///
    /// `Refused`, as of `publish`. From then on each call of this and of `publish` answers it.
    pub fn close<R: Wait>(self, rt: &R) -> (Publisher<J>, Result<(), BoardFault>)
        requires going { self.closed ≡ false }
        requires may { J.may (held_by self) }
        ensures { MatchResult result.1 (λ _. result.0 ≡ all_published self true)
            (λ _. result.0 ≡ self) }
    {
        self.put_out(rt, true)
    }

    fn put_out<R: Wait>(self, rt: &R, last: bool) -> (Publisher<J>, Result<(), BoardFault>)
        requires going { self.closed ≡ false }
        requires may { J.may (held_by self) }
        ensures { MatchResult result.1 (λ _. result.0 ≡ all_published self last)
            (λ _. result.0 ≡ self) }
    {
        let Publisher {
            writer,
            head,
            front,
        } = self;
        let (writer, front, done) = exchange(rt, writer, &head, front, last);
        let publisher = Publisher {
            writer,
            head,
            front,
        };
        if !done {
            return (publisher, Err(BoardFault::Refused));
        }
        (publisher, Ok(()))
    }

    /// What is published.
    pub fn published(&self) -> &[Shown]
        ensures { result.now ≡ self.now.published }
    {
        self.writer.published().entries.as_slice()
    }

    /// A note of what is published. It takes no memory.
    pub fn note(self) -> (Publisher<J>, Note<J>)
        ensures { (result.0 ≡ self) × (result.1 ≡ edition self.published self.closed) }
    {
        let note = Note {
            front: self.writer.published().front.again(),
            of: PhantomData,
        };
        (self, note)
    }

    /// Whether this note of the last list is known to be of what is published. Where it answers `false` nothing is known.
    pub fn is_closed_by(&self, note: &Note<J>) -> bool
        requires { note.now.last ≡ true }
        ensures { IsTrue result → self.now ≡ publishing note.now.entries [] true }
    {
        if note.front.goes_past(&self.front) {
            return false;
        }
        let _ = note.front.goes_past(&self.writer.published().front);
        true
    }

    /// Lets the publisher go. It waits for the watchers that are looking; from then on a look is refused.
    pub fn end<R: Wait>(self, rt: &R) {
        let Publisher {
            writer,
            head: _head,
            front: _front,
        } = self;
        drop(writer.take(rt));
    }
}
