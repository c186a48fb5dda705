//! A board: what its publisher shows, and what its watchers see.
ghost use Rattle.std.specs.Prelude.{◌≡◌, ◌++◌, ◌∷◌, [], false, true, length, Err, IfErr, IfOk, OnOk};
ghost use mathlib.Core.List.{IsPrefix};
ghost use Rattle.occ_board.specs.Traces.{held_by};
ghost use Rattle.occ_board.specs.declared.publisher.BoardFault.TheVariants.{BadWatchers};
ghost use Rattle.occ_contracts.specs.Agreement.{BothGive};

use occ_board::{Board, BoardFault, Naming, Note, Opened, Publisher, Shown, Watcher};
use std::alloc::{AllocError, Global};
use std::sync::Wait;

/// All that was held is published, nothing is pending, and the board stays open. A refusal leaves the publisher as it was.
pub fn publish_all<J: Naming, R: Wait>(
    rt: &R,
    publisher: Publisher<J>,
) -> (Publisher<J>, Result<(), BoardFault>)
    requires open { publisher.closed ≡ false }
    requires may { J.may (held_by publisher) }
    ensures shown { OnOk result.1 (result.0.published ≡ held_by publisher) }
    ensures none { OnOk result.1 (result.0.pending ≡ []) }
    ensures open { result.0.closed ≡ false }
    ensures left { IfErr result.1 (λ _. result.0 ≡ publisher) }
{
    publisher.publish(rt)
}

/// The last list has all that was held too, and closes the board. A refusal leaves the publisher as it was.
pub fn close_all<J: Naming, R: Wait>(
    rt: &R,
    publisher: Publisher<J>,
) -> (Publisher<J>, Result<(), BoardFault>)
    requires open { publisher.closed ≡ false }
    requires may { J.may (held_by publisher) }
    ensures shown { OnOk result.1 (result.0.published ≡ held_by publisher) }
    ensures none { OnOk result.1 (result.0.pending ≡ []) }
    ensures closed { OnOk result.1 (result.0.closed ≡ true) }
    ensures left { IfErr result.1 (λ _. result.0 ≡ publisher) }
{
    publisher.close(rt)
}

/// What is appended and published stands behind all that was there. An entry that is refused comes back, and is not published.
pub fn append_and_publish<J: Naming, R: Wait>(
    rt: &R,
    publisher: Publisher<J>,
    shown: Shown,
) -> (
    Publisher<J>,
    Result<(), (Shown, AllocError)>,
    Result<(), BoardFault>,
)
    requires open { publisher.closed ≡ false }
    requires may { J.may (held_by publisher) }
    requires more { J.may (held_by publisher ++ shown ∷ []) }
    ensures behind { BothGive (λ _ _. result.0.published ≡ held_by publisher ++ shown ∷ [])
        result.1 result.2 }
    ensures back { IfErr result.1 (λ b. b.0 ≡ shown) }
    ensures without { IfErr result.1
        (λ _. OnOk result.2 (result.0.published ≡ held_by publisher)) }
{
    let mut publisher = publisher;
    let put = publisher.append(shown);
    let (publisher, done) = publisher.publish(rt);
    (publisher, put, done)
}

/// A note is of what is published, and tells whether that was the last list.
pub fn note_of_list<J: Naming>(publisher: Publisher<J>) -> (Publisher<J>, Note<J>)
    ensures list { result.1.entries ≡ result.0.published }
    ensures last { result.1.last ≡ publisher.closed }
    ensures same { result.0 ≡ publisher }
{
    publisher.note()
}

/// A look lends a list as long as the one that the watcher has seen from then on, and the board may show it.
pub fn look_and_count<J: Naming>(watcher: Watcher<J>) -> Result<(Watcher<J>, usize), Watcher<J>>
    ensures counts { IfOk result (λ r. r.1 ≡ length r.0.seen) }
    ensures may { IfOk result (λ r. J.may r.0.seen) }
    ensures knows { IfOk result (λ r. r.0.known.entries ≡ r.0.seen) }
    ensures sees_on { IfOk result (λ r. IsPrefix watcher.seen r.0.seen) }
    ensures refused { IfErr result
        (λ w. (w.known ≡ watcher.known) × IsPrefix watcher.seen w.seen) }
{
    watcher.look(|list: &[Shown]| list.len())
}

/// A watcher that was told a list sees no less of it.
pub fn told_and_look<J: Naming>(
    watcher: Watcher<J>,
    note: &Note<J>,
) -> Result<(Watcher<J>, usize), Watcher<J>>
    ensures { IfOk result (λ r. IsPrefix note.now.entries r.0.seen) }
{
    watcher.told(note).look(|list: &[Shown]| list.len())
}

/// A board with no watchers is refused.
pub fn no_watchers<J: Naming>(
    opened: Opened,
    alloc: Global,
) -> Result<(Publisher<J>, Vec<Watcher<J>>), BoardFault>
    requires book { opened ≡ J.book }
    requires may { J.may [] }
    ensures { result ≡ Err BadWatchers }
{
    Board::new(opened, alloc, 0)
}

/// So is one with 9.
pub fn too_many_watchers<J: Naming>(
    opened: Opened,
    alloc: Global,
) -> Result<(Publisher<J>, Vec<Watcher<J>>), BoardFault>
    requires book { opened ≡ J.book }
    requires may { J.may [] }
    ensures { result ≡ Err BadWatchers }
{
    Board::new(opened, alloc, 9)
}
