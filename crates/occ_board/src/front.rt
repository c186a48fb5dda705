//! The history of a board's editions, of which only the length is stored. A [`Front`] is a beginning of it that was reached, and
//! can be copied by whoever sees it.
ghost use Rattle.std.specs.Prelude.{◌≡◌, IfSome, None};
ghost use Rattle.occ_board.specs.Editions.{blank, reached, Follows, GoesPast};

use crate::shown::Edition;
use logbook::{Gain, Offer, Plain, Play, Rule, Seen, Start, Word};
use std::marker::{Brand, Model};

/// The rule of the history: each edition follows the one before it.
pub struct Law;

impl Rule<Edition, u64> for Law {
    ghost use Rattle.std.specs.Prelude.{[]};
    ghost use base.Fml.{ftrue};
    ghost use Rattle.occ_board.specs.Rules.{IsLogged};

    ghost holds = { λ cells log. IsLogged cells log };

    ghost first = { [] };

    ghost hinted = { λ n log. Unit {0} };

    ghost shows = { λ log. [] };

    ghost keeps = { λ names log. ftrue };

    ghost moves = { λ ask before after answer. Unit {0} };
}

/// Nobody trades anything for a step.
struct Nothing;

impl Gain<Edition, u64> for Nothing {
    ghost use base.Fml.{ftrue};

    ghost after = { λ names about answer. ftrue };
}

/// The step that adds an edition.
struct Add;

impl Play<Edition, u64> for Add {
    ghost use Rattle.occ_board.specs.Rules.{AddsEdition};

    ghost then = { AddsEdition };
}

/// Which board it is, and which lists it may show. A function that is generic over it has one board; each call of such a function
/// names another, by `Brand`.
pub trait Naming {
    ghost use Rattle.std.specs.Prelude.{List};
    ghost use Rattle.logbook.specs.Pages.{Book};
    ghost use Rattle.occ_term.specs.Runs.{Entry};

    ghost book: { Book };

    // Of each list that is shown.
    ghost may: { List Entry → Type 0 };
}

impl Naming for Brand {
    ghost book = { record { number = 0; log_name = 0; cells_name = 0 } };

    ghost may = { λ xs. Unit {0} };
}

/// The stored length of the history, which its publisher has. Contracts see which history it is.
#[derive(Drop)]
pub struct Head {
    word: Word<Edition, u64, Law>,
}

impl Model for Head {
    ghost use Rattle.std.specs.Prelude.{◌≡◌};
    ghost use Rattle.logbook.specs.Pages.{Book};
    ghost use Rattle.occ_board.specs.Rules.{book_head};

    ghost Value = { Book };

    ghost view = { λ h. h.word.book };

    ghost invariant = { λ h. h.word ≡ book_head h.word.book };
}

/// A beginning of a history. Contracts see which history it is, and its newest edition.
#[derive(Drop)]
pub struct Front {
    editions: u64,
    seen: Seen<Edition, u64, Law>,
}

impl Model for Front {
    ghost use Rattle.std.specs.Prelude.{◌≡◌, length};
    ghost use Rattle.occ_board.specs.Editions.{IsLegal, Reached, reached, newest};

    ghost Value = { Reached };

    ghost view = { λ f. reached f.seen.book (newest f.seen.log) };

    ghost invariant = { λ f. (f.editions ≡ length f.seen.log) × IsLegal f.seen.log };
}

/// A history with no edition.
pub fn open_history() -> (Head, Front)
    ensures { result.1 ≡ reached result.0 blank }
{
    let (seen, mut first, _second) = Seen::open(Start::alone(), 0, 0);
    let head = Head {
        word: Word::tracked(0, &mut first),
    };
    (head, Front { editions: 0, seen })
}

impl Front {
    /// A copy.
    pub fn again(&self) -> Front
        ensures { result ≡ self.now }
    {
        Front {
            editions: self.editions,
            seen: self.seen.again(),
        }
    }

    /// Whether this one goes on where the other ends. Either way one of the two begins the other.
    pub fn goes_past(&self, other: &Front) -> bool
        requires { other.now.book ≡ self.now.book }
        ensures { GoesPast result other.now.edition self.now.edition }
    {
        let mut both = self.seen.again();
        both.learn(&other.seen);
        other.editions < self.editions
    }

    /// Adds an edition, unless there are more than this front has.
    pub fn add<X, M: Plain<X, Edition, u64>>(&self, head: &Head, about: &X) -> Option<Front>
        requires head { head.now ≡ self.now.book }
        requires next { Follows self.now.edition (M.ask about.now) × (M.state about.now ≡ None) }
        ensures { IfSome result (λ f. f ≡ reached self.now.book (M.ask about.now)) }
    {
        let editions = self.editions;
        if editions == u64::MAX {
            return None;
        }
        let mut seen = self.seen.again();
        let mut offer: Offer<Edition, u64, Law, Nothing> = seen.plain::<Nothing, X, M>(about);
        let mut pen = seen.no_pen();
        let found = head
            .word
            .compare_exchange::<Add, Nothing>(
                editions,
                editions + 1,
                &mut seen,
                &mut offer,
                &mut pen,
            );
        if found != editions {
            return None;
        }
        Some(Front {
            editions: editions + 1,
            seen,
        })
    }
}
