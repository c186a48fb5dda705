//! What a trace has got since it was read last.
ghost use Rattle.std.specs.Prelude.{◌≡◌, [], OnOk, drop};
ghost use Rattle.occ_net_tables.specs.Kept.{kept_behind};

use crate::lists::Lists;
use crate::pieces::Pieces;
use crate::trace_entries::Entries;
use std::alloc::{AllocError, Global};
use std::marker::Model;

/// How far a trace had come. Contracts see the place behind its communications.
#[derive(Drop)]
pub struct Mark {
    pub(crate) heads: usize,
    pub(crate) shapes: usize,
    pub(crate) lengths: usize,
    pub(crate) words: usize,
}

impl Model for Mark {
    ghost use Rattle.occ_net_tables.specs.TracePlaces.{Place};

    ghost Value = { Place };

    ghost view = { λ m. record { heads = m.heads; shapes = m.shapes; lengths = m.lengths; words = m.words } };
}

/// Communications that were copied out of a trace. Contracts see their list.
pub struct News {
    lists: Lists,
}

impl Drop for News {
    fn drop(self) {
        let News { lists: _ } = self;
    }
}

impl Model for News {
    ghost use Rattle.std.specs.Prelude.{List};
    ghost use Rattle.occ_term.specs.declared.communication.Communication.{Communication};
    ghost use Rattle.occ_net_tables.specs.Kept.{kept_in};

    ghost Value = { List Communication };

    ghost view = { λ n. kept_in n.lists };
}

/// What stands behind the first so many.
pub(crate) fn behind<T>(items: &[T], count: usize) -> &[T]
    ensures { result.now ≡ drop count items.now }
{
    match items.get(count..) {
        Some(others) => others,
        None => &[],
    }
}

impl News {
    /// None.
    pub fn new(alloc: Global) -> News
        ensures { result ≡ [] }
    {
        News {
            lists: Lists::new(alloc),
        }
    }

    /// They, one after another.
    pub fn entries(&self) -> Entries<'_>
        ensures { result ≡ self.now }
    {
        let pieces = Pieces {
            shapes: self.lists.shapes.as_slice(),
            lengths: self.lists.lengths.as_slice(),
            words: self.lists.words.as_slice(),
        };
        Entries::new(self.lists.heads.as_slice(), pieces)
    }

    /// Takes what stands in the lists behind the mark, in place of what it held.
    pub(crate) fn take(&mut self, lists: &Lists, mark: &Mark) -> Result<(), AllocError>
        ensures heads { OnOk result (self.new ≡ kept_behind mark.now lists.now) }
    {
        self.lists.clear();
        let news = &mut self.lists;
        news.heads
            .extend_from_slice(behind(lists.heads.as_slice(), mark.heads))?;
        news.shapes
            .extend_from_slice(behind(lists.shapes.as_slice(), mark.shapes))?;
        news.lengths
            .extend_from_slice(behind(lists.lengths.as_slice(), mark.lengths))?;
        news.words
            .extend_from_slice(behind(lists.words.as_slice(), mark.words))
    }
}
