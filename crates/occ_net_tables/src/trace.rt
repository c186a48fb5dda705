//! The trace of a run.
ghost use Rattle.std.specs.Prelude.{◌≡◌, ◌↔◌, ◌<◌, ◌^◌, [], IfOk, IsTrue, List, OnErr, OnOk, length};
ghost use Rattle.occ_term.specs.declared.communication.Communication.{Communication};
ghost use Rattle.occ_net_tables.specs.TracePlaces.{StandBehind, place_behind};
ghost use Rattle.occ_net_tables.specs.Views.{Pushes};

use crate::lists::Lists;
use crate::news::{Mark, News};
use crate::pieces::Pieces;
use crate::shapes::Head;
use crate::trace_entries::Entries;
use occ_term::{End, Message};
use std::alloc::{AllocError, Global};
use std::marker::Model;

/// The communications of a run, in order. Contracts see their list.
pub struct Trace {
    lists: Lists,
}

impl Drop for Trace {
    fn drop(self) {
        let Trace { lists: _ } = self;
    }
}

impl Model for Trace {
    ghost use Rattle.std.specs.Prelude.{List};
    ghost use Rattle.occ_term.specs.declared.communication.Communication.{Communication};
    ghost use Rattle.occ_net_tables.specs.Kept.{AreListsOf, kept_in};

    ghost Value = { List Communication };

    ghost view = { λ t. kept_in t.lists };

    ghost invariant = { λ t. AreListsOf (kept_in t.lists) t.lists };
}

impl Trace {
    /// No communications.
    pub fn new(alloc: Global) -> Trace
        ensures { result ≡ [] }
    {
        Trace {
            lists: Lists::new(alloc),
        }
    }

    /// How many there are.
    pub fn len(&self) -> usize
        ensures len { result ≡ length self.now }
        ensures few { result < 2 ^ 63 }
    {
        self.lists.heads.len()
    }

    /// Whether there is none.
    pub fn is_empty(&self) -> bool
        ensures { IsTrue result ↔ (self.now ≡ []) }
    {
        self.lists.heads.is_empty()
    }

    /// The communications one after another.
    pub fn entries(&self) -> Entries<'_>
        ensures entries { result ≡ self.now }
        ensures few { length self.now < 2 ^ 63 }
    {
        let pieces = Pieces {
            shapes: self.lists.shapes.as_slice(),
            lengths: self.lists.lengths.as_slice(),
            words: self.lists.words.as_slice(),
        };
        Entries::new(self.lists.heads.as_slice(), pieces)
    }

    /// A copy.
    ///
    /// # Errors
    ///
    /// A refused growth.
    pub fn copy(&self, alloc: Global) -> Result<Trace, AllocError>
        ensures { IfOk result (λ copy. copy ≡ self.now) }
    {
        Ok(Trace {
            lists: Lists {
                heads: Vec::from_slice(alloc, self.lists.heads.as_slice())?,
                shapes: Vec::from_slice(alloc, self.lists.shapes.as_slice())?,
                lengths: Vec::from_slice(alloc, self.lists.lengths.as_slice())?,
                words: Vec::from_slice(alloc, self.lists.words.as_slice())?,
            },
        })
    }

    /// How far it has come.
    pub fn mark(&self) -> Mark
        ensures { result ≡ place_behind self.now }
    {
        Mark {
            heads: self.lists.heads.len(),
            shapes: self.lists.shapes.len(),
            lengths: self.lists.lengths.len(),
            words: self.lists.words.len(),
        }
    }

    /// Copies the communications behind a mark into `news`, in place of what that held. It takes as long as they are many,
    /// however many stand before the mark.
    ///
    /// # Errors
    ///
    /// A refused growth.
    pub fn copy_behind(&self, mark: &Mark, news: &mut News) -> Result<(), AllocError>
        ensures { OnOk result (StandBehind self.now mark.now news.new) }
    {
        news.take(&self.lists, mark)
    }

    /// Puts the communication of this message on this channel, between these ends, behind the others. All growths that it
    /// needs come first: after a refused one the trace is as it was.
    ///
    /// # Errors
    ///
    /// A refused growth.
    #[inline(always)]
    pub fn push(
        &mut self,
        chan: u32,
        sender: End,
        receiver: End,
        message: &Message,
    ) -> Result<(), AllocError>
        ensures pushed { OnOk result (Pushes self.old chan sender receiver message.now self.new) }
        ensures same { OnErr result (self.new ≡ self.old) }
    {
        let head = Head {
            chan,
            sender,
            receiver,
            tag: message.tag,
        };
        self.lists.push(head, message.items.as_slice())?;
        Ok(())
    }
}
