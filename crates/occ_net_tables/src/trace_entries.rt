//! The communications of a trace, one after another.
ghost use Rattle.std.specs.Prelude.{◌≡◌, ◌↔◌, ◌<◌, ◌^◌, [], IfNone, IfOk, IfSome, IsTrue, length, take};
ghost use Rattle.std.specs.Iterator.{YieldsFirst, item_count};
ghost use Rattle.occ_net_tables.specs.Kept.{communications_from};
ghost use Rattle.occ_net_tables.specs.Passing.{AreElsewhere, HeadsElsewhere, IsFirstOn, FindsNext};

use crate::messages::MessageView;
use crate::news::behind;
use crate::pieces::Pieces;
use crate::shapes::Head;
use occ_term::{Communication, End};
use std::alloc::{AllocError, Global};
use std::marker::Model;

/// A communication of a trace. Contracts see the communication.
#[derive(Drop)]
pub struct Entry<'a> {
    head: Head,
    pieces: Pieces<'a>,
}

impl<'a> Model for Entry<'a> {
    ghost use Rattle.occ_term.specs.declared.communication.Communication.{Communication};
    ghost use Rattle.occ_net_tables.specs.Flat.{made, items_in};

    ghost Value = { Communication };

    ghost view = { λ e. made e.head (items_in e.pieces.shapes.now e.pieces.lengths.now e.pieces.words.now) };
}

/// The communications of a trace that are left, in order. Contracts see their list.
#[derive(Drop)]
pub struct Entries<'a> {
    heads: &'a [Head],
    pieces: Pieces<'a>,
}

impl<'a> Model for Entries<'a> {
    ghost use Rattle.std.specs.Prelude.{List};
    ghost use Rattle.occ_term.specs.declared.communication.Communication.{Communication};
    ghost use Rattle.occ_net_tables.specs.Flat.{communications_in};

    ghost Value = { List Communication };

    ghost view = { λ e. communications_in e.heads.now e.pieces.shapes.now e.pieces.lengths.now e.pieces.words.now };
}

/// The place of the first that is of a communication on this channel.
#[inline(always)]
fn place_on(heads: &[Head], chan: u32) -> Option<usize>
    ensures some { IfSome result (λ place. IsFirstOn chan heads.now place) }
    ensures none { IfNone result (HeadsElsewhere chan heads.now) }
{
    for (place, head) in heads.iter().enumerate() {
        if head.chan == chan {
            return Some(place);
        }
    }
    None
}

impl<'a> Entry<'a> {
    /// The channel's number.
    pub fn chan(&self) -> u32
        ensures { result ≡ self.now.chan }
    {
        self.head.chan
    }

    /// Who output it.
    pub fn sender(&self) -> End
        ensures { result ≡ self.now.sender }
    {
        self.head.sender
    }

    /// Who input it.
    pub fn receiver(&self) -> End
        ensures { result ≡ self.now.receiver }
    {
        self.head.receiver
    }

    /// The message.
    pub fn message(&self) -> MessageView<'a>
        ensures { result ≡ self.now.message }
    {
        MessageView::new(self.head.tag, self.pieces)
    }

    /// A copy. The error is a refused growth.
    pub fn copy(&self, alloc: Global) -> Result<Communication, AllocError>
        ensures { IfOk result (λ c. c ≡ self.now) }
    {
        let message = self.message().copy(alloc)?;
        Ok(Communication {
            chan: self.head.chan,
            sender: self.head.sender,
            receiver: self.head.receiver,
            message,
        })
    }
}

impl<'a> Entries<'a> {
    /// The communications with these heads, whose items stand from here on.
    pub(crate) fn new(heads: &'a [Head], pieces: Pieces<'a>) -> Entries<'a>
        ensures { result ≡ communications_from heads.now pieces.entry }
    {
        Entries { heads, pieces }
    }

    /// How many are left.
    pub fn len(&self) -> usize
        ensures { result ≡ length self.now }
    {
        self.heads.len()
    }

    /// Whether none is left.
    pub fn is_empty(&self) -> bool
        ensures { IsTrue result ↔ (self.now ≡ []) }
    {
        self.len() == 0
    }

    /// The same once more.
    pub fn copy(&self) -> Entries<'a>
        ensures same { result ≡ self.now }
        ensures few { length self.now < 2 ^ 64 }
    {
        self.first(self.len())
    }

    /// The next of them that is on this channel, if there is one: then neither it nor what stood before it is among them any
    /// more. Where there is none, all are left.
    pub fn next_on(&mut self, chan: u32) -> Option<Entry<'a>>
        ensures some { IfSome result (λ e. FindsNext chan self.old e self.new) }
        ensures none { IfNone result (AreElsewhere chan self.old) }
        ensures kept { IfNone result (self.new ≡ self.old) }
    {
        let place = place_on(self.heads, chan)?;
        let pieces = self.pieces.behind_several(place);
        let entry = Entry {
            head: self.heads[place],
            pieces,
        };
        self.heads = behind(self.heads, place + 1);
        self.pieces = pieces.behind();
        Some(entry)
    }

    /// The first so many of them.
    pub fn first(&self, count: usize) -> Entries<'a>
        ensures { result ≡ take count self.now }
    {
        Entries {
            heads: &self.heads[..count.min(self.heads.len())],
            pieces: self.pieces,
        }
    }
}

/// The communications one after another, each of which is then no longer among them.
impl<'a> Iterator for Entries<'a> {
    type Item = Entry<'a>;

    ghost next_gives = { YieldsFirst (λ entries. entries) };

    ghost remaining = { item_count (λ entries. entries) };

    fn next(&mut self) -> Option<Entry<'a>> {
        let (head, heads) = self.heads.split_first()?;
        let entry = Entry {
            head: *head,
            pieces: self.pieces,
        };
        self.heads = heads;
        self.pieces = self.pieces.behind();
        Some(entry)
    }
}
