//! The messages of a trace, as views.
ghost use Rattle.std.specs.Prelude.{◌≡◌, IfOk};
ghost use Rattle.std.specs.Iterator.{YieldsFirstBy, item_count};
ghost use Rattle.occ_term.specs.Messages.{message};
ghost use Rattle.occ_net_tables.specs.Kept.{items_from};
ghost use Rattle.occ_net_tables.specs.Views.{part_viewed};

use crate::pieces::{Pieces, split_word};
use crate::shapes::Shape;
use occ_term::{Message, Part, Parts, Primitive};
use sqlite_items::Items;
use std::alloc::{AllocError, Global};
use std::marker::Model;

/// An item of a message.
#[derive(Clone, Copy)]
pub enum PartView<'a> {
    /// A single value.
    One(Primitive, i64),
    /// All components of an array; the last subscript moves fastest.
    Many(Primitive, &'a [i64]),
    /// The first components of an array, sent with their number.
    Counted(Primitive, &'a [i64]),
}

/// A message. Contracts see the message.
#[derive(Drop)]
pub struct MessageView<'a> {
    tag: Option<u32>,
    pieces: Pieces<'a>,
}

impl<'a> Model for MessageView<'a> {
    ghost use Rattle.occ_term.specs.declared.message.Message.{Message};
    ghost use Rattle.occ_term.specs.Messages.{message};
    ghost use Rattle.occ_net_tables.specs.Flat.{items_in};

    ghost Value = { Message };

    ghost view = { λ m. message m.tag (items_in m.pieces.shapes.now m.pieces.lengths.now m.pieces.words.now) };
}

/// The items of a message that are left, in order. Contracts see their list.
#[derive(Drop)]
pub struct PartViews<'a> {
    pieces: Pieces<'a>,
}

impl<'a> Model for PartViews<'a> {
    ghost use Rattle.std.specs.Prelude.{List};
    ghost use Rattle.occ_term.specs.declared.message.Part.{Part};
    ghost use Rattle.occ_net_tables.specs.Flat.{items_in};

    ghost Value = { List Part };

    ghost view = { λ p. items_in p.pieces.shapes.now p.pieces.lengths.now p.pieces.words.now };
}

impl<'a> PartView<'a> {
    /// A copy. The error is a refused growth.
    pub fn copy(&self, alloc: Global) -> Result<Part, AllocError>
        ensures { IfOk result (λ p. p ≡ part_viewed self.now) }
    {
        match self {
            PartView::One(primitive, value) => Ok(Part::One(*primitive, *value)),
            PartView::Many(primitive, values) => {
                let values = Items::from_slice(alloc, values)?;
                Ok(Part::Many(*primitive, values))
            }
            PartView::Counted(primitive, values) => {
                let values = Items::from_slice(alloc, values)?;
                Ok(Part::Counted(*primitive, values))
            }
        }
    }
}

impl<'a> MessageView<'a> {
    /// The message with this tag whose items stand here.
    pub(crate) fn new(tag: Option<u32>, pieces: Pieces<'a>) -> MessageView<'a>
        ensures { result ≡ message tag (items_from pieces.entry) }
    {
        MessageView { tag, pieces }
    }

    /// The number, from 0, of a variant protocol's tag; none in every other protocol.
    pub fn tag(&self) -> Option<u32>
        ensures { result ≡ self.now.tag }
    {
        self.tag
    }

    /// The items, in order.
    pub fn items(&self) -> PartViews<'a>
        ensures { result ≡ self.now.items }
    {
        PartViews {
            pieces: self.pieces,
        }
    }

    /// A copy. The error is a refused growth.
    pub fn copy(&self, alloc: Global) -> Result<Message, AllocError>
        ensures { IfOk result (λ m. m ≡ self.now) }
    {
        let mut items = Parts::new();
        for part in self.items() {
            items.push(alloc, part.copy(alloc)?)?;
        }
        Ok(Message {
            tag: self.tag,
            items,
        })
    }
}

/// The items one after another, each of which is then no longer among them.
impl<'a> Iterator for PartViews<'a> {
    type Item = PartView<'a>;

    ghost next_gives = { YieldsFirstBy part_viewed (λ parts. parts) };

    ghost remaining = { item_count (λ parts. parts) };

    fn next(&mut self) -> Option<PartView<'a>> {
        let (shape, shapes) = self.pieces.shapes.split_first()?;
        let part = match shape {
            Shape::Done => return None,
            Shape::One(primitive) => {
                let (value, words) = split_word(self.pieces.words);
                self.pieces.words = words;
                PartView::One(*primitive, value)
            }
            Shape::Many(primitive) => {
                let (array, lengths, words) = self.pieces.split_array();
                self.pieces.lengths = lengths;
                self.pieces.words = words;
                PartView::Many(*primitive, array)
            }
            Shape::Counted(primitive) => {
                let (array, lengths, words) = self.pieces.split_array();
                self.pieces.lengths = lengths;
                self.pieces.words = words;
                PartView::Counted(*primitive, array)
            }
        };
        self.pieces.shapes = shapes;
        Some(part)
    }
}
