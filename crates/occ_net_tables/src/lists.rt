//! The shared lists, and how a communication is put behind the others.
ghost use Rattle.std.specs.Prelude.{◌≡◌, ◌+◌, ◌<◌, ◌≤◌, ◌^◌, ◌++◌, ◌∷◌, [], IsTrue, OnErr, OnOk, length, vec_capacity, vec_len};
ghost use Rattle.occ_net_tables.specs.Flat.{all_words, shape_of, words_of};
ghost use Rattle.occ_net_tables.specs.TraceRoom.{AreEmpty, HoldSame, HasRoomForMessage, HasRoomFor, Appends, PutsPart};
ghost use Rattle.occ_net_tables.specs.Values.{HasRoomForValue};
ghost use Rattle.occ_term.specs.declared.message.Part.{Part};

use crate::shapes::{Head, Shape};
use occ_term::{Part, Primitive};
use std::alloc::{AllocError, Global};

/// What a trace keeps: a head for each communication, and for all of them together the shapes of their items, the lengths
/// of those that are arrays, and their values.
#[derive(Drop)]
pub(crate) struct Lists {
    pub(crate) heads: Vec<Head>,
    pub(crate) shapes: Vec<Shape>,
    pub(crate) lengths: Vec<usize>,
    pub(crate) words: Vec<i64>,
}

fn shape_of(part: &Part) -> Shape
    ensures { result ≡ shape_of part.now }
{
    match part {
        Part::One(primitive, _) => Shape::One(*primitive),
        Part::Many(primitive, _) => Shape::Many(*primitive),
        Part::Counted(primitive, _) => Shape::Counted(*primitive),
    }
}

/// How many values an item has.
fn word_count(part: &Part) -> usize
    ensures { result ≡ length (words_of part.now) }
{
    match part {
        Part::One(_, _) => 1,
        Part::Many(_, values) => values.len(),
        Part::Counted(_, values) => values.len(),
    }
}

/// How many values the items have together, where so many have room in memory.
fn all_word_count(parts: &[Part]) -> usize
    ensures { result < 2 ^ 63 → result ≡ length (all_words parts.now) }
{
    let mut count = 0usize;
    for part in parts {
        count = count.saturating_add(word_count(part));
    }
    count
}

impl Lists {
    /// Nothing.
    pub(crate) fn new(alloc: Global) -> Lists
        ensures { AreEmpty result }
    {
        Lists {
            heads: Vec::new(alloc),
            shapes: Vec::new(alloc),
            lengths: Vec::new(alloc),
            words: Vec::new(alloc),
        }
    }

    /// Lets go of all, and keeps the room.
    pub(crate) fn clear(&mut self)
        ensures { AreEmpty self.new }
    {
        self.heads.clear();
        self.shapes.clear();
        self.lengths.clear();
        self.words.clear();
    }

    /// Puts a communication behind the others. After a refused growth the lists hold what they held.
    #[inline(always)]
    pub(crate) fn push(&mut self, head: Head, parts: &[Part]) -> Result<(), AllocError>
        ensures pushed { OnOk result (Appends self.old head parts.now self.new) }
        ensures same { OnErr result (HoldSame self.old self.new) }
    {
        if let [Part::One(primitive, value)] = parts {
            if self.has_room_for_value() {
                self.put_value(head, *primitive, *value);
                return Ok(());
            }
        }
        self.push_parts(head, parts)
    }

    /// The same, whatever the items are.
    #[inline(never)]
    fn push_parts(&mut self, head: Head, parts: &[Part]) -> Result<(), AllocError>
        ensures pushed { OnOk result (Appends self.old head parts.now self.new) }
        ensures same { OnErr result (HoldSame self.old self.new) }
    {
        self.reserve(parts)?;
        self.put(head, parts);
        Ok(())
    }

    /// Whether there is room for a communication of a single value.
    #[inline(always)]
    fn has_room_for_value(&self) -> bool
        ensures { IsTrue result → HasRoomForValue self.now }
    {
        self.heads.len() < self.heads.capacity()
            && self.shapes.capacity() - self.shapes.len() > 1
            && self.words.len() < self.words.capacity()
    }

    /// Puts a communication of a single value behind the others, for which there is room.
    #[inline(always)]
    fn put_value(&mut self, head: Head, primitive: Primitive, value: i64)
        requires { HasRoomForValue self.old }
        ensures { Appends self.old head (Part.One primitive value ∷ []) self.new }
    {
        self.heads.push_reserved(head);
        self.shapes.push_reserved(Shape::One(primitive));
        self.shapes.push_reserved(Shape::Done);
        self.words.push_reserved(value);
    }

    /// Room for a communication of these items. After a refused growth the lists hold what they held.
    fn reserve(&mut self, parts: &[Part]) -> Result<(), AllocError>
        ensures same { HoldSame self.old self.new }
        ensures room { OnOk result (HasRoomForMessage self.new parts.now) }
    {
        self.heads.reserve(1)?;
        self.shapes.reserve(parts.len().saturating_add(1))?;
        self.lengths.reserve(parts.len())?;
        self.words.reserve(all_word_count(parts))?;
        Ok(())
    }

    /// Puts a communication behind the others, for which there is room.
    fn put(&mut self, head: Head, parts: &[Part])
        requires { HasRoomForMessage self.old parts.now }
        ensures { Appends self.old head parts.now self.new }
    {
        self.heads.push_reserved(head);
        for part in parts {
            self.put_part(part);
        }
        self.shapes.push_reserved(Shape::Done);
    }

    /// Puts an item behind the others.
    fn put_part(&mut self, part: &Part)
        requires { HasRoomFor self.old part.now }
        ensures { PutsPart self.old part.now self.new }
    {
        self.shapes.push_reserved(shape_of(part));
        match part {
            Part::One(_, value) => self.words.push_reserved(*value),
            Part::Many(_, values) => put_array(
                &mut self.lengths,
                &mut self.words,
                values.as_slice(),
            ),
            Part::Counted(_, values) => put_array(
                &mut self.lengths,
                &mut self.words,
                values.as_slice(),
            ),
        }
    }
}

/// Puts the number of these values and the values behind the others.
fn put_array(lengths: &mut Vec<usize>, words: &mut Vec<i64>, values: &[i64])
    requires length { vec_len lengths.old < vec_capacity lengths.old }
    requires words { vec_len words.old + length values.now ≤ vec_capacity words.old }
    ensures length { lengths.new.items ≡ lengths.old.items ++ length values.now ∷ [] }
    ensures lengths_len { vec_len lengths.new ≡ vec_len lengths.old + 1 }
    ensures lengths_room { vec_capacity lengths.new ≡ vec_capacity lengths.old }
    ensures words { words.new.items ≡ words.old.items ++ values.now }
    ensures words_len { vec_len words.new ≡ vec_len words.old + length values.now }
    ensures words_room { vec_capacity words.old ≤ vec_capacity words.new }
{
    lengths.push_reserved(values.len());
    match words.extend_from_slice(values) {
        Ok(()) => {}
        Err(_) => unreachable!(),
    }
}
