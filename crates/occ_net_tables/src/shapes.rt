//! What is kept of a communication beside its values.

use occ_term::{End, Primitive};

/// How an item of a message is kept.
#[derive(Clone, Copy)]
pub(crate) enum Shape {
    /// A single value, which is one word.
    One(Primitive),
    /// All components of an array: their number among the lengths, and as many words.
    Many(Primitive),
    /// The first components of an array, kept in the same way.
    Counted(Primitive),
    /// The message has no more items.
    Done,
}

/// What a communication has beside its items.
#[derive(Clone, Copy)]
pub(crate) struct Head {
    pub(crate) chan: u32,
    pub(crate) sender: End,
    pub(crate) receiver: End,
    pub(crate) tag: Option<u32>,
}

/// A communication of one value takes 40 bytes: a head, the shapes of its item and of the end, and a word.
const _: () = prove!(size_of::<Head>() + 2 * size_of::<Shape>() + size_of::<i64>() == 40);
