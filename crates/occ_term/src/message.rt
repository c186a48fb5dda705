//! Messages: what one communication carries.
ghost use Rattle.std.specs.Prelude.{◌≡◌, ◌↔◌, IsTrue, IfOk};

use crate::parts::Parts;
use crate::primitive::Primitive;
use crate::same::same_values;
use sqlite_items::Items;
use std::alloc::{AllocError, Global};

/// One item of a message.
#[derive(Debug, Drop)]
pub enum Part {
    /// A single value.
    One(Primitive, i64),
    /// All components of an array; the last subscript moves fastest.
    Many(Primitive, Items<i64>),
    /// The first components of an array, sent with their number.
    Counted(Primitive, Items<i64>),
}

/// What one communication carries. Equal messages have equal content.
#[derive(Debug, Drop)]
pub struct Message {
    /// The number, from 0, of a variant protocol's tag; none in every other protocol.
    pub tag: Option<u32>,
    /// The items, in order.
    pub items: Parts,
}

impl Part {
    /// A copy. The error is a refused growth.
    pub fn copy(&self, alloc: Global) -> Result<Part, AllocError>
        ensures { IfOk result (λ p. p ≡ self.now) }
    {
        match self {
            Part::One(primitive, value) => Ok(Part::One(*primitive, *value)),
            Part::Many(primitive, values) => {
                let values = Items::from_slice(alloc, values.as_slice())?;
                Ok(Part::Many(*primitive, values))
            }
            Part::Counted(primitive, values) => {
                let values = Items::from_slice(alloc, values.as_slice())?;
                Ok(Part::Counted(*primitive, values))
            }
        }
    }

    /// Whether both have the same content.
    pub fn is_same(&self, other: &Part) -> bool
        ensures { IsTrue result ↔ (self.now ≡ other.now) }
    {
        match (self, other) {
            (Part::One(p, v), Part::One(q, w)) => p == q && v == w,
            (Part::Many(p, v), Part::Many(q, w)) => p == q
                && same_values(v.as_slice(), w.as_slice()),
            (Part::Counted(p, v), Part::Counted(q, w)) => p == q
                && same_values(v.as_slice(), w.as_slice()),
            _ => false,
        }
    }
}

impl Message {
    /// A copy. The error is a refused growth.
    pub fn copy(&self, alloc: Global) -> Result<Message, AllocError>
        ensures { IfOk result (λ m. m ≡ self.now) }
    {
        Ok(Message {
            tag: self.tag,
            items: self.items.copy(alloc)?,
        })
    }

    /// Whether both have the same content.
    pub fn is_same(&self, other: &Message) -> bool
        ensures { IsTrue result ↔ (self.now ≡ other.now) }
    {
        self.tag == other.tag && same_parts(self.items.as_slice(), other.items.as_slice())
    }
}

fn same_parts(parts: &[Part], others: &[Part]) -> bool
    ensures { IsTrue result ↔ (parts.now ≡ others.now) }
{
    if parts.len() != others.len() {
        return false;
    }
    for i in 0..parts.len() {
        if !parts[i].is_same(&others[i]) {
            return false;
        }
    }
    true
}
