//! Protocols: what the messages of a channel look like.

ghost use Rattle.std.specs.Prelude.{◌≡◌, IfOk};

use crate::primitive::Primitive;
use occ_held::letters::Letters;
use sqlite_items::Items;
use std::alloc::{AllocError, Global};
use std::marker::Model;
use std::sync::Arc;

/// The type of one part of a message.
#[derive(Debug, Drop)]
pub enum PartType {
    /// A value of this type.
    One(Primitive),
    /// An array with these sizes, of components of this type.
    Many(Items<u32>, Primitive),
    /// A count of the first type, `::`, and so many components of the second.
    Counted(Primitive, Primitive),
}

/// A tag of a variant protocol, with what follows it.
#[derive(Debug)]
pub struct Tag {
    /// The tag's name.
    pub name: Letters,
    /// The parts after the tag, in order.
    pub parts: Items<PartType>,
}

impl Drop for Tag {
    fn drop(self) {
        let Tag { name: _, parts: _ } = self;
    }
}

/// The parts of a protocol, in order. Contracts see their list. Copies share them.
pub struct PartTypes {
    parts: Arc<Items<PartType>, Global>,
}

impl Model for PartTypes {
    ghost use Rattle.std.specs.Prelude.{List};
    ghost use Rattle.std.specs.Arc.{arc_value};
    ghost use Rattle.occ_term.specs.declared.protocol.PartType.{PartType};

    ghost Value = { List PartType };

    ghost view = { λ p. arc_value p.parts };
}

impl Drop for PartTypes {
    fn drop(self) {
        let PartTypes { parts: _ } = self;
    }
}

impl PartTypes {
    /// These parts. The error is a refused growth.
    pub fn new(alloc: Global, parts: Items<PartType>) -> Result<PartTypes, AllocError>
        ensures { IfOk result (λ p. p ≡ parts) }
    {
        let parts = Arc::new(alloc, parts)?;
        Ok(PartTypes { parts })
    }

    /// A copy, which shares the parts. The error is that there are too many copies.
    pub fn copy(&self) -> Result<PartTypes, AllocError>
        ensures { IfOk result (λ p. p ≡ self.now) }
    {
        let parts = Arc::try_clone(&self.parts)?;
        Ok(PartTypes { parts })
    }

    /// The parts.
    pub fn as_slice(&self) -> &[PartType]
        ensures { result.now ≡ self.now }
    {
        self.parts.as_slice()
    }
}

/// The tags of a protocol, in order. Contracts see their list. Copies share them.
pub struct TagTypes {
    tags: Arc<Items<Tag>, Global>,
}

impl Model for TagTypes {
    ghost use Rattle.std.specs.Prelude.{List};
    ghost use Rattle.std.specs.Arc.{arc_value};
    ghost use Rattle.occ_term.specs.declared.protocol.Tag.{Tag};

    ghost Value = { List Tag };

    ghost view = { λ t. arc_value t.tags };
}

impl Drop for TagTypes {
    fn drop(self) {
        let TagTypes { tags: _ } = self;
    }
}

impl TagTypes {
    /// These tags. The error is a refused growth.
    pub fn new(alloc: Global, tags: Items<Tag>) -> Result<TagTypes, AllocError>
        ensures { IfOk result (λ t. t ≡ tags) }
    {
        let tags = Arc::new(alloc, tags)?;
        Ok(TagTypes { tags })
    }

    /// A copy, which shares the tags. The error is that there are too many copies.
    pub fn copy(&self) -> Result<TagTypes, AllocError>
        ensures { IfOk result (λ t. t ≡ self.now) }
    {
        let tags = Arc::try_clone(&self.tags)?;
        Ok(TagTypes { tags })
    }

    /// The tags.
    pub fn as_slice(&self) -> &[Tag]
        ensures { result.now ≡ self.now }
    {
        self.tags.as_slice()
    }
}

/// The protocol of a channel.
pub enum Protocol {
    /// A value of this type, or where there are sizes an array.
    Simple(Items<u32>, Primitive),
    /// A count of the first type, `::`, and so many components of the second.
    CountedArray(Primitive, Primitive),
    /// These parts, in order.
    Sequential(PartTypes),
    /// One of these tags, numbered from 0 in their order, and then its parts.
    Variant(TagTypes),
}

impl Drop for Protocol {
    fn drop(self) {
        match self {
            Protocol::Simple(_, _) => {}
            Protocol::CountedArray(_, _) => {}
            Protocol::Sequential(_) => {}
            Protocol::Variant(_) => {}
        }
    }
}

impl PartType {
    /// A copy. The error is a refused growth.
    pub fn copy(&self, alloc: Global) -> Result<PartType, AllocError>
        ensures { IfOk result (λ t. t ≡ self.now) }
    {
        match self {
            PartType::One(primitive) => Ok(PartType::One(*primitive)),
            PartType::Many(sizes, primitive) => {
                let sizes = Items::from_slice(alloc, sizes.as_slice())?;
                Ok(PartType::Many(sizes, *primitive))
            }
            PartType::Counted(count, primitive) => Ok(PartType::Counted(*count, *primitive)),
        }
    }
}

impl Tag {
    /// A copy. The error is a refused growth.
    pub fn copy(&self, alloc: Global) -> Result<Tag, AllocError>
        ensures { IfOk result (λ t. t ≡ self.now) }
    {
        Ok(Tag {
            name: self.name.copy()?,
            parts: copy_parts(alloc, self.parts.as_slice())?,
        })
    }
}

impl Protocol {
    /// A copy, which shares the parts and the tags. The error is a refused growth.
    pub fn copy(&self, alloc: Global) -> Result<Protocol, AllocError>
        ensures { IfOk result (λ p. p ≡ self.now) }
    {
        match self {
            Protocol::Simple(sizes, primitive) => {
                let sizes = Items::from_slice(alloc, sizes.as_slice())?;
                Ok(Protocol::Simple(sizes, *primitive))
            }
            Protocol::CountedArray(count, primitive) => {
                Ok(Protocol::CountedArray(*count, *primitive))
            }
            Protocol::Sequential(parts) => Ok(Protocol::Sequential(parts.copy()?)),
            Protocol::Variant(tags) => Ok(Protocol::Variant(tags.copy()?)),
        }
    }
}

/// Copies of the parts of messages, in order. The error is a refused growth.
pub fn copy_parts(alloc: Global, parts: &[PartType]) -> Result<Items<PartType>, AllocError>
    ensures { IfOk result (λ copies. copies ≡ parts.now) }
{
    let mut copies = Items::new(alloc);
    for part in parts {
        copies.push(part.copy(alloc)?)?;
    }
    Ok(copies)
}
