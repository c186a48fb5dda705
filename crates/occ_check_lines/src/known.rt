//! What names stand for.

ghost use Rattle.std.specs.Prelude.{◌≡◌, IfOk, map};
ghost use Rattle.occ_term.specs.View.{expression_of};
ghost use Rattle.occ_check_lines.specs.View.{evaluated_of};

use occ_held::parts::Listed;
use occ_term::{Primitive, Protocol, Sizes, TermExpr, Text};
use sqlite_items::Items;
use std::alloc::{AllocError, Global};

/// Whether a variable may be assigned to. A named value, a VAL formal and an index may not.
#[derive(Clone, Copy)]
pub enum Access {
    /// It may.
    Assignable,
    /// It keeps its value.
    Kept,
}

/// A subscript that is evaluated already.
#[derive(Clone, Copy)]
pub enum Evaluated {
    /// A constant.
    Value(i64),
    /// The value of the cell with this number: the line of its evaluation, and the cell.
    Cell(u32, u32),
}

/// Cells or channels one after another: an array, or a part of one under subscripts that are evaluated already.
pub struct Stretch {
    /// The number of the first of the whole array.
    pub first: u32,
    /// The sizes of the whole array: none for a single cell or channel.
    pub sizes: Sizes,
    /// The subscripts that name the part.
    pub subscripts: Items<Evaluated>,
    /// The sizes of the part.
    pub left: Sizes,
}

impl Drop for Stretch {
    fn drop(self) {
        let Stretch {
            first: _,
            sizes: _,
            subscripts: _,
            left: _,
        } = self;
    }
}

/// What a channel carries.
pub struct Carried {
    /// The number of the protocol's declaration, where it has a name.
    pub declared: Option<u64>,
    /// The protocol.
    pub protocol: Protocol,
}

impl Drop for Carried {
    fn drop(self) {
        let Carried {
            declared: _,
            protocol: _,
        } = self;
    }
}

/// What a name stands for that is no procedure's.
pub enum Known {
    /// A constant of the type.
    Value(Primitive, i64),
    /// A string.
    Text(Text),
    /// A variable, an array, or a part of one, of the type.
    Cells(Access, Primitive, Stretch),
    /// A channel, an array of channels, or a part of one.
    Channels(Carried, Stretch),
    /// A protocol.
    Protocol(Carried),
}

impl Drop for Known {
    fn drop(self) {
        match self {
            Known::Value(_, _) => {}
            Known::Text(_) => {}
            Known::Cells(_, _, _) => {}
            Known::Channels(_, _) => {}
            Known::Protocol(_) => {}
        }
    }
}

/// Subscripts that are evaluated already, as expressions. The error is a refused growth.
pub fn evaluated_subscripts(
    alloc: Global,
    subscripts: &[Evaluated],
) -> Result<Listed<TermExpr>, AllocError>
    ensures { IfOk result (λ es. map expression_of es ≡ map evaluated_of subscripts.now) }
{
    let mut expressions = Listed::new(alloc);
    for subscript in subscripts {
        expressions.push(evaluated_subscript(subscript))?;
    }
    Ok(expressions)
}

fn evaluated_subscript(subscript: &Evaluated) -> TermExpr
    ensures { expression_of result ≡ evaluated_of subscript.now }
{
    match subscript {
        Evaluated::Value(value) => TermExpr::Constant(*value),
        Evaluated::Cell(line, cell) => TermExpr::Cell(*line, *cell),
    }
}

impl Stretch {
    /// A copy. The error is a refused growth.
    pub fn copy(&self, alloc: Global) -> Result<Stretch, AllocError>
        ensures { IfOk result (λ stretch. stretch ≡ self.now) }
    {
        Ok(Stretch {
            first: self.first,
            sizes: self.sizes.copy(alloc)?,
            subscripts: Items::from_slice(alloc, self.subscripts.as_slice())?,
            left: self.left.copy(alloc)?,
        })
    }
}

impl Carried {
    /// A copy. The error is a refused growth.
    pub fn copy(&self, alloc: Global) -> Result<Carried, AllocError>
        ensures { IfOk result (λ carried. carried ≡ self.now) }
    {
        Ok(Carried {
            declared: self.declared,
            protocol: self.protocol.copy(alloc)?,
        })
    }
}

impl Known {
    /// A copy. The error is a refused growth.
    pub fn copy(&self, alloc: Global) -> Result<Known, AllocError>
        ensures { IfOk result (λ known. known ≡ self.now) }
    {
        match self {
            Known::Value(primitive, value) => Ok(Known::Value(*primitive, *value)),
            Known::Text(bytes) => {
                let bytes = bytes.copy()?;
                Ok(Known::Text(bytes))
            }
            Known::Cells(access, primitive, stretch) => {
                let stretch = stretch.copy(alloc)?;
                Ok(Known::Cells(*access, *primitive, stretch))
            }
            Known::Channels(carried, stretch) => {
                let carried = carried.copy(alloc)?;
                let stretch = stretch.copy(alloc)?;
                Ok(Known::Channels(carried, stretch))
            }
            Known::Protocol(carried) => {
                let carried = carried.copy(alloc)?;
                Ok(Known::Protocol(carried))
            }
        }
    }
}
