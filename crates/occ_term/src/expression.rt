//! Expressions, and what is named, output, assigned and set by them.

use crate::primitive::Primitive;
use crate::sizes::Sizes;
use crate::text::Text;
use occ_held::parts::{Listed, Nested};

/// An operator with two operands, both of which are evaluated.
#[derive(Clone, Copy)]
pub enum Operator {
    /// `+`: a result outside the type is a fault.
    Add,
    /// `-`: a result outside the type is a fault.
    Subtract,
    /// `*`: a result outside the type is a fault.
    Multiply,
    /// `/`: goes towards zero; a divisor 0 is a fault.
    Divide,
    /// `\` and `REM`: has the sign of the dividend; a divisor 0 is a fault.
    Remainder,
    /// `PLUS`: wraps.
    Plus,
    /// `MINUS`: wraps.
    Minus,
    /// `TIMES`: wraps.
    Times,
    /// `/\` and `BITAND`.
    BitAnd,
    /// `\/` and `BITOR`.
    BitOr,
    /// `><`.
    BitXor,
    /// `<<`: zeros come in; a count outside 0 to the width is a fault.
    ShiftLeft,
    /// `>>`: zeros come in; a count outside 0 to the width is a fault.
    ShiftRight,
    /// `AFTER`: whether `left MINUS right` is above 0.
    After,
    /// `=`.
    Equal,
    /// `<>`.
    Unequal,
    /// `<`.
    Less,
    /// `>`.
    Greater,
    /// `<=`.
    AtMost,
    /// `>=`.
    AtLeast,
}

/// An operator with one operand.
#[derive(Clone, Copy)]
pub enum Monadic {
    /// `-`: a result outside the type is a fault.
    Negate,
    /// `~` and `BITNOT`.
    BitNot,
    /// `NOT`.
    Not,
}

/// An expression of one value. Lines are numbers of logical lines, and an operator has the type of
/// its left operand.
#[cycle(expression)]
pub enum TermExpr {
    /// A value; TRUE is 1 and FALSE is 0.
    Constant(i64),
    /// The value of a cell: the line, and the cell.
    Cell(u32, u32),
    /// The value of a component, or of a variable.
    Component(Place),
    /// A component of a string: the line, the string and the subscript.
    Letter(u32, Text, Nested<TermExpr>),
    /// An operator with its type, its line and its two operands.
    Binary(Operator, Primitive, u32, Nested<TermExpr>, Nested<TermExpr>),
    /// An operator with its type, its line and its operand.
    Unary(Monadic, Primitive, u32, Nested<TermExpr>),
    /// `AND`: the right operand is evaluated only where the left one is TRUE.
    And(Nested<TermExpr>, Nested<TermExpr>),
    /// `OR`: the right operand is evaluated only where the left one is FALSE.
    Or(Nested<TermExpr>, Nested<TermExpr>),
    /// A conversion to the type, its line and its operand.
    Conversion(Primitive, u32, Nested<TermExpr>),
}

/// A chain of AND and OR, which nests to the left, is let go in a loop.
impl Drop for TermExpr {
    #[cycle(expression)]
    fn drop(mut self) {
        loop {
            match self {
                TermExpr::Constant(_) => return,
                TermExpr::Cell(_, _) => return,
                TermExpr::Component(_) => return,
                TermExpr::Letter(_, _, _) => return,
                TermExpr::Binary(_, _, _, _, _) => return,
                TermExpr::Unary(_, _, _, _) => return,
                TermExpr::And(left, _) => self = left.into_inner(),
                TermExpr::Or(left, _) => self = left.into_inner(),
                TermExpr::Conversion(_, _, _) => return,
            }
        }
    }
}

/// A variable or a channel with its subscripts. Fewer subscripts than sizes name an array.
#[cycle(expression)]
pub struct Place {
    /// The line of its use.
    pub line: u32,
    /// The number of its first cell, or of its first channel.
    pub first: u32,
    /// The sizes of the whole array: none for a single variable or channel.
    pub sizes: Sizes,
    /// The subscripts, in order.
    pub subscripts: Listed<TermExpr>,
}

impl Drop for Place {
    #[cycle(expression)]
    fn drop(self) {
        let Place {
            line: _,
            first: _,
            sizes: _,
            subscripts: _,
        } = self;
    }
}

/// A whole array.
#[derive(Drop)]
pub enum Array {
    /// The cells of a place.
    Cells(Place),
    /// A string.
    Text(Text),
}

/// What is output, assigned or named.
pub enum Item {
    /// A value of the type.
    One(Primitive, TermExpr),
    /// An array with components of the type.
    Many(Primitive, Array),
    /// The type of the components, the line, the count, and the array that they are taken from.
    Counted(Primitive, u32, TermExpr, Array),
}

impl Drop for Item {
    fn drop(self) {
        match self {
            Item::One(_, _) => {}
            Item::Many(_, _) => {}
            Item::Counted(_, _, _, _) => {}
        }
    }
}

/// Where an item is stored.
pub enum Target {
    /// A variable, a component or an array.
    Into(Place),
    /// The line, the variable that takes the count, and the array that takes the components.
    IntoCounted(u32, Place, Place),
}

impl Drop for Target {
    fn drop(self) {
        match self {
            Target::Into(_) => {}
            Target::IntoCounted(_, _, _) => {}
        }
    }
}

/// A declaration before a process, an arm, a variant or an option.
#[derive(Drop)]
pub enum Declaration {
    /// A variable: the line, the number of its first cell, and how many cells it has.
    Clearing(u32, u32, u32),
    /// A named value: the line, the number of its first cell, and the value.
    Naming(u32, u32, Item),
}

/// `index = base FOR count`.
pub struct Replicator {
    /// The line.
    pub line: u32,
    /// The cell of the index.
    pub index: u32,
    /// The first value of the index.
    pub base: TermExpr,
    /// How many values the index takes.
    pub count: TermExpr,
}

impl Drop for Replicator {
    fn drop(self) {
        let Replicator {
            line: _,
            index: _,
            base: _,
            count: _,
        } = self;
    }
}
