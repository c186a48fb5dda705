//! What a program means: messages, terms, values, private steps, communication and runs, and when a
//! program keeps the usage rules. The definitions stand in `specs/`, over pure data, through which this
//! crate's types are seen; [`laws`] and the crate `occ_laws` check them, and [`value_of`] answers
//! what an expression is worth. [`value_of_constant`] answers that of expressions without a cell, a component and a letter of a
//! string, also where an operand is a number that is no INT, and [`is_constant`] says which those are.
#![tactic(auto)]

pub mod cell_rows;
pub mod communication;
mod constant;
pub mod ending;
pub mod expression;
pub mod fault;
pub mod frame;
pub mod frame_cells;
pub mod laws;
pub mod message;
pub mod names;
pub mod operator;
pub mod parts;
pub mod primitive;
pub mod protocol;
pub mod same;
pub mod sizes;
pub mod term;
pub mod text;
pub mod unfolded;
pub mod value;

pub use cell_rows::{CellRow, CellRows};
pub use communication::{Communication, End};
pub use constant::{is_constant, value_of_constant};
pub use ending::Ending;
pub use expression::{
    Array, Declaration, Item, Monadic, Operator, Place, Replicator, Target, TermExpr,
};
pub use fault::{Errors, Fault, FaultKind};
pub use frame::Frame;
pub use frame_cells::FrameCells;
pub use message::{Message, Part};
pub use names::{Cell, Channel, ERROR, KEYBOARD, MOST_CELLS, Name, SCREEN};
pub use parts::Parts;
pub use primitive::{Prim, Primitive};
pub use protocol::{PartType, PartTypes, Protocol, Tag, TagTypes, copy_parts};
pub use sizes::Sizes;
pub use term::{Arm, Branch, Choice, Reception, Selection, Term, Variant};
pub use text::Text;
pub use unfolded::Unfolded;
pub use value::value_of;
