//! What expressions unfold to.

use occ_term::{Array, Place, Primitive, Sizes, TermExpr};

/// What an expression unfolds to.
#[derive(Drop)]
pub enum Typed {
    /// One value of the type.
    Single(Primitive, TermExpr),
    /// A whole array with components of the type: its sizes, and the array.
    Whole(Primitive, Sizes, Array),
}

/// A stretch under subscripts: its place, and the sizes that are left.
#[derive(Drop)]
pub struct Part {
    /// The place.
    pub place: Place,
    /// The sizes of the part: none for a single cell or channel.
    pub left: Sizes,
}
