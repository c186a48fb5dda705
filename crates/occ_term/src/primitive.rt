//! The primitive types.

/// A primitive type. A value of each is a whole number: FALSE is 0, TRUE is 1.
#[derive(Clone, Copy, Debug, PartialEq, Eq)]
pub enum Primitive {
    /// BOOL: 0 or 1.
    Bool,
    /// BYTE: 0 to 255.
    Byte,
    /// INT: 32 bits, signed.
    Int,
}

/// The short name of `Primitive`.
pub type Prim = Primitive;
