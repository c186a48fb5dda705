//! What a refusal tells: its number, its line, what the reader of lines told of it, and a name.

use occ_tree_grammar::Stop;

/// What the reader of lines told of a refusal.
#[derive(Clone, Copy)]
pub enum Reader {
    /// Nothing: the refusal is another one's.
    Nothing,
    /// Where the line leaves the grammar.
    Stop(Stop),
    /// The level at which a line has to stand.
    Level(u32),
}

/// A refusal of a text. `line` is 0 where it has none, and `name` is empty where it has none.
#[derive(Clone, Copy)]
pub struct Refusal<'a> {
    pub number: u32,
    pub line: u32,
    pub reader: Reader,
    pub name: &'a [u8],
}
