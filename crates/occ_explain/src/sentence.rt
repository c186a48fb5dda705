//! What is told of a refusal, before it is written: a place and two sentences, whose marks stand for parts of the text.

use crate::scope::Declared;
use crate::types::Typed;

/// What is written in place of a mark. Lines and places are indices: of a line in the text, and of a word in its line.
#[derive(Clone, Copy)]
pub(crate) enum Piece {
    Nothing,
    Text(&'static str),
    Count(usize),
    /// So many of what is named: `1 part`, `2 parts`.
    Counted(usize, &'static str),
    /// The number of a line.
    Line(usize),
    /// A word, whole.
    Word(usize, usize),
    /// A word, as far as words are told.
    Short(usize, usize),
    /// Words from one place up to another, as they stand in the text, each as far as words are told.
    Words(usize, usize, usize),
    /// The same, as far as one word is told.
    Brief(usize, usize, usize),
    /// A whole line, behind its number.
    Head(usize),
    /// Both ways to put brackets round two operators, the second one at this place.
    Bracketed(usize, usize),
    /// What a name is declared as, and in which line.
    Declared(Declared),
    /// The words of an expression.
    Said(Typed),
    /// The type of an expression.
    Typed(Typed),
    /// What the names of a line are declared as.
    Types(usize),
    /// The tags of the protocol that a line declares.
    Tags(usize),
    /// The name that is refused, with its subscripts.
    Name,
    /// The name that is refused, without them.
    Base,
    /// Where the name is used besides this line.
    Uses(usize),
}

pub(crate) use Piece::Nothing;

/// What is told of a refusal: at a word of a line, what is wrong there, and how it is mended. `@1` stands for the first piece.
#[derive(Clone, Copy)]
pub(crate) struct Told {
    pub(crate) line: usize,
    pub(crate) at: usize,
    pub(crate) wrong: &'static str,
    pub(crate) hint: &'static str,
    pub(crate) pieces: [Piece; 4],
}
