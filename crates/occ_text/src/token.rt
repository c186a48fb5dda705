//! Words and lines.

use occ_held::letters::Letters;

/// A reserved word. The word is spelled in capitals; each variant has its letters.
#[derive(Clone, Copy, Debug, PartialEq)]
pub enum Key {
    After,
    Alt,
    And,
    Any,
    At,
    BitAnd,
    BitNot,
    BitOr,
    Bool,
    Byte,
    Case,
    Chan,
    Else,
    False,
    For,
    From,
    Function,
    If,
    Int,
    Int16,
    Int32,
    Int64,
    Is,
    Minus,
    MostNeg,
    MostPos,
    Not,
    Of,
    Or,
    Par,
    Place,
    Placed,
    Plus,
    Port,
    Pri,
    Proc,
    Processor,
    Protocol,
    Real32,
    Real64,
    Rem,
    Result,
    Retypes,
    Round,
    Seq,
    Size,
    Skip,
    Stop,
    Timer,
    Times,
    True,
    Trunc,
    Val,
    Valof,
    While,
}

/// A symbol.
#[derive(Clone, Copy, Debug, PartialEq)]
pub enum Sym {
    /// `:=`
    Assign,
    /// `::`
    DoubleColon,
    /// `:`
    Colon,
    /// `;`
    Semicolon,
    /// `,`
    Comma,
    /// `(`
    OpenParen,
    /// `)`
    CloseParen,
    /// `[`
    OpenBracket,
    /// `]`
    CloseBracket,
    /// `&`
    Ampersand,
    /// `?`
    Question,
    /// `!`
    Exclamation,
    /// `=`
    Equal,
    /// `<>`
    NotEqual,
    /// `<=`
    LessEqual,
    /// `>=`
    GreaterEqual,
    /// `<<`
    ShiftLeft,
    /// `>>`
    ShiftRight,
    /// `><`
    BitXor,
    /// `<`
    Less,
    /// `>`
    Greater,
    /// `+`
    Plus,
    /// `-`
    Minus,
    /// `*`
    Times,
    /// `/\`
    BitAnd,
    /// `/`
    Divide,
    /// `\/`
    BitOr,
    /// `\`
    Remainder,
    /// `~`
    Tilde,
}

/// A word of a line.
#[derive(Drop)]
pub enum Token {
    /// A reserved word.
    Key(Key),
    /// A name: the bytes of its letters, digits and dots.
    Name(Letters),
    /// A number, as the 32-bit value that it stands for.
    Number(i32),
    /// A byte literal: the byte that it stands for.
    Byte(u8),
    /// A string literal: the bytes that it stands for, its escapes resolved.
    Str(Letters),
    /// A symbol.
    Sym(Sym),
}

/// A logical line: its words, with what its indentation says.
#[derive(Drop)]
pub struct Line {
    /// The number, from 1, of the first physical line that it was read from.
    pub number: u32,
    /// Half the leading spaces of that physical line.
    pub level: u32,
    /// The words, in order; there is at least one.
    pub words: Vec<Token>,
}

/// The logical lines of a text, in order.
#[derive(Drop)]
pub struct Source {
    /// The lines.
    pub lines: Vec<Line>,
}
