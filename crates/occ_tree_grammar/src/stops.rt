//! Where a line leaves the grammar, and what has to stand there.

ghost use Rattle.std.specs.Prelude.{◌≡◌, length};

use occ_text::Token;

/// Where a line leaves the grammar: at the furthest word that its reader came to.
#[derive(Clone, Copy, Debug)]
pub struct Stop {
    /// How many words of the line are left, of which the first may not stand there. It is 0 where the line ends too early, and
    /// `usize::MAX` where the whole line may not stand at its place.
    pub left: usize,
    /// What has to stand there.
    pub wanted: Wanted,
}

impl Stop {
    /// In front of these words, which are the last ones of a line.
    pub fn before(tokens: &[Token], wanted: Wanted) -> Stop
        ensures place { result.left ≡ length tokens.now }
        ensures said { result.wanted ≡ wanted }
    {
        Stop {
            left: tokens.len(),
            wanted,
        }
    }
}

/// What has to stand where a line leaves the grammar. A variant that has the name of a word or a symbol stands for that one.
#[derive(Clone, Copy, Debug)]
pub enum Wanted {
    /// What may begin a line at this place of the source.
    Begin,
    /// The end of the line.
    End,
    /// The end of the line, behind an expression.
    ExpressionEnd,
    /// An expression, or an operand of one.
    Operand,
    /// A variable.
    Variable,
    /// A name to declare.
    NewName,
    /// A primitive type.
    Primitive,
    /// A part of a message. Behind `OF` a protocol may stand too.
    Part,
    /// The type of a value. Behind a `VAL` that begins the line a name may stand too.
    ValueType,
    /// A formal.
    Formal,
    /// A type or `CHAN`, at the front of a declaration.
    Declared,
    Int,
    Of,
    Is,
    For,
    Alt,
    Equal,
    OpenParen,
    CloseParen,
    CloseBracket,
    Question,
    Ampersand,
    /// `?` or `&`
    Guard,
    /// `:=`, behind the variables at the front of a process. Behind a single one `?` or `!` may stand too.
    Action,
    /// `,` or `:`, behind a new name.
    Names,
    /// `;` or `:`
    Parts,
    /// `:`, behind a value.
    Colon,
    /// The colon that ends a procedure or a protocol with tags.
    LastColon,
    /// `,` or `)`, behind an actual.
    Actuals,
    /// `,` or `)`, behind a formal.
    Formals,
}
