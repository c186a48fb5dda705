//! Expressions.

ghost use Rattle.std.specs.Prelude.{◌≡◌, option_map};
ghost use Rattle.occ_tree_grammar.specs.Expressions.Trees.{expression_of, operand_of};
ghost use Rattle.occ_tree_grammar.specs.Lines.Views.{var_of};
ghost use Rattle.occ_tree_grammar.specs.Lines.HeadReading.{as_var, operand_var};

use crate::tree::line::Var;
use occ_held::letters::Letters;

/// A primitive type.
#[derive(Clone, Copy)]
pub enum Primitive {
    /// `BOOL`
    Bool,
    /// `BYTE`
    Byte,
    /// `INT`
    Int,
}

/// A primitive type.
pub type Prim = Primitive;

/// A two-sided operator, by its spelling.
#[derive(Clone, Copy)]
pub enum Dyadic {
    /// `+`
    Add,
    /// `-`
    Subtract,
    /// `*`
    Multiply,
    /// `/`
    Divide,
    /// `\`
    Remainder,
    /// `REM`
    Rem,
    /// `PLUS`
    Plus,
    /// `MINUS`
    Minus,
    /// `TIMES`
    Times,
    /// `/\`
    BitAndSign,
    /// `BITAND`
    BitAnd,
    /// `\/`
    BitOrSign,
    /// `BITOR`
    BitOr,
    /// `><`
    BitXor,
    /// `<<`
    ShiftLeft,
    /// `>>`
    ShiftRight,
    /// `AFTER`
    After,
    /// `=`
    Equal,
    /// `<>`
    Unequal,
    /// `<`
    Less,
    /// `>`
    Greater,
    /// `<=`
    AtMost,
    /// `>=`
    AtLeast,
}

/// A one-sided operator, by its spelling.
#[derive(Clone, Copy)]
pub enum Monadic {
    /// `-`
    Negate,
    /// `~`
    Tilde,
    /// `BITNOT`
    BitNot,
    /// `NOT`
    Not,
    /// `SIZE`
    Size,
}

/// An operator that joins any number of operands.
#[derive(Clone, Copy)]
pub enum Logic {
    /// `AND`
    And,
    /// `OR`
    Or,
}

/// A literal, as the value that it stands for.
pub enum Literal {
    /// A number.
    Number(i32),
    /// A byte.
    Byte(u8),
    /// A string: its bytes.
    Text(Letters),
}

impl Drop for Literal {
    fn drop(self) {
        match self {
            Literal::Number(_) => {}
            Literal::Byte(_) => {}
            Literal::Text(_) => {}
        }
    }
}

/// An expression. It stands in one logical line, whose number is that of what it stands in.
#[cycle(expr)]
pub enum Expr {
    /// An operand alone.
    Operand(Operand),
    /// Two operands and the operator between them.
    Two(Operand, Dyadic, Operand),
    /// An operator and its operand.
    One(Monadic, Operand),
    /// A conversion to the type.
    Convert(Prim, Operand),
    /// `MOSTPOS INT`
    MostPos,
    /// `MOSTNEG INT`
    MostNeg,
    /// Two or more operands joined by one operator. The chain groups to the left.
    Chain(Logic, Operand, Operand, Vec<Operand>),
}

impl Drop for Expr {
    #[cycle(expr)]
    fn drop(self) {
        match self {
            Expr::Operand(_) => {}
            Expr::Two(_, _, _) => {}
            Expr::One(_, _) => {}
            Expr::Convert(_, _) => {}
            Expr::MostPos => {}
            Expr::MostNeg => {}
            Expr::Chain(_, _, _, _) => {}
        }
    }
}

/// An operand.
#[cycle(expr)]
pub enum Operand {
    /// A name with its subscripts.
    Variable(Letters, Vec<Expr>),
    /// A literal, with its type where that is given.
    Literal(Literal, Option<Prim>),
    /// `TRUE` or `FALSE`
    Truth(bool),
    /// An expression in parentheses.
    Parens(Box<Expr>),
}

impl Drop for Operand {
    #[cycle(expr)]
    fn drop(self) {
        match self {
            Operand::Variable(_, _) => {}
            Operand::Literal(_, _) => {}
            Operand::Truth(_) => {}
            Operand::Parens(_) => {}
        }
    }
}

impl Expr {
    /// The variable or the channel that the expression is, where it is one.
    pub fn into_var(self) -> Option<Var>
        ensures { option_map var_of result ≡ as_var (expression_of self) }
    {
        match self {
            Expr::Operand(operand) => operand.into_var(),
            _ => None,
        }
    }
}

impl Operand {
    /// The variable or the channel that the operand is, where it is one.
    pub fn into_var(self) -> Option<Var>
        ensures { option_map var_of result ≡ operand_var (operand_of self) }
    {
        match self {
            Operand::Variable(name, subscripts) => Some(Var { name, subscripts }),
            _ => None,
        }
    }
}
