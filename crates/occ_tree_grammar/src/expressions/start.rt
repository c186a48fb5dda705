//! Which words begin an expression, and which go on with one.

ghost use Rattle.std.specs.Prelude.{◌≡◌};
ghost use Rattle.occ_text.specs.Words.{word};
ghost use Rattle.occ_tree_grammar.specs.Expressions.Reading.{start_of, link_of};

use crate::tree::expr::{Dyadic, Logic, Monadic, Prim};
use occ_text::{Key, Sym, Token};

/// How an expression starts.
pub enum Start {
    /// By an operator.
    Monadic(Monadic),
    /// By the type of a conversion.
    Convert(Prim),
    /// By `MOSTPOS`.
    MostPos,
    /// By `MOSTNEG`.
    MostNeg,
    /// By an operand.
    Operand,
}

pub fn start_with(first: &Token) -> Start
    ensures { result ≡ start_of (word first.now) }
{
    match first {
        Token::Sym(Sym::Minus) => Start::Monadic(Monadic::Negate),
        Token::Sym(Sym::Tilde) => Start::Monadic(Monadic::Tilde),
        Token::Key(Key::BitNot) => Start::Monadic(Monadic::BitNot),
        Token::Key(Key::Not) => Start::Monadic(Monadic::Not),
        Token::Key(Key::Size) => Start::Monadic(Monadic::Size),
        Token::Key(Key::Bool) => Start::Convert(Prim::Bool),
        Token::Key(Key::Byte) => Start::Convert(Prim::Byte),
        Token::Key(Key::Int) => Start::Convert(Prim::Int),
        Token::Key(Key::MostPos) => Start::MostPos,
        Token::Key(Key::MostNeg) => Start::MostNeg,
        _ => Start::Operand,
    }
}

/// What joins an operand to the next.
pub enum Link {
    /// An operator between two operands.
    Dyadic(Dyadic),
    /// An operator of a chain.
    Logic(Logic),
    /// Nothing: the expression ends.
    End,
}

pub fn link_to(first: &Token) -> Link
    ensures { result ≡ link_of (word first.now) }
{
    match first {
        Token::Sym(Sym::Plus) => Link::Dyadic(Dyadic::Add),
        Token::Sym(Sym::Minus) => Link::Dyadic(Dyadic::Subtract),
        Token::Sym(Sym::Times) => Link::Dyadic(Dyadic::Multiply),
        Token::Sym(Sym::Divide) => Link::Dyadic(Dyadic::Divide),
        Token::Sym(Sym::Remainder) => Link::Dyadic(Dyadic::Remainder),
        Token::Key(Key::Rem) => Link::Dyadic(Dyadic::Rem),
        Token::Key(Key::Plus) => Link::Dyadic(Dyadic::Plus),
        Token::Key(Key::Minus) => Link::Dyadic(Dyadic::Minus),
        Token::Key(Key::Times) => Link::Dyadic(Dyadic::Times),
        Token::Sym(Sym::BitAnd) => Link::Dyadic(Dyadic::BitAndSign),
        Token::Key(Key::BitAnd) => Link::Dyadic(Dyadic::BitAnd),
        Token::Sym(Sym::BitOr) => Link::Dyadic(Dyadic::BitOrSign),
        Token::Key(Key::BitOr) => Link::Dyadic(Dyadic::BitOr),
        Token::Sym(Sym::BitXor) => Link::Dyadic(Dyadic::BitXor),
        Token::Sym(Sym::ShiftLeft) => Link::Dyadic(Dyadic::ShiftLeft),
        Token::Sym(Sym::ShiftRight) => Link::Dyadic(Dyadic::ShiftRight),
        Token::Key(Key::After) => Link::Dyadic(Dyadic::After),
        Token::Sym(Sym::Equal) => Link::Dyadic(Dyadic::Equal),
        Token::Sym(Sym::NotEqual) => Link::Dyadic(Dyadic::Unequal),
        Token::Sym(Sym::Less) => Link::Dyadic(Dyadic::Less),
        Token::Sym(Sym::Greater) => Link::Dyadic(Dyadic::Greater),
        Token::Sym(Sym::LessEqual) => Link::Dyadic(Dyadic::AtMost),
        Token::Sym(Sym::GreaterEqual) => Link::Dyadic(Dyadic::AtLeast),
        Token::Key(Key::And) => Link::Logic(Logic::And),
        Token::Key(Key::Or) => Link::Logic(Logic::Or),
        _ => Link::End,
    }
}
