//! Symbols.

ghost use Rattle.std.specs.Prelude.{◌≡◌, IfErr};
ghost use Rattle.occ_text.specs.Faults.{Names};
ghost use Rattle.occ_text.specs.Words.{word};
ghost use Rattle.occ_text.specs.Reading.{double_of, single_of, symbol_at, ReadsBytes};

use crate::fault::TextFault;
use crate::token::{Sym, Token};

/// The symbol of these two bytes.
#[tactic(auto, unfolding(crate::specs::Reading::double_of))]
fn double(first: u8, second: u8) -> Option<Sym>
    ensures { result ≡ double_of first second }
{
    match (first, second) {
        (b':', b'=') => Some(Sym::Assign),
        (b':', b':') => Some(Sym::DoubleColon),
        (b'<', b'>') => Some(Sym::NotEqual),
        (b'<', b'=') => Some(Sym::LessEqual),
        (b'>', b'=') => Some(Sym::GreaterEqual),
        (b'<', b'<') => Some(Sym::ShiftLeft),
        (b'>', b'>') => Some(Sym::ShiftRight),
        (b'>', b'<') => Some(Sym::BitXor),
        (b'/', b'\\') => Some(Sym::BitAnd),
        (b'\\', b'/') => Some(Sym::BitOr),
        _ => None,
    }
}

/// The symbol of this byte alone.
#[tactic(auto, unfolding(crate::specs::Reading::single_of))]
fn single(byte: u8) -> Option<Sym>
    ensures { result ≡ single_of byte }
{
    match byte {
        b':' => Some(Sym::Colon),
        b';' => Some(Sym::Semicolon),
        b',' => Some(Sym::Comma),
        b'(' => Some(Sym::OpenParen),
        b')' => Some(Sym::CloseParen),
        b'[' => Some(Sym::OpenBracket),
        b']' => Some(Sym::CloseBracket),
        b'&' => Some(Sym::Ampersand),
        b'?' => Some(Sym::Question),
        b'!' => Some(Sym::Exclamation),
        b'=' => Some(Sym::Equal),
        b'<' => Some(Sym::Less),
        b'>' => Some(Sym::Greater),
        b'+' => Some(Sym::Plus),
        b'-' => Some(Sym::Minus),
        b'*' => Some(Sym::Times),
        b'/' => Some(Sym::Divide),
        b'\\' => Some(Sym::Remainder),
        b'~' => Some(Sym::Tilde),
        _ => None,
    }
}

/// The longest symbol at the front, and what follows it.
#[tactic(auto, unfolding(crate::specs::Reading::symbol_at))]
pub fn symbol(line: u32, bytes: &[u8]) -> Result<(Token, &[u8]), TextFault>
    ensures value { ReadsBytes word result symbol_at bytes.now }
    ensures line { IfErr result (Names line) }
{
    if let [first, second, rest @ ..] = bytes
        && let Some(symbol) = double(*first, *second)
    {
        return Ok((Token::Sym(symbol), rest));
    }
    if let [first, rest @ ..] = bytes
        && let Some(symbol) = single(*first)
    {
        return Ok((Token::Sym(symbol), rest));
    }
    Err(TextFault::BadByte { line })
}
