//! Single words that must or may stand at the front.

ghost use Rattle.std.specs.Prelude.{◌≡◌};
ghost use Rattle.occ_text.specs.Words.{words};
ghost use Rattle.occ_tree_grammar.specs.Fronts.{ReadsWords, StepsOver, words_found};
ghost use Rattle.occ_tree_grammar.specs.Expressions.Reading.{after_open_bracket, after_close, after_close_bracket, after_int, prim_at, after_logic};

use occ_text::{Key, Sym, Token};
use occ_tree_grammar::tree::expr::{Logic, Prim};
use occ_tree_grammar::{ParseFault, Stop, Wanted};

pub fn open_bracket(tokens: &[Token]) -> Option<&[Token]>
    ensures { words_found result ≡ after_open_bracket (words tokens.now) }
{
    match tokens {
        [Token::Sym(Sym::OpenBracket), rest @ ..] => Some(rest),
        _ => None,
    }
}

/// The bracket that closes. `wanted` says what else may stand there.
pub fn close(line: u32, wanted: Wanted, tokens: &[Token]) -> Result<&[Token], ParseFault>
    ensures { StepsOver result after_close tokens.now }
{
    match tokens {
        [Token::Sym(Sym::CloseParen), rest @ ..] => Ok(rest),
        _ => Err(ParseFault::Unexpected(line, Stop::before(tokens, wanted))),
    }
}

pub fn close_bracket(line: u32, tokens: &[Token]) -> Result<&[Token], ParseFault>
    ensures { StepsOver result after_close_bracket tokens.now }
{
    match tokens {
        [Token::Sym(Sym::CloseBracket), rest @ ..] => Ok(rest),
        _ => Err(ParseFault::Unexpected(line, Stop::before(tokens, Wanted::CloseBracket))),
    }
}

pub fn int(line: u32, tokens: &[Token]) -> Result<&[Token], ParseFault>
    ensures { StepsOver result after_int tokens.now }
{
    match tokens {
        [Token::Key(Key::Int), rest @ ..] => Ok(rest),
        _ => Err(ParseFault::Unexpected(line, Stop::before(tokens, Wanted::Int))),
    }
}

/// Where a line without a type here leaves the grammar. A channel needs `OF` behind `CHAN`.
fn stop_of_type(wanted: Wanted, tokens: &[Token]) -> Stop {
    let takes_channel = matches!(wanted, Wanted::Declared | Wanted::Formal);
    match tokens {
        [Token::Key(Key::Chan), rest @ ..] if takes_channel => Stop::before(rest, Wanted::Of),
        _ => Stop::before(tokens, wanted),
    }
}

/// A primitive type, where `wanted` has to stand.
pub fn prim(line: u32, wanted: Wanted, tokens: &[Token]) -> Result<(Prim, &[Token]), ParseFault>
    ensures { ReadsWords (λ p. p) result prim_at tokens.now }
{
    match tokens {
        [Token::Key(Key::Bool), rest @ ..] => Ok((Prim::Bool, rest)),
        [Token::Key(Key::Byte), rest @ ..] => Ok((Prim::Byte, rest)),
        [Token::Key(Key::Int), rest @ ..] => Ok((Prim::Int, rest)),
        _ => Err(ParseFault::Unexpected(line, stop_of_type(wanted, tokens))),
    }
}

/// The words after the operator, where it stands.
pub fn joined(logic: Logic, tokens: &[Token]) -> Option<&[Token]>
    ensures { words_found result ≡ after_logic logic (words tokens.now) }
{
    match (logic, tokens) {
        (Logic::And, [Token::Key(Key::And), rest @ ..]) => Some(rest),
        (Logic::Or, [Token::Key(Key::Or), rest @ ..]) => Some(rest),
        _ => None,
    }
}
