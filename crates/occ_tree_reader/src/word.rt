//! Single words of a line that must or may stand at the front.

ghost use Rattle.std.specs.Prelude.{◌≡◌};
ghost use Rattle.occ_text.specs.Words.{words};
ghost use Rattle.occ_tree_grammar.specs.Fronts.{ReadsWords, StepsOver, words_found};
ghost use Rattle.occ_tree_grammar.specs.Lines.Reading.{after_separator, name_at, after_assign, after_question, after_for, after_is, after_colon};

use occ_held::letters::Letters;
use occ_text::{Key, Sym, Token};
use occ_tree_grammar::lines::separator::Separator;
use occ_tree_grammar::{ParseFault, Stop, Wanted};

/// The words after the separator, where it stands.
pub fn separated(by: Separator, tokens: &[Token]) -> Option<&[Token]>
    ensures { words_found result ≡ after_separator by (words tokens.now) }
{
    match (by, tokens) {
        (Separator::Comma, [Token::Sym(Sym::Comma), rest @ ..]) => Some(rest),
        (Separator::Semicolon, [Token::Sym(Sym::Semicolon), rest @ ..]) => Some(rest),
        _ => None,
    }
}

/// A name.
pub fn name(line: u32, tokens: &[Token]) -> Result<(Letters, &[Token]), ParseFault>
    ensures { ReadsWords (λ v. v) result name_at tokens.now }
{
    match tokens {
        [Token::Name(name), rest @ ..] => Ok((name.copy()?, rest)),
        _ => Err(ParseFault::Unexpected(line, Stop::before(tokens, Wanted::NewName))),
    }
}

/// Where a line leaves the grammar in which a name has to stand here, and `behind` after it.
pub(crate) fn stop_behind(behind: Wanted, name: Wanted, tokens: &[Token]) -> Stop {
    match tokens {
        [Token::Name(_), rest @ ..] => Stop::before(rest, behind),
        _ => Stop::before(tokens, name),
    }
}

pub fn assign(line: u32, tokens: &[Token]) -> Result<&[Token], ParseFault>
    ensures { StepsOver result after_assign tokens.now }
{
    match tokens {
        [Token::Sym(Sym::Assign), rest @ ..] => Ok(rest),
        _ => Err(ParseFault::Unexpected(line, Stop::before(tokens, Wanted::Action))),
    }
}

pub fn question(line: u32, tokens: &[Token]) -> Result<&[Token], ParseFault>
    ensures { StepsOver result after_question tokens.now }
{
    match tokens {
        [Token::Sym(Sym::Question), rest @ ..] => Ok(rest),
        _ => Err(ParseFault::Unexpected(line, Stop::before(tokens, Wanted::Question))),
    }
}

pub fn for_count(line: u32, tokens: &[Token]) -> Result<&[Token], ParseFault>
    ensures { StepsOver result after_for tokens.now }
{
    match tokens {
        [Token::Key(Key::For), rest @ ..] => Ok(rest),
        _ => Err(ParseFault::Unexpected(line, Stop::before(tokens, Wanted::For))),
    }
}

pub fn is(line: u32, tokens: &[Token]) -> Result<&[Token], ParseFault>
    ensures { StepsOver result after_is tokens.now }
{
    match tokens {
        [Token::Key(Key::Is), rest @ ..] => Ok(rest),
        _ => Err(ParseFault::Unexpected(line, Stop::before(tokens, Wanted::Is))),
    }
}

pub fn colon(line: u32, wanted: Wanted, tokens: &[Token]) -> Result<&[Token], ParseFault>
    ensures { StepsOver result after_colon tokens.now }
{
    match tokens {
        [Token::Sym(Sym::Colon), rest @ ..] => Ok(rest),
        _ => Err(ParseFault::Unexpected(line, Stop::before(tokens, wanted))),
    }
}
