//! Numbers.

ghost use Rattle.std.specs.Prelude.{◌<◌, ◌^◌, IfErr, SomeIff};
ghost use Rattle.occ_text.specs.Faults.{Names};
ghost use Rattle.occ_text.specs.Words.{word};
ghost use Rattle.occ_text.specs.Spelling.{value};
ghost use Rattle.occ_text.specs.Reading.{decimal_at, pattern_at, ReadsBytes};

use crate::class::{Class, digit, split_run};
use crate::fault::TextFault;
use crate::token::Token;

/// The largest decimal number.
const LARGEST: u32 = 2_147_483_647;

/// The most digits of a 32-bit pattern.
const PATTERN_DIGITS: usize = 8;

/// The number that the digits stand for, if it has 32 bits.
fn number(base: u32, digits: &[u8]) -> Option<u32>
    requires { 0 < base }
    ensures { SomeIff result (value base digits.now < 2 ^ 32) (value base digits.now) }
{
    let mut number: u32 = 0;
    for byte in digits {
        number = number
            .checked_mul(base)?
            .checked_add(u32::from(digit(*byte)))?;
    }
    Some(number)
}

/// A decimal number at the front, and what follows it.
#[tactic(auto, unfolding(crate::specs::Reading::decimal_at))]
pub fn decimal(line: u32, bytes: &[u8]) -> Result<(Token, &[u8]), TextFault>
    ensures value { ReadsBytes word result decimal_at bytes.now }
    ensures line { IfErr result (Names line) }
{
    let (digits, rest) = split_run(Class::Digit, bytes);
    match number(10, digits) {
        Some(number) if number <= LARGEST => Ok((Token::Number(number as i32), rest)),
        _ => Err(TextFault::BadLiteral { line }),
    }
}

/// The digits of a 32-bit pattern, which stand behind `#`, and what follows them.
#[tactic(auto, unfolding(crate::specs::Reading::pattern_at))]
pub fn pattern(line: u32, bytes: &[u8]) -> Result<(Token, &[u8]), TextFault>
    ensures value { ReadsBytes word result pattern_at bytes.now }
    ensures line { IfErr result (Names line) }
{
    let (digits, rest) = split_run(Class::HexDigit, bytes);
    if digits.is_empty() || digits.len() > PATTERN_DIGITS {
        return Err(TextFault::BadLiteral { line });
    }
    match number(16, digits) {
        Some(pattern) => Ok((Token::Number(pattern.cast_signed()), rest)),
        None => Err(TextFault::BadLiteral { line }),
    }
}
