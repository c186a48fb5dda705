//! What the formals by reference of PROCs stand for, by the words of the lines of PROCs and of calls.
ghost use Rattle.std.specs.Prelude.{◌≡◌, false, IfOk};
ghost use Rattle.std.specs.List.{list_any};
ghost use Rattle.occ_text.specs.Words.{logical_lines, word, words};
ghost use Rattle.occ_report.specs.Formals.{actual_at, actual_for, actual_text, call_actuals, begins_with_close, begins_with_name, behind_comma, behind_name, declares_between, declares_name, ends_element, ends_with, follow_declared, is_by_value, is_comma, is_declared, is_declaring, is_unsure, line_words, meant_by, next_actuals, number_bytes, outside, subscript_bytes, subscripts_text, text_found, with_actual, lent_words};

use crate::calls::{Call, has_line};
use crate::source_lines::{is_name_part, name_in_front};
use occ_text::{Key, Line, Sym, Token};
use std::alloc::{AllocError, Global};

/// The words of the line of this number; none where there is no such line.
pub(crate) fn line_words(mut lines: &[Line], number: u32) -> &[Token]
    ensures { words result.now ≡ line_words (logical_lines lines.entry.now) number }
{
    while let [line, rest @ ..] = lines {
        if line.number == number {
            return line.words.as_slice();
        }
        lines = rest;
    }
    &[]
}

fn is_comma(token: &Token) -> bool
    ensures { result ≡ is_comma (word token.now) }
{
    matches!(token, Token::Sym(Sym::Comma))
}

/// What stands behind the first comma.
fn behind_comma(mut tokens: &[Token]) -> &[Token]
    ensures { words result.now ≡ behind_comma (words tokens.entry.now) }
{
    while let [token, rest @ ..] = tokens {
        if is_comma(token) {
            return rest;
        }
        tokens = rest;
    }
    &[]
}

/// Whether an element of a list ends before these words.
fn ends_element(tokens: &[Token]) -> bool
    ensures { result ≡ ends_element (words tokens.now) }
{
    matches!(
        tokens,
        [Token::Sym(Sym::Comma), ..] | [Token::Sym(Sym::CloseParen | Sym::Colon)]
    )
}

/// Whether a word is this name, and an element ends with it, before these words.
fn ends_with(own: &[u8], token: &Token, rest: &[Token]) -> bool
    ensures { result ≡ ends_with own.now (word token.now) (words rest.now) }
{
    match token {
        Token::Name(name) => name.as_slice() == own && ends_element(rest),
        _ => false,
    }
}

fn begins_with_name(tokens: &[Token]) -> bool
    ensures { result ≡ begins_with_name (words tokens.now) }
{
    matches!(tokens, [Token::Name(_), ..])
}

/// Whether formals are by value behind a word, before these.
fn is_by_value(before: bool, token: &Token, rest: &[Token]) -> bool
    ensures { result ≡ is_by_value before (word token.now) (words rest.now) }
{
    match token {
        Token::Key(Key::Val) => true,
        Token::Sym(Sym::Comma) => before && begins_with_name(rest),
        _ => before,
    }
}

/// The actuals behind a comma of the formals.
fn next_actuals<'a>(token: &Token, actuals: &'a [Token]) -> &'a [Token]
    ensures { words result.now ≡ next_actuals (word token.now) (words actuals.now) }
{
    if is_comma(token) {
        behind_comma(actuals)
    } else {
        actuals
    }
}

/// The words from the actual on of the formal by reference of this name.
fn actual_for<'a>(own: &[u8], formals: &[Token], actuals: &'a [Token]) -> Option<&'a [Token]>
    ensures { lent_words result
        ≡ actual_for own.now false (words formals.now) (words actuals.now) }
{
    let mut value = false;
    let mut left = actuals;
    let mut rest = formals;
    while let [token, others @ ..] = rest {
        if ends_with(own, token, others) && !value {
            return Some(left);
        }
        value = is_by_value(value, token, others);
        left = next_actuals(token, left);
        rest = others;
    }
    None
}

fn begins_with_close(tokens: &[Token]) -> bool
    ensures { result ≡ begins_with_close (words tokens.now) }
{
    matches!(tokens, [Token::Sym(Sym::CloseBracket), ..])
}

/// The bytes of a number, if a subscript ends behind it.
fn number_bytes(alloc: Global, number: u32, rest: &[Token]) -> Result<Option<Vec<u8>>, AllocError>
    ensures { IfOk result (λ bytes. text_found bytes
        ≡ number_bytes number (words rest.now)) }
{
    if begins_with_close(rest) {
        let text = format!(in alloc; "{number}")?;
        let bytes = Vec::from_slice(alloc, text.as_bytes())?;
        Ok(Some(bytes))
    } else {
        Ok(None)
    }
}

/// The bytes of a word, before these, of subscripts that are written as numbers.
fn subscript_bytes(
    alloc: Global,
    token: &Token,
    rest: &[Token],
) -> Result<Option<Vec<u8>>, AllocError>
    ensures { IfOk result (λ bytes. text_found bytes
        ≡ subscript_bytes (word token.now) (words rest.now)) }
{
    match token {
        Token::Sym(Sym::OpenBracket) => Ok(Some(Vec::from_slice(alloc, b"[")?)),
        Token::Sym(Sym::CloseBracket) => Ok(Some(Vec::from_slice(alloc, b"]")?)),
        Token::Number(number) => number_bytes(alloc, number.unsigned_abs(), rest),
        _ => Ok(None),
    }
}

/// A name with the subscripts behind it, up to one that is not written as a number.
fn subscripts_text(alloc: Global, name: &[u8], tokens: &[Token]) -> Result<Vec<u8>, AllocError>
    ensures { IfOk result (λ v. v.items ≡ subscripts_text name.now (words tokens.now)) }
{
    let mut text = Vec::from_slice(alloc, name)?;
    let mut rest = tokens;
    while let [token, others @ ..] = rest {
        let Some(bytes) = subscript_bytes(alloc, token, others)? else {
            return Ok(text);
        };
        text.extend_from_slice(bytes.as_slice())?;
        rest = others;
    }
    Ok(text)
}

/// The actual with which these words begin.
fn actual_text(alloc: Global, tokens: &[Token]) -> Result<Vec<u8>, AllocError>
    ensures { IfOk result (λ v. v.items ≡ actual_text (words tokens.now)) }
{
    match tokens {
        [Token::Name(name), rest @ ..] => subscripts_text(alloc, name.as_slice(), rest),
        _ => Ok(Vec::new(alloc)),
    }
}

/// The actuals of a line that is a call.
fn call_actuals(tokens: &[Token]) -> &[Token]
    ensures { words result.now ≡ call_actuals (words tokens.now) }
{
    match tokens {
        [_, _, rest @ ..] => rest,
        _ => &[],
    }
}

/// The actual of the formal by reference of this name of a call.
pub(crate) fn actual_at(
    alloc: Global,
    lines: &[Line],
    call: Call,
    own: &[u8],
) -> Result<Option<Vec<u8>>, AllocError>
    ensures { IfOk result (λ a. text_found a
        ≡ actual_at (logical_lines lines.now) call own.now) }
{
    let formals = line_words(lines, call.first);
    let actuals = call_actuals(line_words(lines, call.line));
    match actual_for(own, formals, actuals) {
        Some(actual) => Ok(Some(actual_text(alloc, actual)?)),
        None => Ok(None),
    }
}

/// Whether it isn't known for what a text stands.
pub(crate) fn is_unsure(text: &[u8]) -> bool
    ensures { result ≡ is_unsure text.now }
{
    match text {
        [.., last] => *last == b'[',
        [] => true,
    }
}

/// Whether a declaration, the head of a PROC or a replicator has such a word, and no other line.
fn is_declaring(token: &Token) -> bool
    ensures { result ≡ is_declaring (word token.now) }
{
    matches!(
        token,
        Token::Sym(Sym::Colon) | Token::Key(Key::Proc | Key::For)
    )
}

/// Whether one of these words is such a word.
fn has_declaring(mut tokens: &[Token]) -> bool
    ensures { result ≡ list_any is_declaring (words tokens.entry.now) }
{
    while let [token, rest @ ..] = tokens {
        if is_declaring(token) {
            return true;
        }
        tokens = rest;
    }
    false
}

/// Whether these words may stand there behind a name that is declared.
fn follow_declared(tokens: &[Token]) -> bool
    ensures { result ≡ follow_declared (words tokens.now) }
{
    match tokens {
        [Token::Key(Key::Is) | Token::Sym(Sym::Equal), ..] => true,
        _ => ends_element(tokens),
    }
}

/// Whether a word is this name, and may be declared, before these words.
fn is_declared(own: &[u8], token: &Token, rest: &[Token]) -> bool
    ensures { result ≡ is_declared own.now (word token.now) (words rest.now) }
{
    match token {
        Token::Name(name) => name.as_slice() == own && follow_declared(rest),
        _ => false,
    }
}

fn declares_name(own: &[u8], mut tokens: &[Token]) -> bool
    ensures { result ≡ declares_name own.now (words tokens.entry.now) }
{
    while let [token, rest @ ..] = tokens {
        if is_declared(own, token, rest) {
            return true;
        }
        tokens = rest;
    }
    false
}

/// Whether one of the lines between these two may declare a name.
fn declares_between(first: u32, last: u32, own: &[u8], mut lines: &[Line]) -> bool
    ensures { result ≡ declares_between first last own.now (logical_lines lines.entry.now) }
{
    while let [line, rest @ ..] = lines {
        let words = line.words.as_slice();
        if first < line.number
            && line.number < last
            && has_declaring(words)
            && declares_name(own, words)
        {
            return true;
        }
        lines = rest;
    }
    false
}

/// For what a formal by reference of a call stands in this line of its PROC.
fn meant_by(
    alloc: Global,
    lines: &[Line],
    call: Call,
    line: u32,
    own: &[u8],
) -> Result<Option<Vec<u8>>, AllocError>
    ensures { IfOk result (λ a. text_found a
        ≡ meant_by (logical_lines lines.now) call line own.now) }
{
    if !has_line(line, &call) {
        return Ok(None);
    }
    let Some(actual) = actual_at(alloc, lines, call, own)? else {
        return Ok(None);
    };
    if declares_between(call.first, call.last, own, lines) {
        return Ok(Some(Vec::new(alloc)));
    }
    Ok(Some(actual))
}

/// What stands behind the name in front of a text.
fn behind_name(mut text: &[u8]) -> &[u8]
    ensures { result.now ≡ behind_name text.entry.now }
{
    while let [byte, rest @ ..] = text {
        if !is_name_part(*byte) {
            break;
        }
        text = rest;
    }
    text
}

/// A text with an actual for the name in its front.
fn with_actual(actual: Vec<u8>, text: &[u8]) -> Result<Vec<u8>, AllocError>
    ensures { IfOk result (λ v. v.items ≡ with_actual actual.items text.now) }
{
    if is_unsure(actual.as_slice()) {
        return Ok(actual);
    }
    let mut replaced = actual;
    replaced.extend_from_slice(behind_name(text))?;
    Ok(replaced)
}

/// A text, and the line in which it stands, as outside of the PROC of a call.
pub(crate) fn outside(
    alloc: Global,
    lines: &[Line],
    call: Option<Call>,
    line: u32,
    text: Vec<u8>,
) -> Result<(u32, Vec<u8>), AllocError>
    ensures { IfOk result (λ at. (at.0, at.1.items)
        ≡ outside (logical_lines lines.now) call (line, text.items)) }
{
    let Some(call) = call else {
        return Ok((line, text));
    };
    match meant_by(alloc, lines, call, line, name_in_front(text.as_slice()))? {
        Some(actual) => Ok((call.line, with_actual(actual, text.as_slice())?)),
        None => Ok((line, text)),
    }
}
