//! How variables are told by the names in a line.
ghost use Rattle.std.specs.Prelude.{◌≡◌, IfOk, OnOk};
ghost use Rattle.occ_text.specs.Words.{logical_lines, word, words};
ghost use Rattle.occ_shown.specs.Answers.{AddsText};
ghost use Rattle.occ_report.specs.Naming.{all_same, begins_subscript, behind_front, if_same, keeps_subscript, may_be_kept, may_mean, means, lent, name_of_word, names_it, one_keeps, only_name, told_as, told_by, by_name};

use crate::calls::{Call, call_at, outwards};
use crate::formals::{actual_at, is_unsure, line_words, outside};
use occ_text::{Line, Token};
use std::alloc::{AllocError, Global};

/// By what variables are named in a line of the source: its logical lines, the calls that may hold the line, and the numbers of those that
/// led there, innermost first.
#[derive(Clone, Copy)]
pub(crate) struct Naming<'a> {
    pub(crate) lines: &'a [Line],
    pub(crate) line: u32,
    pub(crate) calls: &'a [Call],
    pub(crate) holders: &'a [usize],
    pub(crate) numbers: &'a [usize],
}

/// What stands behind the front of a name.
fn behind_front<'a>(front: &[u8], own: &'a [u8]) -> &'a [u8]
    ensures { result.now ≡ behind_front front.now own.now }
{
    let end = front.len().min(own.len());
    &own[end..]
}

/// Whether nothing or a subscript stands there.
fn begins_subscript(text: &[u8]) -> bool
    ensures { result ≡ begins_subscript text.now }
{
    match text {
        [byte, ..] => *byte == b'[',
        [] => true,
    }
}

/// Whether a text may stand for the variable of this name, or for an array of which it is a component.
fn may_mean(text: &[u8], own: &[u8]) -> bool
    ensures { result ≡ may_mean text.now own.now }
{
    let end = text.len().min(own.len());
    &own[..end] == text && (is_unsure(text) || begins_subscript(behind_front(text, own)))
}

/// What a name in the line stands for.
fn meaning(alloc: Global, naming: Naming<'_>, name: &[u8]) -> Result<Vec<u8>, AllocError>
    ensures { IfOk result (λ v. v.items ≡ means naming.entry name.now) }
{
    let mut line = naming.line;
    let mut text = Vec::from_slice(alloc, name)?;
    let mut rest = naming.numbers;
    while let Some((number, others)) = rest.split_first() {
        let call = call_at(naming.calls, *number);
        let (next, meant) = outside(alloc, naming.lines, call, line, text)?;
        line = next;
        text = meant;
        rest = others;
    }
    Ok(text)
}

/// Whether a word may name the variable of this name.
fn names_it(
    alloc: Global,
    naming: Naming<'_>,
    own: &[u8],
    token: &Token,
) -> Result<bool, AllocError>
    ensures { IfOk result
        (λ b. b ≡ names_it (means naming.entry) own.now (word token.now)) }
{
    match token {
        Token::Name(name) => {
            let text = meaning(alloc, naming, name.as_slice())?;
            Ok(may_mean(text.as_slice(), own))
        }
        _ => Ok(false),
    }
}

/// The letters of a name.
fn name_of_word(token: &Token) -> &[u8]
    ensures { result.now ≡ name_of_word (word token.now) }
{
    match token {
        Token::Name(name) => name.as_slice(),
        _ => &[],
    }
}

/// Whether each of these words that may name a variable is this name.
fn all_same(
    alloc: Global,
    naming: Naming<'_>,
    own: &[u8],
    name: &[u8],
    tokens: &[Token],
) -> Result<bool, AllocError>
    ensures { IfOk result
        (λ b. b ≡ all_same (means naming.entry) own.now name.now (words tokens.now)) }
{
    let mut rest = tokens;
    while let [token, others @ ..] = rest {
        if names_it(alloc, naming, own, token)? && name_of_word(token) != name {
            return Ok(false);
        }
        rest = others;
    }
    Ok(true)
}

/// The name itself, if each of these words that may name a variable is this name.
fn if_same<'a>(
    alloc: Global,
    naming: Naming<'_>,
    own: &[u8],
    name: &'a [u8],
    tokens: &[Token],
) -> Result<Option<&'a [u8]>, AllocError>
    ensures { IfOk result (λ x. lent x
        ≡ if_same (means naming.entry) own.now name.now (words tokens.now)) }
{
    if all_same(alloc, naming, own, name, tokens)? {
        Ok(Some(name))
    } else {
        Ok(None)
    }
}

/// The one name among these words that may name a variable, if there is just one.
fn only_name<'a>(
    alloc: Global,
    naming: Naming<'_>,
    own: &[u8],
    tokens: &'a [Token],
) -> Result<Option<&'a [u8]>, AllocError>
    ensures { IfOk result (λ x. lent x
        ≡ only_name (means naming.entry) own.now (words tokens.now)) }
{
    let mut rest = tokens;
    while let [token, others @ ..] = rest {
        if names_it(alloc, naming, own, token)? {
            return if_same(alloc, naming, own, name_of_word(token), others);
        }
        rest = others;
    }
    Ok(None)
}

/// A variable by a name with this meaning.
fn write_as(out: &mut Vec<u8>, name: &[u8], meaning: &[u8], own: &[u8]) -> Result<(), AllocError>
    ensures { OnOk result (AddsText out.old out.new (told_as name.now meaning.now own.now)) }
{
    if name == meaning || is_unsure(meaning) {
        return out.extend_from_slice(own);
    }
    out.extend_from_slice(name)?;
    out.extend_from_slice(behind_front(meaning, own))?;
    out.extend_from_slice(b" (")?;
    out.extend_from_slice(own)?;
    out.extend_from_slice(b")")
}

/// A variable by the one name that may name it, if there is one.
fn write_by_name(
    alloc: Global,
    out: &mut Vec<u8>,
    naming: Naming<'_>,
    own: &[u8],
    found: Option<&[u8]>,
) -> Result<(), AllocError>
    ensures { OnOk result (AddsText out.old out.new
        (by_name (means naming.entry) own.now (lent found.entry))) }
{
    match found {
        Some(name) => {
            let text = meaning(alloc, naming, name)?;
            write_as(out, name, text.as_slice(), own)
        }
        None => out.extend_from_slice(own),
    }
}

/// Whether a formal of this name of a call stands for a component under a computed subscript.
fn keeps_subscript(
    alloc: Global,
    lines: &[Line],
    own: &[u8],
    call: Option<Call>,
) -> Result<bool, AllocError>
    ensures { IfOk result (λ b. b ≡ keeps_subscript (logical_lines lines.now) own.now call) }
{
    let Some(call) = call else {
        return Ok(false);
    };
    match actual_at(alloc, lines, call, own)? {
        Some(actual) => Ok(is_unsure(actual.as_slice())),
        None => Ok(false),
    }
}

/// Whether one does of the calls of these numbers.
fn one_keeps(
    alloc: Global,
    lines: &[Line],
    calls: &[Call],
    own: &[u8],
    numbers: &[usize],
) -> Result<bool, AllocError>
    ensures { IfOk result (λ b. b
        ≡ one_keeps (logical_lines lines.now) calls.now own.now numbers.now) }
{
    let mut rest = numbers;
    while let Some((number, others)) = rest.split_first() {
        if keeps_subscript(alloc, lines, own, call_at(calls, *number))? {
            return Ok(true);
        }
        rest = others;
    }
    Ok(false)
}

/// Whether one does of these calls, or of those within whose PROCs they stand.
fn may_be_kept(
    alloc: Global,
    lines: &[Line],
    calls: &[Call],
    own: &[u8],
    numbers: &[usize],
) -> Result<bool, AllocError>
    ensures { IfOk result (λ b. b
        ≡ may_be_kept (logical_lines lines.now) calls.now own.now numbers.now) }
{
    let mut rest = numbers;
    while let Some((number, others)) = rest.split_first() {
        let around = outwards(alloc, calls, *number)?;
        if one_keeps(alloc, lines, calls, own, around.as_slice())? {
            return Ok(true);
        }
        rest = others;
    }
    Ok(false)
}

/// A variable of this name, as the line tells it; nothing if it is left out.
pub(crate) fn told(alloc: Global, naming: Naming<'_>, own: &[u8]) -> Result<Vec<u8>, AllocError>
    ensures { IfOk result (λ v. v.items ≡ told_by naming.entry own.now) }
{
    let mut out = Vec::new(alloc);
    if may_be_kept(alloc, naming.lines, naming.calls, own, naming.holders)? {
        return Ok(out);
    }
    let words = line_words(naming.lines, naming.line);
    let found = only_name(alloc, naming, own, words)?;
    write_by_name(alloc, &mut out, naming, own, found)?;
    Ok(out)
}
