//! Where a line leaves the grammar, in words: what has to stand there, and what was over before.

use crate::class::Class;
use crate::context::Start;
use crate::hints::is_operator;
use crate::scan::Word;
use crate::scope::index_at;
use crate::types::operand_begin;
use crate::words::class_at;
use occ_tree_grammar::{Stop, Wanted};

/// What has to stand at a place, as the table of hints calls it, and as it is said; nothing is said where the line has to end.
pub(crate) type Part = (&'static str, &'static str);

/// Where a line leaves the grammar: how many words stand before, the part that is wanted there, and what is said of the expression
/// that ends there; nothing where none does.
#[derive(Clone, Copy)]
pub(crate) struct Leaving {
    pub(crate) at: usize,
    pub(crate) wanted: Part,
    pub(crate) over: &'static str,
}

/// What a line begins with.
fn first_part(start: Start) -> Part {
    match start {
        Start::Top => ("top", "PROC, PROTOCOL or VAL"),
        Start::Process => ("process", "a process or a declaration"),
        Start::Choice => ("choice", "a condition, a declaration or IF"),
        Start::Arm => ("arm", "a guard, a declaration or ALT"),
        Start::Option => ("", "a constant, ELSE or a declaration"),
        Start::Variant => ("", "a tag or a declaration"),
        Start::Cases => ("", "CASE"),
        Start::Tag => ("", "a tag"),
    }
}

/// Whether a line at the left margin cannot begin there.
fn is_out_of_place(words: &[Word<'_>], start: Start) -> bool {
    matches!(start, Start::Top)
        && !matches!(
            class_at(words, 0),
            Class::Colon | Class::Proc | Class::Protocol | Class::Val
        )
}

/// Whether an operand has to stand at this place, behind an operator, and no whole expression.
fn is_behind_operator(words: &[Word<'_>], at: usize) -> bool {
    let before = class_at(words, at.wrapping_sub(1));
    let is_base = before == Class::Equal && index_at(words).wrapping_add(2) == at;
    !is_base && (is_operator(before) || matches!(before, Class::Monadic | Class::Primitive))
}

/// What has to stand behind the variables at the front of a process.
fn action_part(words: &[Word<'_>], at: usize) -> Part {
    if at == 1 {
        ("action", "`:=`, `?`, `!`, `,`, `[` or `(`")
    } else if operand_begin(words, at) == 0 {
        ("placed", "`:=`, `?`, `!`, `,` or `[`")
    } else {
        ("", "`,` or `:=`")
    }
}

/// What has to stand at a place that is not the first one.
fn part_at(words: &[Word<'_>], at: usize, wanted: Wanted) -> Part {
    let before = class_at(words, at.wrapping_sub(1));
    match wanted {
        Wanted::Primitive => ("", "BOOL, BYTE or INT"),
        _ if before == Class::CloseBracket && class_at(words, at) == Class::OpenBracket => {
            ("fifth", "another word")
        }
        Wanted::Begin | Wanted::End | Wanted::ExpressionEnd => ("", ""),
        Wanted::Operand if is_behind_operator(words, at) => ("operand", "an operand"),
        Wanted::Operand => ("expression", "an expression"),
        Wanted::Variable if before == Class::Question => ("input", "a variable or CASE"),
        Wanted::Variable if before == Class::Ampersand => ("", "SKIP or an input"),
        Wanted::Variable => ("", "a variable"),
        Wanted::NewName => ("new.name", "a new name"),
        Wanted::Declared | Wanted::Formal if before == Class::CloseBracket => {
            ("", "BOOL, BYTE, INT, CHAN or `[`")
        }
        Wanted::Declared => ("", "a type or CHAN"),
        Wanted::Formal => ("", "VAL, a type, CHAN or `)`"),
        Wanted::ValueType if at == 1 => ("", "a name or a type"),
        Wanted::Part if before == Class::Of => ("", "a type or a protocol"),
        Wanted::Part if before != Class::CloseBracket => ("", "a type"),
        Wanted::Part | Wanted::ValueType => ("", "BOOL, BYTE, INT or `[`"),
        Wanted::Int => ("", "INT"),
        Wanted::Of => ("OF", "OF"),
        Wanted::Is => ("IS", "IS"),
        Wanted::For => ("FOR", "FOR"),
        Wanted::Alt => ("", "ALT"),
        Wanted::Equal => ("", "`=`"),
        Wanted::OpenParen => ("(", "`(`"),
        Wanted::CloseParen => (")", "`)`"),
        Wanted::CloseBracket => ("]", "`]`"),
        Wanted::Question => ("", "`?`"),
        Wanted::Ampersand => ("guard", "`&`"),
        Wanted::Guard if class_at(words, 0) == Class::Primitive => ("names", "`,` or `:`"),
        Wanted::Guard => ("guard", "`?` or `&`"),
        Wanted::Action => action_part(words, at),
        Wanted::Names => ("names", "`,` or `:`"),
        Wanted::Parts => ("parts", "`;` or `:`"),
        Wanted::Colon => (":", "`:`"),
        Wanted::LastColon => ("end", "`:`"),
        Wanted::Actuals => ("actuals", "`,` or `)`"),
        Wanted::Formals => ("formals", "`,` or `)`"),
    }
}

/// What is said of the expression that ends before a place, where one does.
fn over_at(words: &[Word<'_>], at: usize, wanted: Wanted) -> &'static str {
    let ends = matches!(
        wanted,
        Wanted::Actuals
            | Wanted::CloseBracket
            | Wanted::CloseParen
            | Wanted::Colon
            | Wanted::ExpressionEnd
            | Wanted::For
            | Wanted::Guard
    );
    let is_type_mark = class_at(words, at.wrapping_sub(1)) == Class::Primitive
        && class_at(words, at.wrapping_sub(2)) == Class::OpenParen;
    if !ends || is_type_mark {
        return "";
    }
    match class_at(words, operand_begin(words, at).wrapping_sub(1)) {
        Class::And => "operands joined by AND",
        Class::Or => "operands joined by OR",
        _ => "a whole expression",
    }
}

/// How many words of a line stand before a place.
pub(crate) fn place_of(words: &[Word<'_>], stop: Stop) -> usize {
    words.len().saturating_sub(stop.left)
}

/// Where a line with this beginning leaves the grammar.
pub(crate) fn leaving_of(words: &[Word<'_>], start: Start, stop: Stop) -> Leaving {
    let at = place_of(words, stop);
    let is_end = matches!(stop.wanted, Wanted::LastColon);
    if is_out_of_place(words, start) || at == 0 && !is_end {
        return Leaving {
            at: 0,
            wanted: first_part(start),
            over: "",
        };
    }
    // `INT x, y` under an IF, an ALT or a CASE
    if at == 2 && class_at(words, 0) == Class::Primitive && class_at(words, at) == Class::Comma {
        return Leaving {
            at: words.len(),
            wanted: part_at(words, at, Wanted::Names),
            over: "",
        };
    }
    Leaving {
        at,
        wanted: part_at(words, at, stop.wanted),
        over: over_at(words, at, stop.wanted),
    }
}
