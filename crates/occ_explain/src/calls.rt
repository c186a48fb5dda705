//! Calls whose actuals do not fit the formals.

use crate::class::Class;
use crate::mismatch::{conversion, expression_count};
use crate::scan::Text;
use crate::scope::{
    Declared, Kind, Spec, behind_sizes, declaration_of, formal_at, formal_count, untyped,
};
use crate::sentence::{Nothing, Piece, Told};
use crate::shapes::{Shape, are_alike};
use crate::types::{begins_int, expression_end, operand_end, spelled_type, typed_at};
use crate::words::{bytes_at, class_at};

/// A call, the head of its PROC, and a formal with its actual.
#[derive(Clone, Copy)]
struct Pair {
    line: usize,
    /// The line of the PROC.
    head: usize,
    formal: usize,
    spec: Spec,
    actual: usize,
}

/// What the name of an actual is declared as, where the actual is a name with or without subscripts.
fn named(text: &Text<'_>, index: usize, at: usize) -> Option<Declared> {
    let words = text.words_at(index);
    if class_at(words, at) != Class::Name || operand_end(words, at) != expression_end(words, at) {
        return None;
    }
    declaration_of(text, index, bytes_at(words, at))
}

/// What an actual of a formal that is a channel is, and how it is mended; nothing where it fits.
fn channel_actual(text: &Text<'_>, pair: &Pair) -> (Piece, &'static str) {
    let no_channel = "hand over the name of a channel";
    let Some(found) = named(text, pair.line, pair.actual) else {
        return (Piece::Text("no channel"), no_channel);
    };
    if found.spec.kind != Kind::Channel {
        return (Piece::Declared(found), no_channel);
    }
    let own = Shape::Spelled(found.line, found.spec.of, found.spec.to);
    let wanted = Shape::Spelled(pair.head, pair.spec.of, pair.spec.to);
    if !are_alike(text, own, wanted) {
        let is_named = class_at(text.words_at(found.line), found.spec.of) == Class::Name
            || class_at(text.words_at(pair.head), pair.spec.of) == Class::Name;
        let hint = if is_named {
            "a protocol with a name is its own type, also where it has one part: use one name for both"
        } else {
            "hand over a channel that carries what the formal does"
        };
        return (Piece::Declared(found), hint);
    }
    let (_, subscripts) = behind_sizes(text.words_at(pair.line), pair.actual.saturating_add(1));
    let is = if found.spec.sizes.saturating_sub(subscripts) == pair.spec.sizes {
        Nothing
    } else if subscripts == 0 {
        Piece::Declared(found)
    } else {
        Piece::Text("a part of an array")
    };
    (
        is,
        "write as many subscripts behind its name as leave the sizes of the formal",
    )
}

/// What an actual of a formal that is a variable or a value is, and how it is mended; nothing where it fits, or the words do not tell.
fn value_actual(text: &Text<'_>, pair: &Pair) -> (Piece, &'static str) {
    let is_variable = pair.spec.kind == Kind::Variable;
    match named(text, pair.line, pair.actual) {
        None if is_variable => {
            return (
                Piece::Text("no variable"),
                "hand over a variable, or write VAL before the formal",
            );
        }
        Some(found) if found.spec.kind == Kind::Channel => {
            return (
                Piece::Declared(found),
                "input from the channel first, and hand over what it gave",
            );
        }
        _ => {}
    }
    let (Some(wanted), Some(own)) = (
        spelled_type(text.words_at(pair.head), pair.spec.from),
        typed_at(text, pair.line, pair.actual, false),
    ) else {
        return (Nothing, "");
    };
    if own.found == wanted {
        return (Nothing, "");
    }
    let hint = match (own.found.sizes, wanted.sizes) {
        (0, 0) if is_variable => "hand over a variable of the formal's type",
        (0, 0) => conversion(text.words_at(pair.line), own, wanted.primitive),
        _ => "actual and formal have the same number of dimensions",
    };
    (Piece::Typed(own), hint)
}

/// An actual that does not fit its formal, and why.
fn actual_finding(text: &Text<'_>, pair: &Pair) -> Option<Told> {
    let (is, hint) = if pair.spec.kind == Kind::Channel {
        channel_actual(text, pair)
    } else {
        value_actual(text, pair)
    };
    if let Nothing = is {
        return None;
    }
    let (head, spec) = (pair.head, pair.spec);
    let end = expression_end(text.words_at(pair.line), pair.actual);
    Some(Told {
        line: pair.line,
        at: pair.actual,
        wrong: if spec.kind == Kind::Value {
            "`@1` is @2, but the formal `@3` is a VAL @4"
        } else if begins_int(text.words_at(head), spec.from, spec.to) {
            "`@1` is @2, but the formal `@3` is an @4"
        } else {
            "`@1` is @2, but the formal `@3` is a @4"
        },
        hint,
        pieces: [
            Piece::Words(pair.line, pair.actual, end),
            is,
            Piece::Short(head, pair.formal),
            Piece::Words(head, spec.from, spec.to),
        ],
    })
}

/// What does not fit in a line that is refused for its actuals; nothing where the words do not tell.
pub(crate) fn call_finding(text: &Text<'_>, index: usize) -> Option<Told> {
    let words = text.words_at(index);
    let found = declaration_of(text, index, bytes_at(words, 0))?;
    if found.spec.kind != Kind::Procedure || class_at(words, 1) != Class::OpenParen {
        return None;
    }
    let head = text.words_at(found.line);
    let formals = formal_count(head);
    let actuals = if class_at(words, 2) == Class::CloseParen {
        0
    } else {
        expression_count(words, 2, words.len())
    };
    if formals != actuals {
        return Some(Told {
            line: index,
            at: 2,
            wrong: "`@1` has @2, but the call has @3",
            hint: "@4",
            pieces: [
                Piece::Short(index, 0),
                Piece::Counted(formals, "formal"),
                Piece::Counted(actuals, "actual"),
                Piece::Head(found.line),
            ],
        });
    }
    let (mut actual, mut at) = (2, 3);
    let mut before = untyped(Kind::Variable);
    for _ in 0..formals {
        let (formal, spec) = formal_at(head, at, before)?;
        before = spec;
        at = formal.saturating_add(2);
        let pair = Pair {
            line: index,
            head: found.line,
            formal,
            spec,
            actual,
        };
        let unfit = actual_finding(text, &pair);
        if unfit.is_some() {
            return unfit;
        }
        actual = expression_end(words, actual).saturating_add(1);
    }
    None
}
