//! Declarations: what the names of a line are declared as, by the words of the text.

use crate::class::Class;
use crate::scan::{Text, Word};
use crate::words::{bytes_at, class_at};

/// What a name stands for.
#[derive(Clone, Copy, PartialEq)]
pub(crate) enum Kind {
    Variable,
    /// A value named by VAL, or a VAL formal.
    Value,
    /// The index of a replicator.
    Index,
    Channel,
    Procedure,
    Protocol,
}

/// What stands before a name where it is declared: from one word up to another.
#[derive(Clone, Copy)]
pub(crate) struct Spec {
    pub(crate) kind: Kind,
    pub(crate) from: usize,
    pub(crate) to: usize,
    /// How many sizes it has.
    pub(crate) sizes: usize,
    /// The place of the primitive type, or of what a channel carries; no word where it has none.
    pub(crate) of: usize,
}

/// Where a name is declared: the index of the line, and the place of the name in it.
#[derive(Clone, Copy)]
pub(crate) struct Declared {
    pub(crate) line: usize,
    pub(crate) at: usize,
    pub(crate) spec: Spec,
}

/// A name that has no type.
pub(crate) fn untyped(kind: Kind) -> Spec {
    Spec {
        kind,
        from: 0,
        to: 0,
        sizes: 0,
        of: usize::MAX,
    }
}

/// The place behind the bracket that closes the one at this place; behind the last word where none does.
pub(crate) fn behind_bracket(words: &[Word<'_>], at: usize) -> usize {
    let mut depth: usize = 0;
    for i in at..words.len() {
        match words[i].class {
            Class::OpenBracket | Class::OpenParen => depth = depth.saturating_add(1),
            Class::CloseBracket | Class::CloseParen if depth < 2 => return i.saturating_add(1),
            Class::CloseBracket | Class::CloseParen => depth = depth.saturating_sub(1),
            _ => {}
        }
    }
    words.len()
}

/// The place behind the sizes or subscripts at this place, and how many they are.
pub(crate) fn behind_sizes(words: &[Word<'_>], at: usize) -> (usize, usize) {
    let mut place = at;
    for count in 0..4 {
        if class_at(words, place) != Class::OpenBracket {
            return (place, count);
        }
        place = behind_bracket(words, place);
    }
    (place, 4)
}

/// What stands before a name, from this place on.
pub(crate) fn spec_at(words: &[Word<'_>], at: usize) -> Spec {
    let is_value = class_at(words, at) == Class::Val;
    let from = if is_value { at.saturating_add(1) } else { at };
    let (of, sizes) = behind_sizes(words, from);
    let kind = match class_at(words, of) {
        Class::Chan => Kind::Channel,
        _ if is_value => Kind::Value,
        _ => Kind::Variable,
    };
    let (of, to) = match class_at(words, of) {
        Class::Chan => {
            let carried = of.saturating_add(2);
            let end = behind_sizes(words, carried).0.saturating_add(1);
            let is_counted = class_at(words, end) == Class::DoubleColon;
            (carried, end.saturating_add(if is_counted { 4 } else { 0 }))
        }
        Class::Primitive => (of, of.saturating_add(1)),
        _ => (usize::MAX, of),
    };
    Spec {
        kind,
        from,
        to,
        sizes,
        of,
    }
}

/// The formal at a place, or behind what it is declared as there; else it is declared as the one before it.
pub(crate) fn formal_at(words: &[Word<'_>], at: usize, before: Spec) -> Option<(usize, Spec)> {
    let (place, spec) = if class_at(words, at) == Class::Name {
        (at, before)
    } else {
        let spec = spec_at(words, at);
        (spec.to, spec)
    };
    if class_at(words, place) == Class::Name {
        Some((place, spec))
    } else {
        None
    }
}

/// The first formal of a PROC that has this name, or that has so many before it.
pub(crate) fn formal_of(words: &[Word<'_>], name: &[u8], number: usize) -> Option<(usize, Spec)> {
    let mut at = 3;
    let mut before = untyped(Kind::Variable);
    for count in 0..words.len() {
        let (place, spec) = formal_at(words, at, before)?;
        if count == number || bytes_at(words, place) == name {
            return Some((place, spec));
        }
        before = spec;
        at = place.saturating_add(2);
    }
    None
}

/// How many formals a PROC has.
pub(crate) fn formal_count(words: &[Word<'_>]) -> usize {
    let mut at = 3;
    let mut before = untyped(Kind::Variable);
    for count in 0..words.len() {
        let Some((place, spec)) = formal_at(words, at, before) else {
            return count;
        };
        before = spec;
        at = place.saturating_add(2);
    }
    words.len()
}

/// The place of a line's index, where it has a replicator; else no word's.
pub(crate) fn index_at(words: &[Word<'_>]) -> usize {
    let at = match class_at(words, 0) {
        Class::Seq | Class::Par | Class::If | Class::Alt => 1,
        Class::Pri => 2,
        _ => return usize::MAX,
    };
    if class_at(words, at) == Class::Name {
        at
    } else {
        usize::MAX
    }
}

/// Whether a line is a declaration, or ends one.
fn is_declaration(words: &[Word<'_>]) -> bool {
    let last = words.len().saturating_sub(1);
    match class_at(words, 0) {
        Class::Chan | Class::Val | Class::Proc | Class::Protocol | Class::Colon => true,
        Class::OpenBracket | Class::Primitive => class_at(words, last) == Class::Colon,
        _ => false,
    }
}

/// A name that a declaration declares.
fn declared_in(words: &[Word<'_>], name: &[u8]) -> Option<(usize, Spec)> {
    let spec = match class_at(words, 0) {
        Class::Proc => untyped(Kind::Procedure),
        Class::Protocol => untyped(Kind::Protocol),
        _ => spec_at(words, 0),
    };
    for i in spec.to..words.len() {
        match words[i].class {
            Class::Name if words[i].bytes == name => return Some((i, spec)),
            Class::Colon | Class::Is | Class::OpenParen => return None,
            _ => {}
        }
    }
    None
}

/// A name that is a formal of a PROC, or the index of a replicator.
fn held_in(words: &[Word<'_>], name: &[u8]) -> Option<(usize, Spec)> {
    if class_at(words, 0) == Class::Proc {
        return formal_of(words, name, usize::MAX);
    }
    let at = index_at(words);
    match words.get(at) {
        Some(word) if word.bytes == name => Some((at, untyped(Kind::Index))),
        _ => None,
    }
}

/// What a name at a line is declared as: by a declaration before it, at its level or at that of a line that it stands under, or
/// by such a line itself.
pub(crate) fn declaration_of(text: &Text<'_>, index: usize, name: &[u8]) -> Option<Declared> {
    let mut level = text.indent_at(index);
    let mut is_open = true;
    for i in (0..index).rev() {
        let indent = text.indent_at(i);
        let words = text.words_at(i);
        let is_round = indent < level;
        is_open = is_round || is_open && (indent > level || is_declaration(words));
        let found = if is_round {
            level = indent;
            held_in(words, name)
        } else if is_open && indent == level {
            declared_in(words, name)
        } else {
            None
        };
        if let Some((at, spec)) = found {
            return Some(Declared { line: i, at, spec });
        }
    }
    None
}

/// Whether a line declares a name, also as a formal.
pub(crate) fn declares(words: &[Word<'_>], name: &[u8]) -> bool {
    is_declaration(words)
        && (declared_in(words, name).is_some()
            || class_at(words, 0) == Class::Proc && held_in(words, name).is_some())
}
