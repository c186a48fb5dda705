//! Where a name is used that two branches of a PAR share.

use crate::class::Class;
use crate::names::base;
use crate::scan::{Text, Word};
use crate::scope::{Kind, declaration_of};
use crate::telling::{Out, told};
use crate::words::{bytes_at, class_at, word_from};

/// The PAR round a line, and the branch of it that the line stands in; the innermost first.
fn branch_of(text: &Text<'_>, index: usize) -> Option<(usize, usize)> {
    let mut branch = index;
    for i in (0..index).rev() {
        if text.indent_at(i) < text.indent_at(branch) {
            if class_at(text.words_at(i), 0) == Class::Par {
                return Some((i, branch));
            }
            branch = i;
        }
    }
    None
}

/// A line of another branch that has the name.
fn elsewhere(text: &Text<'_>, par: usize, branch: usize, name: &[u8]) -> Option<usize> {
    let mut is_own = false;
    for i in par.saturating_add(1)..text.lines.len() {
        let indent = text.indent_at(i);
        if indent <= text.indent_at(par) {
            break;
        }
        if indent == text.indent_at(branch) {
            is_own = i == branch;
        }
        let words = text.words_at(i);
        if !is_own && word_from(words, 0, name) < words.len() {
            return Some(i);
        }
    }
    None
}

/// The place of a name under a subscript in a line that is no constant, as a variable or the index of a replicator that is no PAR.
fn varying(text: &Text<'_>, index: usize) -> Option<usize> {
    let words = text.words_at(index);
    let mut depth: usize = 0;
    for i in 0..words.len() {
        match words[i].class {
            Class::OpenBracket => depth = depth.saturating_add(1),
            Class::CloseBracket => depth = depth.saturating_sub(1),
            Class::Name if depth > 0 => match declaration_of(text, index, words[i].bytes) {
                Some(found) if found.spec.kind == Kind::Variable => return Some(i),
                Some(found) if found.spec.kind == Kind::Index => {
                    if class_at(text.words_at(found.line), 0) != Class::Par {
                        return Some(i);
                    }
                }
                _ => {}
            },
            _ => {}
        }
    }
    None
}

/// Whether a name has two subscripts or more.
pub(crate) fn is_in_row(name: &[u8]) -> bool {
    let mut count: usize = 0;
    for byte in name {
        if *byte == b'[' {
            count = count.saturating_add(1);
        }
    }
    count > 1
}

/// How many calls are told of.
const MOST_CALLS: usize = 6;

impl Out {
    /// The calls that hand a name on to PROCs, behind this; nothing where there are none.
    fn put_calls(&mut self, text: &Text<'_>, first: &'static str, name: &[u8]) {
        let mut head = first;
        let mut calls: usize = 0;
        for i in 0..text.lines.len() {
            let words = text.words_at(i);
            if calls < MOST_CALLS
                && class_at(words, 0) == Class::Name
                && class_at(words, 1) == Class::OpenParen
                && word_from(words, 1, name) < words.len()
            {
                self.put_line(text, head, i);
                self.put(b" to ");
                self.put(bytes_at(words, 0));
                calls = calls.saturating_add(1);
                head = ", in line ";
            }
        }
    }

    /// The other use of a name, which a line has or hasn't: the line of another branch, or the calls that hand it on.
    fn put_use(&mut self, text: &Text<'_>, line: usize, other: Option<usize>, name: &[u8]) {
        let words = text.words_at(line);
        if word_from(words, 0, name) >= words.len() {
            return self.put_calls(
                text,
                "it has another name here, and is handed on in line ",
                name,
            );
        }
        if let Some(other) = other {
            return self.put_line(text, "another branch uses it in line ", other);
        }
        match branch_of(text, line) {
            None => self.put_calls(text, "it is handed on in line ", name),
            Some((par, _)) if text.words_at(par).len() > 1 => {
                self.put(b"each copy of the replicated PAR uses it");
            }
            Some(_) => self.put(b"another branch uses it through a call"),
        }
    }

    /// The other use of a name, and why a component counts that another subscript names: one of both is no constant.
    pub(crate) fn put_uses(&mut self, text: &Text<'_>, line: usize, name: &[u8]) {
        let begin = self.bytes.len();
        let whole = base(name);
        let other = match branch_of(text, line) {
            Some((par, branch)) => elsewhere(text, par, branch, whole),
            None => None,
        };
        self.put_use(text, line, other, whole);
        for place in [line, other.unwrap_or(line)] {
            if whole.len() < name.len()
                && let Some(at) = varying(text, place)
            {
                self.put(b"; under `");
                self.put(told(bytes_at(text.words_at(place), at)));
                self.put_line(text, "` (line ", place);
                self.put(b"), which is no constant, the whole array counts");
                break;
            }
        }
        if is_in_row(name) || self.bytes.len() > begin {
            self.put(b": ");
        }
    }
}
