//! How a sentence is written.

use crate::class::Class;
use crate::names::base;
use crate::scan::{Text, Word};
use crate::scope::{Declared, Kind, declaration_of};
use crate::sentence::{Piece, Told};
use crate::shapes::{Shape, is_beside, shape_of};
use crate::types::{Typed, begins_int, called};
use crate::words::{bytes_at, word_from};
use std::alloc::{AllocError, Global};

/// The most bytes of a word that are told.
const MOST_TOLD: usize = 40;

/// The beginning of a word, as far as it is told.
pub(crate) fn told(bytes: &[u8]) -> &[u8] {
    &bytes[..MOST_TOLD.min(bytes.len())]
}

/// What is written so far, and whether memory was refused meanwhile.
#[derive(Drop)]
pub(crate) struct Out {
    alloc: Global,
    pub(crate) bytes: Vec<u8>,
    is_refused: bool,
}

/// A sentence with its pieces, for a text and the name that is refused there.
pub(crate) fn written(
    alloc: Global,
    text: &Text<'_>,
    name: &[u8],
    told: &Told,
    says: &str,
) -> Result<Vec<u8>, AllocError> {
    let mut out = Out {
        alloc,
        bytes: Vec::new(alloc),
        is_refused: false,
    };
    let mut is_mark = false;
    for byte in says.as_bytes() {
        if is_mark {
            let place = usize::from(byte.wrapping_sub(b'1'));
            if let Some(piece) = told.pieces.as_slice().get(place) {
                out.put_piece(text, name, *piece);
            }
            is_mark = false;
        } else if *byte == b'@' {
            is_mark = true;
        } else {
            out.put(&[*byte]);
        }
    }
    let Out {
        bytes,
        is_refused,
        ..
    } = out;
    if is_refused {
        return Err(AllocError);
    }
    Ok(bytes)
}

impl Out {
    pub(crate) fn put(&mut self, bytes: &[u8]) {
        if self.bytes.extend_from_slice(bytes).is_err() {
            self.is_refused = true;
        }
    }

    pub(crate) fn put_count(&mut self, count: usize) {
        match format!(in self.alloc; "{count}") {
            Ok(count) => self.put(count.as_bytes()),
            Err(_) => self.is_refused = true,
        }
    }

    /// The number of a line, behind some words.
    pub(crate) fn put_line(&mut self, text: &Text<'_>, before: &str, line: usize) {
        self.put(before.as_bytes());
        self.put_count(text.number_at(line) as usize);
    }

    /// Words with a space between two: all of them, or those that have one in the text.
    fn put_words(&mut self, words: &[Word<'_>], from: usize, to: usize, is_spaced: bool) {
        for at in from..to.min(words.len()) {
            if at > from && (is_spaced || !is_beside(words, at)) {
                self.put(b" ");
            }
            self.put(told(bytes_at(words, at)));
        }
    }

    /// Words as they stand in the text, as far as one word is told.
    fn put_brief(&mut self, words: &[Word<'_>], from: usize, to: usize) {
        let begin = self.bytes.len();
        self.put_words(words, from, to, false);
        self.bytes.truncate(begin.saturating_add(MOST_TOLD));
    }

    fn put_declared(&mut self, text: &Text<'_>, found: &Declared) {
        let words = text.words_at(found.line);
        let spec = found.spec;
        let kind = match spec.kind {
            Kind::Procedure => "a PROC",
            Kind::Protocol => "a protocol",
            Kind::Index => "the index of a replicator",
            Kind::Value if spec.of == usize::MAX => "a value named by VAL",
            Kind::Value => "a VAL ",
            Kind::Variable if begins_int(words, spec.from, spec.to) => "an ",
            Kind::Variable | Kind::Channel => "a ",
        };
        self.put(kind.as_bytes());
        self.put_brief(words, spec.from, spec.to);
        self.put_line(text, " (line ", found.line);
        self.put(b")");
    }

    fn put_type(&mut self, text: &Text<'_>, typed: Typed) {
        match shape_of(text, typed) {
            Shape::Called => self.put(called(typed.found).as_bytes()),
            Shape::Letters(size) => {
                self.put(b"a [");
                self.put_count(size);
                self.put(b"]BYTE");
            }
            Shape::Spelled(line, from, to) => {
                self.put(b"a ");
                self.put_brief(text.words_at(line), from, to);
            }
        }
    }

    /// What the names of a line are declared as: ``b` is a BYTE (line 2)`, with a comma between two.
    fn put_types(&mut self, text: &Text<'_>, index: usize) {
        let words = text.words_at(index);
        let mut mark = b"`".as_slice();
        for i in 0..words.len() {
            let word = words[i];
            if word.class == Class::Name
                && word_from(words, 0, word.bytes) == i
                && let Some(found) = declaration_of(text, index, word.bytes)
            {
                self.put(mark);
                self.put(told(word.bytes));
                self.put(b"` is ");
                self.put_declared(text, &found);
                mark = b", `";
            }
        }
    }

    /// The tags of a protocol: `go`, `halt`.
    fn put_tags(&mut self, text: &Text<'_>, protocol: usize) {
        let indent = text.indent_at(protocol);
        let mut mark = b"`".as_slice();
        for i in protocol.saturating_add(2)..text.lines.len() {
            if text.indent_at(i) <= indent {
                return;
            }
            self.put(mark);
            self.put(told(bytes_at(text.words_at(i), 0)));
            self.put(b"`");
            mark = b", `";
        }
    }

    /// Both ways to put brackets round two operators between single words, the second one at this place.
    fn put_bracketed(&mut self, words: &[Word<'_>], at: usize) {
        let (first, last, end) = (
            at.saturating_sub(3),
            at.saturating_sub(1),
            at.saturating_add(2),
        );
        for (before, from, to, behind) in [
            ("(", first, at, ") "),
            ("", at, end, " or "),
            ("", first, last, " ("),
            ("", last, end, ")"),
        ] {
            self.put(before.as_bytes());
            self.put_words(words, from, to, true);
            self.put(behind.as_bytes());
        }
    }

    fn put_piece(&mut self, text: &Text<'_>, name: &[u8], piece: Piece) {
        match piece {
            Piece::Nothing => {}
            Piece::Text(words) => self.put(words.as_bytes()),
            Piece::Count(count) => self.put_count(count),
            Piece::Counted(count, word) => {
                self.put_count(count);
                self.put(b" ");
                self.put(word.as_bytes());
                self.put(if count == 1 { b"" } else { b"s" });
            }
            Piece::Line(line) => self.put_line(text, "", line),
            Piece::Word(line, at) => self.put(bytes_at(text.words_at(line), at)),
            Piece::Short(line, at) => self.put(told(bytes_at(text.words_at(line), at))),
            Piece::Words(line, from, to) => self.put_words(text.words_at(line), from, to, false),
            Piece::Brief(line, from, to) => self.put_brief(text.words_at(line), from, to),
            Piece::Head(line) => {
                self.put_line(text, "line ", line);
                self.put(b" has `");
                self.put_words(text.words_at(line), 0, usize::MAX, false);
                self.put(b"`");
            }
            Piece::Bracketed(line, at) => self.put_bracketed(text.words_at(line), at),
            Piece::Declared(found) => self.put_declared(text, &found),
            Piece::Said(typed) => {
                self.put_words(text.words_at(typed.line), typed.from, typed.to, false);
            }
            Piece::Typed(typed) => self.put_type(text, typed),
            Piece::Types(line) => self.put_types(text, line),
            Piece::Tags(line) => self.put_tags(text, line),
            Piece::Name => self.put(told(name)),
            Piece::Base => self.put(told(base(name))),
            Piece::Uses(line) => self.put_uses(text, line, name),
        }
    }
}
