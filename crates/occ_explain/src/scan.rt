//! Words with the places where they begin. Any text has them: what is no word of the language is a word of a class of
//! its own.
ghost use Rattle.std.specs.Prelude.{◌≡◌, ◌<◌, ◌≤◌, length};

use crate::class::Class;
use crate::fronts::front_of;
use crate::place::first_line;
use std::alloc::{AllocError, Global};

/// A word: its bytes, the number of its physical line, and how many bytes of that line stand before it.
#[derive(Clone, Copy)]
pub(crate) struct Word<'a> {
    pub(crate) bytes: &'a [u8],
    pub(crate) class: Class,
    pub(crate) line: u32,
    pub(crate) before: usize,
}

/// A logical line: the number of its first physical line, how many spaces stand before it, and which words are its.
#[derive(Clone, Copy)]
pub(crate) struct Line {
    pub(crate) number: u32,
    pub(crate) indent: usize,
    from: usize,
    to: usize,
}

/// The logical lines of a text, and their words.
#[derive(Drop)]
pub(crate) struct Text<'a> {
    pub(crate) lines: Vec<Line>,
    pub(crate) words: Vec<Word<'a>>,
}

impl<'a> Text<'a> {
    /// The words of a line, none where there is no such line.
    pub(crate) fn words_at(&self, index: usize) -> &[Word<'a>] {
        let words = self.words.as_slice();
        let (from, to) = match self.lines.get(index) {
            Some(line) => (line.from, line.to.min(words.len())),
            None => (0, 0),
        };
        &words[from.min(to)..to]
    }

    /// How many spaces stand before a line.
    pub(crate) fn indent_at(&self, index: usize) -> usize {
        match self.lines.get(index) {
            Some(line) => line.indent,
            None => 0,
        }
    }

    /// The number of a line.
    pub(crate) fn number_at(&self, index: usize) -> u32 {
        match self.lines.get(index) {
            Some(line) => line.number,
            None => 0,
        }
    }
}

/// Whether a line with these words goes on in the next one.
fn goes_on(words: &[Word<'_>]) -> bool {
    match words.last() {
        Some(word) => matches!(
            word.class,
            Class::And
                | Class::Assign
                | Class::Comma
                | Class::Dyadic
                | Class::Equal
                | Class::For
                | Class::Is
                | Class::Minus
                | Class::Or
                | Class::Semicolon
        ),
        None => false,
    }
}

/// How many spaces stand before a line.
fn indent(line: &[u8]) -> usize {
    for (i, byte) in line.iter().enumerate() {
        if *byte != b' ' {
            return i;
        }
    }
    line.len()
}

/// Adds the words of a physical line.
fn scan_line<'a>(number: u32, line: &'a [u8], words: &mut Vec<Word<'a>>) -> Result<(), AllocError> {
    let mut rest = line;
    while !rest.is_empty() {
        let front = front_of(rest);
        let (piece, after) = rest.split_at(front.end.max(1).min(rest.len()));
        if let Some(class) = front.class {
            let before = line.len().saturating_sub(rest.len());
            let bytes = &piece[front.begin.min(piece.len())..];
            words.push(Word {
                bytes,
                class,
                line: number,
                before: before.saturating_add(front.begin),
            })?;
        }
        rest = after;
    }
    Ok(())
}

/// The logical lines of a text.
pub(crate) fn scan<'a>(alloc: Global, source: &'a [u8]) -> Result<Text<'a>, AllocError> {
    let mut lines: Vec<Line> = Vec::new(alloc);
    let mut words = Vec::new(alloc);
    let mut number: u32 = 0;
    let mut is_open = false;
    let mut rest = source;
    while !rest.is_empty() {
        let (line, after) = first_line(rest);
        number = number.saturating_add(1);
        let from = words.len();
        scan_line(number, line, &mut words)?;
        let to = words.len();
        if from < to {
            match lines.last_mut() {
                Some(last) if is_open => last.to = to,
                _ => lines.push(Line {
                    number,
                    indent: indent(line),
                    from,
                    to,
                })?,
            }
            is_open = goes_on(words.as_slice());
        }
        rest = after;
    }
    Ok(Text { lines, words })
}
