//! The words of a line, by their places.

use crate::class::Class;
use crate::scan::Word;

/// The class of a word; behind the last one the end's.
pub(crate) fn class_at(words: &[Word<'_>], at: usize) -> Class {
    match words.get(at) {
        Some(word) => word.class,
        None => Class::End,
    }
}

/// The bytes of a word; none behind the last one.
pub(crate) fn bytes_at<'a>(words: &[Word<'a>], at: usize) -> &'a [u8] {
    match words.get(at) {
        Some(word) => word.bytes,
        None => b"",
    }
}

/// The place of a word, from a place on; the number of words where it is none of them.
pub(crate) fn word_from(words: &[Word<'_>], from: usize, bytes: &[u8]) -> usize {
    for i in from..words.len() {
        if words[i].bytes == bytes {
            return i;
        }
    }
    words.len()
}
