//! How far a search has come, on a terminal.

use crate::explaining::print_bytes;
use occ_exploring::{Answer, Asked, MOST_ANSWERS, Progress, found_line};
use std::alloc::Global;

/// After how many more states it is told again.
const EVERY: usize = 10_000;

/// Tells how many states were found, on a line of standard error that is written over, where that is a terminal. Once that was told
/// first, each answer has a line above it, as soon as it is found; so a search that is over in a moment has none.
#[derive(Drop)]
pub(crate) struct Counter<'a, R> {
    rt: &'a R,
    alloc: Global,
    /// What the lines of answers tell; none where answers have no lines.
    asked: Option<Asked>,
    on_terminal: bool,
    /// How often so many had been found when it was told last.
    told: usize,
    /// How many answers have a line.
    lines: usize,
    /// Lines of answers that were found before it was told first.
    kept: Vec<u8>,
}

impl<'a, R: Eprint> Counter<'a, R> {
    pub(crate) fn new(
        rt: &'a R,
        alloc: Global,
        asked: Option<Asked>,
        on_terminal: bool,
    ) -> Counter<'a, R> {
        Counter {
            rt,
            alloc,
            asked,
            on_terminal,
            told: 0,
            lines: 0,
            kept: Vec::new(alloc),
        }
    }

    /// Takes the line away.
    pub(crate) fn clear(&self) {
        if self.told > 0 {
            let _ = eprint!(self.rt; "\r                    \r");
        }
    }

    /// Prints the lines that were kept, and keeps them no longer.
    fn print_kept(&mut self) {
        if !self.kept.is_empty() {
            self.clear();
            print_bytes(self.rt, self.alloc, self.kept.as_slice());
            self.kept.clear();
        }
    }

    /// Keeps the line of an answer, where answers have lines and not too many have one. Where memory runs out for that, it has none.
    fn keep_line(&mut self, answer: &Answer) {
        if let Some(asked) = self.asked
            && self.lines < MOST_ANSWERS
            && let Ok(line) = found_line(self.alloc, asked, answer)
            && self.kept.extend_from_slice(line.as_slice()).is_ok()
        {
            self.lines += 1;
        }
    }
}

impl<'a, R: Eprint> Progress for Counter<'a, R> {
    fn found(&mut self, states: usize) {
        let now = states / EVERY;
        if self.on_terminal && now > 0 && now != self.told {
            self.print_kept();
            self.told = now;
            let _ = eprint!(self.rt; "\r{states} states");
        }
    }

    fn answered(&mut self, answer: &Answer) {
        if self.on_terminal {
            self.keep_line(answer);
        }
        if self.told > 0 {
            self.print_kept();
        }
    }
}
