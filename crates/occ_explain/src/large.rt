//! Programs that are too large: which limit they pass, and where.

use crate::class::Class;
use crate::context::{Start, start_of};
use crate::finding::index_of;
use crate::scan::{Text, Word};
use crate::scope::{Kind, behind_bracket, declaration_of, index_at, spec_at};
use crate::sentence::{Nothing, Piece, Told};
use crate::shapes::number_of;
use crate::words::{bytes_at, class_at};
use std::alloc::{AllocError, Global};

/// What is counted: at least so many, and the line that adds most of them.
#[derive(Clone, Copy)]
struct Count {
    least: usize,
    most: usize,
    line: usize,
}

/// The counts of the body of a PROC, which begins in this line: of cells, channels, processes and nodes.
#[derive(Clone, Copy)]
struct Tally {
    head: usize,
    counts: [Count; 4],
}

/// A line that stands round others: how far to the right, how often what stands under it is unfolded, and in which PROC.
#[derive(Clone, Copy)]
struct Round {
    indent: usize,
    times: usize,
    tally: usize,
    is_par: bool,
}

impl Tally {
    /// What is counted in another body, so many times.
    fn add(&mut self, number: usize, other: Count, times: usize) {
        if let Some(count) = self.counts.as_mut_slice().get_mut(number) {
            if other.most.saturating_mul(times) > count.most {
                count.most = other.most.saturating_mul(times);
                count.line = other.line;
            }
            let more = other.least.saturating_mul(times);
            count.least = count.least.saturating_add(more);
        }
    }
}

/// How many steps lead from a name to its number.
const MOST_NAMES: u32 = 8;

/// The number that stands alone at a place, or is named by VAL there.
fn number_at(text: &Text<'_>, index: usize, at: usize) -> Option<usize> {
    let (mut index, mut at) = (index, at);
    for _ in 0..MOST_NAMES {
        let words = text.words_at(index);
        let word = words.get(at)?;
        let is_alone = matches!(
            class_at(words, at.saturating_add(1)),
            Class::CloseBracket | Class::Colon | Class::End
        );
        match word.class {
            Class::Number if is_alone => return number_of(word.bytes),
            Class::Name if is_alone => {
                let found = declaration_of(text, index, word.bytes)?;
                if found.spec.kind != Kind::Value {
                    return None;
                }
                index = found.line;
                at = found.at.saturating_add(2);
                // a formal has no value of its own
                if class_at(text.words_at(index), found.at.saturating_add(1)) != Class::Is {
                    return None;
                }
            }
            _ => return None,
        }
    }
    None
}

/// How many components a declared name has, as far as its sizes are known.
fn components(text: &Text<'_>, index: usize) -> usize {
    let words = text.words_at(index);
    let mut at = spec_at(words, 0).from;
    let mut product: usize = 1;
    for _ in 0..4 {
        if class_at(words, at) != Class::OpenBracket {
            return product;
        }
        product = product.saturating_mul(number_at(text, index, at.saturating_add(1)).unwrap_or(1));
        at = behind_bracket(words, at);
    }
    product
}

/// How many names a declaration has.
fn name_count(words: &[Word<'_>]) -> usize {
    let mut count: usize = 0;
    for i in spec_at(words, 0).to..words.len() {
        if words[i].class == Class::Name {
            count = count.saturating_add(1);
        }
    }
    count
}

/// Whether a line declares variables or channels.
fn declares(words: &[Word<'_>]) -> bool {
    let last = words.len().saturating_sub(1);
    matches!(
        class_at(words, 0),
        Class::Chan | Class::OpenBracket | Class::Primitive
    ) && class_at(words, last) == Class::Colon
}

/// How many nodes a line has at least.
fn least_nodes(words: &[Word<'_>]) -> usize {
    if index_of(words, Class::Assign) < words.len() {
        return 3;
    }
    let is_message = index_of(words, Class::Exclamation) < words.len()
        || index_of(words, Class::Question) < words.len();
    if is_message { 2 } else { 1 }
}

/// How often what stands under a line is unfolded: a replicated PAR has a copy for each value of its index.
fn copies(text: &Text<'_>, index: usize) -> usize {
    let words = text.words_at(index);
    if class_at(words, 0) != Class::Par || index_at(words) == usize::MAX {
        return 1;
    }
    let count = index_of(words, Class::For).saturating_add(1);
    number_at(text, index, count).unwrap_or(0)
}

/// The tally of a PROC whose head stands in this line.
fn tally_of(tallies: &[Tally], head: usize) -> Option<Tally> {
    for tally in tallies {
        if tally.head == head {
            return Some(*tally);
        }
    }
    None
}

/// What a line adds to the counts of its PROC.
fn added(text: &Text<'_>, tallies: &[Tally], index: usize, round: Round, before: Tally) -> Tally {
    let words = text.words_at(index);
    let times = round.times;
    let mut tally = before;
    let one = Count {
        least: 1,
        most: 1,
        line: index,
    };
    match class_at(words, 0) {
        _ if declares(words) => {
            let names = name_count(words).saturating_mul(components(text, index));
            let is_channel = spec_at(words, 0).kind == Kind::Channel;
            let number = if is_channel { 1 } else { 0 };
            tally.add(number, one, names.saturating_mul(times));
            return tally;
        }
        Class::Val | Class::Colon | Class::Proc | Class::Protocol => return tally,
        Class::Par if index_at(words) < words.len() => {
            tally.add(2, one, times.saturating_mul(copies(text, index)));
        }
        _ => {}
    }
    tally.add(3, one, least_nodes(words).saturating_mul(times));
    if round.is_par {
        tally.add(2, one, times);
    }
    if class_at(words, 0) == Class::Name
        && class_at(words, 1) == Class::OpenParen
        && let Some(found) = declaration_of(text, index, bytes_at(words, 0))
        && let Some(body) = tally_of(tallies, found.line)
    {
        for number in 0..4 {
            tally.add(number, body.counts[number], times);
        }
    }
    tally
}

/// What stands round the lines under this one.
fn round_of(text: &Text<'_>, index: usize, outer: Round, tallies: usize) -> Round {
    let words = text.words_at(index);
    let is_proc = class_at(words, 0) == Class::Proc;
    let times = if is_proc {
        1
    } else {
        outer.times.saturating_mul(copies(text, index))
    };
    Round {
        indent: text.indent_at(index),
        times,
        tally: if is_proc { tallies } else { outer.tally },
        is_par: class_at(words, 0) == Class::Par && index_at(words) == usize::MAX,
    }
}

/// The counts of the last PROC at the left margin, with those of the PROCs that it calls.
fn main_tally(alloc: Global, text: &Text<'_>) -> Result<Option<Tally>, AllocError> {
    let mut tallies: Vec<Tally> = Vec::new(alloc);
    let mut rounds: Vec<Round> = Vec::new(alloc);
    let mut last = None;
    for index in 0..text.lines.len() {
        let indent = text.indent_at(index);
        for _ in 0..rounds.len() {
            match rounds.last() {
                Some(round) if round.indent >= indent => {
                    rounds.pop();
                }
                _ => {}
            }
        }
        let outer = match rounds.last() {
            Some(round) => *round,
            None => Round {
                indent: 0,
                times: 1,
                tally: usize::MAX,
                is_par: false,
            },
        };
        if let Some(before) = tallies.get(outer.tally) {
            let after = added(text, tallies.as_slice(), index, outer, *before);
            if let Some(place) = tallies.get_mut(outer.tally) {
                *place = after;
            }
        }
        let round = round_of(text, index, outer, tallies.len());
        if class_at(text.words_at(index), 0) == Class::Proc {
            if indent == 0 {
                last = Some(index);
            }
            tallies.push(Tally {
                head: index,
                counts: [Count {
                    least: 0,
                    most: 0,
                    line: 0,
                }; 4],
            })?;
        }
        rounds.push(round)?;
    }
    match last {
        Some(head) => Ok(tally_of(tallies.as_slice(), head)),
        None => Ok(None),
    }
}

/// The first count that passes its limit.
fn passed(tally: &Tally) -> Option<Told> {
    let calls =
        "each call, and each copy of a replicated PAR, counts its own: make the arrays smaller, or the copies fewer";
    // how many of these no line makes, how many are allowed, what they are, and how there are fewer of them
    let limits = [
        (0, 1_048_576, "cells of variables and arrays", calls),
        (3, 4096, "channels", calls),
        (
            1,
            4096,
            "processes",
            "each branch of a PAR is a process: make the count of a replicated PAR smaller",
        ),
        (
            0,
            100_000,
            "nodes of the unfolded program",
            "each call, and each copy of a replicated PAR, is unfolded where it stands: make the copies fewer, or loop within one",
        ),
    ];
    for number in 0..4 {
        let (more, most, says, hint) = limits[number];
        let count = tally.counts[number];
        let least = count.least.saturating_add(more);
        if least > most {
            return Some(Told {
                line: count.line,
                at: 0,
                wrong: "at least @1 @2, of which line @3 makes most; @4 are allowed",
                hint,
                pieces: [
                    Piece::Count(least),
                    Piece::Text(says),
                    Piece::Line(count.line),
                    Piece::Count(most),
                ],
            });
        }
    }
    None
}

/// How many levels stand round a line: those of the lines that it stands under, and of what is declared before an arm or a choice.
fn levels_round(text: &Text<'_>, index: usize) -> usize {
    let mut level = text.indent_at(index);
    let mut is_open = matches!(start_of(text, index), Start::Arm | Start::Choice);
    let mut count: usize = 0;
    for i in (0..index).rev() {
        // nothing stands round a line at the left margin
        if level == 0 {
            return count;
        }
        let indent = text.indent_at(i);
        let words = text.words_at(i);
        if indent < level {
            level = indent;
            is_open = matches!(start_of(text, i), Start::Arm | Start::Choice);
            if class_at(words, 0) != Class::Proc {
                count = count.saturating_add(1);
            }
        } else if indent == level && is_open {
            is_open = declares(words);
            if is_open {
                count = count.saturating_add(name_count(words));
            }
        }
    }
    count
}

/// How deep a node may stand.
const MOST_LEVELS: usize = 200;

/// A line that stands too deep, or holds too long a chain.
fn depth_finding(text: &Text<'_>) -> Option<Told> {
    for index in 0..text.lines.len() {
        let mut chain: usize = 0;
        for word in text.words_at(index) {
            if matches!(word.class, Class::And | Class::Or) {
                chain = chain.saturating_add(1);
            }
        }
        let (count, wrong, hint) = if chain > MOST_LEVELS {
            (
                chain,
                "@1 times AND or OR in one line, and each is a level deeper; @2 levels are allowed",
                "split the expression, and keep its parts in variables",
            )
        } else {
            (
                levels_round(text, index),
                "this line stands @1 levels deep; @2 are allowed",
                "each name that is declared before an arm or a choice is a level, and so is each line above it",
            )
        };
        if count > MOST_LEVELS {
            return Some(Told {
                line: index,
                at: 0,
                wrong,
                hint,
                pieces: [
                    Piece::Count(count),
                    Piece::Count(MOST_LEVELS),
                    Nothing,
                    Nothing,
                ],
            });
        }
    }
    None
}

/// Which limit a program passes that is refused as too large; nothing where the words do not tell.
pub(crate) fn large_finding(alloc: Global, text: &Text<'_>) -> Result<Option<Told>, AllocError> {
    if let Some(tally) = main_tally(alloc, text)?
        && let Some(found) = passed(&tally)
    {
        return Ok(Some(found));
    }
    Ok(depth_finding(text))
}
