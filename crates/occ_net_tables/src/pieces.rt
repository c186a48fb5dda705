//! Where the items of a message stand in the shared lists.
ghost use Rattle.std.specs.Prelude.{◌≡◌, drop, take};
ghost use Rattle.occ_net_tables.specs.Flat.{first_count, first_word, shapes_behind};
ghost use Rattle.occ_net_tables.specs.Kept.{lengths_after, words_after};
ghost use Rattle.occ_net_tables.specs.Passing.{ArePassed};

use crate::shapes::Shape;

/// What is left of the lists, from the first item of a message on.
#[derive(Clone, Copy)]
pub(crate) struct Pieces<'a> {
    pub(crate) shapes: &'a [Shape],
    pub(crate) lengths: &'a [usize],
    pub(crate) words: &'a [i64],
}

/// The first word, and what is behind it; 0 where there is none.
pub(crate) fn split_word(words: &[i64]) -> (i64, &[i64])
    ensures first { result.0 ≡ first_word words.now }
    ensures behind { result.1.now ≡ drop 1 words.now }
{
    match words.split_first() {
        Some((word, others)) => (*word, others),
        None => (0, words),
    }
}

/// The first length, and what is behind it; 0 where there is none.
fn split_length(lengths: &[usize]) -> (usize, &[usize])
    ensures first { result.0 ≡ first_count lengths.now }
    ensures behind { result.1.now ≡ drop 1 lengths.now }
{
    match lengths.split_first() {
        Some((length, others)) => (*length, others),
        None => (0, lengths),
    }
}

impl<'a> Pieces<'a> {
    /// The components of the first array, and what is behind it among the lengths and the words.
    pub(crate) fn split_array(&self) -> (&'a [i64], &'a [usize], &'a [i64])
        ensures array { result.0.now ≡ take (first_count self.now.lengths.now) self.now.words.now }
        ensures lengths { result.1.now ≡ drop 1 self.now.lengths.now }
        ensures words { result.2.now ≡ drop (first_count self.now.lengths.now) self.now.words.now }
    {
        let (length, lengths) = split_length(self.lengths);
        let (array, words) = self.words.split_at(length.min(self.words.len()));
        (array, lengths, words)
    }

    /// What is behind the items of the first so many messages.
    pub(crate) fn behind_several(self, count: usize) -> Pieces<'a>
        ensures { ArePassed count self.entry result }
    {
        let mut left = self;
        for _passed in 0..count {
            left = left.behind();
        }
        left
    }

    /// What is behind the items of the first message.
    pub(crate) fn behind(self) -> Pieces<'a>
        ensures shapes { result.shapes.now ≡ shapes_behind self.entry.shapes.now }
        ensures lengths { result.lengths.now ≡ lengths_after self.entry }
        ensures words { result.words.now ≡ words_after self.entry }
    {
        let mut left = self;
        while let Some((shape, shapes)) = left.shapes.split_first() {
            left.shapes = shapes;
            match shape {
                Shape::Done => return left,
                Shape::One(_) => {
                    let (_, words) = split_word(left.words);
                    left.words = words;
                }
                Shape::Many(_) | Shape::Counted(_) => {
                    let (_, lengths, words) = left.split_array();
                    left.lengths = lengths;
                    left.words = words;
                }
            }
        }
        left
    }
}
