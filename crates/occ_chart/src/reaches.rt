//! Between which columns the words of arrows stand.
ghost use Rattle.std.specs.Prelude.{◌≡◌, IfOk};
ghost use Rattle.occ_chart.specs.Places.{reach_of, reaches_of};

use crate::arrows::numbered_words;
use crate::columns::place_of;
use occ_board::Shown;
use occ_term::End;
use std::alloc::{AllocError, Global};

/// The columns of an arrow, from the left, and how many letters its words have.
#[derive(Clone, Copy)]
pub(crate) struct Reach {
    /// The left column.
    pub left: usize,
    /// The right one.
    pub right: usize,
    /// How many letters.
    pub letters: usize,
}

fn reach_of(alloc: Global, columns: &[End], shown: &Shown) -> Result<Reach, AllocError>
    ensures { IfOk result (λ reach. reach ≡ reach_of columns.now shown.now) }
{
    let from = place_of(columns, shown.sender());
    let to = place_of(columns, shown.receiver());
    let words = numbered_words(alloc, shown)?;
    Ok(Reach {
        left: from.min(to),
        right: from.max(to),
        letters: words.len(),
    })
}

/// Those of the arrows of these communications.
pub(crate) fn reaches_of(
    alloc: Global,
    columns: &[End],
    shown: &[Shown],
) -> Result<Vec<Reach>, AllocError>
    ensures { IfOk result (λ reaches. reaches.items ≡ reaches_of columns.now shown.now) }
{
    let mut reaches = Vec::new(alloc);
    let mut rest = shown;
    while let Some((first, others)) = rest.split_first() {
        reaches.push(reach_of(alloc, columns, first)?)?;
        rest = others;
    }
    Ok(reaches)
}
