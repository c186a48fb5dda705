//! What stands over a column.
ghost use Rattle.std.specs.Prelude.{◌≡◌, IfOk};
ghost use Rattle.occ_chart.specs.Heads.{foot_letters, head, head_over, heads_in, others_words};
ghost use Rattle.occ_chart.specs.Labels.{texts_of};

use crate::columns::is_end;
use crate::heads::{end_text, name_of};
use crate::left_out::{OTHERS, count_others};
use crate::stub::Stub;
use occ_term::End;
use std::alloc::{AllocError, Global};
use std::marker::Model;

/// Two lines over a column, and how many letters stand at its foot.
pub(crate) struct Head {
    name: Vec<u8>,
    below: Vec<u8>,
    foot: usize,
}

impl Drop for Head {
    fn drop(self) {
        let Head {
            name: _,
            below: _,
            foot: _,
        } = self;
    }
}

impl Model for Head {
    ghost use Rattle.occ_chart.specs.Heads.{ColumnHead, head};

    ghost Value = { ColumnHead };

    ghost view = { λ h. head h.name.items h.below.items h.foot };
}

impl Head {
    /// These two lines, over a foot with so many letters.
    fn new(name: Vec<u8>, below: Vec<u8>, foot: usize) -> Head
        ensures { result ≡ head name.items below.items foot }
    {
        Head { name, below, foot }
    }

    /// The name of the PROC that a process runs; empty for none.
    pub(crate) fn name(&self) -> &[u8]
        ensures { result.now ≡ self.now.name }
    {
        self.name.as_slice()
    }

    /// The number of a process, or what else it is.
    pub(crate) fn below(&self) -> &[u8]
        ensures { result.now ≡ self.now.below }
    {
        self.below.as_slice()
    }

    /// How many letters stand at the foot.
    pub(crate) fn foot(&self) -> usize
        ensures { result ≡ self.now.foot }
    {
        self.foot
    }
}

/// How many letters the words have that stand at the foot of a column.
fn foot_letters(stubs: &[Stub], end: End) -> usize
    ensures { result ≡ foot_letters stubs.now end }
{
    let mut rest = stubs;
    while let Some((first, others)) = rest.split_first() {
        if is_end(end, End::Process(first.process())) {
            return first.words().len();
        }
        rest = others;
    }
    0
}

/// What stands over the column of so many processes.
fn others_words(alloc: Global, count: usize) -> Result<Vec<u8>, AllocError>
    ensures { IfOk result (λ words. words.items ≡ others_words count) }
{
    let number = format!(in alloc; "{count}")?;
    let mut words = Vec::from_slice(alloc, number.as_bytes())?;
    if count == 1 {
        words.extend_from_slice(b" other")?;
    } else {
        words.extend_from_slice(b" others")?;
    }
    Ok(words)
}

/// What stands over the column of an end.
fn head_over(
    alloc: Global,
    names: &[Vec<u8>],
    left_out: &[bool],
    stubs: &[Stub],
    end: End,
) -> Result<Head, AllocError>
    ensures { IfOk result
        (λ h. h ≡ head_over (texts_of names.now) left_out.now stubs.now end) }
{
    let foot = foot_letters(stubs, end);
    if is_end(end, End::Process(OTHERS)) {
        let words = others_words(alloc, count_others(left_out))?;
        return Ok(Head::new(Vec::new(alloc), words, foot));
    }
    let below = end_text(alloc, end)?;
    let name = Vec::from_slice(alloc, name_of(names, end))?;
    Ok(Head::new(name, below, foot))
}

/// What stands over each column.
pub(crate) fn heads_over(
    alloc: Global,
    names: &[Vec<u8>],
    left_out: &[bool],
    stubs: &[Stub],
    columns: &[End],
) -> Result<Vec<Head>, AllocError>
    ensures { IfOk result (λ heads.
        heads.items ≡ heads_in names.now left_out.now stubs.now columns.now) }
{
    let mut heads = Vec::new(alloc);
    let mut rest = columns;
    while let Some((first, others)) = rest.split_first() {
        heads.push(head_over(alloc, names, left_out, stubs, *first)?)?;
        rest = others;
    }
    Ok(heads)
}
