//! Where columns stand.
ghost use Rattle.std.specs.Prelude.{◌≡◌, ◌≤◌, ◌<◌, ◌%◌, ◌^◌, IfOk, slice_get};
ghost use Rattle.std.specs.Option.{option_map_or};
ghost use Rattle.occ_chart.specs.Places.{AreNear, AreNearest, IsLayout, apart_for, behind, behind_arrow, behind_arrows, spacing, column, feet_apart, foot_depth, foot_letters_of, foot_rows, halfway, head_depth, head_letters, head_rows, heads_apart, if_close, last_place, layout, nearest, place_at, whole_width, words_room};

use crate::headings::Head;
use crate::reaches::Reach;
use std::alloc::{AllocError, Global};
use std::marker::Model;

/// The most letters from the left for which there may be memory.
const MOST_LETTERS: u64 = 1 << 46;

/// How wide columns may be that stand apart, in points.
const MOST_POINTS: u64 = 2000;

/// This number where columns stand close, and else 0.
fn if_close(close: bool, number: usize) -> usize
    ensures is { result ≡ if_close close number }
    ensures within { result ≤ number }
{
    if close { number } else { 0 }
}

/// In how many rows heads stand by turns.
fn head_rows(close: bool) -> usize
    ensures is { result ≡ head_rows close }
    ensures some { 0 < result }
    ensures few { result ≤ 2 }
{
    if_close(close, 1) + 1
}

/// In how many rows the words at the foot do.
fn foot_rows(close: bool) -> usize
    ensures is { result ≡ foot_rows close }
    ensures some { 0 < result }
    ensures few { result ≤ 4 }
{
    if_close(close, 3) + 1
}

/// How far apart the middles of two words in one row are, with a letter between them.
fn spacing(letters: usize, others: usize) -> u64
    requires one { letters ≤ 24 }
    requires other { others ≤ 24 }
    ensures is { result ≡ spacing letters others }
    ensures few { result ≤ 38 }
{
    (letters + others + 3) as u64 / 2
}

/// For how many letters a column's head has room.
fn head_letters(heads: &[Head], column: usize) -> usize
    ensures is { result ≡ option_map_or head_letters (slice_get heads.now column) 0 }
    ensures few { result ≤ 24 }
{
    match heads.get(column) {
        Some(head) => head.name().len().max(head.below().len()).max(5).min(24),
        None => 0,
    }
}

/// And its foot.
fn foot_letters(heads: &[Head], column: usize) -> usize
    ensures is { result ≡ option_map_or foot_letters_of (slice_get heads.now column) 0 }
    ensures few { result ≤ 24 }
{
    match heads.get(column) {
        Some(head) => head.foot().min(24),
        None => 0,
    }
}

fn heads_apart(heads: &[Head], one: usize, other: usize) -> u64
    ensures is { result ≡ heads_apart heads.now one other }
    ensures few { result ≤ 38 }
{
    spacing(head_letters(heads, one), head_letters(heads, other))
}

fn feet_apart(heads: &[Head], one: usize, other: usize) -> u64
    ensures is { result ≡ feet_apart heads.now one other }
    ensures few { result ≤ 38 }
{
    spacing(foot_letters(heads, one), foot_letters(heads, other))
}

/// How far apart two columns are for words between them.
fn apart_for(letters: usize) -> u64
    ensures is { result ≡ apart_for letters }
    ensures few { result ≤ 38 }
{
    letters.min(36) as u64 + 2
}

/// So many letters behind the column that stands so many before it; 12 from the left where none does.
fn behind(places: &[u64], column: usize, back: usize, letters: u64) -> u64
    requires near { AreNear places.now }
    requires few { letters ≤ 38 }
    ensures is { result ≡ behind places.now column back letters }
    ensures near { result ≤ 2 ^ 47 }
{
    if column < back {
        12
    } else {
        place_at(places, column - back) + letters
    }
}

/// Where a column may stand for the words of an arrow that ends there on the right.
fn behind_arrow(places: &[u64], column: usize, reach: Reach) -> u64
    requires { AreNear places.now }
    ensures is { result ≡ behind_arrow places.now column reach }
    ensures near { result ≤ 2 ^ 47 }
{
    if reach.right == column && reach.left < column {
        place_at(places, reach.left) + apart_for(reach.letters)
    } else {
        0
    }
}

/// The same for those of all arrows.
#[tactic(auto, using(crate::proofs::Placing::one_more))]
fn behind_arrows(places: &[u64], column: usize, reaches: &[Reach]) -> u64
    requires { AreNear places.now }
    ensures is { result ≡ behind_arrows places.now column reaches.now }
    ensures near { result ≤ 2 ^ 47 }
{
    let mut place = 0;
    let mut rest = reaches;
    while let Some((first, others)) = rest.split_first() {
        place = place.max(behind_arrow(places, column, *first));
        rest = others;
    }
    place
}

/// Where a column stands behind those at these places.
fn nearest(close: bool, reaches: &[Reach], heads: &[Head], places: &[u64], column: usize) -> u64
    requires { AreNear places.now }
    ensures { result ≡ nearest close reaches.now heads.now places.now column }
{
    let (rows, below) = (head_rows(close), foot_rows(close));
    let over = heads_apart(heads, column.saturating_sub(rows), column);
    let under = feet_apart(heads, column.saturating_sub(below), column);
    let words = if close {
        0
    } else {
        behind_arrows(places, column, reaches)
    };
    let head = behind(places, column, 1, 4).max(behind(places, column, rows, over));
    head.max(behind(places, column, below, under).max(words))
}

/// Where each column stands, in letters from the left.
#[tactic(auto, using(crate::proofs::Placing::next_near))]
fn nearest_places(
    alloc: Global,
    close: bool,
    reaches: &[Reach],
    heads: &[Head],
) -> Result<Vec<u64>, AllocError>
    ensures are { IfOk result (λ places. AreNearest close reaches.now heads.now places.items) }
    ensures near { IfOk result (λ places. AreNear places.items) }
{
    let mut places = Vec::new(alloc);
    for column in 0..heads.len() {
        let place = nearest(close, reaches, heads, places.as_slice(), column);
        if place > MOST_LETTERS {
            return Err(AllocError);
        }
        places.push(place)?;
    }
    Ok(places)
}

/// Where one of the columns stands.
fn place_at(places: &[u64], column: usize) -> u64
    requires { AreNear places.now }
    ensures is { result ≡ place_at places.now column }
    ensures near { result ≤ 2 ^ 46 }
{
    match places.get(column) {
        Some(place) => *place,
        None => 0,
    }
}

/// Where the last column stands.
pub(crate) fn last_place(places: &[u64]) -> u64
    requires { AreNear places.now }
    ensures is { result ≡ last_place places.now }
    ensures near { result ≤ 2 ^ 46 }
{
    place_at(places, places.len().saturating_sub(1))
}

/// Whether columns stand close, and where each stands.
pub(crate) struct Layout {
    close: bool,
    places: Vec<u64>,
}

impl Drop for Layout {
    fn drop(self) {
        let Layout {
            close: _,
            places: _,
        } = self;
    }
}

impl Model for Layout {
    ghost use Rattle.occ_chart.specs.Places.{Layout as Placed, layout};

    ghost Value = { Placed };

    ghost view = { λ l. layout l.close l.places.items };
}

impl Layout {
    /// Close or apart, at these places.
    fn new(close: bool, places: Vec<u64>) -> Layout
        ensures { result ≡ layout close places.items }
    {
        Layout { close, places }
    }

    /// Where the columns stand.
    pub(crate) fn places(&self) -> &[u64]
        ensures { result.now ≡ self.now.places }
    {
        self.places.as_slice()
    }

    /// The place of a column in the picture, in points: a letter has 7.
    pub(crate) fn column(&self, number: usize) -> u64
        requires { AreNear self.now.places }
        ensures { result ≡ column self.now number }
    {
        7 * place_at(self.places(), number)
    }

    /// In how many rows heads stand by turns.
    pub(crate) fn head_rows(&self) -> usize
        ensures is { result ≡ head_rows self.now.close }
        ensures few { result ≤ 2 }
    {
        head_rows(self.close)
    }

    /// How far below the first row a head stands.
    pub(crate) fn head_depth(&self, column: usize) -> u64
        ensures is { result ≡ head_depth self.now column }
        ensures few { result ≤ 60 }
    {
        30 * (column % head_rows(self.close)) as u64
    }

    /// How far words at the foot do.
    pub(crate) fn foot_depth(&self, column: usize) -> u64
        ensures is { result ≡ foot_depth self.now column }
        ensures few { result ≤ 60 }
    {
        14 * (column % foot_rows(self.close)) as u64
    }

    /// So many points where columns stand close, and else 0.
    pub(crate) fn if_close(&self, points: usize) -> u64
        ensures is { result ≡ if_close self.now.close points }
        ensures within { result ≤ points }
    {
        if_close(self.close, points) as u64
    }

    /// The place halfway between two columns.
    pub(crate) fn halfway(&self, from: usize, to: usize) -> u64
        requires { AreNear self.now.places }
        ensures { result ≡ halfway self.now from to }
    {
        7 * (place_at(self.places(), from) + place_at(self.places(), to)) / 2
    }

    /// For how many letters an arrow between two columns has room.
    pub(crate) fn words_room(&self, from: usize, to: usize) -> usize
        requires { AreNear self.now.places }
        ensures is { result ≡ words_room self.now from to }
        ensures few { result ≤ 2 ^ 47 }
    {
        let (from, to) = (place_at(self.places(), from), place_at(self.places(), to));
        let room = ((from.max(to) - from.min(to)) as usize).saturating_sub(2);
        if_close(self.close, 24).max(room)
    }
}

/// How wide columns are at these places, in points.
fn whole_width(places: &[u64]) -> u64
    requires { AreNear places.now }
    ensures { result ≡ whole_width places.now }
{
    7 * (last_place(places) + 12)
}

/// Where columns with these heads stand, for the words of arrows between them.
pub(crate) fn laid_out(
    alloc: Global,
    reaches: &[Reach],
    heads: &[Head],
) -> Result<Layout, AllocError>
    ensures is { IfOk result (λ layout. IsLayout reaches.now heads.now layout) }
    ensures near { IfOk result (λ layout. AreNear layout.places) }
{
    let apart = nearest_places(alloc, false, reaches, heads)?;
    if whole_width(apart.as_slice()) <= MOST_POINTS {
        return Ok(Layout::new(false, apart));
    }
    let near = nearest_places(alloc, true, reaches, heads)?;
    Ok(Layout::new(true, near))
}
