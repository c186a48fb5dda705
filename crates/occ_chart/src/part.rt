//! Which communications of a run are drawn.
ghost use Rattle.std.specs.Prelude.{◌≡◌, ◌≤◌, IfOk, length};
ghost use Rattle.occ_chart.specs.Charts.{asked, drawn_of, if_first, if_last, is_cut};
ghost use Rattle.occ_chart.specs.LeftOut.{count_seen, listed};

use crate::left_out::{is_between_others, seen};
use occ_board::Shown;
use occ_net_tables::Entries;
use occ_shown::shown_as;
use occ_term::Channel;
use std::alloc::{AllocError, Global};

/// The most arrows of a chart: with more it would be 32,000 points high, where programs that show SVG stop.
pub const MOST_ARROWS: usize = 990;

/// Which communications of a run are drawn.
#[derive(Clone, Copy, Debug, Drop)]
pub enum Part {
    /// The first ones, so many at most.
    First(u32),
    /// The last ones, so many at most.
    Last(u32),
}

impl Part {
    /// How many are asked for.
    fn asked(self) -> usize
        ensures { result ≡ asked self }
    {
        match self {
            Part::First(count) => count as usize,
            Part::Last(count) => count as usize,
        }
    }

    /// How many of so many are drawn.
    pub(crate) fn count(self, all: usize) -> usize
        ensures count { result ≡ drawn_of self all }
        ensures within { result ≤ all }
        ensures few { result ≤ 990 }
    {
        self.asked().min(MOST_ARROWS).min(all)
    }

    /// Whether of so many more are asked for than a picture has room for.
    pub(crate) fn is_cut(self, all: usize) -> bool
        ensures { result ≡ is_cut self all }
    {
        self.asked() > MOST_ARROWS && all > MOST_ARROWS
    }

    /// This number where the last ones are drawn, and else 0.
    pub(crate) fn if_last(self, number: usize) -> usize
        ensures { result ≡ if_last self number }
    {
        match self {
            Part::First(_) => 0,
            Part::Last(_) => number,
        }
    }

    /// This number where the first ones are drawn, and else 0.
    pub(crate) fn if_first(self, number: usize) -> usize
        ensures { result ≡ if_first self number }
    {
        match self {
            Part::First(_) => number,
            Part::Last(_) => 0,
        }
    }
}

/// How many of these communications are seen where these processes are left out.
pub(crate) fn count_seen(communications: &Entries<'_>, left_out: &[bool]) -> usize
    ensures is { result ≡ count_seen left_out.now communications.now }
    ensures within { result ≤ length communications.now }
{
    let mut count = 0;
    for communication in communications.copy() {
        if !is_between_others(left_out, &communication) {
            count += 1;
        }
    }
    count
}

/// So many of those that are seen, numbered from 1 with all others, but for the first ones.
pub(crate) fn listed(
    alloc: Global,
    communications: &Entries<'_>,
    left_out: &[bool],
    skipped: usize,
    count: usize,
    channels: &[Channel],
) -> Result<Vec<Shown>, AllocError>
    ensures are { IfOk result
        (λ list. list.items ≡ listed left_out.now skipped count channels.now communications.now) }
    ensures few { IfOk result (λ list. length list.items ≤ count) }
{
    let mut list = Vec::new(alloc);
    let mut number = 0;
    let (mut before, mut wanted) = (skipped, count);
    for communication in communications.copy() {
        number += 1;
        if is_between_others(left_out, &communication) {
            continue;
        }
        if before > 0 {
            before -= 1;
        } else if wanted > 0 {
            wanted -= 1;
            let shown = shown_as(alloc, number, &communication, channels)?;
            list.push(seen(alloc, &shown, left_out)?)?;
        }
    }
    Ok(list)
}
