//! The causes of refusals, as users read them.
ghost use Rattle.std.specs.Prelude.{◌≡◌, ◌≤◌, length, map};
ghost use Rattle.occ_explain.specs.Causes.{cause_of, heading_of, text_in};

use crate::cause_table::CAUSES;
use crate::headings::HEADINGS;

/// The text beside a number, and another one where it has none.
fn find(mut rows: &[(u32, &'static str)], number: u32, otherwise: &'static str) -> &'static str
    ensures { result.now
        ≡ text_in (map (λ row. (row.0, row.1.now)) rows.entry.now) number otherwise.now }
{
    while let [row, rest @ ..] = rows {
        if row.0 == number {
            return row.1;
        }
        rows = rest;
    }
    otherwise
}

fn listed(number: u32) -> &'static str
    ensures { result.now ≡ cause_of number }
{
    find(&CAUSES, number, "the text is refused")
}

/// The cause of a refusal by its number.
#[tactic(auto, using(crate::proofs::Caused::cause_in_words))]
pub(crate) fn cause_of(number: u32) -> &'static str
    ensures value { result.now ≡ cause_of number }
    ensures some { 1 ≤ length result.now }
{
    listed(number)
}

/// The heading of a refusal by its number, and nothing where it has none.
pub(crate) fn heading_of(number: u32) -> &'static str
    ensures { result.now ≡ heading_of number }
{
    find(&HEADINGS, number, "")
}
