//! The first use of a branch that clashes with an earlier branch.
ghost use Rattle.std.specs.Prelude.{◌≡◌, IfOk, map};
ghost use Rattle.occ_usage.specs.Noted.{Finds, between, clash_among, use_of, uses_in, uses_in_all};
ghost use Rattle.occ_usage.specs.Indexes.{AreIndexes, IsOne, Tells, indexed};

use crate::index::Index;
use crate::noted::{Found, Kind, Noted, Rule, Use, earlier};
use sqlite_items::Items;
use std::alloc::{AllocError, Global};

/// The first clash of a use with an earlier one of the branches whose uses these are.
pub fn first_clash(alloc: Global, lists: &[Items<Use>]) -> Result<Option<Found>, AllocError>
    ensures { IfOk result (λ found. Finds found (clash_among (map uses_in lists.now))) }
{
    let middle = lists.len() / 2;
    if middle == 0 {
        return Ok(None);
    }
    let (left, right) = lists.split_at(middle);
    match first_clash(alloc, left)? {
        Some(found) => Ok(Some(found)),
        None => {
            let across = clash_across(alloc, left, right)?;
            let after = first_clash(alloc, right)?;
            Ok(earlier(across, after))
        }
    }
}

fn clash_across(
    alloc: Global,
    left: &[Items<Use>],
    right: &[Items<Use>],
) -> Result<Option<Found>, AllocError>
    ensures { IfOk result (λ found. Finds found
        (λ clash. clash (uses_in_all left.now) (uses_in_all right.now))) }
{
    let mut first = Noted::new(alloc, 0);
    first.extend_all(left)?;
    let mut second = Noted::new(alloc, 0);
    second.extend_all(right)?;
    let found = clash_between(alloc, first.uses.as_slice(), second.uses.as_slice())?;
    Ok(found)
}

/// The first use of the second list that clashes with one of the first.
pub fn clash_between(
    alloc: Global,
    left: &[Use],
    right: &[Use],
) -> Result<Option<Found>, AllocError>
    ensures { IfOk result (λ found. Finds found
        (λ clash. clash (uses_in left.now) (uses_in right.now))) }
{
    let all = Indexes::new(alloc, left)?;
    for one in right {
        match clash_of(&all, *one) {
            Some(found) => return Ok(Some(found)),
            None => {}
        }
    }
    Ok(None)
}

/// The uses of a list by kind.
#[derive(Drop)]
pub struct Indexes {
    reads: Index,
    writes: Index,
    inputs: Index,
    outputs: Index,
}

impl Indexes {
    fn new(alloc: Global, uses: &[Use]) -> Result<Indexes, AllocError>
        ensures sound { IfOk result AreIndexes }
        ensures uses { IfOk result (λ all. indexed all ≡ uses_in uses.now) }
    {
        Ok(Indexes {
            reads: Index::new(alloc, uses, Kind::Read)?,
            writes: Index::new(alloc, uses, Kind::Write)?,
            inputs: Index::new(alloc, uses, Kind::Input)?,
            outputs: Index::new(alloc, uses, Kind::Output)?,
        })
    }
}

/// The clash of a use with one of those before, at the first number where there is one.
fn clash_of(all: &Indexes, one: Use) -> Option<Found>
    requires { AreIndexes all.now }
    ensures { Finds result (λ clash. clash
        (indexed all.now) (use_of one.kind (between one.first one.end))) }
{
    match one.kind {
        Kind::Read => {
            let number = all.writes.first_within(one.first, one.end);
            found_at(Rule::Variables, number, one)
        }
        Kind::Write => {
            let read = all.reads.first_within(one.first, one.end);
            let written = all.writes.first_within(one.first, one.end);
            found_at(Rule::Variables, lesser(read, written), one)
        }
        Kind::Input => {
            let number = all.inputs.first_within(one.first, one.end);
            found_at(Rule::Inputs, number, one)
        }
        Kind::Output => {
            let number = all.outputs.first_within(one.first, one.end);
            found_at(Rule::Outputs, number, one)
        }
    }
}

fn found_at(rule: Rule, number: Option<u64>, one: Use) -> Option<Found>
    ensures { Tells result rule number }
{
    match number {
        None => None,
        Some(number) => Some(Found {
            rule,
            number,
            line: one.line,
            order: one.order,
        }),
    }
}

/// The lesser of two numbers, or the only one.
fn lesser(number: Option<u64>, other: Option<u64>) -> Option<u64>
    ensures { IsOne result number other }
{
    match (number, other) {
        (None, other) => other,
        (number, None) => number,
        (Some(a), Some(b)) => Some(a.min(b)),
    }
}
