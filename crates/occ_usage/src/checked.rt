//! The usage rules.
//!
//! At each PAR, a variable that one branch writes is used in no other branch, and a channel is input
//! from in at most one branch and output to in at most one. The keyboard, the screen and the error
//! channel count as branches beside the program.
ghost use Rattle.std.specs.Prelude.{◌≡◌, IfOk, IfErr};
ghost use Rattle.occ_term.specs.UnfoldedProgram.{Lawful};
ghost use Rattle.occ_usage.specs.Refusals.{UsageRefuses};
ghost use Rattle.occ_term.specs.Uses.{uses_of};
ghost use Rattle.occ_usage.specs.Clashes.{clashes};
ghost use Rattle.occ_usage.specs.Noted.{FaultFor, Finds, uses_in};
ghost use Rattle.occ_usage.specs.Parts.{used_beside};
ghost use Rattle.occ_term.specs.View.{term_of};

use crate::clashes::clash_between;
use crate::noted::{Found, Kind, Noted, Rule, Use, earlier};
use crate::terms::note_term;
use occ_term::{Cell, Channel, Term, Unfolded};
use sqlite_items::Items;
use std::alloc::{AllocError, Global};
use std::marker::Model;
use thiserror::Error;

/// Why a program's use of variables or channels is refused. The line and the name are those of the
/// first use, in the order of the program, that clashes with an earlier branch.
#[derive(Debug, Drop, Error)]
pub enum UsageFault {
    /// A variable that one branch writes is used in another.
    #[error("refused 50 SharedVariable line {line} {name}")]
    SharedVariable { line: u32, name: String },
    /// Two branches input from one channel.
    #[error("refused 51 TwoInputs line {line} {name}")]
    TwoInputs { line: u32, name: String },
    /// Two branches output to one channel.
    #[error("refused 52 TwoOutputs line {line} {name}")]
    TwoOutputs { line: u32, name: String },
    /// A growth was refused.
    #[error("memory")]
    Memory,
}

impl From<AllocError> for UsageFault {
    ghost use Rattle.occ_usage.specs.declared.checked.UsageFault.{UsageFault};

    ghost from_gives = { λ e made. made ≡ UsageFault.Memory };

    fn from(_: AllocError) -> UsageFault {
        UsageFault::Memory
    }
}

/// A refusal, which hands the program back.
#[derive(Drop)]
pub struct Refused {
    /// Why.
    pub fault: UsageFault,
    /// The program, as it was handed in.
    pub unfolded: Unfolded,
}

/// An unfolded program that keeps the usage rules. Only `check_usage` makes one.
#[derive(Drop)]
pub struct Checked {
    unfolded: Unfolded,
}

impl Model for Checked {
    ghost use Rattle.std.specs.Coded.{codes};
    ghost use Rattle.occ_term.specs.contracts.term.Term as terms;
    ghost use Rattle.occ_term.specs.UnfoldedProgram.{UnfoldedProgram, Lawful};

    ghost Value = { UnfoldedProgram };

    ghost coded = { Prim.hlevel (codes, terms.the_row.coded) };

    ghost view = { λ c. c.unfolded };

    ghost invariant = { λ c. Lawful c.unfolded };
}

impl Checked {
    /// The program.
    pub fn unfolded(&self) -> &Unfolded
        ensures { result.now ≡ self.now }
    {
        &self.unfolded
    }

    /// What every checked program keeps.
    pub fn lawful(&self)
        ensures { Lawful self.now }
    {
        let _unfolded = &self.unfolded;
    }
}

/// Accepts the programs that keep the usage rules, and hands the others back.
///
/// # Errors
///
/// `SharedVariable`, `TwoInputs` and `TwoOutputs` with the line of the first use, in the order of the
/// program, that clashes with an earlier branch, and the declared name of what it shares with it: of
/// several components the first. In an assignment the targets stand before the values. The keyboard,
/// the screen and the error channel stand before the program. `Memory` for a refused growth.
pub fn check_usage(alloc: Global, unfolded: Unfolded) -> Result<Checked, Refused>
    ensures accepted { IfOk result (λ c. (c ≡ unfolded) × Lawful c) }
    ensures refused { IfErr result
        (λ r. (r.unfolded ≡ unfolded) × UsageRefuses r.fault r.unfolded) }
{
    match find_clash(alloc, unfolded.term()) {
        Ok(None) => Ok(Checked { unfolded }),
        Ok(Some(found)) => {
            let fault = fault_of(alloc, found, unfolded.cells(), unfolded.channels());
            Err(Refused { fault, unfolded })
        }
        Err(_) => Err(Refused {
            fault: UsageFault::Memory,
            unfolded,
        }),
    }
}

/// What a term uses, in the order of the program.
pub fn term_uses(alloc: Global, term: &Term) -> Result<Items<Use>, AllocError>
    ensures { IfOk result (λ uses. uses_in uses ≡ uses_of (term_of term.now)) }
{
    let mut noted = Noted::new(alloc, 0);
    let mut found = None;
    note_term(alloc, term, &mut noted, &mut found)?;
    Ok(noted.uses)
}

/// The first clash of branches of a PAR in the term, or of the term with what is beside it.
fn find_clash(alloc: Global, term: &Term) -> Result<Option<Found>, AllocError>
    ensures { IfOk result (λ found. Finds found (λ clash. clashes clash (term_of term.now))) }
{
    let mut noted = Noted::new(alloc, 0);
    let mut found = None;
    note_term(alloc, term, &mut noted, &mut found)?;
    let beside = uses_beside(alloc)?;
    let with_beside = clash_between(alloc, beside.uses.as_slice(), noted.uses.as_slice())?;
    Ok(earlier(found, with_beside))
}

/// The keyboard outputs on channel 0, the screen inputs on 1, and the error channel's sink on 2.
fn uses_beside(alloc: Global) -> Result<Noted, AllocError>
    ensures { IfOk result (λ noted. uses_in noted.uses ≡ used_beside) }
{
    let mut noted = Noted::new(alloc, 0);
    noted.push(Kind::Output, 0, 1, 0)?;
    noted.push(Kind::Input, 1, 2, 0)?;
    noted.push(Kind::Input, 2, 3, 0)?;
    Ok(noted)
}

fn fault_of(alloc: Global, found: Found, cells: &[Cell], channels: &[Channel]) -> UsageFault
    ensures { FaultFor found.rule result }
{
    let line = found.line;
    match name_of(alloc, found, cells, channels) {
        Err(_) => UsageFault::Memory,
        Ok(name) => match found.rule {
            Rule::Variables => UsageFault::SharedVariable { line, name },
            Rule::Inputs => UsageFault::TwoInputs { line, name },
            Rule::Outputs => UsageFault::TwoOutputs { line, name },
        },
    }
}

/// The declared name of the cell, or of the channel.
fn name_of(
    alloc: Global,
    found: Found,
    cells: &[Cell],
    channels: &[Channel],
) -> Result<String, AllocError> {
    let number = found.number as usize;
    let mut letters = Vec::new(alloc);
    match found.rule {
        Rule::Variables => {
            if let Some(cell) = cells.get(number) {
                cell.name.write(alloc, &mut letters)?;
            }
        }
        Rule::Inputs | Rule::Outputs => {
            if let Some(channel) = channels.get(number) {
                channel.name.write(alloc, &mut letters)?;
            }
        }
    }
    let mut name = String::new(alloc);
    push_name(&mut name, letters.as_slice())?;
    Ok(name)
}

fn push_name(name: &mut String, bytes: &[u8]) -> Result<(), AllocError> {
    for byte in bytes {
        name.push(char::from(*byte))?;
    }
    Ok(())
}
