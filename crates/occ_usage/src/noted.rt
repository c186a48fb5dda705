//! Uses of cells and channels, in the order of the program.
ghost use Rattle.std.specs.Prelude.{◌≡◌, []};
ghost use Rattle.occ_usage.specs.Noted.{between, use_of, uses_in, IsOneOf, uses_in_all};
ghost use Rattle.occ_usage.specs.Parts.{NotesUses};

use sqlite_items::Items;
use std::alloc::{AllocError, Global};

/// How cells or channels are used.
#[derive(Clone, Copy)]
pub enum Kind {
    /// Cells are read.
    Read,
    /// Cells are written.
    Write,
    /// Channels are input from.
    Input,
    /// Channels are output to.
    Output,
}

/// What no two branches of a PAR may do.
#[derive(Clone, Copy)]
pub enum Rule {
    /// One writes a cell that the other uses.
    Variables,
    /// Both input from a channel.
    Inputs,
    /// Both output to a channel.
    Outputs,
}

/// A use of cells or channels one after another.
#[derive(Clone, Copy)]
pub struct Use {
    /// How they are used.
    pub kind: Kind,
    /// The first of them.
    pub first: u64,
    /// The number after the last one.
    pub end: u64,
    /// The line.
    pub line: u32,
    /// How many uses stand before it in the program.
    pub order: u64,
}

/// A use that clashes with one of an earlier branch.
#[derive(Clone, Copy)]
pub struct Found {
    /// The rule that is broken.
    pub rule: Rule,
    /// The cell, or the channel.
    pub number: u64,
    /// The line of the use.
    pub line: u32,
    /// How many uses stand before it in the program.
    pub order: u64,
}

/// The uses of a part of the program.
#[derive(Drop)]
pub struct Noted {
    /// The uses, in order.
    pub uses: Items<Use>,
    /// How many uses stand before the next one in the program.
    pub next: u64,
}

impl Noted {
    /// No use yet, behind so many others.
    pub fn new(alloc: Global, next: u64) -> Noted
        ensures { result.uses ≡ [] }
    {
        Noted {
            uses: Items::new(alloc),
            next,
        }
    }

    /// Notes one more use, of the numbers from the first up to the end.
    pub fn push(&mut self, kind: Kind, first: u64, end: u64, line: u32) -> Result<(), AllocError>
        ensures { NotesUses result self.old self.new (use_of kind (between first end)) }
    {
        let order = self.next;
        self.uses.push(Use {
            kind,
            first,
            end,
            line,
            order,
        })?;
        self.next = order.saturating_add(1);
        Ok(())
    }

    /// Notes the uses of a list after these.
    pub fn extend(&mut self, list: &[Use]) -> Result<(), AllocError>
        ensures { NotesUses result self.old self.new (uses_in list.now) }
    {
        for one in list {
            self.uses.push(*one)?;
        }
        Ok(())
    }

    /// Notes the uses of all lists after these.
    pub fn extend_all(&mut self, lists: &[Items<Use>]) -> Result<(), AllocError>
        ensures { NotesUses result self.old self.new (uses_in_all lists.now) }
    {
        for list in lists {
            self.extend(list.as_slice())?;
        }
        Ok(())
    }
}

/// The earlier of two clashes.
pub fn earlier(found: Option<Found>, other: Option<Found>) -> Option<Found>
    ensures { IsOneOf result found other }
{
    match (found, other) {
        (None, other) => other,
        (found, None) => found,
        (Some(a), Some(b)) => { if b.order < a.order { Some(b) } else { Some(a) } }
    }
}
