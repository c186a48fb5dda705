//! What is declared: cells and channels, with their names.

ghost use Rattle.std.specs.Prelude.{◌≡◌, ◌↔◌, ◌++◌, IfOk, IsTrue, OnOk};
ghost use Rattle.std.specs.Arc.{arc_value};
ghost use Rattle.occ_term.specs.Names.{component_name, with_subscripts};

use crate::primitive::Primitive;
use crate::protocol::Protocol;
use crate::same::{same_bytes, same_numbers};
use occ_held::letters::Letters;
use sqlite_items::Items;
use std::alloc::{AllocError, Global};
use std::marker::Model;
use std::sync::Arc;

/// How many cells a program may have.
pub const MOST_CELLS: usize = 1_048_576;

/// The keyboard's channel.
pub const KEYBOARD: u32 = 0;

/// The screen's channel.
pub const SCREEN: u32 = 1;

/// The error channel.
pub const ERROR: u32 = 2;

/// Letters with the subscripts behind them, which the components of a row share.
struct Stem {
    letters: Letters,
    subscripts: Items<u32>,
}

impl Drop for Stem {
    fn drop(self) {
        let Stem {
            letters: _,
            subscripts: _,
        } = self;
    }
}

/// A declared name; of a component with its subscripts, as `a[2]`. Contracts see its letters. Copies share them, and so do
/// the components of an array: each has but its last subscript for itself.
pub struct Name {
    stem: Arc<Stem, Global>,
    last: Option<u32>,
}

impl Model for Name {
    ghost use Rattle.std.specs.Prelude.{List, ℕ};
    ghost use Rattle.std.specs.Arc.{arc_value};
    ghost use Rattle.occ_term.specs.Names.{with_last, with_subscripts};

    ghost Value = { List ℕ };

    ghost view = { λ n. with_last (with_subscripts (arc_value n.stem).letters (arc_value n.stem).subscripts) n.last };
}

impl Drop for Name {
    fn drop(self) {
        let Name { stem: _, last: _ } = self;
    }
}

impl Name {
    /// The name with these letters. The error is a refused growth.
    pub fn new(alloc: Global, letters: &[u8]) -> Result<Name, AllocError>
        ensures { IfOk result (λ n. n ≡ letters.now) }
    {
        Name::of(alloc, Letters::new(alloc, letters)?)
    }

    /// The name with these letters, which it shares with their copies. The error is a refused growth.
    #[tactic(auto, using(crate::proofs::Components::no_subscripts), unfolding(crate::specs::Names::with_subscripts))]
    pub fn of(alloc: Global, letters: Letters) -> Result<Name, AllocError>
        ensures { IfOk result (λ n. n ≡ letters) }
    {
        let stem = Stem {
            letters,
            subscripts: Items::new(alloc),
        };
        let stem = Arc::new(alloc, stem)?;
        Ok(Name { stem, last: None })
    }

    /// The name of the component with this number. The error is a refused growth.
    pub fn component(&self, alloc: Global, number: u32) -> Result<Name, AllocError>
        ensures { IfOk result (λ n. n ≡ component_name self.now number) }
    {
        let stem = self.as_stem(alloc)?;
        Ok(Name {
            stem,
            last: Some(number),
        })
    }

    /// The same name, whose components share all of it. The error is a refused growth.
    pub fn shared(&self, alloc: Global) -> Result<Name, AllocError>
        ensures { IfOk result (λ n. n ≡ self.now) }
    {
        let stem = self.as_stem(alloc)?;
        Ok(Name { stem, last: None })
    }

    /// All of the name as what components share. The error is a refused growth.
    #[tactic(auto, using(crate::proofs::Components::one_more_subscript))]
    fn as_stem(&self, alloc: Global) -> Result<Arc<Stem, Global>, AllocError>
        ensures { IfOk result
            (λ s. with_subscripts (arc_value s).letters (arc_value s).subscripts ≡ self.now) }
    {
        match self.last {
            None => Arc::try_clone(&self.stem),
            Some(number) => {
                let letters = self.stem.letters.copy()?;
                let mut subscripts = Items::from_slice(alloc, self.stem.subscripts.as_slice())?;
                subscripts.push(number)?;
                let stem = Stem {
                    letters,
                    subscripts,
                };
                let stem = Arc::new(alloc, stem)?;
                Ok(stem)
            }
        }
    }

    /// A copy, which shares the letters. The error is that there are too many copies.
    pub fn copy(&self) -> Result<Name, AllocError>
        ensures { IfOk result (λ n. n ≡ self.now) }
    {
        let stem = Arc::try_clone(&self.stem)?;
        Ok(Name {
            stem,
            last: self.last,
        })
    }

    /// Whether both have the same letters. The error is a refused growth, which is never asked for where they are components
    /// of the same array.
    pub fn is_same(&self, alloc: Global, other: &Name) -> Result<bool, AllocError>
        ensures { IfOk result (λ same. IsTrue same ↔ (self.now ≡ other.now)) }
    {
        if self.has_parts_of(other) {
            return Ok(true);
        }
        let mut letters = Vec::new(alloc);
        self.write(alloc, &mut letters)?;
        let mut others = Vec::new(alloc);
        other.write(alloc, &mut others)?;
        Ok(same_bytes(&letters, &others))
    }

    /// Whether both have the same letters and the same subscripts, each by itself.
    fn has_parts_of(&self, other: &Name) -> bool
        ensures { IsTrue result → self.now ≡ other.now }
    {
        self.last == other.last
            && same_bytes(self.stem.letters.as_slice(), other.stem.letters.as_slice())
            && same_numbers(
                self.stem.subscripts.as_slice(),
                other.stem.subscripts.as_slice(),
            )
    }

    /// Writes the letters behind others. The error is a refused growth.
    #[tactic(auto, using(crate::proofs::Components::subscripts_behind, crate::proofs::Components::last_behind))]
    pub fn write(&self, alloc: Global, out: &mut Vec<u8>) -> Result<(), AllocError>
        ensures { OnOk result (out.new.items ≡ out.old.items ++ self.now) }
    {
        out.extend_from_slice(self.stem.letters.as_slice())?;
        write_subscripts(alloc, out, self.stem.subscripts.as_slice())?;
        if let Some(number) = self.last {
            write_subscript(alloc, out, number)?;
        }
        Ok(())
    }
}

/// Writes subscripts, each in its brackets.
#[tactic(auto, using(crate::proofs::Components::one_more_subscript), unfolding(crate::specs::Names::with_subscripts))]
fn write_subscripts(alloc: Global, out: &mut Vec<u8>, subscripts: &[u32]) -> Result<(), AllocError>
    ensures { OnOk result (out.new.items ≡ with_subscripts out.old.items subscripts.now) }
{
    for k in subscripts {
        write_subscript(alloc, out, *k)?;
    }
    Ok(())
}

/// Writes a subscript in its brackets.
fn write_subscript(alloc: Global, out: &mut Vec<u8>, k: u32) -> Result<(), AllocError>
    ensures { OnOk result (out.new.items ≡ component_name out.old.items k) }
{
    let digits = format!(in alloc; "{k}")?;
    out.push(b'[')?;
    out.extend_from_slice(digits.as_bytes())?;
    out.push(b']')?;
    Ok(())
}

/// A cell: a variable, or one component of an array.
#[derive(Drop)]
pub struct Cell {
    /// The declared name; of a component with its subscript, as `a[2]`.
    pub name: Name,
    /// The type of its values.
    pub primitive: Primitive,
}

/// A channel, or one component of an array of channels.
#[derive(Drop)]
pub struct Channel {
    /// The declared name; of a component with its subscript, as `c[2]`.
    pub name: Name,
    /// What its messages look like.
    pub protocol: Protocol,
}

impl Channel {
    /// A copy. The error is a refused growth.
    pub fn copy(&self, alloc: Global) -> Result<Channel, AllocError>
        ensures { IfOk result (λ c. c ≡ self.now) }
    {
        Ok(Channel {
            name: self.name.copy()?,
            protocol: self.protocol.copy(alloc)?,
        })
    }
}
