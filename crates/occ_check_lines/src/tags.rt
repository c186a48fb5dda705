//! The tags that an input of variants lists, each found by its name.

ghost use Rattle.std.specs.Prelude.{ℕ, ◌≡◌, ◌∷◌, [], IfErr, IfOk, List};
ghost use Rattle.occ_term.specs.declared.protocol.Protocol.{Protocol};
ghost use Rattle.occ_check_meaning.specs.Items.{tag_number};
ghost use Rattle.occ_check_lines.specs.View.{Answers};
ghost use Rattle.occ_check_lines.specs.declared.fault.CheckFault.TheVariants.{Memory};
ghost use Rattle.occ_check_lines.specs.Tags.{AreTagsOf, listed_in, number_at, tags_of, next_tag};

use crate::fault::CheckFault;
use crate::item::word_of;
use crate::listing::{Words, list_word};
use indexmap::IndexMap;
use occ_held::letters::Letters;
use occ_term::{Protocol, Tag};
use std::alloc::Global;

/// The tags of a protocol by their names, and those that are listed.
pub struct Tags {
    /// The number of each name: of the first tag that has it.
    pub numbers: IndexMap<Letters, usize>,
    /// The numbers that are listed so far, in order.
    pub listed: Words,
}

impl Drop for Tags {
    fn drop(self) {
        let Tags {
            numbers: _,
            listed: _,
        } = self;
    }
}

impl Tags {
    /// The tags of a protocol, none of them listed.
    ///
    /// # Errors
    ///
    /// `Memory`.
    pub fn new(alloc: Global, protocol: &Protocol) -> Result<Tags, CheckFault>
        ensures tags { IfOk result (AreTagsOf protocol.now) }
        ensures listed { IfOk result (λ t. listed_in t ≡ []) }
        ensures memory { IfErr result (λ e. e ≡ Memory) }
    {
        let numbers = numbers_of(alloc, tags_in(protocol))?;
        Ok(Tags {
            numbers,
            listed: IndexMap::new(alloc),
        })
    }

    /// The number of a tag that was not listed before, which is listed then.
    ///
    /// # Errors
    ///
    /// `Tag` for one that was, for one that the protocol has not or has behind 2 to the 32 others, and `Memory`.
    pub fn next(&mut self, line: u32, name: &Letters) -> Result<u32, CheckFault>
        ensures tag { (p : Protocol) → AreTagsOf p self.old
            → Answers result (next_tag p name.now self.old) }
        ensures listed { IfOk result (λ k. listed_in self.new ≡ k ∷ listed_in self.old) }
        ensures numbers { self.new.numbers ≡ self.old.numbers }
    {
        let number = match self.numbers.get(name) {
            Some(number) => *number,
            None => return Err(CheckFault::Tag { line }),
        };
        let tag = word_of(line, number)?;
        let added = list_word(&mut self.listed, tag)?;
        if added {
            Ok(tag)
        } else {
            Err(CheckFault::Tag { line })
        }
    }
}

/// The tags of a protocol, and none where it has no tags.
fn tags_in(protocol: &Protocol) -> &[Tag]
    ensures { result.now ≡ tags_of protocol.now }
{
    match protocol {
        Protocol::Variant(tags) => tags.as_slice(),
        Protocol::Simple(_, _) => &[],
        Protocol::CountedArray(_, _) => &[],
        Protocol::Sequential(_) => &[],
    }
}

/// The number of each name. The last tag comes first, so that the first one of a name stays.
fn numbers_of(alloc: Global, tags: &[Tag]) -> Result<IndexMap<Letters, usize>, CheckFault>
    ensures numbers { IfOk result
        (λ ns. (x : List ℕ) → number_at x ns.entries ≡ tag_number tags.now x 0) }
    ensures memory { IfErr result (λ e. e ≡ Memory) }
{
    let mut numbers = IndexMap::new(alloc);
    let mut left = tags.len();
    while left > 0 {
        left -= 1;
        let name = tags[left].name.copy()?;
        numbers.insert(name, left)?;
    }
    Ok(numbers)
}
