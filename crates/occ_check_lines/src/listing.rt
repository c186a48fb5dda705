//! What a list has had so far, each thing once. A map to nothing has it: the maps of scopes are there already.
ghost use Rattle.std.specs.Prelude.{◌≡◌, IfOk, bytes_eq, nat_eq, not};
ghost use Rattle.std.specs.List.{list_any};
ghost use Rattle.std.specs.Ordering.{int_eq};
ghost use Rattle.indexmap.specs.IndexMap.{keys};
ghost use Rattle.occ_check_lines.specs.Listing.{with_one_more};

use indexmap::IndexMap;
use occ_held::letters::Letters;
use std::alloc::AllocError;

/// Names, each once.
pub type Names = IndexMap<Letters, ()>;

/// Numbers, each once.
pub type Words = IndexMap<u32, ()>;

/// Values, each once.
pub type Values = IndexMap<i64, ()>;

/// Lists a name, and answers whether it was not listed before.
///
/// # Errors
///
/// A refused growth.
#[tactic(auto, using(crate::proofs::Keys::one_more))]
pub fn list_name(names: &mut Names, name: Letters) -> Result<bool, AllocError>
    ensures added { IfOk result (λ added.
        added ≡ not (list_any (bytes_eq name) (keys names.old))) }
    ensures keys { IfOk result (λ _.
        keys names.new ≡ with_one_more bytes_eq (keys names.old) name) }
{
    let before = names.insert(name, ())?;
    Ok(before.is_none())
}

/// Lists a number, and answers whether it was not listed before.
///
/// # Errors
///
/// A refused growth.
#[tactic(auto, using(crate::proofs::Keys::one_more))]
pub fn list_word(words: &mut Words, word: u32) -> Result<bool, AllocError>
    ensures added { IfOk result (λ added.
        added ≡ not (list_any (nat_eq word) (keys words.old))) }
    ensures keys { IfOk result (λ _.
        keys words.new ≡ with_one_more nat_eq (keys words.old) word) }
{
    let before = words.insert(word, ())?;
    Ok(before.is_none())
}

/// Lists a value, and answers whether it was not listed before.
///
/// # Errors
///
/// A refused growth.
#[tactic(auto, using(crate::proofs::Keys::one_more))]
pub fn list_value(values: &mut Values, value: i64) -> Result<bool, AllocError>
    ensures added { IfOk result (λ added.
        added ≡ not (list_any (int_eq value) (keys values.old))) }
    ensures keys { IfOk result (λ _.
        keys values.new ≡ with_one_more int_eq (keys values.old) value) }
{
    let before = values.insert(value, ())?;
    Ok(before.is_none())
}
