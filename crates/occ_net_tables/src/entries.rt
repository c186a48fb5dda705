//! Tables of process numbers, by channel or by process.
ghost use Rattle.std.specs.Prelude.{◌≡◌, IfOk, None, Some, replicate, slice_set};
ghost use Rattle.occ_net_tables.specs.Keys.{CountsOneDown, HasCount, entry_in, set_all};

use std::alloc::{AllocError, Global};

/// Who stands at this key.
#[inline(always)]
pub(crate) fn entry(table: &[Option<u32>], key: u32) -> Option<u32>
    ensures { result ≡ entry_in table.now key }
{
    match table.get(key as usize) {
        Some(Some(number)) => Some(*number),
        _ => None,
    }
}

/// Lets somebody stand at this key, or nobody.
#[inline(always)]
pub(crate) fn set_entry(table: &mut Vec<Option<u32>>, key: u32, value: Option<u32>)
    ensures { table.new.items ≡ slice_set table.old.items key value }
{
    let place = key as usize;
    if place < table.len() {
        table[place] = value;
    }
}

/// A table of so many keys, where nobody stands.
pub(crate) fn empty(alloc: Global, count: usize) -> Result<Vec<Option<u32>>, AllocError>
    ensures { IfOk result (λ table. table.items ≡ replicate count None) }
{
    vec![in alloc; None; count]
}

/// Lets nobody stand at these keys.
pub(crate) fn clear_entries(table: &mut Vec<Option<u32>>, keys: &[u32])
    ensures { table.new.items ≡ set_all keys.now None table.old.items }
{
    for key in keys {
        set_entry(table, *key, None);
    }
}

/// Sets a count.
pub(crate) fn set_count(counts: &mut Vec<usize>, key: u32, count: usize)
    ensures { counts.new.items ≡ slice_set counts.old.items key count }
{
    let place = key as usize;
    if place < counts.len() {
        counts[place] = count;
    }
}

/// Counts one less.
pub(crate) fn count_down(counts: &mut Vec<usize>, key: u32) -> usize
    requires { HasCount counts.old.items key }
    ensures { CountsOneDown counts.old.items key result counts.new.items }
{
    let place = key as usize;
    let left = counts[place] - 1;
    counts[place] = left;
    left
}

/// So many counts of 0.
pub(crate) fn no_counts(alloc: Global, count: usize) -> Result<Vec<usize>, AllocError>
    ensures { IfOk result (λ counts. counts.items ≡ replicate count 0) }
{
    vec![in alloc; 0; count]
}
