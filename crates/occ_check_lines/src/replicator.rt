//! Replicators: an index with its cell, or the copies of a PAR.

ghost use Rattle.occ_check_meaning.specs.Constants.{a_count};
ghost use Rattle.occ_check_lines.specs.View.{Answers};
ghost use Rattle.occ_check_lines.specs.Declaration.{Indexes};
ghost use Rattle.occ_check_lines.specs.Typing.{copies_in, indexed_in};

use crate::context::Context;
use crate::declaration::{Named, stretch_from};
use crate::expression::{constant_as, typed_as};
use crate::fault::CheckFault;
use crate::known::{Access, Known};
use crate::measuring::count_replicator;
use crate::numbers::Numbers;
use occ_term::{Primitive, Replicator, Sizes};
use occ_tree_grammar::tree::line::Replicator as ReplicatorTree;

/// A replicator with its index.
#[derive(Drop)]
pub struct Indexed {
    /// The replicator.
    pub replicator: Replicator,
    /// The index, and its cell.
    pub name: Named,
}

/// A replicator of a SEQ, an IF or an ALT, with its index. It stands at this depth.
///
/// # Errors
///
/// As `typed_as` of an INT, `TooLarge` for too many cells or nodes, and `Memory`.
pub fn index_replicator(
    numbers: &mut Numbers,
    context: Context<'_, '_>,
    depth: u32,
    replicator: &ReplicatorTree,
) -> Result<Indexed, CheckFault>
    ensures { Indexes result numbers.new
        (indexed_in context.entry depth replicator.now numbers.old) }
{
    let base = typed_as(context, Primitive::Int, &replicator.base)?;
    let count = typed_as(context, Primitive::Int, &replicator.count)?;
    let index = numbers.more_cells(context.alloc, Primitive::Int, &replicator.name, &[])?;
    let over = Replicator {
        line: context.line,
        index,
        base,
        count,
    };
    count_replicator(numbers, depth, &over)?;
    let stretch = stretch_from(context.alloc, index, &Sizes::none(context.alloc))?;
    let known = Known::Cells(Access::Kept, Primitive::Int, stretch);
    let name = Named::new(&replicator.name, known)?;
    Ok(Indexed {
        replicator: over,
        name,
    })
}

/// The base of a replicated PAR, and how many copies it has.
///
/// # Errors
///
/// As `constant_as` of an INT, and `BadCount` for a negative count or an index that is no INT.
pub fn copies_of(
    context: Context<'_, '_>,
    replicator: &ReplicatorTree,
) -> Result<(i64, u64), CheckFault>
    ensures { Answers result (copies_in context.entry replicator.now) }
{
    let base = constant_as(context, Primitive::Int, &replicator.base)?;
    let count = constant_as(context, Primitive::Int, &replicator.count)?;
    let copies = count_of(context.line, base, count)?;
    Ok((base, copies))
}

fn count_of(line: u32, base: i64, count: i64) -> Result<u64, CheckFault>
    ensures { Answers result (a_count base count) }
{
    if 0 <= count && count <= 2147483648_i64.saturating_sub(base) {
        Ok(count as u64)
    } else {
        Err(CheckFault::BadCount { line })
    }
}
