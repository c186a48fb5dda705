//! The subscripts of an actual, evaluated where the call begins.

ghost use Rattle.std.specs.Prelude.{ℕ, ◌≡◌, ◌∷◌, ◌++◌, [], IfOk};
ghost use Rattle.occ_term.specs.ArraySizes.{AreFew};
ghost use Rattle.occ_term.specs.View.{subscripts};
ghost use Rattle.occ_check_lines.specs.View.{Makes, numbers_of, stretch_of};
ghost use Rattle.occ_check_lines.specs.declared.numbers.Numbers.{Numbers};
ghost use Rattle.occ_check.specs.Call.{Evaluates, EvaluatesFrom, one_constant, cell_evaluated, each_evaluated, stretch_under, subscript_evaluated};

use occ_check_lines::constant::{constant_of, is_below};
use occ_check_lines::fault::CheckFault;
use occ_check_lines::known::{Evaluated, Stretch};
use occ_check_lines::measuring::count_declaration;
use occ_check_lines::numbers::Numbers;
use occ_held::Held;
use occ_held::letters::Letters;
use occ_held::parts::Listed;
use occ_term::{Declaration, Item, Primitive, Sizes, TermExpr};
use sqlite_items::Items;
use std::alloc::{AllocError, Global};

/// Subscripts of an actual that are evaluated.
#[derive(Drop)]
pub struct Given {
    /// The subscripts.
    pub subscripts: Items<Evaluated>,
    /// The sizes that they leave.
    pub left: Sizes,
    /// The Locals that hold them.
    pub heads: Items<Declaration>,
}

/// A subscript of an actual, and the Local that holds it where it is no constant. The Local stands at this depth.
fn one_evaluated(
    numbers: &mut Numbers,
    alloc: Global,
    line: u32,
    depth: u32,
    name: &Letters,
    size: u32,
    e: TermExpr,
) -> Result<Given, CheckFault>
    ensures { EvaluatesFrom result numbers.old numbers.new
        (subscript_evaluated name.now depth size e) }
{
    match constant_of(&e) {
        Some(value) => constant_given(alloc, line, size, value),
        None => cell_given(numbers, alloc, line, depth, name, e),
    }
}

fn constant_given(alloc: Global, line: u32, size: u32, value: i64) -> Result<Given, CheckFault>
    ensures { (n : Numbers) → Evaluates result n (one_constant size value (numbers_of n)) }
{
    if !is_below(value, u64::from(size)) {
        return Err(CheckFault::Subscript { line });
    }
    let mut given = Given::new(alloc);
    given.subscripts.push(Evaluated::Value(value))?;
    Ok(given)
}

fn cell_given(
    numbers: &mut Numbers,
    alloc: Global,
    line: u32,
    depth: u32,
    name: &Letters,
    e: TermExpr,
) -> Result<Given, CheckFault>
    ensures { (size : ℕ)
        → EvaluatesFrom result numbers.old numbers.new (cell_evaluated name.now depth size e) }
{
    let cell = numbers.more_cells(alloc, Primitive::Int, name, &[])?;
    let value = Item::One(Primitive::Int, e);
    let naming = Held::new(Declaration::Naming(line, cell, value));
    count_declaration(numbers, depth, &naming.value)?;
    let given = Given::held(alloc, Evaluated::Cell(line, cell), naming.into_inner())?;
    Ok(given)
}

impl Given {
    fn new(alloc: Global) -> Given
        ensures subscripts { result.subscripts ≡ [] }
        ensures left { result.left ≡ [] }
        ensures heads { result.heads ≡ [] }
    {
        Given {
            subscripts: Items::new(alloc),
            left: Sizes::none(alloc),
            heads: Items::new(alloc),
        }
    }

    /// A subscript that a Local holds.
    fn held(alloc: Global, subscript: Evaluated, head: Declaration) -> Result<Given, AllocError>
        ensures subscripts { IfOk result (λ g. g.subscripts ≡ subscript ∷ []) }
        ensures left { IfOk result (λ g. g.left ≡ []) }
        ensures heads { IfOk result (λ g. g.heads ≡ head ∷ []) }
    {
        let mut given = Given::new(alloc);
        given.heads.push(head)?;
        given.subscripts.push(subscript)?;
        Ok(given)
    }
}

/// Subscripts of an actual, from left to right, and the sizes that they leave.
#[tactic(auto, unfolding(occ_check_meaning::specs::Calls::all_evaluated))]
pub(crate) fn all_evaluated(
    numbers: &mut Numbers,
    alloc: Global,
    line: u32,
    depth: u32,
    name: &Letters,
    under: Listed<TermExpr>,
    sizes: &[u32],
) -> Result<Given, CheckFault>
    requires { AreFew sizes.now }
    ensures { EvaluatesFrom result numbers.old numbers.new
        (each_evaluated name.now depth under sizes.now) }
{
    if under.is_empty() {
        let mut given = Given::new(alloc);
        given.left = Sizes::new(alloc, sizes)?;
        return Ok(given);
    }
    let mut others = under;
    let e = others.remove(0);
    let Some((size, rest)) = sizes.split_first() else {
        return Err(CheckFault::WrongType { line });
    };
    let first = one_evaluated(numbers, alloc, line, depth, name, *size, e)?;
    let then = all_evaluated(numbers, alloc, line, depth, name, others, rest)?;
    Ok(joined(first, then)?)
}

/// The second after the first, with the sizes that the second leaves.
fn joined(first: Given, then: Given) -> Result<Given, AllocError>
    ensures subscripts { IfOk result (λ g. g.subscripts ≡ first.subscripts ++ then.subscripts) }
    ensures left { IfOk result (λ g. g.left ≡ then.left) }
    ensures heads { IfOk result (λ g. g.heads ≡ first.heads ++ then.heads) }
{
    let Given {
        mut subscripts,
        mut heads,
        ..
    } = first;
    subscripts.append(then.subscripts)?;
    heads.append(then.heads)?;
    Ok(Given {
        subscripts,
        left: then.left,
        heads,
    })
}

/// A stretch under the subscripts of an actual.
#[tactic(auto, using(crate::proofs::GivenSubscripts::joined_evaluated))]
pub(crate) fn part_of(
    alloc: Global,
    stretch: &Stretch,
    under: Items<Evaluated>,
    left: Sizes,
) -> Result<Stretch, AllocError>
    ensures { Makes stretch_of result (stretch_under stretch.now under left) }
{
    let mut all = Items::from_slice(alloc, stretch.subscripts.as_slice())?;
    all.append(under)?;
    Ok(Stretch {
        first: stretch.first,
        sizes: stretch.sizes.copy(alloc)?,
        subscripts: all,
        left,
    })
}
