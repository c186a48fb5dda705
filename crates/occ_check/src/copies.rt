//! The copies of a replicated PAR.

ghost use Rattle.std.specs.Prelude.{◌≡◌, ◌<◌, ◌≤◌, ◌-◌, ◌+ℤ◌, ◌≤ℤ◌, pos, IfErr, IfOk, OnOk};
ghost use Rattle.occ_check_meaning.specs.Scope.{within};
ghost use Rattle.occ_check.specs.Copies.{OpensCopy, copy_weight, counted_copies, inside_copy, par_for};
ghost use Rattle.occ_check.specs.Opened.{Begins, IsReady, LeavesWithin};
ghost use Rattle.occ_check_lines.specs.View.{itself};
ghost use Rattle.occ_check_lines.specs.Reading.{ReadsIn};
ghost use Rattle.occ_check.specs.Progress.{body_weight, counted, meant_at, weight_at, KeepsOpen, OpensNothing, ReadsLine};
ghost use Rattle.occ_check_lines.specs.declared.fault.CheckFault.TheVariants.{Memory};

use crate::here::Here;
use crate::one_line::names_at;
use crate::opened::{Left, Opened};
use crate::unfolder::Unfolder;
use occ_check_lines::context::Context;
use occ_check_lines::fault::CheckFault;
use occ_check_lines::known::Known;
use occ_check_lines::numbers::Numbers;
use occ_check_lines::replicator::copies_of;
use occ_check_lines::scope::{Binding, Position};
use occ_term::Primitive;
use occ_tree_grammar::tree::line::Replicator;
use occ_tree_grammar::tree::process::Process;
use std::alloc::Global;

/// A copy whose first steps are done: its process is left, and the number that the copy has.
#[derive(Drop)]
pub struct OpenedCopy<'t> {
    /// The number of the copy.
    pub number: u32,
    /// The process.
    pub body: &'t Process,
    /// Where that stands.
    pub here: Here,
}

/// Opens a replicated PAR.
pub fn copies_opened<'t>(
    unfolder: &mut Unfolder<'t>,
    alloc: Global,
    here: Here,
    replicator: &'t Replicator,
    body: &'t Process,
) -> Result<Opened<'t>, CheckFault>
    ensures opens { Begins result unfolder.old unfolder.new here
        (par_for here.line replicator.now body.now) }
    ensures kept { KeepsOpen result unfolder.old unfolder.new }
    ensures weight { LeavesWithin result unfolder.new (body_weight unfolder.old here.at body.now) }
    ensures ready { IfOk result IsReady }
{
    let (first, count) = copies_counted_at(unfolder, alloc, here, replicator)?;
    let depth = here.depth + 1;
    Ok(Opened {
        left: Left::Copies(replicator, first, count, body),
        here: Here { depth, ..here },
    })
}

/// Opens the copy for a value of the index.
pub fn copy_opened<'t>(
    unfolder: &mut Unfolder<'t>,
    alloc: Global,
    here: Here,
    replicator: &Replicator,
    value: i64,
    body: &'t Process,
) -> Result<OpenedCopy<'t>, CheckFault>
    requires { here.depth ≤ 200 }
    ensures opens { OpensCopy result unfolder.old unfolder.new here replicator.now body.now value }
    ensures kept { KeepsOpen result unfolder.old unfolder.new }
    ensures weight { IfOk result (λ o. copy_weight unfolder.new o
        ≡ body_weight unfolder.old here.at body.now) }
    ensures within { IfOk result (λ o. o.here.depth ≤ 200) }
{
    let number = unfolder.numbers.more_processes()?;
    let at = at_value(unfolder, alloc, here.at, replicator, value)?;
    Ok(OpenedCopy {
        number,
        body,
        here: Here { at, ..here },
    })
}

/// Enters the index of a copy, which is a constant there, and answers the position at which it is in scope.
fn at_value(
    unfolder: &mut Unfolder<'_>,
    alloc: Global,
    at: Position,
    replicator: &Replicator,
    value: i64,
) -> Result<Position, CheckFault>
    ensures scope { IfOk result (λ p. meant_at unfolder.new p
        ≡ inside_copy unfolder.old at replicator.now value) }
    ensures weight { IfOk result (λ p. weight_at unfolder.new p ≡ weight_at unfolder.old at) }
    ensures kept { KeepsOpen result unfolder.old unfolder.new }
    ensures numbers { OnOk result (unfolder.new.numbers ≡ unfolder.old.numbers) }
    ensures memory { IfErr result (λ e. e ≡ Memory) }
{
    unfolder.blocks.open(alloc, at)?;
    let index = Binding::Known(Known::Value(Primitive::Int, value));
    unfolder.blocks.declare(alloc, &replicator.name, index)?;
    Ok(unfolder.blocks.end())
}

/// The first value of the index and how many copies there are, with the node of the PAR.
fn copies_counted_at(
    unfolder: &mut Unfolder<'_>,
    alloc: Global,
    here: Here,
    replicator: &Replicator,
) -> Result<(i64, u64), CheckFault>
    ensures counted { ReadsLine itself result unfolder.old unfolder.new here
        (counted_copies replicator.now) }
    ensures kept { OpensNothing result unfolder.old unfolder.new }
    ensures within { IfOk result (λ _. here.depth < 200) }
    ensures last { IfOk result (λ c. (c.0 +ℤ pos c.1) ≤ℤ pos 2147483648) }
{
    let Here { at, depth, line } = here;
    let scope = names_at(&unfolder.blocks, at);
    copies_counted(
        &mut unfolder.numbers,
        Context { alloc, scope, line },
        depth,
        replicator,
    )
}

/// The first value of the index and how many copies there are, with the node of the PAR.
#[tactic(auto, using(crate::proofs::LastCopies::copies_within))]
fn copies_counted(
    numbers: &mut Numbers,
    context: Context<'_, '_>,
    depth: u32,
    replicator: &Replicator,
) -> Result<(i64, u64), CheckFault>
    ensures counted { ReadsIn itself result context.entry numbers.old numbers.new depth
        (counted_copies replicator.now) }
    ensures within { IfOk result (λ _. depth < 200) }
    ensures last { IfOk result (λ c. (c.0 +ℤ pos c.1) ≤ℤ pos 2147483648) }
{
    let copies = copies_of(context, replicator)?;
    numbers.node(depth)?;
    Ok(copies)
}

/// The value of the index after this one, where so many copies are left.
pub fn next_value(value: i64, left: u64) -> i64
    requires some { 0 < left }
    requires last { (value +ℤ pos left) ≤ℤ pos 2147483648 }
    ensures next { result ≡ value +ℤ pos 1 }
    ensures last { (result +ℤ pos (left - 1)) ≤ℤ pos 2147483648 }
{
    value + 1
}
