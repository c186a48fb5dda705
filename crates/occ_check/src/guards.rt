//! The guards of arms, each with the node that it heads.

ghost use Rattle.std.specs.Prelude.{◌≡◌, ◌<◌, ◌≤◌, ◌+◌, IfOk};
ghost use Rattle.occ_term.specs.View.{arms_of, term_of};
ghost use Rattle.occ_check_meaning.specs.Actions as meant;
ghost use Rattle.occ_check_lines.specs.Action.{listed_of};
ghost use Rattle.occ_check.specs.Guards.{guarded_by, guarded_of, a_guard, a_tag_guard, guarded_size, input_guarded, tag_guard_of, tag_guard_size};
ghost use Rattle.occ_check_lines.specs.Reading.{ReadsIn};
ghost use Rattle.occ_check_lines.specs.View.{TakesRoom, Makes};
ghost use Rattle.occ_check.specs.Progress.{OpensNothing, ReadsLine};

use crate::here::Here;
use crate::one_line::names_at;
use crate::opened::only_arm;
use crate::unfolder::Unfolder;
use occ_check_lines::action::{Listed, as_reception, received, test_of, with_tags};
use occ_check_lines::context::Context;
use occ_check_lines::fault::CheckFault;
use occ_check_lines::item::channel_of;
use occ_check_lines::measuring::{count_place, count_targets, count_test};
use occ_check_lines::numbers::Numbers;
use occ_held::{Held, parts};
use occ_term::{Arm as TermArm, Place, Protocol, Term, TermExpr};
use occ_tree_grammar::tree::expr::Expr;
use occ_tree_grammar::tree::line::{Input, VariantGuard};
use std::alloc::{AllocError, Global};

/// The guard of an arm with an input: its Boolean, its channel and what it stores.
#[derive(Drop)]
pub struct Guarded {
    /// Its Boolean.
    pub test: Option<TermExpr>,
    /// Its channel.
    pub channel: Place,
    /// What it stores.
    pub listed: Listed,
}

/// A guard in one line.
pub enum ArmGuard {
    /// An input.
    Input(Guarded),
    /// SKIP behind a Boolean.
    Skip(TermExpr),
}

impl Drop for ArmGuard {
    fn drop(self) {
        match self {
            ArmGuard::Input(_) => {}
            ArmGuard::Skip(_) => {}
        }
    }
}

impl ArmGuard {
    /// The arm with its process.
    pub fn with_process(
        self,
        alloc: Global,
        body: Term,
    ) -> Result<parts::Listed<TermArm>, AllocError>
        ensures { Makes arms_of result (guarded_by self (term_of body)) }
    {
        match self {
            ArmGuard::Input(guarded) => input_arm(alloc, guarded, body),
            ArmGuard::Skip(test) => only_arm(alloc, TermArm::SkipArm(test, body)),
        }
    }
}

/// A guard with an input, with the node that it heads.
pub(crate) fn guarding_at(
    unfolder: &mut Unfolder<'_>,
    alloc: Global,
    here: Here,
    test: &Option<Expr>,
    input: &Input,
) -> Result<Guarded, CheckFault>
    ensures guard { ReadsLine guarded_of result unfolder.old unfolder.new here
        (a_guard test.now input.now) }
    ensures kept { OpensNothing result unfolder.old unfolder.new }
    ensures within { IfOk result (λ g. meant.depth_behind (listed_of g.listed) (here.depth + 1)
        ≤ 200) }
{
    let Here { at, depth, line } = here;
    let scope = names_at(&unfolder.blocks, at);
    guarding(
        &mut unfolder.numbers,
        Context { alloc, scope, line },
        depth,
        test,
        input,
    )
}

/// A guard with an input of variants, with the node that it heads, and what its channel carries.
pub(crate) fn guarding_variants_at(
    unfolder: &mut Unfolder<'_>,
    alloc: Global,
    here: Here,
    guard: &VariantGuard,
) -> Result<(Option<TermExpr>, Protocol, Place), CheckFault>
    ensures guard { ReadsLine tag_guard_of result unfolder.old unfolder.new here
        (a_tag_guard guard.now) }
    ensures kept { OpensNothing result unfolder.old unfolder.new }
    ensures within { IfOk result (λ _. here.depth < 200) }
{
    let Here { at, depth, line } = here;
    let scope = names_at(&unfolder.blocks, at);
    guarding_variants(
        &mut unfolder.numbers,
        Context { alloc, scope, line },
        depth,
        guard,
    )
}

/// The arm of a guard with an input, and the process behind it.
fn input_arm(
    alloc: Global,
    guarded: Guarded,
    body: Term,
) -> Result<parts::Listed<TermArm>, AllocError>
    ensures { Makes arms_of result (input_guarded guarded (term_of body)) }
{
    let Guarded {
        test,
        channel,
        listed,
    } = guarded;
    let test = Held::new(test);
    let reception = as_reception(alloc, listed, body)?;
    let arm = TermArm::InputArm(test.into_inner(), channel, reception);
    only_arm(alloc, arm)
}

/// A guard with an input, with the node that it heads.
fn guarding(
    numbers: &mut Numbers,
    context: Context<'_, '_>,
    depth: u32,
    test: &Option<Expr>,
    input: &Input,
) -> Result<Guarded, CheckFault>
    ensures guard { ReadsIn guarded_of result context.entry numbers.old numbers.new depth
        (a_guard test.now input.now) }
    ensures within { IfOk result (λ g. meant.depth_behind (listed_of g.listed) (depth + 1) ≤ 200) }
{
    let test = Held::new(test_of(context, test)?);
    let (channel, listed) = received(context, input)?;
    let listed = Held::new(listed);
    count_guard(numbers, depth, &test.value, &channel, &listed.value)?;
    Ok(Guarded {
        test: test.into_inner(),
        channel,
        listed: listed.into_inner(),
    })
}

/// Counts a guard with an input.
fn count_guard(
    numbers: &mut Numbers,
    depth: u32,
    test: &Option<TermExpr>,
    channel: &Place,
    listed: &Listed,
) -> Result<(), CheckFault>
    ensures counts { TakesRoom result numbers.old numbers.new depth
        (guarded_size test.now channel.now listed.now) }
    ensures within { IfOk result (λ _. meant.depth_behind (listed_of listed.now) (depth + 1)
        ≤ 200) }
{
    numbers.node(depth)?;
    count_test(numbers, depth + 1, test)?;
    count_place(numbers, depth + 1, channel)?;
    count_listed(numbers, depth + 1, listed)
}

/// Counts what an input stores.
fn count_listed(numbers: &mut Numbers, depth: u32, listed: &Listed) -> Result<(), CheckFault>
    requires { depth ≤ 200 }
    ensures counts { TakesRoom result numbers.old numbers.new depth
        (meant.size_of_list (listed_of listed.now)) }
    ensures within { IfOk result (λ _. meant.depth_behind (listed_of listed.now) depth ≤ 200) }
{
    match listed {
        Listed::Plain(targets) => count_targets(numbers, depth, targets.as_slice()),
        Listed::Tagged(_, targets) => {
            numbers.node(depth)?;
            count_targets(numbers, depth + 1, targets.as_slice())
        }
    }
}

/// How deep a process behind an input is.
pub(crate) fn depth_behind(listed: &Listed, depth: u32) -> u32
    requires { depth ≤ 200 }
    ensures { result ≡ meant.depth_behind (listed_of listed.now) depth }
{
    match listed {
        Listed::Plain(_) => depth,
        Listed::Tagged(_, _) => depth + 1,
    }
}

/// A guard with an input of variants, with the node that it heads.
fn guarding_variants(
    numbers: &mut Numbers,
    context: Context<'_, '_>,
    depth: u32,
    guard: &VariantGuard,
) -> Result<(Option<TermExpr>, Protocol, Place), CheckFault>
    ensures guard { ReadsIn tag_guard_of result context.entry numbers.old numbers.new depth
        (a_tag_guard guard.now) }
    ensures within { IfOk result (λ _. depth < 200) }
{
    let test = Held::new(test_of(context, &guard.condition)?);
    let (protocol, channel) = channel_of(context, &guard.channel)?;
    let protocol = with_tags(context.line, protocol)?;
    count_guarded_channel(numbers, depth, &test.value, &channel)?;
    let protocol = protocol.copy(context.alloc)?;
    Ok((test.into_inner(), protocol, channel))
}

/// Counts a guard with an input of variants.
fn count_guarded_channel(
    numbers: &mut Numbers,
    depth: u32,
    test: &Option<TermExpr>,
    channel: &Place,
) -> Result<(), CheckFault>
    ensures counts { TakesRoom result numbers.old numbers.new depth
        (tag_guard_size test.now channel.now) }
    ensures within { IfOk result (λ _. depth < 200) }
{
    numbers.node(depth)?;
    count_test(numbers, depth + 1, test)?;
    count_place(numbers, depth + 1, channel)
}
