//! Inputs of variants.

ghost use Rattle.std.specs.Prelude.{◌≡◌, ◌<◌, ◌≤◌, IfOk, map};
ghost use Rattle.occ_tree_grammar.specs.Processes.Views as trees;
ghost use Rattle.occ_tree_grammar.specs.Processes.Views.{held_decls, held_variants};
ghost use Rattle.occ_tree_grammar.specs.declared.tree.process.Arm.TheBlock.{hidden-the_row-Decl-0, hidden-the_row-Variant-1};
ghost use Rattle.occ_tree_grammar.specs.Lines.Views as lines;
ghost use Rattle.occ_term.specs.Terms.{no_variants};
ghost use Rattle.occ_term.specs.View.{term_of, variant_of};
ghost use Rattle.occ_check_meaning.specs.Actions.{variant_tag};
ghost use Rattle.occ_check.specs.Variants.{body_of_variant, declarations_of_variant, line_of_variant, targets_of_variant, variant_with, OpensVariant, StoresAt, StoresIn, a_variant, after_tag, input_case, tagged_input, tagged_place, variant_weight, whole_variant, OpensTargets};
ghost use Rattle.occ_check.specs.Opened.{Begins, IsReady, LeavesWithin, Below, Within};
ghost use Rattle.occ_check_lines.specs.Reading.{ReadsIn};
ghost use Rattle.occ_check.specs.Progress.{nodes_weight, KeepsOpen, OpensNothing, ReadsLine, parts_weight};
ghost use Rattle.occ_check.specs.Weights.{decl_nodes, variant_nodes};

use crate::here::Here;
use crate::one_line::names_at;
use crate::opened::{Left, Opened};
use crate::unfolder::Unfolder;
use occ_check_lines::action::with_tags;
use occ_check_lines::context::Context;
use occ_check_lines::fault::CheckFault;
use occ_check_lines::item::{channel_of, parts_after};
use occ_check_lines::measuring::{count_place, count_targets};
use occ_check_lines::numbers::Numbers;
use occ_check_lines::target::stored;
use occ_held::letters::Letters;
use occ_term::{Declaration, Place, Protocol, Target, Term, Variant as TermVariant};
use occ_tree_grammar::tree::line::{Target as TargetTree, Var};
use occ_tree_grammar::tree::process::{Decl, Process, Variant};
use sqlite_items::Items;
use std::alloc::Global;

/// A variant whose first steps are done: its process is left.
#[derive(Drop)]
pub struct OpenedVariant<'t> {
    /// What that is put into.
    pub head: VariantHead,
    /// The process.
    pub body: &'t Process,
    /// Where that stands.
    pub here: Here,
}

/// What the process of a variant is put into: the number of its tag, what is set for its declarations, and its targets.
pub struct VariantHead {
    tag: u32,
    declarations: Items<Declaration>,
    targets: Items<Target>,
}

impl Drop for VariantHead {
    fn drop(self) {
        let VariantHead {
            tag: _,
            declarations: _,
            targets: _,
        } = self;
    }
}

impl VariantHead {
    /// The variant with its process.
    pub fn with_process(self, body: Term) -> TermVariant
        ensures { variant_of result no_variants ≡ variant_with self (term_of body) }
    {
        let VariantHead {
            tag,
            declarations,
            targets,
        } = self;
        TermVariant {
            tag,
            declarations,
            targets,
            body,
        }
    }
}

/// Opens an input of variants.
pub fn variants_opened<'t>(
    unfolder: &mut Unfolder<'t>,
    alloc: Global,
    here: Here,
    channel: &Var,
    list: &'t [Variant],
) -> Result<Opened<'t>, CheckFault>
    ensures opens { Begins result unfolder.old unfolder.new here
        (input_case here.line channel.now list.now) }
    ensures kept { KeepsOpen result unfolder.old unfolder.new }
    ensures weight { LeavesWithin result unfolder.new
        (nodes_weight unfolder.old here.at (variant_nodes list.now)) }
    ensures ready { IfOk result IsReady }
{
    let (protocol, channel) = variants_taken_at(unfolder, alloc, here, channel)?;
    let depth = here.depth + 1;
    Ok(Opened {
        left: Left::Variants(channel, protocol, list),
        here: Here { depth, ..here },
    })
}

/// Opens a variant, with the number of its tag.
pub fn variant_opened<'t>(
    unfolder: &mut Unfolder<'t>,
    alloc: Global,
    here: Here,
    protocol: &Protocol,
    tag: u32,
    variant: &'t Variant,
) -> Result<OpenedVariant<'t>, CheckFault>
    requires { here.depth ≤ 200 }
    ensures opens { OpensVariant result unfolder.old unfolder.new here
        (a_variant variant.now protocol.now tag) }
    ensures kept { KeepsOpen result unfolder.old unfolder.new }
    ensures weight { Below variant_weight result unfolder.new
        (whole_variant unfolder.old here variant.now) }
    ensures within { IfOk result (λ o. o.here.depth ≤ 200) }
{
    let line = line_of(variant);
    let declarations = declarations_of(variant);
    let targets = targets_of(variant);
    let body = body_of(variant);
    tagged_opened(
        unfolder,
        alloc,
        Here { line, ..here },
        protocol,
        tag,
        declarations,
        targets,
        body,
    )
}

/// Opens a variant of these parts.
fn tagged_opened<'t>(
    unfolder: &mut Unfolder<'t>,
    alloc: Global,
    here: Here,
    protocol: &Protocol,
    tag: u32,
    declarations: &'t [Decl],
    targets: &[TargetTree],
    body: &'t Process,
) -> Result<OpenedVariant<'t>, CheckFault>
    ensures opens { OpensTargets result unfolder.old unfolder.new here targets.now declarations.now
        body.now protocol.now tag }
    ensures kept { KeepsOpen result unfolder.old unfolder.new }
    ensures weight { Within variant_weight result unfolder.new
        (parts_weight unfolder.old here declarations.now body.now) }
    ensures within { IfOk result (λ o. o.here.depth ≤ 200) }
{
    unfolder.numbers.node(here.depth)?;
    let depth = here.depth + 1;
    let (heads, at) = unfolder.entering(alloc, Here { depth, ..here }, declarations)?;
    let inside = Here { at, depth, ..here };
    let targets = storing_at(unfolder, alloc, inside, protocol, tag, targets)?;
    let head = VariantHead {
        tag,
        declarations: heads,
        targets,
    };
    Ok(OpenedVariant {
        head,
        body,
        here: inside,
    })
}

/// The channel of an input of variants with what it carries, and the node that it heads.
fn variants_taken_at(
    unfolder: &mut Unfolder<'_>,
    alloc: Global,
    here: Here,
    channel: &Var,
) -> Result<(Protocol, Place), CheckFault>
    ensures taken { ReadsLine tagged_place result unfolder.old unfolder.new here
        (tagged_input channel.now) }
    ensures kept { OpensNothing result unfolder.old unfolder.new }
    ensures within { IfOk result (λ _. here.depth < 200) }
{
    let Here { at, depth, line } = here;
    let scope = names_at(&unfolder.blocks, at);
    variants_taken(
        &mut unfolder.numbers,
        Context { alloc, scope, line },
        depth,
        channel,
    )
}

/// The targets behind a tag, with their nodes.
fn storing_at(
    unfolder: &mut Unfolder<'_>,
    alloc: Global,
    here: Here,
    protocol: &Protocol,
    tag: u32,
    targets: &[TargetTree],
) -> Result<Items<Target>, CheckFault>
    ensures targets { StoresAt result unfolder.old unfolder.new here
        (after_tag protocol.now tag targets.now) }
    ensures kept { OpensNothing result unfolder.old unfolder.new }
{
    let Here { at, depth, line } = here;
    let scope = names_at(&unfolder.blocks, at);
    storing(
        &mut unfolder.numbers,
        Context { alloc, scope, line },
        depth,
        protocol,
        tag,
        targets,
    )
}

/// The channel of an input of variants with what it carries, and the node that it heads.
fn variants_taken(
    numbers: &mut Numbers,
    context: Context<'_, '_>,
    depth: u32,
    channel: &Var,
) -> Result<(Protocol, Place), CheckFault>
    ensures taken { ReadsIn tagged_place result context.entry numbers.old numbers.new depth
        (tagged_input channel.now) }
    ensures within { IfOk result (λ _. depth < 200) }
{
    let (protocol, channel) = channel_of(context, channel)?;
    let protocol = with_tags(context.line, protocol)?;
    numbers.node(depth)?;
    count_place(numbers, depth + 1, &channel)?;
    let protocol = protocol.copy(context.alloc)?;
    Ok((protocol, channel))
}

/// The targets behind a tag, with their nodes.
fn storing(
    numbers: &mut Numbers,
    context: Context<'_, '_>,
    depth: u32,
    protocol: &Protocol,
    tag: u32,
    targets: &[TargetTree],
) -> Result<Items<Target>, CheckFault>
    ensures { StoresIn result context.entry numbers.old numbers.new depth
        (after_tag protocol.now tag targets.now) }
{
    let parts = parts_after(context.alloc, context.line, protocol, Some(tag))?;
    let targets = match stored(context, parts.as_slice(), targets) {
        Ok(targets) => targets,
        Err(e) => return Err(e),
    };
    count_targets(numbers, depth, targets.as_slice())?;
    Ok(targets)
}

/// The line of a variant.
pub fn line_of(variant: &Variant) -> u32
    ensures { result ≡ line_of_variant variant.now }
{
    match variant {
        Variant::Tagged(_, line, _, _, _) => *line,
    }
}

/// The declarations of a variant, as they are kept.
fn kept_declarations(variant: &Variant) -> &Vec<Decl>
    ensures { held_decls (hidden-the_row-Decl-0 result.now) ≡ declarations_of_variant variant.now }
{
    match variant {
        Variant::Tagged(declarations, _, _, _, _) => declarations,
    }
}

/// The declarations of a variant.
#[tactic(auto, using(crate::proofs::Parts::decls_made))]
fn declarations_of(variant: &Variant) -> &[Decl]
    ensures { decl_nodes result.now ≡ declarations_of_variant variant.now }
{
    kept_declarations(variant).as_slice()
}

/// The targets of a variant.
fn targets_of(variant: &Variant) -> &[TargetTree]
    ensures { map lines.target_of result.now ≡ targets_of_variant variant.now }
{
    match variant {
        Variant::Tagged(_, _, _, targets, _) => targets.as_slice(),
    }
}

/// The process of a variant.
fn body_of(variant: &Variant) -> &Process
    ensures { result.now ≡ body_of_variant variant.now }
{
    match variant {
        Variant::Tagged(_, _, _, _, body) => body,
    }
}

/// The name of a variant's tag.
#[tactic(auto, unfolding(occ_tree_grammar::specs::Processes::Views::variant_of))]
pub fn tag_of(variant: &Variant) -> &Letters
    ensures { result.now ≡ variant_tag (trees.variant_of variant.now) }
{
    match variant {
        Variant::Tagged(_, _, tag, _, _) => tag,
    }
}

/// The variants of an input, as a slice.
#[tactic(auto, using(crate::proofs::HeldLists::variants_made))]
pub fn listed_variants(variants: &Vec<Variant>) -> &[Variant]
    ensures { variant_nodes result.now ≡ held_variants (hidden-the_row-Variant-1 variants.now) }
{
    variants.as_slice()
}
