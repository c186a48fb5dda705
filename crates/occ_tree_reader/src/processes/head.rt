//! The lines at the head of processes and of their parts, and the parts that have one process under
//! them.

ghost use Rattle.std.specs.Prelude.{◌≡◌};
ghost use Rattle.occ_tree_grammar.specs.Lines.HeadViews.{choice_head_of, option_head_of, arm_head_of, variant_head_of};
ghost use Rattle.occ_tree_grammar.specs.Processes.Trees.{process as the_process, choice as the_choice, option as the_option, arm as the_arm, variant as the_variant};
ghost use Rattle.occ_tree_grammar.specs.Processes.Views.{selection_of, variant_of};
ghost use Rattle.occ_tree_reader.specs.Heads.{line_with, ReadsHeadLine};
ghost use Rattle.occ_tree_reader.specs.Opened.{opened_head, option_over, variant_over};

use crate::processes::line::line_of;
use crate::processes::opened::{Opened, process_opened};
use crate::read_head::{arm_head, choice_head, option_head, process_head, variant_head};
use occ_text::Line;
use occ_tree_grammar::ParseFault;
use occ_tree_grammar::lines::head::{ArmHead, ChoiceHead, OptionHead, VariantHead};
use occ_tree_grammar::tree::process::{Decl, Process, Selection, Variant};
use std::alloc::Global;

/// The line of a process that must stand at this level: its number, and what has to stand under it.
pub fn process_line(
    alloc: Global,
    last: u32,
    level: u32,
    lines: &[Line],
) -> Result<(u32, Opened, &[Line]), ParseFault>
    ensures { ReadsHeadLine opened_head result (line_with the_process level) lines.now }
{
    let (first, rest) = line_of(last, level, lines)?;
    let line = first.number;
    let head = process_head(alloc, line, &first.words)?;
    Ok((line, process_opened(head), rest))
}

/// The line of a choice that must stand at this level: its number and what it says.
pub fn choice_line(
    alloc: Global,
    last: u32,
    level: u32,
    lines: &[Line],
) -> Result<(u32, ChoiceHead, &[Line]), ParseFault>
    ensures { ReadsHeadLine choice_head_of result (line_with the_choice level) lines.now }
{
    let (first, rest) = line_of(last, level, lines)?;
    let line = first.number;
    let head = choice_head(alloc, line, &first.words)?;
    Ok((line, head, rest))
}

/// The line of an option that must stand at this level: its number and what it says.
pub fn selection_line(
    alloc: Global,
    last: u32,
    level: u32,
    lines: &[Line],
) -> Result<(u32, OptionHead, &[Line]), ParseFault>
    ensures { ReadsHeadLine option_head_of result (line_with the_option level) lines.now }
{
    let (first, rest) = line_of(last, level, lines)?;
    let line = first.number;
    let head = option_head(alloc, line, &first.words)?;
    Ok((line, head, rest))
}

/// The line of an arm that must stand at this level: its number and what it says.
pub fn arm_line(
    alloc: Global,
    last: u32,
    level: u32,
    lines: &[Line],
) -> Result<(u32, ArmHead, &[Line]), ParseFault>
    ensures { ReadsHeadLine arm_head_of result (line_with the_arm level) lines.now }
{
    let (first, rest) = line_of(last, level, lines)?;
    let line = first.number;
    let head = arm_head(alloc, line, &first.words)?;
    Ok((line, head, rest))
}

/// The line of a variant that must stand at this level: its number and what it says.
pub fn variant_line(
    alloc: Global,
    last: u32,
    level: u32,
    lines: &[Line],
) -> Result<(u32, VariantHead, &[Line]), ParseFault>
    ensures { ReadsHeadLine variant_head_of result (line_with the_variant level) lines.now }
{
    let (first, rest) = line_of(last, level, lines)?;
    let line = first.number;
    let head = variant_head(alloc, line, &first.words)?;
    Ok((line, head, rest))
}

/// The option with this line and the process under it.
pub fn selected(declarations: Vec<Decl>, line: u32, head: OptionHead, body: Process) -> Selection
    ensures { selection_of result ≡ option_over declarations line (option_head_of head) body }
{
    match head {
        OptionHead::Values(values) => Selection::Values(declarations, line, values, body),
        OptionHead::Else => Selection::Else(declarations, line, body),
    }
}

/// The variant with this line and the process under it.
pub fn tagged(declarations: Vec<Decl>, line: u32, head: VariantHead, body: Process) -> Variant
    ensures { variant_of result ≡ variant_over declarations line (variant_head_of head) body }
{
    Variant::Tagged(declarations, line, head.tag, head.targets, body)
}
