//! Protocols of variants.

ghost use Rattle.std.specs.Prelude.{◌≤◌, ◌+◌};
ghost use Rattle.occ_tree_grammar.specs.Many.{as_many};
ghost use Rattle.occ_tree_grammar.specs.Fronts.{each_as, ReadsLines};
ghost use Rattle.occ_tree_grammar.specs.Processes.Views.{tag_of, protocol_of};
ghost use Rattle.occ_tree_grammar.specs.Processes.Reading.{at_level, tag_with, tag_at, tags_with, tags_at};
ghost use Rattle.occ_tree_grammar.specs.Limits.{most_levels, brackets};

use crate::processes::line::{case_line, end_line, line_of, lines_at, too_deep};
use crate::read_decl::tag_head;
use occ_held::letters::Letters;
use occ_text::Line;
use occ_tree_grammar::ParseFault;
use occ_tree_grammar::tree::process::{Protocol, Tag};
use std::alloc::Global;

fn tag_inside(
    alloc: Global,
    last: u32,
    level: u32,
    lines: &[Line],
) -> Result<(Tag, &[Line]), ParseFault>
    ensures { ReadsLines tag_of result (tag_with brackets level) lines.now }
{
    let (first, rest) = line_of(last, level, lines)?;
    let line = first.number;
    let head = tag_head(alloc, line, &first.words)?;
    Ok((
        Tag {
            line,
            name: head.tag,
            parts: head.parts,
        },
        rest,
    ))
}

/// A line of a protocol, with fewer than `left` levels.
fn tag(
    alloc: Global,
    last: u32,
    left: u32,
    level: u32,
    lines: &[Line],
) -> Result<(Tag, &[Line]), ParseFault>
    ensures { ReadsLines tag_of result (tag_at brackets left level) lines.now }
{
    if left == 0 {
        return Err(too_deep(last, level, lines));
    }
    tag_inside(alloc, last, level, lines)
}

fn tag_list(
    alloc: Global,
    last: u32,
    left: u32,
    level: u32,
    lines: &[Line],
) -> Result<(Vec<Tag>, &[Line]), ParseFault>
    ensures { ReadsLines (each_as tag_of) result
        (as_many (at_level level) (tag_at brackets left level)) lines.now }
{
    let mut all = Vec::new(alloc);
    let mut rest = lines;
    for _ in 0..lines.len() {
        let Some(after) = lines_at(level, rest) else {
            break;
        };
        let (next, after) = tag(alloc, last, left, level, after)?;
        all.push(next)?;
        rest = after;
    }
    Ok((all, rest))
}

fn tags_inside(
    alloc: Global,
    last: u32,
    left: u32,
    level: u32,
    line: u32,
    name: Letters,
    lines: &[Line],
) -> Result<(Protocol, &[Line]), ParseFault>
    requires { level + left ≤ most_levels }
    ensures { ReadsLines
        protocol_of result (tags_with brackets left level line name) lines.now }
{
    let below = level + 1;
    let (case, rest) = case_line(last, below, lines)?;
    let (tags, rest) = tag_list(alloc, last, left, below + 1, rest)?;
    let (end, rest) = end_line(last, level, rest)?;
    Ok((Protocol::Tags(line, name, case, tags, end), rest))
}

/// What follows the first line of a protocol of variants. `left` levels may stand below it.
pub fn tags(
    alloc: Global,
    last: u32,
    left: u32,
    level: u32,
    line: u32,
    name: Letters,
    lines: &[Line],
) -> Result<(Protocol, &[Line]), ParseFault>
    requires { level + left ≤ most_levels }
    ensures { ReadsLines
        protocol_of result (tags_at brackets left level line name) lines.now }
{
    if left == 0 {
        return Err(too_deep(last, level + 1, lines));
    }
    tags_inside(alloc, last, left - 1, level, line, name, lines)
}
