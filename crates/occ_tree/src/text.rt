//! Reading whole texts.

ghost use Rattle.std.specs.Prelude.{◌≡◌, IfOk};
ghost use Rattle.occ_text.specs.Words.{logical_lines};
ghost use Rattle.occ_tree_grammar.specs.Many.{as_many};
ghost use Rattle.occ_tree_grammar.specs.Fronts.{each_as, ReadsLines, lines_found};
ghost use Rattle.occ_tree_grammar.specs.Expressions.Reading.{Gives};
ghost use Rattle.occ_tree_grammar.specs.Processes.Views.{item_of, program_of};
ghost use Rattle.occ_tree_grammar.specs.Processes.Reading.{at_any, item_at, program_at};
ghost use Rattle.occ_tree_grammar.specs.Limits.{most_levels, brackets};
ghost use Rattle.occ_tree.specs.Texts.{IsTreeIn, GivesTreeIn};

use occ_text::{Line, Source};
use occ_tree_grammar::ParseFault;
use occ_tree_grammar::limits::MOST_LEVELS;
use occ_tree_grammar::tree::process::{Item, Program};
use occ_tree_reader::processes::read::declaration;
use std::alloc::Global;

/// The lines, where there is one.
fn lines_left(lines: &[Line]) -> Option<&[Line]>
    ensures { lines_found result ≡ at_any (logical_lines lines.now) }
{
    match lines {
        [] => None,
        _ => Some(lines),
    }
}

#[tactic(auto, unfolding(occ_tree_grammar::specs::Processes::Reading::item_at))]
fn item(alloc: Global, last: u32, lines: &[Line]) -> Result<(Item, &[Line]), ParseFault>
    ensures { ReadsLines item_of result (item_at brackets most_levels) lines.now }
{
    let (declaration, rest) = declaration(alloc, last, MOST_LEVELS, 0, lines)?;
    Ok((declaration.into_item()?, rest))
}

fn items(alloc: Global, last: u32, lines: &[Line]) -> Result<(Vec<Item>, &[Line]), ParseFault>
    ensures { ReadsLines (each_as item_of) result
        (as_many at_any (item_at brackets most_levels)) lines.now }
{
    let mut all = Vec::new(alloc);
    let mut rest = lines;
    for _ in 0..lines.len() {
        let Some(after) = lines_left(rest) else {
            break;
        };
        let (next, after) = item(alloc, last, after)?;
        all.push(next)?;
        rest = after;
    }
    Ok((all, rest))
}

#[tactic(auto, unfolding(occ_tree_grammar::specs::Processes::Reading::program_at))]
fn program(alloc: Global, last: u32, lines: &[Line]) -> Result<Program, ParseFault>
    ensures { Gives program_of result (program_at brackets most_levels (logical_lines lines.now)) }
{
    let (items, rest) = items(alloc, last, lines)?;
    match rest {
        [] => Ok(Program { items }),
        [first, ..] => Err(ParseFault::Level(first.number, 0)),
    }
}

/// The one tree whose written form is these lines. At most 64 levels and 64 open brackets are
/// read. A refusal for another cause than memory comes only where no tree has these lines.
pub fn parse(alloc: Global, source: &Source) -> Result<Program, ParseFault>
    ensures found { IfOk result (IsTreeIn source.now) }
    ensures only { GivesTreeIn source.now result }
{
    let lines = source.lines.as_slice();
    let last = match lines {
        [.., last] => last.number,
        [] => 0,
    };
    program(alloc, last, lines)
}
