//! Reading processes, their parts and declarations.
//!
//! `level` is the level of the lines, `left` how many levels may still be opened, and `last` the last
//! line of the text. The functions call one another as the levels go down; lines in a row are read
//! by loops. The first line of each, and what it is in the end, stand in other files.

ghost use Rattle.std.specs.Prelude.{◌≤◌, ◌<◌, ◌+◌, OnOk};
ghost use Rattle.occ_tree_grammar.specs.Fronts.{each_as, ReadsLines};
ghost use Rattle.occ_tree_grammar.specs.Processes.Views.{process_of, choice_of, selection_of, arm_of, variant_of, decl_of};
ghost use Rattle.occ_tree_grammar.specs.Limits.{most_levels};
ghost use Rattle.occ_tree_reader.specs.Opened.{begun, whole_decl_at};
ghost use Rattle.occ_tree_reader.specs.Rows.{ReadsOne, ReadsRow};

use crate::processes::declaration::{declaration_opened, procedure_ended};
use crate::processes::head::{
    arm_line, choice_line, process_line, selected, selection_line, tagged, variant_line,
};
use crate::processes::line::{declaration_at, lines_at, too_deep};
use crate::processes::opened::{Opened, OpenedDecl};
use occ_text::Line;
use occ_tree_grammar::ParseFault;
use occ_tree_grammar::lines::head::{ArmHead, ChoiceHead};
use occ_tree_grammar::tree::process::{Arm, Choice, Decl, Process, Selection, Stmt, Variant};
use std::alloc::Global;

/// A process at this level.
#[cycle(tree)]
pub fn process(
    alloc: Global,
    last: u32,
    left: u32,
    level: u32,
    lines: &[Line],
) -> Result<(Process, &[Line]), ParseFault>
    requires { level + left ≤ most_levels + 1 }
    ensures { ReadsOne process_of result left level lines.now }
{
    let (declarations, rest) = declarations(alloc, last, left, level, lines)?;
    let (line, opened, rest) = process_line(alloc, last, level, rest)?;
    let left = left - 1;
    let level = level + 1;
    match opened {
        Opened::Action(action) => Ok((
            Process::Declared(declarations, line, Stmt::Action(action)),
            rest,
        )),
        Opened::Process(around) => {
            let (body, rest) = process(alloc, last, left, level, rest)?;
            Ok((around.with_body(alloc, declarations, line, body)?, rest))
        }
        Opened::Processes(order) => {
            let (all, rest) = processes(alloc, last, left, level, rest)?;
            Ok((order.with_processes(declarations, line, all), rest))
        }
        Opened::Choice(index) => {
            let (case, rest) = choice(alloc, last, left, level, rest)?;
            let case = Box::new(alloc, case)?;
            Ok((
                Process::Declared(declarations, line, Stmt::IfFor(index, case)),
                rest,
            ))
        }
        Opened::Choices => {
            let (cases, rest) = choices(alloc, last, left, level, rest)?;
            Ok((Process::Declared(declarations, line, Stmt::If(cases)), rest))
        }
        Opened::Options(value) => {
            let (options, rest) = selections(alloc, last, left, level, rest)?;
            Ok((
                Process::Declared(declarations, line, Stmt::Case(value, options)),
                rest,
            ))
        }
        Opened::Arm(pri, index) => {
            let (guard, rest) = arm(alloc, last, left, level, rest)?;
            let guard = Box::new(alloc, guard)?;
            Ok((
                Process::Declared(declarations, line, Stmt::AltFor(pri, index, guard)),
                rest,
            ))
        }
        Opened::Arms(pri) => {
            let (guards, rest) = arms(alloc, last, left, level, rest)?;
            Ok((
                Process::Declared(declarations, line, Stmt::Alt(pri, guards)),
                rest,
            ))
        }
        Opened::Variants(channel) => {
            let (all, rest) = variants(alloc, last, left, level, rest)?;
            Ok((
                Process::Declared(declarations, line, Stmt::Variants(channel, all)),
                rest,
            ))
        }
    }
}

/// The processes in a row at this level.
#[cycle(tree)]
fn processes(
    alloc: Global,
    last: u32,
    left: u32,
    level: u32,
    lines: &[Line],
) -> Result<(Vec<Process>, &[Line]), ParseFault>
    requires { level + left ≤ most_levels + 1 }
    ensures { ReadsRow process_of result left level lines.now }
{
    let mut all = Vec::new(alloc);
    let mut rest = lines;
    for _ in 0..lines.len() {
        let Some(after) = lines_at(level, rest) else {
            break;
        };
        let (next, after) = process(alloc, last, left, level, after)?;
        all.push(next)?;
        rest = after;
    }
    Ok((all, rest))
}

/// A choice at this level.
#[cycle(tree)]
fn choice(
    alloc: Global,
    last: u32,
    left: u32,
    level: u32,
    lines: &[Line],
) -> Result<(Choice, &[Line]), ParseFault>
    requires { level + left ≤ most_levels + 1 }
    ensures { ReadsOne choice_of result left level lines.now }
{
    let (declarations, rest) = declarations(alloc, last, left, level, lines)?;
    let (line, head, rest) = choice_line(alloc, last, level, rest)?;
    let left = left - 1;
    let level = level + 1;
    match head {
        ChoiceHead::When(condition) => {
            let (one, rest) = process(alloc, last, left, level, rest)?;
            Ok((Choice::When(declarations, line, condition, one), rest))
        }
        ChoiceHead::If(cond) => match cond {
            None => {
                let (cases, rest) = choices(alloc, last, left, level, rest)?;
                Ok((Choice::InnerIf(declarations, line, cases), rest))
            }
            Some(index) => {
                let (case, rest) = choice(alloc, last, left, level, rest)?;
                let case = Box::new(alloc, case)?;
                Ok((Choice::InnerIfFor(declarations, line, index, case), rest))
            }
        },
    }
}

/// The choices in a row at this level.
#[cycle(tree)]
fn choices(
    alloc: Global,
    last: u32,
    left: u32,
    level: u32,
    lines: &[Line],
) -> Result<(Vec<Choice>, &[Line]), ParseFault>
    requires { level + left ≤ most_levels + 1 }
    ensures { ReadsRow choice_of result left level lines.now }
{
    let mut all = Vec::new(alloc);
    let mut rest = lines;
    for _ in 0..lines.len() {
        let Some(after) = lines_at(level, rest) else {
            break;
        };
        let (next, after) = choice(alloc, last, left, level, after)?;
        all.push(next)?;
        rest = after;
    }
    Ok((all, rest))
}

/// The options in a row at this level.
#[cycle(tree)]
fn selections(
    alloc: Global,
    last: u32,
    left: u32,
    level: u32,
    lines: &[Line],
) -> Result<(Vec<Selection>, &[Line]), ParseFault>
    requires { level + left ≤ most_levels + 1 }
    ensures { ReadsRow selection_of result left level lines.now }
{
    let mut all = Vec::new(alloc);
    let mut rest = lines;
    for _ in 0..lines.len() {
        let Some(after) = lines_at(level, rest) else {
            break;
        };
        let (declarations, after) = declarations(alloc, last, left, level, after)?;
        let (line, head, after) = selection_line(alloc, last, level, after)?;
        let (body, after) = process(alloc, last, left - 1, level + 1, after)?;
        all.push(selected(declarations, line, head, body))?;
        rest = after;
    }
    Ok((all, rest))
}

/// An arm at this level.
#[cycle(tree)]
fn arm(
    alloc: Global,
    last: u32,
    left: u32,
    level: u32,
    lines: &[Line],
) -> Result<(Arm, &[Line]), ParseFault>
    requires { level + left ≤ most_levels + 1 }
    ensures { ReadsOne arm_of result left level lines.now }
{
    let (declarations, rest) = declarations(alloc, last, left, level, lines)?;
    let (line, head, rest) = arm_line(alloc, last, level, rest)?;
    let left = left - 1;
    let level = level + 1;
    match head {
        ArmHead::Guarded(guard) => {
            let (one, rest) = process(alloc, last, left, level, rest)?;
            Ok((Arm::Guarded(declarations, line, guard, one), rest))
        }
        ArmHead::Variants(guard) => {
            let (all, rest) = variants(alloc, last, left, level, rest)?;
            Ok((Arm::OnVariant(declarations, line, guard, all), rest))
        }
        ArmHead::Alt(pri, alt) => match alt {
            None => {
                let (guards, rest) = arms(alloc, last, left, level, rest)?;
                Ok((Arm::InnerAlt(declarations, line, pri, guards), rest))
            }
            Some(index) => {
                let (guard, rest) = arm(alloc, last, left, level, rest)?;
                let guard = Box::new(alloc, guard)?;
                Ok((
                    Arm::InnerAltFor(declarations, line, pri, index, guard),
                    rest,
                ))
            }
        },
    }
}

/// The arms in a row at this level.
#[cycle(tree)]
fn arms(
    alloc: Global,
    last: u32,
    left: u32,
    level: u32,
    lines: &[Line],
) -> Result<(Vec<Arm>, &[Line]), ParseFault>
    requires { level + left ≤ most_levels + 1 }
    ensures { ReadsRow arm_of result left level lines.now }
{
    let mut all = Vec::new(alloc);
    let mut rest = lines;
    for _ in 0..lines.len() {
        let Some(after) = lines_at(level, rest) else {
            break;
        };
        let (next, after) = arm(alloc, last, left, level, after)?;
        all.push(next)?;
        rest = after;
    }
    Ok((all, rest))
}

/// The variants in a row at this level.
#[cycle(tree)]
fn variants(
    alloc: Global,
    last: u32,
    left: u32,
    level: u32,
    lines: &[Line],
) -> Result<(Vec<Variant>, &[Line]), ParseFault>
    requires { level + left ≤ most_levels + 1 }
    ensures { ReadsRow variant_of result left level lines.now }
{
    let mut all = Vec::new(alloc);
    let mut rest = lines;
    for _ in 0..lines.len() {
        let Some(after) = lines_at(level, rest) else {
            break;
        };
        let (declarations, after) = declarations(alloc, last, left, level, after)?;
        let (line, head, after) = variant_line(alloc, last, level, after)?;
        let (body, after) = process(alloc, last, left - 1, level + 1, after)?;
        all.push(tagged(declarations, line, head, body))?;
        rest = after;
    }
    Ok((all, rest))
}

/// The declarations in a row at this level. `left` counts it too.
#[cycle(tree)]
fn declarations(
    alloc: Global,
    last: u32,
    left: u32,
    level: u32,
    lines: &[Line],
) -> Result<(Vec<Decl>, &[Line]), ParseFault>
    requires { level + left ≤ most_levels + 1 }
    ensures read { ReadsLines (each_as decl_of) result (begun left level) lines.now }
    ensures left { OnOk result (0 < left) }
{
    if left == 0 {
        return Err(too_deep(last, level, lines));
    }
    let mut all = Vec::new(alloc);
    let mut rest = lines;
    for _ in 0..lines.len() {
        let Some(after) = declaration_at(level, rest) else {
            break;
        };
        let (next, after) = declaration(alloc, last, left - 1, level, after)?;
        all.push(next)?;
        rest = after;
    }
    Ok((all, rest))
}

/// A declaration at this level. `left` levels may stand below it.
#[cycle(tree)]
pub fn declaration(
    alloc: Global,
    last: u32,
    left: u32,
    level: u32,
    lines: &[Line],
) -> Result<(Decl, &[Line]), ParseFault>
    requires { level + left ≤ most_levels }
    ensures { ReadsLines decl_of result (whole_decl_at left level) lines.now }
{
    let (opened, rest) = declaration_opened(alloc, last, left, level, lines)?;
    match opened {
        OpenedDecl::Whole(declaration) => Ok((declaration, rest)),
        OpenedDecl::Proc(line, name, formals) => {
            let (body, rest) = process(alloc, last, left, level + 1, rest)?;
            procedure_ended(last, level, line, name, formals, body, rest)
        }
    }
}
