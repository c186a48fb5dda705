//! Declarations, but for the bodies of procedures.

ghost use Rattle.std.specs.Prelude.{◌≤◌, ◌+◌};
ghost use Rattle.occ_tree_grammar.specs.Fronts.{ReadsLines};
ghost use Rattle.occ_tree_grammar.specs.Lines.HeadViews.{decl_head_of};
ghost use Rattle.occ_tree_grammar.specs.Processes.Views.{decl_of};
ghost use Rattle.occ_tree_grammar.specs.Limits.{most_levels};
ghost use Rattle.occ_tree_reader.specs.Heads.{decl_line_with, ReadsHeadLine};
ghost use Rattle.occ_tree_reader.specs.Opened.{decl_left_at, decl_left_of, left_behind, procedure_behind};

use crate::processes::line::{end_line, line_of};
use crate::processes::opened::OpenedDecl;
use crate::processes::protocol::tags;
use crate::read_decl::decl_head;
use occ_held::letters::Letters;
use occ_text::Line;
use occ_tree_grammar::ParseFault;
use occ_tree_grammar::lines::head::DeclHead;
use occ_tree_grammar::tree::line::Formals;
use occ_tree_grammar::tree::process::{Decl, Item, Process, Protocol};
use std::alloc::Global;

/// The line of a declaration that must stand at this level: its number and what it says.
fn declaration_line(
    alloc: Global,
    last: u32,
    level: u32,
    lines: &[Line],
) -> Result<(u32, DeclHead, &[Line]), ParseFault>
    ensures { ReadsHeadLine decl_head_of result (decl_line_with level) lines.now }
{
    let (first, rest) = line_of(last, level, lines)?;
    let line = first.number;
    let head = decl_head(alloc, line, &first.words)?;
    Ok((line, head, rest))
}

/// What follows the first line of a declaration, up to the body of a procedure.
fn opened_behind(
    alloc: Global,
    last: u32,
    left: u32,
    level: u32,
    line: u32,
    head: DeclHead,
    lines: &[Line],
) -> Result<(OpenedDecl, &[Line]), ParseFault>
    requires { level + left ≤ most_levels }
    ensures { ReadsLines
        decl_left_of result (left_behind left level line (decl_head_of head)) lines.now }
{
    match head {
        DeclHead::Names(sizes, sort, names) => Ok((
            OpenedDecl::Whole(Decl::Names(line, sizes, sort, names)),
            lines,
        )),
        DeclHead::Value(of, name, value) => Ok((
            OpenedDecl::Whole(Decl::Item(Item::Value(line, of, name, value))),
            lines,
        )),
        DeclHead::Parts(name, parts) => {
            let protocol = Protocol::Parts(line, name, parts);
            Ok((
                OpenedDecl::Whole(Decl::Item(Item::Protocol(protocol))),
                lines,
            ))
        }
        DeclHead::Tags(name) => {
            let (protocol, rest) = tags(alloc, last, left, level, line, name, lines)?;
            Ok((
                OpenedDecl::Whole(Decl::Item(Item::Protocol(protocol))),
                rest,
            ))
        }
        DeclHead::Proc(name, formals) => Ok((OpenedDecl::Proc(line, name, formals), lines)),
    }
}

/// A declaration at this level, up to the body of a procedure. `left` levels may stand below it.
pub fn declaration_opened(
    alloc: Global,
    last: u32,
    left: u32,
    level: u32,
    lines: &[Line],
) -> Result<(OpenedDecl, &[Line]), ParseFault>
    requires { level + left ≤ most_levels }
    ensures { ReadsLines decl_left_of result (decl_left_at left level) lines.now }
{
    let (line, head, rest) = declaration_line(alloc, last, level, lines)?;
    opened_behind(alloc, last, left, level, line, head, rest)
}

/// The procedure with this body, and the line that ends it.
pub fn procedure_ended(
    last: u32,
    level: u32,
    line: u32,
    name: Letters,
    formals: Option<Box<Formals>>,
    body: Process,
    lines: &[Line],
) -> Result<(Decl, &[Line]), ParseFault>
    ensures { ReadsLines decl_of result (procedure_behind level line name formals body) lines.now }
{
    let (end, rest) = end_line(last, level, lines)?;
    Ok((Decl::Item(Item::Proc(line, name, formals, body, end)), rest))
}
