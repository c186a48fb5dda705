//! Whole programs: the main process behind the items that stand before it.

ghost use Rattle.std.specs.Prelude.{◌≡◌, ◌≤◌, IfErr, IfOk, OnOk, [], length, map, option_map};
ghost use Rattle.occ_tree_grammar.specs.Lines.Trees.{by_channel, carries};
ghost use Rattle.occ_tree_grammar.specs.Lines.Views as lines;
ghost use Rattle.occ_tree_grammar.specs.Processes.Views.{item_of, program_of};
ghost use Rattle.occ_check_meaning.specs.ProgramUnfolding.{UnfoldsTo};
ghost use Rattle.occ_check_meaning.specs.Programs as programs;
ghost use Rattle.occ_check.specs.CheckRefuses.{CheckRefuses};
ghost use Rattle.occ_check_lines.specs.Declaration.{pairs_of};
ghost use Rattle.occ_check.specs.Program.{byte_channel, main_at, main_in, ReadsMain, items_and_names, with_numbers};
ghost use Rattle.occ_check.specs.Progress.{Declares};
ghost use Rattle.occ_check_lines.specs.View.{Gives, known_of};
ghost use Rattle.occ_check.specs.OpenBlocks.{Deepens, HasBlock};

use crate::blocks::Blocks;
use crate::entering::headed;
use crate::formals::spec_after;
use crate::here::Here;
use crate::process::process_unfolded;
use crate::unfolder::Unfolder;
use occ_check_lines::declaration::{Named, once, stretch_from};
use occ_check_lines::fault::CheckFault;
use occ_check_lines::known::{Carried, Known};
use occ_check_lines::numbers::Numbers;
use occ_check_lines::scope::Position;
use occ_held::letters::Letters;
use occ_term::{Declaration, Primitive, Protocol, Sizes, Term, Unfolded};
use occ_tree_grammar::tree::expr::Prim;
use occ_tree_grammar::tree::line::{Carried as CarriedTree, Formals, Part, Spec};
use occ_tree_grammar::tree::process::{Item, Process, Program};
use sqlite_items::Items;
use std::alloc::{AllocError, Global};

/// The main process.
#[derive(Clone, Copy)]
struct Main<'t> {
    /// The items before it.
    before: &'t [Item],
    /// The line of its PROC.
    line: u32,
    /// Its formals.
    formals: &'t Option<Box<Formals>>,
    /// Its body.
    body: &'t Process,
}

/// What a program unfolds to: its main process, the last PROC, behind the values that are named before it.
///
/// # Errors
///
/// The fault for which the program has no unfolding, and `Memory`.
pub fn unfold(alloc: Global, program: &Program) -> Result<Unfolded, CheckFault>
    ensures found { IfOk result (λ u. UnfoldsTo (program_of program.now) u) }
    ensures refused { IfErr result (λ fault. CheckRefuses fault (program_of program.now)) }
{
    let (term, numbers) = unfolded_program(alloc, program)?;
    let Numbers {
        cells,
        channels,
        ..
    } = numbers;
    Ok(Unfolded::new(term, cells, channels))
}

/// The term of a program, with the numbers that it gives out.
fn unfolded_program(alloc: Global, program: &Program) -> Result<(Term, Numbers), CheckFault>
    ensures { Gives with_numbers result (programs.program_unfolded (program_of program.now)) }
{
    let main = main_of(&program.items)?;
    let names = main_names(alloc, main.line, main.formals)?;
    let names = channels_from(alloc, names.as_slice())?;
    let mut unfolder = Unfolder {
        blocks: Blocks::new(alloc),
        numbers: Numbers::at_start(alloc)?,
    };
    let nowhere = Position { blocks: 0, seen: 0 };
    let term = behind_items(&mut unfolder, alloc, nowhere, main, names)?;
    Ok((term, unfolder.numbers))
}

// ---- the main process

/// The last PROC, with the items before it.
///
/// # Errors
///
/// `NoMain` where there is no PROC.
fn main_of(items: &[Item]) -> Result<Main<'_>, CheckFault>
    ensures { Gives main_in result (programs.main_of (map item_of items.now)) }
{
    let mut left = items;
    'backwards: while let Some((item, before)) = left.split_last() {
        if let Some(main) = main_at(before, item) {
            return Ok(main);
        }
        left = before;
    }
    Err(CheckFault::NoMain)
}

/// The main process, where the item behind these is a PROC.
fn main_at<'t>(before: &'t [Item], item: &'t Item) -> Option<Main<'t>>
    ensures { option_map main_in result ≡ main_at (map item_of before.now) (item_of item.now) }
{
    match item {
        Item::Proc(line, _, formals, body, _) => Some(Main {
            before,
            line: *line,
            formals,
            body,
        }),
        Item::Value(_, _, _, _) => None,
        Item::Protocol(_) => None,
    }
}

// ---- its formals

/// The names of its formals: of the keyboard, the screen and the error channel.
///
/// # Errors
///
/// `NoMain` for formals that are not one to three channels of bytes, `Twice` for a name that stands twice, and `Memory`.
fn main_names(
    alloc: Global,
    line: u32,
    formals: &Option<Box<Formals>>,
) -> Result<Items<Letters>, CheckFault>
    ensures { Gives (λ xs. xs) result (programs.main_names (lines.formals_of formals.now)) }
{
    let names = byte_channels(alloc, formals)?;
    once(alloc, line, names.as_slice())?;
    Ok(names)
}

fn byte_channels(
    alloc: Global,
    formals: &Option<Box<Formals>>,
) -> Result<Items<Letters>, CheckFault>
    ensures { Gives (λ xs. xs) result (programs.byte_channels (lines.formals_of formals.now)) }
{
    match formals {
        None => Err(CheckFault::NoMain),
        Some(formals) => some_channels(alloc, formals),
    }
}

fn some_channels(alloc: Global, formals: &Formals) -> Result<Items<Letters>, CheckFault>
    ensures { Gives (λ xs. xs) result (programs.byte_channels (lines.some_formals_of formals.now)) }
{
    if formals.others.len() > 2 {
        return Err(CheckFault::NoMain);
    }
    if !is_byte_channel(&formals.spec) {
        return Err(CheckFault::NoMain);
    }
    let mut names = Items::new(alloc);
    names.push(formals.name.copy()?)?;
    let mut before = &formals.spec;
    for formal in &formals.others {
        before = spec_after(before, &formal.spec);
        if !is_byte_channel(before) {
            return Err(CheckFault::NoMain);
        }
        names.push(formal.name.copy()?)?;
    }
    Ok(names)
}

/// Whether a formal is a single channel of bytes.
fn is_byte_channel(spec: &Spec) -> bool
    ensures { result ≡ programs.is_byte_channel (lines.spec_of spec.now) }
{
    match spec {
        Spec::Value(_) => false,
        Spec::Variable(_) => false,
        Spec::Channel(sizes, carried) => match sizes.split_first() {
            None => carries_bytes(carried),
            Some(_) => false,
        },
    }
}

/// Whether a single channel carries bytes.
fn carries_bytes(carried: &CarriedTree) -> bool
    ensures { result ≡ programs.is_byte_channel (by_channel [] (lines.carried_of carried.now)) }
{
    match carried {
        CarriedTree::Named(_) => false,
        CarriedTree::Part(part) => is_byte(part),
    }
}

/// Whether a message of one part is a byte.
fn is_byte(part: &Part) -> bool
    ensures { result ≡ programs.is_byte_channel (by_channel [] (carries (lines.part_of part.now))) }
{
    match part {
        Part::Counted(_, _) => false,
        Part::Single(sizes, prim) => match sizes.split_first() {
            None => matches!(prim, Prim::Byte),
            Some(_) => false,
        },
    }
}

/// What the names of its formals stand for: the channels from number 0 on.
fn channels_from(alloc: Global, names: &[Letters]) -> Result<Vec<Named>, AllocError>
    requires few { length names.now ≤ 3 }
    ensures { IfOk result (λ xs. pairs_of xs.items ≡ programs.channels_from 0 names.now) }
{
    let mut all = Vec::new(alloc);
    let mut number = 0_u32;
    for name in names {
        all.push(Named::new(name, byte_channel(alloc, number)?)?)?;
        number += 1;
    }
    Ok(all)
}

/// The channel of bytes with this number.
fn byte_channel(alloc: Global, number: u32) -> Result<Known, AllocError>
    ensures { IfOk result (λ k. known_of k ≡ byte_channel number) }
{
    let carried = Carried {
        declared: None,
        protocol: Protocol::Simple(Items::new(alloc), Primitive::Byte),
    };
    Ok(Known::Channels(carried, stretch_from(alloc, number, &Sizes::none(alloc))?))
}

// ---- the whole

/// What the main process unfolds to, behind the items before it and names inside of them.
fn behind_items<'t>(
    unfolder: &mut Unfolder<'t>,
    alloc: Global,
    at: Position,
    main: Main<'t>,
    names: Vec<Named>,
) -> Result<Term, CheckFault>
    ensures { ReadsMain result unfolder.old unfolder.new at main.entry names.items }
{
    unfolder.blocks.open(alloc, at)?;
    let heads = entered_items(unfolder, alloc, main.before, names)?;
    let inside = Here {
        at: unfolder.blocks.end(),
        depth: unfolder.opened(0, heads.as_slice())?,
        line: main.line,
    };
    let term = process_unfolded(unfolder, alloc, inside, main.body)?;
    headed(alloc, heads, term)
}

/// Enters items, and names inside of them, and answers what is set for them.
fn entered_items<'t>(
    unfolder: &mut Unfolder<'t>,
    alloc: Global,
    items: &'t [Item],
    names: Vec<Named>,
) -> Result<Items<Declaration>, CheckFault>
    requires { HasBlock unfolder.old.blocks }
    ensures { Declares result unfolder.old unfolder.new 1 (items_and_names items.now names.items) }
{
    let heads = items_declared(unfolder, alloc, 1, items)?;
    unfolder.blocks.enter(alloc, names)?;
    Ok(heads)
}

/// Enters items, each in the scope of those before it.
fn items_declared<'t>(
    unfolder: &mut Unfolder<'t>,
    alloc: Global,
    depth: u32,
    items: &'t [Item],
) -> Result<Items<Declaration>, CheckFault>
    requires { HasBlock unfolder.old.blocks }
    ensures entered { Declares result unfolder.old unfolder.new depth
        (programs.items_declared (map item_of items.now)) }
    ensures more { OnOk result (Deepens unfolder.old.blocks unfolder.new.blocks) }
{
    let mut heads = Items::new(alloc);
    for item in items {
        let more = unfolder.item_declared(alloc, depth, item)?;
        heads.append(more)?;
    }
    Ok(heads)
}
