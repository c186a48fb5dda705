//! The uses of expressions, items, targets and declarations.
ghost use Rattle.std.specs.Prelude.{◌+◌, ◌<◌, ◌^◌};
ghost use Rattle.occ_term.specs.Uses.{with_use, reading, reads_of, reads_of_array, reads_of_item, uses_of_target, uses_of_declaration, uses_of_declarations, uses_of_replicator, only, writing, numbers_in};
ghost use Rattle.occ_term.specs.Terms.{Clearing, Naming};
ghost use Rattle.occ_term.specs.Values.{span};
ghost use Rattle.occ_usage.specs.Noted.{use_of};
ghost use Rattle.occ_usage.specs.Parts.{NotesUses, place_named, place_used, written_to, input_from, output_to, targets_written, items_read, counted_read, subscripts_read, value_read};
ghost use Rattle.occ_term.specs.View.{expression_of, subscripts, array_of, item_of, target_of, declaration_of, declarations_of, replicator_of};

use crate::noted::{Kind, Noted};
use crate::places::{cells_of, named};
use occ_term::{Array, Declaration, Item, Place, Replicator, Target, TermExpr};
use std::alloc::AllocError;

#[cycle(reads)]
pub fn note_expression(e: &TermExpr, noted: &mut Noted) -> Result<(), AllocError>
    ensures { NotesUses result noted.old noted.new (reading (reads_of (expression_of e.now))) }
{
    match e {
        TermExpr::Constant(_) => Ok(()),
        TermExpr::Cell(line, cell) => note_cell(*line, *cell, noted),
        TermExpr::Component(place) => note_value(place, noted),
        TermExpr::Letter(_, _, subscript) => note_expression(subscript.get(), noted),
        TermExpr::Binary(_, _, _, left, right) => {
            note_expression(left.get(), noted)?;
            note_expression(right.get(), noted)?;
            Ok(())
        }
        TermExpr::Unary(_, _, _, operand) => note_expression(operand.get(), noted),
        TermExpr::And(left, right) => {
            note_expression(left.get(), noted)?;
            note_expression(right.get(), noted)?;
            Ok(())
        }
        TermExpr::Or(left, right) => {
            note_expression(left.get(), noted)?;
            note_expression(right.get(), noted)?;
            Ok(())
        }
        TermExpr::Conversion(_, _, operand) => note_expression(operand.get(), noted),
    }
}

/// The value of a place: what it names is read, and what its subscripts read.
#[cycle(reads)]
fn note_value(place: &Place, noted: &mut Noted) -> Result<(), AllocError>
    ensures { NotesUses result noted.old noted.new (value_read place.now) }
{
    note_place(Kind::Read, place, noted)?;
    Ok(())
}

/// What the place names, used so, and then what its subscripts read.
#[cycle(reads)]
pub fn note_place(kind: Kind, place: &Place, noted: &mut Noted) -> Result<(), AllocError>
    ensures { NotesUses result noted.old noted.new (place_used kind place.now) }
{
    note_named(kind, place, noted)?;
    note_subscripts(place.subscripts.as_slice(), noted)?;
    Ok(())
}

#[cycle(reads)]
fn note_subscripts(list: &[TermExpr], noted: &mut Noted) -> Result<(), AllocError>
    ensures { NotesUses result noted.old noted.new (subscripts_read list.now) }
{
    for subscript in list {
        note_expression(subscript, noted)?;
    }
    Ok(())
}

fn note_cell(line: u32, cell: u32, noted: &mut Noted) -> Result<(), AllocError>
    ensures { NotesUses result noted.old noted.new (reading (only cell)) }
{
    note_span(Kind::Read, line, u64::from(cell), 1, noted)?;
    Ok(())
}

fn note_named(kind: Kind, place: &Place, noted: &mut Noted) -> Result<(), AllocError>
    ensures { NotesUses result noted.old noted.new (place_named kind place.now) }
{
    let span = named(place);
    note_span(kind, place.line, span.first, span.count, noted)?;
    Ok(())
}

/// Notes a use of numbers one after another.
fn note_span(
    kind: Kind,
    line: u32,
    first: u64,
    count: u64,
    noted: &mut Noted,
) -> Result<(), AllocError>
    requires { first + count < 2 ^ 64 }
    ensures { NotesUses result noted.old noted.new (use_of kind (numbers_in (span first count))) }
{
    noted.push(kind, first, first + count, line)
}

fn note_array(array: &Array, noted: &mut Noted) -> Result<(), AllocError>
    ensures { NotesUses result noted.old noted.new (reading (reads_of_array (array_of array.now))) }
{
    match array {
        Array::Cells(place) => note_value(place, noted),
        Array::Text(_) => Ok(()),
    }
}

fn note_item(item: &Item, noted: &mut Noted) -> Result<(), AllocError>
    ensures { NotesUses result noted.old noted.new (reading (reads_of_item (item_of item.now))) }
{
    match item {
        Item::One(_, value) => note_expression(value, noted),
        Item::Many(_, array) => note_array(array, noted),
        Item::Counted(_, _, count, array) => note_counted(count, array, noted),
    }
}

fn note_counted(count: &TermExpr, array: &Array, noted: &mut Noted) -> Result<(), AllocError>
    ensures { NotesUses result noted.old noted.new (counted_read count.now array.now) }
{
    note_expression(count, noted)?;
    note_array(array, noted)?;
    Ok(())
}

pub fn note_items(items: &[Item], noted: &mut Noted) -> Result<(), AllocError>
    ensures { NotesUses result noted.old noted.new (items_read items.now) }
{
    for item in items {
        note_item(item, noted)?;
    }
    Ok(())
}

fn note_target(target: &Target, noted: &mut Noted) -> Result<(), AllocError>
    ensures { NotesUses result noted.old noted.new (uses_of_target (target_of target.now)) }
{
    match target {
        Target::Into(place) => note_written(place, noted),
        Target::IntoCounted(_, count, array) => note_both_written(count, array, noted),
    }
}

fn note_written(place: &Place, noted: &mut Noted) -> Result<(), AllocError>
    ensures { NotesUses result noted.old noted.new (written_to place.now) }
{
    note_place(Kind::Write, place, noted)?;
    Ok(())
}

fn note_both_written(count: &Place, array: &Place, noted: &mut Noted) -> Result<(), AllocError>
    ensures { NotesUses result noted.old noted.new
        (with_use (written_to count.now) (written_to array.now)) }
{
    note_place(Kind::Write, count, noted)?;
    note_place(Kind::Write, array, noted)?;
    Ok(())
}

pub fn note_input(channel: &Place, noted: &mut Noted) -> Result<(), AllocError>
    ensures { NotesUses result noted.old noted.new (input_from channel.now) }
{
    note_place(Kind::Input, channel, noted)?;
    Ok(())
}

pub fn note_output(channel: &Place, noted: &mut Noted) -> Result<(), AllocError>
    ensures { NotesUses result noted.old noted.new (output_to channel.now) }
{
    note_place(Kind::Output, channel, noted)?;
    Ok(())
}

pub fn note_targets(targets: &[Target], noted: &mut Noted) -> Result<(), AllocError>
    ensures { NotesUses result noted.old noted.new (targets_written targets.now) }
{
    for target in targets {
        note_target(target, noted)?;
    }
    Ok(())
}

/// A declared variable, which is written where it begins.
pub fn note_clearing(line: u32, first: u32, count: u32, noted: &mut Noted) -> Result<(), AllocError>
    ensures { NotesUses result noted.old noted.new (uses_of_declaration (Clearing first count)) }
{
    note_span(Kind::Write, line, u64::from(first), u64::from(count), noted)?;
    Ok(())
}

/// A named value, whose cells are written where it begins.
pub fn note_naming(line: u32, first: u32, value: &Item, noted: &mut Noted) -> Result<(), AllocError>
    ensures { NotesUses result noted.old noted.new
        (uses_of_declaration (Naming first (item_of value.now))) }
{
    note_item(value, noted)?;
    let count = cells_of(value);
    note_span(Kind::Write, line, u64::from(first), count, noted)?;
    Ok(())
}

pub fn note_declaration(declaration: &Declaration, noted: &mut Noted) -> Result<(), AllocError>
    ensures { NotesUses result noted.old noted.new
        (uses_of_declaration (declaration_of declaration.now)) }
{
    match declaration {
        Declaration::Clearing(line, first, count) => note_clearing(*line, *first, *count, noted),
        Declaration::Naming(line, first, value) => note_naming(*line, *first, value, noted),
    }
}

pub fn note_declarations(declarations: &[Declaration], noted: &mut Noted) -> Result<(), AllocError>
    ensures { NotesUses result noted.old noted.new
        (uses_of_declarations (declarations_of declarations.now)) }
{
    for declaration in declarations {
        note_declaration(declaration, noted)?;
    }
    Ok(())
}

/// Base and count, and then the index.
pub fn note_replicator(over: &Replicator, noted: &mut Noted) -> Result<(), AllocError>
    ensures { NotesUses result noted.old noted.new (uses_of_replicator (replicator_of over.now)) }
{
    note_expression(&over.base, noted)?;
    note_expression(&over.count, noted)?;
    note_index(over.line, over.index, noted)?;
    Ok(())
}

fn note_index(line: u32, index: u32, noted: &mut Noted) -> Result<(), AllocError>
    ensures { NotesUses result noted.old noted.new (writing (only index)) }
{
    note_span(Kind::Write, line, u64::from(index), 1, noted)?;
    Ok(())
}
