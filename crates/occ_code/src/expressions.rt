//! The code of expressions, items, targets and declarations.
ghost use Rattle.std.specs.Prelude.{◌≡◌, ◌∷◌, [], ◌++◌, ◌*◌, ◌<◌, ◌^◌, min, option_map};
ghost use Rattle.occ_term.specs.Messages.{product as product_of};
ghost use Rattle.occ_term.specs.ArraySizes.{AreFew};
ghost use Rattle.occ_term.specs.Terms.{OfOne, OfMany, Into, IntoCounted, Naming};
ghost use Rattle.occ_term.specs.View.{expression_of, place_of, array_of, item_of, items_of, target_of, targets_of, declaration_of, declarations_of, replicator_of};
ghost use Rattle.occ_code.specs.Expressions.{expression_code, place_code, subscripts_code, components_at, item_code, items_code, target_code, targets_code, declaration_code, declarations_code, storing_code, counting_code, assignment_code, single_target, single_value};
ghost use Rattle.occ_code.specs.OperandOrder as order;
ghost use Rattle.occ_code.specs.Pieces.{AddsPiece, item_of_counted, target_of_counted, subscripts_among};

use crate::pieces::{emitted, put, since};
use occ_machine::Instr;
use occ_term::{
    Array, Declaration, Item, Operator, Place, Primitive, Replicator, Target, TermExpr,
};
use std::alloc::{AllocError, Global};

/// The code of an expression.
#[cycle(expressions)]
pub(crate) fn emit_expression(
    alloc: Global,
    e: &TermExpr,
    code: &mut Vec<Instr<u32>>,
) -> Result<(), AllocError>
    ensures { AddsPiece result code.old code.new (expression_code (expression_of e.now)) }
{
    match e {
        TermExpr::Constant(value) => put(code, Instr::Push(*value)),
        TermExpr::Cell(_, cell) => put(code, Instr::Load(*cell)),
        TermExpr::Component(place) => emit_place_before(alloc, place, Instr::LoadAt, code),
        TermExpr::Letter(line, text, subscript) => {
            let text = text.copy()?;
            emit_before(alloc, subscript.get(), Instr::LoadLetter(*line, text), code)
        }
        TermExpr::Binary(operator, primitive, line, left, right) => {
            put(code, Instr::Operate(*operator, *primitive, *line))?;
            let (left, right) = (left.get(), right.get());
            if comes_second(*operator, left, right) {
                emit_expression(alloc, left, code)?;
                emit_expression(alloc, right, code)?;
            } else {
                emit_expression(alloc, right, code)?;
                emit_expression(alloc, left, code)?;
            }
            Ok(())
        }
        TermExpr::Unary(operator, primitive, line, operand) => {
            let last = Instr::OperateOne(*operator, *primitive, *line);
            emit_before(alloc, operand.get(), last, code)
        }
        TermExpr::And(left, right) => {
            let before = emitted(code);
            emit_expression(alloc, right.get(), code)?;
            put(code, Instr::AndThen(since(code, before)))?;
            emit_expression(alloc, left.get(), code)?;
            Ok(())
        }
        TermExpr::Or(left, right) => {
            let before = emitted(code);
            emit_expression(alloc, right.get(), code)?;
            put(code, Instr::OrElse(since(code, before)))?;
            emit_expression(alloc, left.get(), code)?;
            Ok(())
        }
        TermExpr::Conversion(to, line, operand) => {
            emit_before(alloc, operand.get(), Instr::ConvertTo(*to, *line), code)
        }
    }
}

/// Whether the left operand is put on the stack second: a cell, whose value can't fault, of an operator that commutes. With a cell
/// or a constant on its right it is first.
fn comes_second(operator: Operator, left: &TermExpr, right: &TermExpr) -> bool
    ensures { result ≡ order.comes_second operator
        (expression_of left.now) (expression_of right.now) }
{
    is_cell(left) && commutes(operator) && !is_cell_or_constant(right)
}

/// Whether an expression is the value of a cell.
fn is_cell(e: &TermExpr) -> bool
    ensures { result ≡ order.is_cell (expression_of e.now) }
{
    matches!(e, TermExpr::Cell(_, _))
}

/// Whether an expression is the value of a cell, or a constant.
fn is_cell_or_constant(e: &TermExpr) -> bool
    ensures { result ≡ order.is_cell_or_constant (expression_of e.now) }
{
    matches!(e, TermExpr::Cell(_, _) | TermExpr::Constant(_))
}

/// Whether an operator comes to the same with its operands swapped.
fn commutes(operator: Operator) -> bool
    ensures { result ≡ order.commutes operator }
{
    matches!(
        operator,
        Operator::Add
            | Operator::Multiply
            | Operator::Plus
            | Operator::Times
            | Operator::BitAnd
            | Operator::BitOr
            | Operator::BitXor
            | Operator::Equal
            | Operator::Unequal
    )
}

/// An expression, and then the instruction.
#[cycle(expressions)]
fn emit_before(
    alloc: Global,
    e: &TermExpr,
    last: Instr<u32>,
    code: &mut Vec<Instr<u32>>,
) -> Result<(), AllocError>
    ensures { AddsPiece result code.old code.new
        (expression_code (expression_of e.now) ++ last ∷ []) }
{
    put(code, last)?;
    emit_expression(alloc, e, code)?;
    Ok(())
}

/// The number of a place, and then the instruction.
#[cycle(expressions)]
pub(crate) fn emit_place_before(
    alloc: Global,
    place: &Place,
    last: Instr<u32>,
    code: &mut Vec<Instr<u32>>,
) -> Result<(), AllocError>
    ensures { AddsPiece result code.old code.new (place_code (place_of place.now) ++ last ∷ []) }
{
    put(code, last)?;
    emit_place(alloc, place, code)?;
    Ok(())
}

/// The number of the first cell or channel that a place names.
#[cycle(expressions)]
pub(crate) fn emit_place(
    alloc: Global,
    place: &Place,
    code: &mut Vec<Instr<u32>>,
) -> Result<(), AllocError>
    ensures { AddsPiece result code.old code.new (place_code (place_of place.now)) }
{
    place.sizes.few();
    let sizes = place.sizes.as_slice();
    emit_subscripts(alloc, place.line, sizes, place.subscripts.as_slice(), code)?;
    put(code, Instr::Push(i64::from(place.first)))?;
    Ok(())
}

#[cycle(expressions)]
fn emit_subscripts(
    alloc: Global,
    line: u32,
    sizes: &[u32],
    list: &[TermExpr],
    code: &mut Vec<Instr<u32>>,
) -> Result<(), AllocError>
    requires { AreFew sizes.now }
    ensures { AddsPiece result code.old code.new
        (subscripts_code (subscripts_among list.now) line sizes.now) }
{
    let mut count = shorter(list.len(), sizes.len());
    let mut stride = product(&sizes[count..]);
    while count > 0 {
        count -= 1;
        put(code, Instr::Subscript(line, sizes[count], stride))?;
        emit_expression(alloc, &list[count], code)?;
        stride = times(stride, sizes[count]);
    }
    Ok(())
}

fn shorter(a: usize, b: usize) -> usize
    ensures { result ≡ min a b }
{
    if a < b { a } else { b }
}

/// The product of two sizes.
fn times(product: u64, size: u32) -> u64
    requires { size * product < 2 ^ 32 }
    ensures { result ≡ size * product }
{
    u64::from(size) * product
}

/// How many components an array with these sizes has.
fn product(sizes: &[u32]) -> u64
    requires { AreFew sizes.now }
    ensures { result ≡ product_of sizes.now }
{
    let mut all = 1;
    let mut count = sizes.len();
    while count > 0 {
        count -= 1;
        all = times(all, sizes[count]);
    }
    all
}

/// How many cells or channels a place names.
fn components(place: &Place) -> u64
    ensures { result ≡ components_at (place_of place.now) }
{
    place.sizes.few();
    let sizes = place.sizes.as_slice();
    let count = shorter(place.subscripts.len(), sizes.len());
    product(&sizes[count..])
}

/// A part of a message.
fn emit_item(alloc: Global, item: &Item, code: &mut Vec<Instr<u32>>) -> Result<(), AllocError>
    ensures { AddsPiece result code.old code.new (item_code (item_of item.now)) }
{
    match item {
        Item::One(primitive, value) => emit_value(alloc, *primitive, value, code),
        Item::Many(primitive, array) => emit_array(alloc, *primitive, array, code),
        Item::Counted(primitive, line, count, array) => {
            emit_counted(alloc, *primitive, *line, count, array, code)
        }
    }
}

fn emit_value(
    alloc: Global,
    primitive: Primitive,
    value: &TermExpr,
    code: &mut Vec<Instr<u32>>,
) -> Result<(), AllocError>
    ensures { AddsPiece result code.old code.new
        (item_code (OfOne primitive (expression_of value.now))) }
{
    put(code, Instr::PartOne(primitive))?;
    emit_expression(alloc, value, code)?;
    Ok(())
}

fn emit_array(
    alloc: Global,
    primitive: Primitive,
    array: &Array,
    code: &mut Vec<Instr<u32>>,
) -> Result<(), AllocError>
    ensures { AddsPiece result code.old code.new
        (item_code (OfMany primitive (array_of array.now))) }
{
    match array {
        Array::Cells(place) => {
            let count = components(place);
            emit_place_before(alloc, place, Instr::PartMany(primitive, count), code)
        }
        Array::Text(text) => {
            let text = text.copy()?;
            put(code, Instr::PartText(primitive, text))
        }
    }
}

fn emit_counted(
    alloc: Global,
    primitive: Primitive,
    line: u32,
    count: &TermExpr,
    array: &Array,
    code: &mut Vec<Instr<u32>>,
) -> Result<(), AllocError>
    ensures { AddsPiece result code.old code.new
        (item_code (item_of_counted primitive line count.now array.now)) }
{
    match array {
        Array::Cells(place) => {
            let all = components(place);
            emit_place_before(alloc, place, Instr::PartCounted(primitive, line, all), code)?;
        }
        Array::Text(text) => {
            let text = text.copy()?;
            put(code, Instr::PartCountedText(primitive, line, text))?;
        }
    }
    emit_expression(alloc, count, code)?;
    Ok(())
}

/// The parts of a message.
pub(crate) fn emit_items(
    alloc: Global,
    items: &[Item],
    code: &mut Vec<Instr<u32>>,
) -> Result<(), AllocError>
    ensures { AddsPiece result code.old code.new (items_code (items_of items.now)) }
{
    let mut count = items.len();
    while count > 0 {
        count -= 1;
        emit_item(alloc, &items[count], code)?;
    }
    Ok(())
}

/// A target.
fn emit_target(alloc: Global, target: &Target, code: &mut Vec<Instr<u32>>) -> Result<(), AllocError>
    ensures { AddsPiece result code.old code.new (target_code (target_of target.now)) }
{
    match target {
        Target::Into(place) => {
            let count = components(place);
            emit_place_before(alloc, place, Instr::SpotOne(count), code)
        }
        Target::IntoCounted(line, count, array) => {
            emit_both_places(alloc, *line, count, array, code)
        }
    }
}

fn emit_both_places(
    alloc: Global,
    line: u32,
    count: &Place,
    array: &Place,
    code: &mut Vec<Instr<u32>>,
) -> Result<(), AllocError>
    ensures { AddsPiece result code.old code.new
        (target_code (target_of_counted line count.now array.now)) }
{
    let counts = components(count);
    let all = components(array);
    emit_place_before(alloc, array, Instr::SpotCounted(line, counts, all), code)?;
    emit_place(alloc, count, code)?;
    Ok(())
}

fn emit_targets(
    alloc: Global,
    targets: &[Target],
    code: &mut Vec<Instr<u32>>,
) -> Result<(), AllocError>
    ensures { AddsPiece result code.old code.new (targets_code (targets_of targets.now)) }
{
    let mut count = targets.len();
    while count > 0 {
        count -= 1;
        emit_target(alloc, &targets[count], code)?;
    }
    Ok(())
}

/// What stores the parts of a message.
pub(crate) fn emit_storing(
    alloc: Global,
    targets: &[Target],
    code: &mut Vec<Instr<u32>>,
) -> Result<(), AllocError>
    ensures { AddsPiece result code.old code.new (storing_code (targets_of targets.now)) }
{
    put(code, Instr::StoreParts)?;
    emit_targets(alloc, targets, code)?;
    Ok(())
}

/// A named value, from this cell on.
pub(crate) fn emit_naming(
    alloc: Global,
    first: u32,
    value: &Item,
    code: &mut Vec<Instr<u32>>,
) -> Result<(), AllocError>
    ensures { AddsPiece result code.old code.new
        (declaration_code (Naming first (item_of value.now))) }
{
    put(code, Instr::StoreNamed(first))?;
    emit_item(alloc, value, code)?;
    Ok(())
}

/// A declaration.
pub(crate) fn emit_declaration(
    alloc: Global,
    declaration: &Declaration,
    code: &mut Vec<Instr<u32>>,
) -> Result<(), AllocError>
    ensures { AddsPiece result code.old code.new
        (declaration_code (declaration_of declaration.now)) }
{
    match declaration {
        Declaration::Clearing(_, first, count) => put(code, Instr::ClearCells(*first, *count)),
        Declaration::Naming(_, first, value) => emit_naming(alloc, *first, value, code),
    }
}

/// Declarations, in order.
pub(crate) fn emit_declarations(
    alloc: Global,
    declarations: &[Declaration],
    code: &mut Vec<Instr<u32>>,
) -> Result<(), AllocError>
    ensures { AddsPiece result code.old code.new
        (declarations_code (declarations_of declarations.now)) }
{
    let mut count = declarations.len();
    while count > 0 {
        count -= 1;
        emit_declaration(alloc, &declarations[count], code)?;
    }
    Ok(())
}

/// The base and the count of a replicator.
pub(crate) fn emit_counting(
    alloc: Global,
    over: &Replicator,
    code: &mut Vec<Instr<u32>>,
) -> Result<(), AllocError>
    ensures { AddsPiece result code.old code.new (counting_code (replicator_of over.now)) }
{
    put(code, Instr::CountedFrom(over.line))?;
    emit_expression(alloc, &over.count, code)?;
    emit_expression(alloc, &over.base, code)?;
    Ok(())
}

/// An assignment: one value into one variable is stored at once, else all parts are made before the
/// first one is stored.
pub(crate) fn emit_assignment(
    alloc: Global,
    targets: &[Target],
    values: &[Item],
    code: &mut Vec<Instr<u32>>,
) -> Result<(), AllocError>
    ensures { AddsPiece result code.old code.new
        (assignment_code (targets_of targets.now) (items_of values.now)) }
{
    if let (Some(cell), Some(value)) = (only_variable(targets), only_value(values)) {
        put(code, Instr::StoreOne(cell))?;
        emit_expression(alloc, value, code)?;
    } else {
        emit_storing(alloc, targets, code)?;
        emit_items(alloc, values, code)?;
    }
    Ok(())
}

/// The cell, where the only target is a single variable.
fn only_variable(targets: &[Target]) -> Option<u32>
    ensures { result ≡ single_target (targets_of targets.now) }
{
    match targets.split_first() {
        None => None,
        Some((target, others)) => {
            if others.is_empty() {
                variable_of(target)
            } else {
                None
            }
        }
    }
}

fn variable_of(target: &Target) -> Option<u32>
    ensures { result ≡ single_target (target_of target.now ∷ []) }
{
    match target {
        Target::Into(place) => single_cell(place),
        Target::IntoCounted(_, _, _) => None,
    }
}

fn single_cell(place: &Place) -> Option<u32>
    ensures { result ≡ single_target (Into (place_of place.now) ∷ []) }
{
    if !place.sizes.is_empty() {
        return None;
    }
    match place.subscripts.as_slice().split_first() {
        Some(_) => None,
        None => Some(place.first),
    }
}

/// The expression, where the only value is a single one.
fn only_value(values: &[Item]) -> Option<&TermExpr>
    ensures { option_map (λ e. expression_of e.now) result ≡ single_value (items_of values.now) }
{
    match values.split_first() {
        Some((Item::One(_, value), others)) => {
            if others.is_empty() { Some(value) } else { None }
        }
        _ => None,
    }
}
