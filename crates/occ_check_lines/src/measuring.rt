//! Counting the nodes of what stands in a term: no count goes deeper than a program may be.

ghost use Rattle.occ_term.specs.Sizes.{no_size, size_of_array, size_of_constants, size_of_expression, size_of_item, size_of_items, size_of_place, size_of_replicator, size_of_subscripts, size_of_target, size_of_targets, size_of_test};
ghost use Rattle.occ_term.specs.View.{array_of, expression_of, item_of, items_of, place_of, replicator_of, target_of, targets_of, test_of};
ghost use Rattle.occ_check_lines.specs.Measuring.{size_within, assignment_size, declaration_size, input_size, output_size, tagged_input_size};
ghost use Rattle.occ_check_lines.specs.View.{TakesRoom, subscripts_of, TakesRoomAnyTag};

use crate::fault::CheckFault;
use crate::numbers::Numbers;
use occ_term::{Array, Declaration, Item, Place, Replicator, Target, TermExpr};

/// Counts the nodes of an expression under so many nodes.
///
/// # Errors
///
/// `TooLarge` past 100,000 nodes, and where one stands deeper than 200.
#[cycle(counting)]
pub fn count_expression(numbers: &mut Numbers, depth: u32, e: &TermExpr) -> Result<(), CheckFault>
    ensures { TakesRoom result numbers.old numbers.new depth
        (size_of_expression (expression_of e.now)) }
{
    numbers.node(depth)?;
    count_within(numbers, depth + 1, e)
}

/// Counts what stands within an expression.
#[cycle(counting)]
fn count_within(numbers: &mut Numbers, depth: u32, e: &TermExpr) -> Result<(), CheckFault>
    ensures { TakesRoom result numbers.old numbers.new depth (size_within (expression_of e.now)) }
{
    match e {
        TermExpr::Constant(_) | TermExpr::Cell(_, _) => numbers.no_node(depth),
        TermExpr::Component(place) => count_place(numbers, depth, place),
        TermExpr::Letter(_, _, subscript) => count_expression(numbers, depth, subscript.get()),
        TermExpr::Binary(_, _, _, left, right) => {
            count_expression(numbers, depth, left.get())?;
            count_expression(numbers, depth, right.get())
        }
        TermExpr::Unary(_, _, _, operand) => count_expression(numbers, depth, operand.get()),
        TermExpr::And(left, right) => {
            count_expression(numbers, depth, left.get())?;
            count_expression(numbers, depth, right.get())
        }
        TermExpr::Or(left, right) => {
            count_expression(numbers, depth, left.get())?;
            count_expression(numbers, depth, right.get())
        }
        TermExpr::Conversion(_, _, operand) => count_expression(numbers, depth, operand.get()),
    }
}

/// Counts the subscripts of a place, which is no node itself.
///
/// # Errors
///
/// As `count_expression`.
#[cycle(counting)]
pub fn count_place(numbers: &mut Numbers, depth: u32, place: &Place) -> Result<(), CheckFault>
    ensures { TakesRoom result numbers.old numbers.new depth (size_of_place (place_of place.now)) }
{
    count_subscripts(numbers, depth, place.subscripts.as_slice())
}

/// Counts subscripts.
#[cycle(counting)]
fn count_subscripts(numbers: &mut Numbers, depth: u32, list: &[TermExpr]) -> Result<(), CheckFault>
    ensures { TakesRoom result numbers.old numbers.new depth
        (size_of_subscripts (subscripts_of list.now)) }
{
    for subscript in list {
        count_expression(numbers, depth, subscript)?;
    }
    numbers.no_node(depth)
}

/// Counts a whole array, which is a node.
///
/// # Errors
///
/// As `count_expression`.
pub fn count_array(numbers: &mut Numbers, depth: u32, array: &Array) -> Result<(), CheckFault>
    ensures { TakesRoom result numbers.old numbers.new depth (size_of_array (array_of array.now)) }
{
    match array {
        Array::Cells(place) => {
            numbers.node(depth)?;
            count_place(numbers, depth + 1, place)
        }
        Array::Text(_) => numbers.node(depth),
    }
}

/// Counts what is output, assigned or named.
///
/// # Errors
///
/// As `count_expression`.
pub fn count_item(numbers: &mut Numbers, depth: u32, item: &Item) -> Result<(), CheckFault>
    ensures { TakesRoom result numbers.old numbers.new depth (size_of_item (item_of item.now)) }
{
    match item {
        Item::One(_, value) => count_expression(numbers, depth, value),
        Item::Many(_, array) => count_array(numbers, depth, array),
        Item::Counted(_, _, count, array) => {
            count_expression(numbers, depth, count)?;
            count_array(numbers, depth, array)
        }
    }
}

/// Counts items.
///
/// # Errors
///
/// As `count_expression`.
pub fn count_items(numbers: &mut Numbers, depth: u32, items: &[Item]) -> Result<(), CheckFault>
    ensures { TakesRoom result numbers.old numbers.new depth (size_of_items (items_of items.now)) }
{
    for item in items {
        count_item(numbers, depth, item)?;
    }
    numbers.no_node(depth)
}

/// Counts where an item is stored, which is one node round its places.
///
/// # Errors
///
/// As `count_expression`.
pub fn count_target(numbers: &mut Numbers, depth: u32, target: &Target) -> Result<(), CheckFault>
    ensures { TakesRoom result numbers.old numbers.new depth
        (size_of_target (target_of target.now)) }
{
    match target {
        Target::Into(place) => {
            numbers.node(depth)?;
            count_place(numbers, depth + 1, place)
        }
        Target::IntoCounted(_, count, array) => {
            numbers.node(depth)?;
            count_place(numbers, depth + 1, count)?;
            count_place(numbers, depth + 1, array)
        }
    }
}

/// Counts targets.
///
/// # Errors
///
/// As `count_expression`.
pub fn count_targets(
    numbers: &mut Numbers,
    depth: u32,
    targets: &[Target],
) -> Result<(), CheckFault>
    ensures { TakesRoom result numbers.old numbers.new depth
        (size_of_targets (targets_of targets.now)) }
{
    for target in targets {
        count_target(numbers, depth, target)?;
    }
    numbers.no_node(depth)
}

/// Counts a declared variable or a named value.
///
/// # Errors
///
/// As `count_expression`.
pub fn count_declaration(
    numbers: &mut Numbers,
    depth: u32,
    declaration: &Declaration,
) -> Result<(), CheckFault>
    ensures { TakesRoom result numbers.old numbers.new depth (declaration_size declaration.now) }
{
    match declaration {
        Declaration::Clearing(_, _, _) => numbers.node(depth),
        Declaration::Naming(_, _, value) => {
            numbers.node(depth)?;
            count_item(numbers, depth + 1, value)
        }
    }
}

/// Counts the base and the count of a replicator, which is no node itself.
///
/// # Errors
///
/// As `count_expression`.
pub fn count_replicator(
    numbers: &mut Numbers,
    depth: u32,
    over: &Replicator,
) -> Result<(), CheckFault>
    ensures { TakesRoom result numbers.old numbers.new depth
        (size_of_replicator (replicator_of over.now) no_size) }
{
    count_expression(numbers, depth, &over.base)?;
    count_expression(numbers, depth, &over.count)
}

/// Counts the Boolean of an arm, where it has one.
///
/// # Errors
///
/// As `count_expression`.
pub fn count_test(
    numbers: &mut Numbers,
    depth: u32,
    test: &Option<TermExpr>,
) -> Result<(), CheckFault>
    ensures { TakesRoom result numbers.old numbers.new depth (size_of_test (test_of test.now)) }
{
    match test {
        None => numbers.no_node(depth),
        Some(test) => count_expression(numbers, depth, test),
    }
}

/// Counts the constants of an option, each of which is a node.
///
/// # Errors
///
/// As `count_expression`.
pub fn count_constants(
    numbers: &mut Numbers,
    depth: u32,
    constants: &[i64],
) -> Result<(), CheckFault>
    ensures { TakesRoom result numbers.old numbers.new depth (size_of_constants constants.now) }
{
    for _constant in constants {
        numbers.node(depth)?;
    }
    numbers.no_node(depth)
}

/// Counts an assignment.
///
/// # Errors
///
/// As `count_expression`.
pub fn count_assignment(
    numbers: &mut Numbers,
    depth: u32,
    targets: &[Target],
    items: &[Item],
) -> Result<(), CheckFault>
    ensures { TakesRoom result numbers.old numbers.new depth
        (assignment_size targets.now items.now) }
{
    numbers.node(depth)?;
    count_targets(numbers, depth + 1, targets)?;
    count_items(numbers, depth + 1, items)
}

/// Counts an input.
///
/// # Errors
///
/// As `count_expression`.
pub fn count_input(
    numbers: &mut Numbers,
    depth: u32,
    channel: &Place,
    targets: &[Target],
) -> Result<(), CheckFault>
    ensures { TakesRoom result numbers.old numbers.new depth (input_size channel.now targets.now) }
{
    numbers.node(depth)?;
    count_place(numbers, depth + 1, channel)?;
    count_targets(numbers, depth + 1, targets)
}

/// Counts an output. A tag is no node.
///
/// # Errors
///
/// As `count_expression`.
pub fn count_output(
    numbers: &mut Numbers,
    depth: u32,
    channel: &Place,
    items: &[Item],
) -> Result<(), CheckFault>
    ensures { TakesRoomAnyTag result numbers.old numbers.new depth
        (output_size channel.now items.now) }
{
    numbers.node(depth)?;
    count_place(numbers, depth + 1, channel)?;
    count_items(numbers, depth + 1, items)
}

/// Counts an input of one variant, which is a node round its targets and a SKIP.
///
/// # Errors
///
/// As `count_expression`.
pub fn count_tagged_input(
    numbers: &mut Numbers,
    depth: u32,
    channel: &Place,
    targets: &[Target],
) -> Result<(), CheckFault>
    ensures { TakesRoomAnyTag result numbers.old numbers.new depth
        (tagged_input_size channel.now targets.now) }
{
    numbers.node(depth)?;
    count_place(numbers, depth + 1, channel)?;
    numbers.node(depth + 1)?;
    count_targets(numbers, depth + 2, targets)?;
    numbers.node(depth + 2)
}
