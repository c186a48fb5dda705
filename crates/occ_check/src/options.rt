//! The options of a CASE.

ghost use Rattle.std.specs.Prelude.{◌≡◌, ◌<◌, ◌≤◌, IfOk};
ghost use Rattle.occ_tree_grammar.specs.Processes.Views.{held_selections};
ghost use Rattle.occ_tree_grammar.specs.declared.tree.process.Arm.TheBlock.{hidden-the_row-Selection-5};
ghost use Rattle.occ_term.specs.Terms.{no_options};
ghost use Rattle.occ_term.specs.View.{option_of, term_of};
ghost use Rattle.occ_check_meaning.specs.Actions as meant;
ghost use Rattle.occ_check_lines.specs.Action.{chosen_of};
ghost use Rattle.occ_check.specs.Options.{listing, option_with, ListsAt, ListsFrom, OpensElse, OpensOption, OpensValues, a_selector, all_constants_in, case_of, constants_in, option_weight, whole_option};
ghost use Rattle.occ_check_lines.specs.View.{Answers, one_value};
ghost use Rattle.occ_check.specs.Opened.{Begins, IsReady, LeavesWithin, Below, Within};
ghost use Rattle.occ_check_lines.specs.Reading.{ReadsIn};
ghost use Rattle.occ_check.specs.Progress.{nodes_weight, KeepsOpen, OpensNothing, ReadsLine, parts_weight};
ghost use Rattle.occ_check.specs.Weights.{option_nodes};

use crate::here::Here;
use crate::one_line::{counted_expression, listed_declarations, names_at};
use crate::opened::{Left, Opened};
use crate::unfolder::Unfolder;
use indexmap::IndexMap;
use occ_check_lines::action::{Chosen, choosing, choosing_else, selector};
use occ_check_lines::context::Context;
use occ_check_lines::expression::constant_as;
use occ_check_lines::fault::CheckFault;
use occ_check_lines::measuring::count_constants;
use occ_check_lines::numbers::Numbers;
use occ_term::{Declaration, Primitive, Selection as TermSelection, Term, TermExpr};
use occ_tree_grammar::tree::expr::Expr;
use occ_tree_grammar::tree::line::OneOrMore;
use occ_tree_grammar::tree::process::{Decl, Process, Selection};
use sqlite_items::Items;
use std::alloc::Global;

/// An option whose first steps are done: its process is left.
#[derive(Drop)]
pub struct OpenedOption<'t> {
    /// What that is put into.
    pub head: OptionHead,
    /// The process.
    pub body: &'t Process,
    /// Where that stands.
    pub here: Here,
}

/// What the process of an option is put into: its constants, and what is set for its declarations.
pub enum OptionHead {
    /// An option with constants.
    Among(Items<i64>, Items<Declaration>),
    /// ELSE.
    Otherwise(Items<Declaration>),
}

impl Drop for OptionHead {
    fn drop(self) {
        match self {
            OptionHead::Among(_, _) => {}
            OptionHead::Otherwise(_) => {}
        }
    }
}

impl OptionHead {
    /// The option with its process.
    pub fn with_process(self, body: Term) -> TermSelection
        ensures { option_of result no_options ≡ option_with self (term_of body) }
    {
        match self {
            OptionHead::Among(constants, heads) => TermSelection::Among(constants, heads, body),
            OptionHead::Otherwise(heads) => TermSelection::Otherwise(heads, body),
        }
    }
}

/// Opens a CASE.
pub fn options_opened<'t>(
    unfolder: &mut Unfolder<'t>,
    alloc: Global,
    here: Here,
    e: &Expr,
    selections: &'t [Selection],
) -> Result<Opened<'t>, CheckFault>
    ensures opens { Begins result unfolder.old unfolder.new here
        (case_of here.line e.now selections.now) }
    ensures kept { KeepsOpen result unfolder.old unfolder.new }
    ensures weight { LeavesWithin result unfolder.new
        (nodes_weight unfolder.old here.at (option_nodes selections.now)) }
    ensures ready { IfOk result IsReady }
{
    let (primitive, selector) = selecting_at(unfolder, alloc, here, e)?;
    let depth = here.depth + 1;
    Ok(Opened {
        left: Left::Options(selector, primitive, selections),
        here: Here { depth, ..here },
    })
}

/// Opens an option.
pub fn option_opened<'t>(
    unfolder: &mut Unfolder<'t>,
    alloc: Global,
    here: Here,
    primitive: Primitive,
    chosen: &mut Chosen,
    selection: &'t Selection,
) -> Result<OpenedOption<'t>, CheckFault>
    requires { here.depth ≤ 200 }
    ensures opens { OpensOption result chosen.old chosen.new unfolder.old unfolder.new here
        selection.now primitive }
    ensures kept { KeepsOpen result unfolder.old unfolder.new }
    ensures weight { Below option_weight result unfolder.new
        (whole_option unfolder.old here selection.now) }
    ensures within { IfOk result (λ o. o.here.depth ≤ 200) }
{
    match selection {
        Selection::Values(declarations, line, values, body) => {
            let line = *line;
            let here = Here { line, ..here };
            let declarations = listed_declarations(declarations);
            values_opened(
                unfolder,
                alloc,
                here,
                primitive,
                chosen,
                declarations,
                values,
                body,
            )
        }
        Selection::Else(declarations, line, body) => {
            let line = *line;
            let here = Here { line, ..here };
            let declarations = listed_declarations(declarations);
            else_opened(unfolder, alloc, here, chosen, declarations, body)
        }
    }
}

/// Opens an option with values.
fn values_opened<'t>(
    unfolder: &mut Unfolder<'t>,
    alloc: Global,
    here: Here,
    primitive: Primitive,
    chosen: &mut Chosen,
    declarations: &'t [Decl],
    values: &OneOrMore<Expr>,
    body: &'t Process,
) -> Result<OpenedOption<'t>, CheckFault>
    ensures opens { OpensValues result chosen.old chosen.new unfolder.old unfolder.new here
        values.now declarations.now body.now primitive }
    ensures kept { KeepsOpen result unfolder.old unfolder.new }
    ensures weight { Within option_weight result unfolder.new
        (parts_weight unfolder.old here declarations.now body.now) }
    ensures within { IfOk result (λ o. o.here.depth ≤ 200) }
{
    unfolder.numbers.node(here.depth)?;
    let depth = here.depth + 1;
    let (heads, at) = unfolder.entering(alloc, Here { depth, ..here }, declarations)?;
    let inside = Here { at, depth, ..here };
    let constants = choosing_values(unfolder, alloc, inside, primitive, chosen, values)?;
    Ok(OpenedOption {
        head: OptionHead::Among(constants, heads),
        body,
        here: inside,
    })
}

/// Opens ELSE.
fn else_opened<'t>(
    unfolder: &mut Unfolder<'t>,
    alloc: Global,
    here: Here,
    chosen: &mut Chosen,
    declarations: &'t [Decl],
    body: &'t Process,
) -> Result<OpenedOption<'t>, CheckFault>
    ensures opens { OpensElse result chosen.old chosen.new unfolder.old unfolder.new here
        declarations.now body.now }
    ensures kept { KeepsOpen result unfolder.old unfolder.new }
    ensures weight { Within option_weight result unfolder.new
        (parts_weight unfolder.old here declarations.now body.now) }
    ensures within { IfOk result (λ o. o.here.depth ≤ 200) }
{
    unfolder.numbers.node(here.depth)?;
    let depth = here.depth + 1;
    let (heads, at) = unfolder.entering(alloc, Here { depth, ..here }, declarations)?;
    choosing_else(here.line, chosen)?;
    Ok(OpenedOption {
        head: OptionHead::Otherwise(heads),
        body,
        here: Here { at, depth, ..here },
    })
}

/// What a CASE selects by, with the node that it heads.
fn selecting_at(
    unfolder: &mut Unfolder<'_>,
    alloc: Global,
    here: Here,
    e: &Expr,
) -> Result<(Primitive, TermExpr), CheckFault>
    ensures selector { ReadsLine one_value result unfolder.old unfolder.new here
        (a_selector e.now) }
    ensures kept { OpensNothing result unfolder.old unfolder.new }
    ensures within { IfOk result (λ _. here.depth < 200) }
{
    let Here { at, depth, line } = here;
    let scope = names_at(&unfolder.blocks, at);
    selecting(
        &mut unfolder.numbers,
        Context { alloc, scope, line },
        depth,
        e,
    )
}

/// The constants of an option, none of which stands in one before it, with their nodes.
fn choosing_values(
    unfolder: &mut Unfolder<'_>,
    alloc: Global,
    here: Here,
    primitive: Primitive,
    chosen: &mut Chosen,
    values: &OneOrMore<Expr>,
) -> Result<Items<i64>, CheckFault>
    ensures constants { ListsAt result chosen.old chosen.new unfolder.old unfolder.new here
        primitive values.now }
    ensures kept { OpensNothing result unfolder.old unfolder.new }
{
    let Here { at, depth, line } = here;
    let scope = names_at(&unfolder.blocks, at);
    let constants = constants(Context { alloc, scope, line }, primitive, values)?;
    chosen_constants(&mut unfolder.numbers, alloc, line, depth, chosen, constants)
}

/// What a CASE selects by, with the node that it heads.
fn selecting(
    numbers: &mut Numbers,
    context: Context<'_, '_>,
    depth: u32,
    e: &Expr,
) -> Result<(Primitive, TermExpr), CheckFault>
    ensures selector { ReadsIn one_value result context.entry numbers.old numbers.new depth
        (a_selector e.now) }
    ensures within { IfOk result (λ _. depth < 200) }
{
    let (primitive, e) = selector(context, e)?;
    let e = counted_expression(numbers, depth, e)?;
    Ok((primitive, e))
}

/// Nothing is chosen.
pub fn none_chosen(alloc: Global) -> Chosen
    ensures { chosen_of result ≡ meant.none_chosen }
{
    Chosen {
        constants: IndexMap::new(alloc),
        has_else: false,
    }
}

/// Constants of one option, with their nodes.
fn chosen_constants(
    numbers: &mut Numbers,
    alloc: Global,
    line: u32,
    depth: u32,
    chosen: &mut Chosen,
    constants: Items<i64>,
) -> Result<Items<i64>, CheckFault>
    ensures { ListsFrom result chosen.old chosen.new numbers.old numbers.new
        (listing constants depth) }
{
    choosing(alloc, line, constants.as_slice(), chosen)?;
    count_constants(numbers, depth, constants.as_slice())?;
    Ok(constants)
}

/// The values of an option.
#[tactic(auto, unfolding(occ_check_meaning::specs::Scope::each_of))]
fn constants(
    context: Context<'_, '_>,
    primitive: Primitive,
    values: &OneOrMore<Expr>,
) -> Result<Items<i64>, CheckFault>
    ensures { Answers result (all_constants_in context.entry primitive values.now) }
{
    let first = constant_as(context, primitive, &values.first)?;
    let others = each_constant(context, primitive, &values.others)?;
    let mut all = Items::new(context.alloc);
    all.push(first)?;
    all.append(others)?;
    Ok(all)
}

/// Values, each a constant of the type.
fn each_constant(
    context: Context<'_, '_>,
    primitive: Primitive,
    values: &[Expr],
) -> Result<Items<i64>, CheckFault>
    ensures { Answers result (constants_in context.entry primitive values.now) }
{
    let mut made = Items::new(context.alloc);
    for value in values {
        let value = match constant_as(context, primitive, value) {
            Ok(value) => value,
            Err(e) => return Err(e),
        };
        made.push(value)?;
    }
    Ok(made)
}

/// The options of a CASE, as a slice.
#[tactic(auto, using(crate::proofs::HeldLists::selections_made))]
pub fn listed_selections(selections: &Vec<Selection>) -> &[Selection]
    ensures { option_nodes result.now
        ≡ held_selections (hidden-the_row-Selection-5 selections.now) }
{
    selections.as_slice()
}
