//! What comes into scope: declarations, the formals of a call and the index of a replicator.

ghost use Rattle.std.specs.Prelude.{◌≡◌, ◌+◌, ◌<◌, ◌≤◌, IfErr, IfOk, OnOk};
ghost use Rattle.occ_tree_grammar.specs.Processes.Views.{decl_of, item_of};
ghost use Rattle.occ_tree_grammar.specs.Lines.Heads.{call};
ghost use Rattle.occ_term.specs.View.{declaration_of, declarations_of, term_of};
ghost use Rattle.occ_check_meaning.specs.Actions.{as_term, headed, opening};
ghost use Rattle.occ_check_meaning.specs.Declarations.{indexed};
ghost use Rattle.occ_check_meaning.specs.Performing.{acted};
ghost use Rattle.occ_check_meaning.specs.Scope.{within};
ghost use Rattle.occ_check_meaning.specs.Recursion.{all_declared, declared, item_declared};
ghost use Rattle.occ_check.specs.Entering.{Binds, FindsProcedure};
ghost use Rattle.occ_check_lines.specs.Declaration.{pairs_of};
ghost use Rattle.occ_check.specs.Weights.{decl_nodes, decl_size, decls_size, item_size, weight};
ghost use Rattle.occ_check_lines.specs.View.{Unfolds, scope_of, itself};
ghost use Rattle.occ_check.specs.Progress.{Calls, Declares, body_weight, innermost_at, innermost_weight, weight_at, CallsAt, GrowsWithin, IndexesAt, KeepsOpen, OpensNothing, call_meant, opening_behind};
ghost use Rattle.occ_check_lines.specs.declared.fault.CheckFault.TheVariants.{Memory};
ghost use Rattle.occ_check.specs.OpenBlocks.{Deepens, HasBlock, Keeps, KeepsOuter, seen_at, seen_inside};
ghost use Rattle.occ_check.specs.OneLine.{call_action};

use crate::blocks::Blocks;
use crate::call::bound;
use crate::formals::formals_of;
use crate::here::Here;
use crate::unfolder::{Call, Unfolder};
use occ_check_lines::context::Context;
use occ_check_lines::declaration::{
    Named, Opened, names_declared, protocol_declared, value_declared,
};
use occ_check_lines::fault::{CheckFault, unknown};
use occ_check_lines::numbers::Numbers;
use occ_check_lines::replicator::{Indexed, index_replicator};
use occ_check_lines::scope::{Binding, Found, Position, Procedure, Scope};
use occ_held::letters::Letters;
use occ_held::parts::Listed;
use occ_term::{Declaration, Replicator, Term};
use occ_tree_grammar::tree::expr::Expr;
use occ_tree_grammar::tree::line::{OneOrMore, Replicator as ReplicatorTree};
use occ_tree_grammar::tree::process::{Decl, Item};
use sqlite_items::Items;
use std::alloc::Global;

// ---- a term behind its declarations

/// A process behind what is set for its declarations.
pub fn headed(alloc: Global, heads: Items<Declaration>, term: Term) -> Result<Term, CheckFault>
    ensures term { IfOk result (λ t. term_of t ≡ headed (declarations_of heads) (term_of term)) }
    ensures memory { IfErr result (λ e. e ≡ Memory) }
{
    if heads.is_empty() {
        return Ok(term);
    }
    let mut before = heads;
    let mut parts = Vec::new(alloc);
    parts.push(term)?;
    'backwards: while let Some(head) = before.pop() {
        parts.push(set(head))?;
    }
    parts.reverse();
    Ok(Term::Seq(Listed::from_vec(parts)))
}

/// The term that sets a declaration.
fn set(declaration: Declaration) -> Term
    ensures { term_of result ≡ as_term (declaration_of declaration) }
{
    match declaration {
        Declaration::Clearing(line, first, count) => Term::Clear(line, first, count),
        Declaration::Naming(line, first, value) => Term::Local(line, first, value),
    }
}

// ---- names

impl<'t> Blocks<'t> {
    /// All that is in scope at the end.
    fn inside(&self) -> Scope<'_, 't>
        ensures { scope_of result ≡ seen_inside self.now }
    {
        self.scope(self.end())
    }

    /// Declares names, the first of which is the innermost.
    pub fn enter(&mut self, alloc: Global, names: Vec<Named>) -> Result<(), CheckFault>
        requires { HasBlock self.old }
        ensures scope { OnOk result (seen_inside self.new
            ≡ within (pairs_of names.items) (seen_inside self.old)) }
        ensures kept { OnOk result (KeepsOuter self.old self.new) }
        ensures more { OnOk result (Deepens self.old self.new) }
        ensures memory { IfErr result (λ e. e ≡ Memory) }
    {
        let mut left = names;
        'names: while let Some(named) = left.pop() {
            let Named { name, known } = named;
            self.declare(alloc, &name, Binding::Known(known))?;
        }
        Ok(())
    }

    /// Opens a block with names inside of a position.
    fn open_with(
        &mut self,
        alloc: Global,
        outer: Position,
        names: Vec<Named>,
    ) -> Result<Position, CheckFault>
        ensures scope { IfOk result (λ at. seen_at self.new at
            ≡ within (pairs_of names.items) (seen_at self.old outer)) }
        ensures kept { OnOk result (Keeps self.old self.new) }
        ensures memory { IfErr result (λ e. e ≡ Memory) }
    {
        self.open(alloc, outer)?;
        self.enter(alloc, names)?;
        Ok(self.end())
    }
}

// ---- declarations

impl<'t> Unfolder<'t> {
    /// Enters declarations into the last block, and answers what is set for them.
    pub fn declared(
        &mut self,
        alloc: Global,
        depth: u32,
        declarations: &'t [Decl],
    ) -> Result<Items<Declaration>, CheckFault>
        requires { HasBlock self.old.blocks }
        ensures entered { Declares result self.old self.new depth
            (all_declared (decl_nodes declarations.now)) }
        ensures kept { OnOk result (KeepsOuter self.old.blocks self.new.blocks) }
        ensures more { OnOk result (Deepens self.old.blocks self.new.blocks) }
        ensures weight { GrowsWithin result self.old self.new
            (decls_size (decl_nodes declarations.now)) }
    {
        let mut heads = Items::new(alloc);
        for declaration in declarations {
            let more = self.one_declared(alloc, depth, declaration)?;
            heads.append(more)?;
        }
        Ok(heads)
    }

    /// Enters one declaration.
    fn one_declared(
        &mut self,
        alloc: Global,
        depth: u32,
        declaration: &'t Decl,
    ) -> Result<Items<Declaration>, CheckFault>
        requires { HasBlock self.old.blocks }
        ensures entered { Declares result self.old self.new depth
            (declared (decl_of declaration.now)) }
        ensures kept { OnOk result (KeepsOuter self.old.blocks self.new.blocks) }
        ensures more { OnOk result (Deepens self.old.blocks self.new.blocks) }
        ensures weight { GrowsWithin result self.old self.new
            (decl_size (decl_of declaration.now)) }
    {
        match declaration {
            Decl::Names(line, sizes, sort, names) => {
                let opened = names_declared(
                    &mut self.numbers,
                    Context {
                        alloc,
                        scope: self.blocks.inside(),
                        line: *line,
                    },
                    depth,
                    sizes,
                    sort,
                    names,
                )?;
                self.opened_names(alloc, opened)
            }
            Decl::Item(item) => self.item_declared(alloc, depth, item),
        }
    }

    /// Enters an item.
    pub fn item_declared(
        &mut self,
        alloc: Global,
        depth: u32,
        item: &'t Item,
    ) -> Result<Items<Declaration>, CheckFault>
        requires { HasBlock self.old.blocks }
        ensures entered { Declares result self.old self.new depth
            (item_declared (item_of item.now)) }
        ensures kept { OnOk result (KeepsOuter self.old.blocks self.new.blocks) }
        ensures more { OnOk result (Deepens self.old.blocks self.new.blocks) }
        ensures weight { GrowsWithin result self.old self.new (item_size (item_of item.now)) }
    {
        match item {
            Item::Value(line, value_type, name, e) => {
                let opened = value_declared(
                    &mut self.numbers,
                    Context {
                        alloc,
                        scope: self.blocks.inside(),
                        line: *line,
                    },
                    depth,
                    value_type,
                    name,
                    e,
                )?;
                self.opened_names(alloc, opened)
            }
            Item::Protocol(protocol) => {
                let opened = protocol_declared(
                    &mut self.numbers,
                    alloc,
                    self.blocks.inside(),
                    protocol,
                )?;
                self.opened_names(alloc, opened)
            }
            Item::Proc(line, name, formals, body, _) => {
                let procedure = Procedure {
                    line: *line,
                    formals,
                    body,
                };
                self.blocks
                    .declare(alloc, name, Binding::Procedure(procedure))?;
                Ok(Items::new(alloc))
            }
        }
    }

    /// Enters names, and answers what is set for them.
    fn opened_names(
        &mut self,
        alloc: Global,
        opened: Opened,
    ) -> Result<Items<Declaration>, CheckFault>
        requires { HasBlock self.old.blocks }
        ensures scope { OnOk result (innermost_at self.new
            ≡ within (pairs_of opened.names.items) (innermost_at self.old)) }
        ensures heads { IfOk result (λ heads. heads ≡ opened.heads) }
        ensures numbers { self.new.numbers ≡ self.old.numbers }
        ensures kept { OnOk result (KeepsOuter self.old.blocks self.new.blocks) }
        ensures more { OnOk result (Deepens self.old.blocks self.new.blocks) }
        ensures weight { OnOk result (innermost_weight self.new ≡ innermost_weight self.old) }
        ensures memory { IfErr result (λ e. e ≡ Memory) }
    {
        let Opened { names, heads } = opened;
        self.blocks.enter(alloc, names)?;
        Ok(heads)
    }

    /// Counts the SEQ that declarations head where there are some, and answers how deep what stands behind them is.
    pub fn opened(&mut self, depth: u32, heads: &[Declaration]) -> Result<u32, CheckFault>
        ensures opening { Unfolds itself result self.new.numbers
            (opening_behind heads.now depth self.old) }
        ensures kept { OpensNothing result self.old self.new }
        ensures small { IfOk result (λ deep. depth ≤ 200 → deep ≤ 200) }
    {
        if heads.is_empty() {
            return Ok(depth);
        }
        self.numbers.node(depth)?;
        Ok(depth + 1)
    }

    // ---- calls

    /// Binds the formals of the PROC that is called.
    pub fn bound(
        &mut self,
        alloc: Global,
        here: Here,
        name: &Letters,
        actuals: &Option<OneOrMore<Expr>>,
    ) -> Result<Call<'t>, CheckFault>
        requires { here.depth ≤ 200 }
        ensures call { CallsAt result self.old self.new here
            (acted here.line (call_action name.now actuals.now)) }
        ensures kept { KeepsOpen result self.old self.new }
        ensures weight { IfOk result (λ c. body_weight self.new c.inside c.body.now
            < weight_at self.old here.at) }
    {
        let (procedure, outer) = procedure_of(
            Context {
                alloc,
                scope: self.blocks.scope(here.at),
                line: here.line,
            },
            name,
        )?;
        self.called(alloc, here, outer, procedure, actuals)
    }

    /// Binds the formals of a PROC whose declaration stands at the outer position.
    fn called(
        &mut self,
        alloc: Global,
        here: Here,
        outer: Position,
        procedure: Procedure<'t>,
        actuals: &Option<OneOrMore<Expr>>,
    ) -> Result<Call<'t>, CheckFault>
        requires { here.depth ≤ 200 }
        ensures call { Calls here.depth result self.new
            (call_meant self.old outer here procedure.entry actuals.now) }
        ensures kept { KeepsOpen result self.old self.new }
        ensures body { IfOk result (λ c. c.body.now ≡ procedure.entry.body.now) }
        ensures weight { IfOk result (λ c. weight_at self.new c.inside ≡ weight_at self.old outer) }
    {
        let context = Context {
            alloc,
            scope: self.blocks.scope(here.at),
            line: here.line,
        };
        let opened = formals_bound(
            &mut self.numbers,
            context,
            self.blocks.scope(outer),
            here.depth + 1,
            procedure,
            actuals,
        )?;
        let Opened { names, heads } = opened;
        let inside = self.blocks.open_with(alloc, outer, names)?;
        Ok(Call {
            heads,
            body: procedure.body,
            inside,
        })
    }

    // ---- replicators

    /// What a replicator unfolds to. Its index is in scope at the position that is answered.
    pub fn indexed(
        &mut self,
        alloc: Global,
        here: Here,
        replicator: &ReplicatorTree,
    ) -> Result<(Replicator, Position), CheckFault>
        ensures indexed { IndexesAt result self.old self.new here replicator.now }
        ensures kept { KeepsOpen result self.old self.new }
        ensures weight { IfOk result (λ r. weight_at self.new r.1 ≡ weight_at self.old here.at) }
        ensures within { IfOk result (λ _. here.depth < 200) }
    {
        let Here { at, depth, line } = here;
        let scope = self.blocks.scope(at);
        let indexed = index_replicator(
            &mut self.numbers,
            Context { alloc, scope, line },
            depth,
            replicator,
        )?;
        let Indexed {
            replicator: over,
            name,
        } = indexed;
        let mut names = Vec::new(alloc);
        names.push(name)?;
        let inside = self.blocks.open_with(alloc, at, names)?;
        Ok((over, inside))
    }
}

/// The PROC that a name stands for, and the position of what it sees.
///
/// # Errors
///
/// `Unknown` for a name that stands for nothing, `WrongKind` for one of another kind, and `Memory`.
fn procedure_of<'t>(
    context: Context<'_, 't>,
    name: &Letters,
) -> Result<(Procedure<'t>, Position), CheckFault>
    ensures { FindsProcedure result context.entry.scope name.now }
{
    match context.scope.find(name) {
        Some(Found::Procedure(procedure, outer)) => Ok((procedure, outer)),
        Some(Found::Known(_)) => Err(CheckFault::WrongKind { line: context.line }),
        None => Err(unknown(context.alloc, context.line, name)),
    }
}

/// What the formals of a PROC stand for. Its declaration stands in the outer scope, and the Locals at this depth.
///
/// # Errors
///
/// As `formals_of` and `bound`.
fn formals_bound(
    numbers: &mut Numbers,
    context: Context<'_, '_>,
    outer: Scope<'_, '_>,
    depth: u32,
    procedure: Procedure<'_>,
    actuals: &Option<OneOrMore<Expr>>,
) -> Result<Opened, CheckFault>
    ensures { Binds result numbers.old numbers.new outer.entry procedure.entry context.entry depth
        actuals.now }
{
    let declared = Context {
        alloc: context.alloc,
        scope: outer,
        line: procedure.line,
    };
    let formals = formals_of(declared, procedure.formals)?;
    bound(numbers, context, depth, &formals, actuals)
}
