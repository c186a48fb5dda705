//! Scopes: what names stand for at a place of the text.
//!
//! Names stand in blocks, each in the order of its declarations, so that a place in a block tells what is in
//! scope there. A procedure sees what stands before it in its block, and what is outside of that.

ghost use Rattle.std.specs.Prelude.{ℕ, ◌≡◌, ◌≤◌, ◌+◌, ◌++◌, ◌∷◌, [], IfErr, IfOk, IfSome, IfNone, IsFalse, drop, length, option_map, reverse};
ghost use Rattle.occ_check_meaning.specs.Unfolding.{found};
ghost use Rattle.occ_check_lines.specs.declared.fault.CheckFault.TheVariants.{Memory};
ghost use Rattle.occ_check_lines.specs.View.{binding_of, AreWithin, IsBound, IsFewer, IsFound, IsLooked, IsPart, IsSeen, IsWithin, Lacks, known_of, names_in, scope_in, scope_of, IsBlockWith};

use crate::fault::CheckFault;
use crate::known::Known;
use indexmap::IndexMap;
use occ_held::letters::Letters;
use occ_tree_grammar::tree::line::Formals;
use occ_tree_grammar::tree::process::Process;
use std::alloc::Global;

/// A procedure: the line of its declaration, its formals and its body.
#[derive(Clone, Copy)]
pub struct Procedure<'t> {
    /// The line.
    pub line: u32,
    /// The formals.
    pub formals: &'t Option<Box<Formals>>,
    /// The body.
    pub body: &'t Process,
}

/// What a name stands for.
pub enum Binding<'t> {
    /// Something else than a procedure.
    Known(Known),
    /// A procedure.
    Procedure(Procedure<'t>),
}

impl<'t> Drop for Binding<'t> {
    fn drop(self) {
        match self {
            Binding::Known(_) => {}
            Binding::Procedure(_) => {}
        }
    }
}

/// A place in the blocks: what is in scope there.
#[derive(Clone, Copy)]
pub struct Position {
    /// How many blocks stand up to its own: none where nothing is in scope.
    pub blocks: usize,
    /// How many names of its own block are in scope.
    pub seen: usize,
}

/// Names that are declared one after the other, none twice.
pub struct Block<'t> {
    /// The names, in order.
    pub names: IndexMap<Letters, Binding<'t>>,
    /// What is in scope outside of it.
    pub outer: Position,
}

impl<'t> Drop for Block<'t> {
    fn drop(self) {
        let Block { names: _, outer: _ } = self;
    }
}

/// What is in scope at a position.
#[derive(Clone, Copy)]
pub struct Scope<'a, 't> {
    /// The blocks.
    pub blocks: &'a [Block<'t>],
    /// The position.
    pub at: Position,
}

/// What a look-up finds.
#[derive(Clone, Copy)]
pub enum Found<'a, 't> {
    /// What the name stands for.
    Known(&'a Known),
    /// A procedure, and where it stands: what is in scope there is what it sees.
    Procedure(Procedure<'t>, Position),
}

/// What the innermost block tells of a name.
#[derive(Clone, Copy)]
pub enum Looked<'a, 't> {
    /// It has the name.
    Found(Found<'a, 't>),
    /// It has it not, and this is in scope outside of it.
    Outside(Scope<'a, 't>),
    /// There is no block.
    Nowhere,
}

impl<'a, 't> Scope<'a, 't> {
    /// What a name stands for.
    pub fn find(self, name: &Letters) -> Option<Found<'a, 't>>
        ensures found { IsFound (reverse self.entry.blocks.now)
            (found (scope_of self.entry) name.now) result }
        ensures within { IfSome result (IsWithin (length self.entry.blocks.now)) }
    {
        let mut place = self;
        'outwards: loop {
            match place.step(name) {
                Looked::Found(found) => return Some(found),
                Looked::Outside(outer) => place = outer,
                Looked::Nowhere => return None,
            }
        }
    }

    /// Looks at the innermost block.
    fn step(self, name: &Letters) -> Looked<'a, 't>
        ensures found { IsLooked (found (scope_of self.entry) name.now)
            (reverse self.entry.blocks.now) name.now result }
        ensures fewer { IsFewer (length self.entry.blocks.now) result }
        ensures part { IsPart self.entry.blocks.now result }
        ensures within { AreWithin (length self.entry.blocks.now) result }
    {
        match own_block(self.blocks, self.at) {
            None => Looked::Nowhere,
            Some((older, block)) => match block.seen(self.at.seen, name) {
                Some((binding, seen)) => {
                    let at = Position {
                        blocks: self.at.blocks,
                        seen,
                    };
                    Looked::Found(found_there(binding, at))
                }
                None => Looked::Outside(Scope {
                    blocks: older,
                    at: block.outer,
                }),
            },
        }
    }

    /// What a name stands for that is no procedure's.
    pub fn known(self, name: &Letters) -> Option<&'a Known>
        ensures { option_map (λ k. known_of k.now) result ≡ names_in self.entry name.now }
    {
        match self.find(name) {
            Some(Found::Known(known)) => Some(known),
            Some(Found::Procedure(_, _)) => None,
            None => None,
        }
    }
}

/// A binding that is found at this position.
fn found_there<'a, 't>(binding: &'a Binding<'t>, at: Position) -> Found<'a, 't>
    ensures bound { IsBound (binding_of binding.now) at result }
    ensures within { (n : ℕ) → at.blocks ≤ n → IsWithin n result }
{
    match binding {
        Binding::Known(known) => Found::Known(known),
        Binding::Procedure(procedure) => Found::Procedure(*procedure, at),
    }
}

/// The block of a position, and those before it.
#[tactic(auto, using(crate::proofs::Scopes::beyond_all, crate::proofs::Scopes::top_all))]
fn own_block<'a, 't>(
    blocks: &'a [Block<'t>],
    at: Position,
) -> Option<(&'a [Block<'t>], &'a Block<'t>)>
    ensures own { IfSome result
        (λ x. blocks.now ≡ x.0.now ++ x.1.now ∷ drop at.blocks blocks.now) }
    ensures number { IfSome result (λ x. at.blocks ≡ length x.0.now + 1) }
    ensures none { IfNone result (scope_in (reverse blocks.now) at ≡ []) }
{
    if at.blocks == 0 || at.blocks > blocks.len() {
        return None;
    }
    let index = at.blocks - 1;
    Some((&blocks[..index], &blocks[index]))
}

impl<'t> Block<'t> {
    /// A block without names.
    pub fn new(alloc: Global, outer: Position) -> Block<'t>
        ensures names { result.names.entries ≡ [] }
        ensures outer { result.outer ≡ outer }
    {
        Block {
            names: IndexMap::new(alloc),
            outer,
        }
    }

    /// How many names it has.
    pub fn len(&self) -> usize
        ensures { result ≡ length self.now.names.entries }
    {
        self.names.len()
    }

    /// Whether it has the name.
    #[tactic(auto, using(crate::proofs::Scopes::absent))]
    pub fn has(&self, name: &Letters) -> bool
        ensures { IsFalse result → Lacks name.now self.now.names.entries }
    {
        self.names.get_index_of(name).is_some()
    }

    /// The block with one name more. The error is `Memory`.
    pub fn with(self, name: &Letters, binding: Binding<'t>) -> Result<Block<'t>, CheckFault>
        requires { Lacks name.now self.names.entries }
        ensures names { IfOk result (IsBlockWith self.entry name.now binding.entry) }
        ensures outer { IfOk result (λ f. f.outer ≡ self.entry.outer) }
        ensures memory { IfErr result (λ e. e ≡ Memory) }
    {
        let mut block = self;
        let name = name.copy()?;
        block.names.insert(name, binding)?;
        Ok(block)
    }

    /// What a name stands for among the first so many names, and how many stand before it.
    fn seen(&self, seen: usize, name: &Letters) -> Option<(&Binding<'t>, usize)>
        ensures { IsSeen seen self.now.names.entries name.now result }
    {
        match self.names.get_index_of(name) {
            None => None,
            Some(index) => match self.names.get_index(index) {
                None => None,
                Some((_, binding)) => {
                    if index < seen {
                        Some((binding, index))
                    } else {
                        None
                    }
                }
            },
        }
    }
}
