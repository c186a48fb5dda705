//! The blocks of the scopes that are open while a program is unfolded.

ghost use Rattle.std.specs.Prelude.{◌≡◌, ◌+◌, ◌∷◌, [], IfErr, OnOk, length, take};
ghost use Rattle.occ_check_lines.specs.declared.fault.CheckFault.TheVariants.{Memory};
ghost use Rattle.occ_check_lines.specs.View.{binding_of};
ghost use Rattle.occ_check.specs.OpenBlocks.{Deepens, HasBlock, Keeps, KeepsOuter, seen_at, seen_inside};

use occ_check_lines::fault::CheckFault;
use occ_check_lines::scope::{Binding, Block, Position, Scope};
use occ_held::letters::Letters;
use std::alloc::Global;

/// The blocks, the innermost last.
pub struct Blocks<'t> {
    /// The blocks.
    pub blocks: Vec<Block<'t>>,
}

impl<'t> Drop for Blocks<'t> {
    fn drop(self) {
        let Blocks { blocks: _ } = self;
    }
}

impl<'t> Blocks<'t> {
    /// No block.
    pub fn new(alloc: Global) -> Blocks<'t>
        ensures { result.blocks.items ≡ [] }
    {
        Blocks {
            blocks: Vec::new(alloc),
        }
    }

    /// How many blocks there are.
    pub fn len(&self) -> usize
        ensures { result ≡ length self.now.blocks.items }
    {
        self.blocks.len()
    }

    /// What is in scope at a position.
    pub fn scope(&self, at: Position) -> Scope<'_, 't>
        ensures { (result.blocks.now ≡ self.now.blocks.items) × (result.at ≡ at) }
    {
        Scope {
            blocks: &self.blocks,
            at,
        }
    }

    /// The position of all names of the last block.
    pub fn end(&self) -> Position
        ensures scope { seen_at self.now result ≡ seen_inside self.now }
        ensures blocks { result.blocks ≡ length self.now.blocks.items }
    {
        let seen = self.blocks.last().map_or(0, |block| block.len());
        Position {
            blocks: self.blocks.len(),
            seen,
        }
    }

    /// Opens a block without names inside of a position.
    pub fn open(&mut self, alloc: Global, outer: Position) -> Result<(), CheckFault>
        ensures scope { OnOk result (seen_inside self.new ≡ seen_at self.old outer) }
        ensures kept { OnOk result (Keeps self.old self.new) }
        ensures more { OnOk result (length self.new.blocks.items
            ≡ length self.old.blocks.items + 1) }
        ensures memory { IfErr result (λ e. e ≡ Memory) }
    {
        self.blocks.push(Block::new(alloc, outer))?;
        Ok(())
    }

    /// Declares a name inside of all that is in scope at the end.
    pub fn declare(
        &mut self,
        alloc: Global,
        name: &Letters,
        binding: Binding<'t>,
    ) -> Result<(), CheckFault>
        requires { HasBlock self.old }
        ensures scope { OnOk result (seen_inside self.new
            ≡ (name.now, binding_of binding.entry) ∷ seen_inside self.old) }
        ensures kept { OnOk result (KeepsOuter self.old self.new) }
        ensures more { OnOk result (Deepens self.old self.new) }
        ensures memory { IfErr result (λ e. e ≡ Memory) }
    {
        let Some(block) = self.blocks.pop() else {
            unreachable!();
        };
        let outer = Position {
            blocks: self.blocks.len() + 1,
            seen: block.len(),
        };
        if block.has(name) {
            self.blocks.push(block)?;
            let block = Block::new(alloc, outer).with(name, binding)?;
            self.blocks.push(block)?;
            return Ok(());
        }
        let block = block.with(name, binding)?;
        self.blocks.push(block)?;
        Ok(())
    }

    /// Closes all blocks but the first so many.
    pub fn close(&mut self, kept: usize)
        ensures { self.new.blocks.items ≡ take kept self.old.blocks.items }
    {
        self.blocks.truncate(kept);
    }
}
