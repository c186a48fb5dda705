//! Sizes of arrays.
ghost use Rattle.std.specs.Prelude.{◌≡◌, [], ◌<◌, ◌^◌, IfOk, IsTrue, ◌↔◌};
ghost use Rattle.occ_term.specs.Messages.{product};
ghost use Rattle.occ_term.specs.ArraySizes.{AreFew};

use sqlite_items::Items;
use std::alloc::{AllocError, Global};
use std::marker::Model;

/// The sizes of an array of cells or of channels: none for a single one. The array has fewer than 2 to the 32 components,
/// and so has each array within it. Contracts see their list.
#[derive(Drop)]
pub struct Sizes {
    sizes: Items<u32>,
}

impl Model for Sizes {
    ghost use Rattle.std.specs.Prelude.{List, ℕ};
    ghost use Rattle.occ_term.specs.ArraySizes.{AreFew};

    ghost Value = { List ℕ };

    ghost view = { λ s. s.sizes };

    ghost invariant = { λ s. AreFew s.sizes };
}

impl Sizes {
    /// Those of a single cell or channel.
    pub fn none(alloc: Global) -> Sizes
        ensures { result ≡ [] }
    {
        Sizes {
            sizes: Items::new(alloc),
        }
    }

    /// These sizes. The error is a refused growth.
    pub fn new(alloc: Global, sizes: &[u32]) -> Result<Sizes, AllocError>
        requires { AreFew sizes.now }
        ensures { IfOk result (λ s. s ≡ sizes.now) }
    {
        let sizes = Items::from_slice(alloc, sizes)?;
        Ok(Sizes { sizes })
    }

    /// A copy. The error is a refused growth.
    pub fn copy(&self, alloc: Global) -> Result<Sizes, AllocError>
        ensures { IfOk result (λ s. s ≡ self.now) }
    {
        let sizes = Items::from_slice(alloc, self.sizes.as_slice())?;
        Ok(Sizes { sizes })
    }

    /// The sizes.
    pub fn as_slice(&self) -> &[u32]
        ensures { result.now ≡ self.now }
    {
        self.sizes.as_slice()
    }

    /// Whether there is none.
    pub fn is_empty(&self) -> bool
        ensures { IsTrue result ↔ (self.now ≡ []) }
    {
        self.sizes.is_empty()
    }

    /// What all sizes keep.
    pub fn few(&self)
        ensures each { AreFew self.now }
        ensures all { product self.now < 2 ^ 32 }
    {
        let _sizes = &self.sizes;
    }
}
