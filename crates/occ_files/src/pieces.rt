//! Texts that come piece by piece.
ghost use Rattle.std.specs.Prelude.{◌≡◌, IfOk};

use std::alloc::{AllocError, Global};

/// How many bytes of a text are held at a time, and the rest of a piece.
pub(crate) const HELD: usize = 65536;

/// A text that comes piece by piece, so that it is never held as a whole.
pub trait Pieces {
    ghost use Rattle.std.specs.Prelude.{List, ℕ, [], true, false, ◌≡◌, ◌<◌, IfOk};
    ghost use Rattle.occ_files.specs.Pieces.{AddsNext};

    /// Whether the next piece may be asked for.
    ghost can_write: { Self → Type 0 };

    /// Whether a text is what is left.
    ghost is_left: { Self → List ℕ → Type 0 };

    /// How many pieces are left at most.
    ghost most: { Self → ℕ };

    /// Puts the next piece behind these bytes. It is FALSE where none is left.
    ///
    /// # Errors
    ///
    /// A refused growth.
    fn write_next(&mut self, out: &mut Vec<u8>) -> Result<bool, AllocError>
        requires { can_write self.old }
        ensures more { IfOk result (λ more. more ≡ true
            → AddsNext is_left self.old self.new out.old.items out.new.items) }
        ensures can { IfOk result (λ more. more ≡ true → can_write self.new) }
        ensures fewer { IfOk result (λ more. more ≡ true → most self.new < most self.old) }
        ensures end { IfOk result (λ more. more ≡ false → is_left self.old []) }
        ensures kept { IfOk result (λ more. more ≡ false → out.new.items ≡ out.old.items) };
}

/// A text that is there as a whole.
#[derive(Drop)]
pub struct Whole<'a> {
    rest: &'a [u8],
}

impl<'a> Whole<'a> {
    ghost use Rattle.occ_files.specs.Whole.{rest_of};

    /// This text.
    pub fn new(text: &'a [u8]) -> Whole<'a>
        ensures { rest_of result ≡ text.now }
    {
        Whole { rest: text }
    }
}

impl<'a> Pieces for Whole<'a> {
    ghost use Rattle.std.specs.Prelude.{◌≡◌, ⊤, length};
    ghost use Rattle.occ_files.specs.Whole.{rest_of};

    ghost can_write = { λ _. ⊤ };

    ghost is_left = { λ whole text. text ≡ rest_of whole };

    ghost most = { λ whole. length (rest_of whole) };

    fn write_next(&mut self, out: &mut Vec<u8>) -> Result<bool, AllocError> {
        if self.rest.is_empty() {
            return Ok(false);
        }
        let (piece, rest) = self.rest.split_at(HELD.min(self.rest.len()));
        out.extend_from_slice(piece)?;
        self.rest = rest;
        Ok(true)
    }
}

/// All pieces of a text, behind one another.
///
/// # Errors
///
/// A refused growth.
pub fn whole_text<P: Pieces>(alloc: Global, pieces: &mut P) -> Result<Vec<u8>, AllocError>
    requires { P.can_write pieces.old }
    ensures { IfOk result (λ text. P.is_left pieces.old text.items) }
{
    let mut text = Vec::new(alloc);
    while pieces.write_next(&mut text)? {}
    Ok(text)
}
