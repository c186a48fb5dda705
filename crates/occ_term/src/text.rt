//! Strings.
ghost use Rattle.std.specs.Prelude.{◌≡◌, ◌<◌, ◌^◌, IfOk, length};

use occ_held::letters::Letters;
use std::alloc::{AllocError, Global};
use std::marker::Model;

/// The letters of a string, of which there are fewer than 2 to the 32. Contracts see their list. Copies share them.
pub struct Text {
    letters: Letters,
}

impl Model for Text {
    ghost use Rattle.std.specs.Prelude.{◌<◌, ◌^◌, List, ℕ, length};

    ghost Value = { List ℕ };

    ghost view = { λ t. t.letters };

    ghost invariant = { λ t. length t.letters < 2 ^ 32 };
}

impl Drop for Text {
    fn drop(self) {
        let Text { letters: _ } = self;
    }
}

impl Text {
    /// These letters. The error is a refused growth.
    pub fn new(alloc: Global, letters: &[u8]) -> Result<Text, AllocError>
        requires { length letters.now < 2 ^ 32 }
        ensures { IfOk result (λ t. t ≡ letters.now) }
    {
        let letters = Letters::new(alloc, letters)?;
        Ok(Text { letters })
    }

    /// These letters, which it shares with their copies.
    pub fn of(letters: Letters) -> Text
        requires { length letters < 2 ^ 32 }
        ensures { result ≡ letters }
    {
        Text { letters }
    }

    /// A copy, which shares the letters. The error is that there are too many copies.
    pub fn copy(&self) -> Result<Text, AllocError>
        ensures { IfOk result (λ t. t ≡ self.now) }
    {
        let letters = self.letters.copy()?;
        Ok(Text { letters })
    }

    /// The letters.
    pub fn as_slice(&self) -> &[u8]
        ensures { result.now ≡ self.now }
    {
        self.letters.as_slice()
    }

    /// How many letters there are.
    pub fn len(&self) -> u32
        ensures { result ≡ length self.now }
    {
        self.letters.as_slice().len() as u32
    }
}
