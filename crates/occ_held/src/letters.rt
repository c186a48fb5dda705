//! Letters that their copies share.

ghost use Rattle.std.specs.Prelude.{◌≡◌, ◌≤◌, IfOk, bytes_eq, length};
ghost use Rattle.std.proofs.Common.{ap};
ghost use Rattle.std.specs.Hash as fed;
ghost use Rattle.std.specs.Cmp.{partial_equiv_from_equiv};
ghost use Rattle.std.specs.Cmp.Lexicographic.{bytes_decides, nat_list_eq_equiv};

use std::alloc::{AllocError, Global};
use std::hash::{Hash, Hasher};
use std::marker::Model;
use std::sync::Arc;

/// How many letters need no memory of their own.
const FEW: usize = 15;

/// Letters in a row, as those of a name. Contracts see the list of their bytes. A copy asks for no memory: it has the letters
/// itself where they are few, and shares them where they are more.
#[derive(Debug)]
pub struct Letters {
    bytes: Bytes,
}

/// Where the letters stand.
#[derive(Debug, Drop)]
enum Bytes {
    /// Here: so many of these.
    Few([u8; FEW], u8),
    /// In memory that the copies share.
    More(Arc<Vec<u8>, Global>),
}

impl Model for Letters {
    ghost use Rattle.std.specs.Prelude.{List, ℕ};
    ghost use Rattle.occ_held.specs.Letters.{letters_in, AreIn};

    ghost Value = { List ℕ };

    ghost view = { λ l. letters_in l.bytes };

    ghost invariant = { λ l. AreIn l.bytes };
}

impl Drop for Letters {
    fn drop(self) {
        let Letters { bytes: _ } = self;
    }
}

impl Letters {
    /// These letters. The error is a refused growth.
    pub fn new(alloc: Global, letters: &[u8]) -> Result<Letters, AllocError>
        ensures { IfOk result (λ l. l ≡ letters.now) }
    {
        if letters.len() <= FEW {
            return Ok(Letters::few(letters));
        }
        let letters = Vec::from_slice(alloc, letters)?;
        Letters::more(alloc, letters)
    }

    /// Letters that are read already. The error is a refused growth.
    pub fn from_vec(alloc: Global, letters: Vec<u8>) -> Result<Letters, AllocError>
        ensures { IfOk result (λ l. l ≡ letters.items) }
    {
        if letters.len() <= FEW {
            return Ok(Letters::few(&letters));
        }
        Letters::more(alloc, letters)
    }

    fn more(alloc: Global, letters: Vec<u8>) -> Result<Letters, AllocError>
        ensures { IfOk result (λ l. l ≡ letters.items) }
    {
        let bytes = Bytes::More(Arc::new(alloc, letters)?);
        Ok(Letters { bytes })
    }

    fn few(letters: &[u8]) -> Letters
        requires { length letters.now ≤ 15 }
        ensures { result ≡ letters.now }
    {
        let mut bytes = [0; FEW];
        bytes[..letters.len()].copy_from_slice(letters);
        Letters {
            bytes: Bytes::Few(bytes, letters.len() as u8),
        }
    }

    /// A copy. The error is that there are too many of letters that are shared.
    pub fn copy(&self) -> Result<Letters, AllocError>
        ensures { IfOk result (λ l. l ≡ self.now) }
    {
        match &self.bytes {
            Bytes::Few(bytes, len) => Ok(Letters {
                bytes: Bytes::Few(*bytes, *len),
            }),
            Bytes::More(bytes) => Ok(Letters {
                bytes: Bytes::More(Arc::try_clone(bytes)?),
            }),
        }
    }

    /// The letters, lent.
    pub fn as_slice(&self) -> &[u8]
        ensures { result.now ≡ self.now }
    {
        match &self.bytes {
            Bytes::Few(bytes, len) => &bytes[..usize::from(*len)],
            Bytes::More(bytes) => bytes.as_slice(),
        }
    }
}

impl PartialEq for Letters {
    ghost eq = { bytes_eq };

    ghost laws = { partial_equiv_from_equiv nat_list_eq_equiv };

    fn eq(&self, other: &Letters) -> bool {
        self.as_slice() == other.as_slice()
    }
}

impl Eq for Letters {
    ghost laws = { nat_list_eq_equiv };
}

impl Hash for Letters {
    ghost hash_input = { fed.str };

    ghost respects_eq = { λ x y h. ap fed.str ((bytes_decides x y).0 h) };

    fn hash<H: Hasher>(&self, state: &mut H) {
        state.write(self.as_slice());
        state.write_u8(255);
    }
}
