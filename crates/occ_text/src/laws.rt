//! Laws of the definitions, which no code uses.

ghost use Rattle.std.specs.Prelude.{◌≡◌, ℕ, List};
ghost use Rattle.occ_text.specs.Words.{LogicalLine};
ghost use Rattle.occ_text.specs.Lines.{LinesOf};

/// A text has one list of logical lines at most.
pub fn one_reading()
    ensures { (text : List ℕ) (a b : List LogicalLine) → LinesOf text a → LinesOf text b → a ≡ b }
{}
