//! Laws of the written form, which no code uses.

ghost use Rattle.std.specs.Prelude.{◌<◌, ◌↔◌, ℕ, IsTrue};
ghost use Rattle.occ_text.specs.Lines.{leads_on};
ghost use Rattle.occ_text.specs.Words.{Word};
ghost use Rattle.occ_tree_grammar.specs.Expressions.Trees.{Expression};
ghost use Rattle.occ_tree_grammar.specs.Processes.Fits.{FitsProgram, InBounds};
ghost use Rattle.occ_tree_grammar.specs.Joining.{Joins};
ghost use Rattle.occ_tree_grammar.specs.Laws.{ExpressionsReadAsShown, HaveOwnForms, IsReadAgain, TextsReadAgain, TextsReadAsShown};

/// Two trees with one written form are equal.
pub fn one_form()
    ensures within { HaveOwnForms InBounds }
    ensures under_any_bounds { (b n : ℕ) → 0 < b → HaveOwnForms (FitsProgram b n) }
{}

/// A text that is read is shown so and keeps to the bounds, and a text that keeps to them and is
/// shown is read again.
pub fn reading()
    ensures sound { (b n : ℕ) → TextsReadAsShown b n }
    ensures again { (b n : ℕ) → TextsReadAgain b n }
{}

/// An expression that is read is shown so, with fewer than n brackets open, and an expression that
/// is shown is read again where what follows does not go on with it.
pub fn reading_expressions()
    ensures sound { (n : ℕ) → ExpressionsReadAsShown n }
    ensures again { (e : Expression) (n : ℕ) → IsReadAgain e n }
{}

/// A line goes on after each operator that stands between two operands, after AND and OR, after
/// `:=`, `;`, `,`, IS and FOR, and after no other word.
pub fn operators_lead_on()
    ensures { (w : Word) → IsTrue (leads_on w) ↔ Joins w }
{}
