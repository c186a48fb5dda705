//! Laws of the definitions, which no code uses.

ghost use Rattle.std.specs.Prelude.{length, List};
ghost use Rattle.occ_tree_grammar.specs.Processes.Trees.{Item};
ghost use Rattle.occ_term.specs.Processes.{branches_in, processes_of};
ghost use Rattle.occ_term.specs.Sizes.{size_of};
ghost use Rattle.occ_term.specs.UnfoldedProgram as Unfolded;
ghost use Rattle.occ_term.specs.UnfoldedProgram.{IsWellFormed, NumberedFrom};
ghost use Rattle.occ_check_meaning.specs.CellOrder.{cells_in, InOrder};
ghost use Rattle.occ_check_meaning.specs.Counting.{Counted};
ghost use Rattle.occ_check_meaning.specs.Growth.{Grown, IsWithinLimits};
ghost use Rattle.occ_check_meaning.specs.Limits.{KeepsLimits};
ghost use Rattle.occ_check_meaning.specs.Having.{TypedHas};
ghost use Rattle.occ_check_meaning.specs.Numbering.{NumberedUpTo};
ghost use Rattle.occ_check_meaning.specs.Scoping.{EachAlt, IsScoped, SetsTheSameAgain};
ghost use Rattle.occ_check_meaning.specs.Laws.{EachProcess, EachProgram, EachExpression};
ghost use Rattle.occ_check_meaning.specs.Numbers.{at_start};
ghost use Rattle.occ_check_meaning.specs.ProgramUnfolding.{UnfoldsTo};

/// The nodes that are counted are those of the term, and none stands deeper than may be.
pub fn counted()
    ensures part { EachProcess (λ depth n t m. Counted depth (size_of t) n m) }
    ensures whole { EachProgram (λ t m. Counted 0 (size_of t) at_start m) }
{}

/// Processes have their numbers in the order in which they begin in the term.
pub fn processes_in_order()
    ensures part { EachProcess
        (λ depth n t m. NumberedUpTo n.processes (branches_in t) m.processes) }
    ensures whole { EachProgram (λ t m. NumberedFrom 0 (processes_of t)) }
{}

/// An expression under names that have what is declared has its type.
pub fn expressions_have_types()
    ensures { EachExpression (λ d t. TypedHas d.types t) }
{}

/// Cells and channels are only added, and never more than there may be.
pub fn only_grows()
    ensures part { EachProcess (λ depth n t m. Grown n m) }
    ensures whole { EachProgram (λ t m. Grown at_start m × IsWithinLimits m) }
{}

/// What a program unfolds to keeps the limits on cells, channels, processes, nodes and depth.
pub fn limits_are_kept()
    ensures { EachProgram KeepsLimits }
{}

/// Whatever a program unfolds to is well-formed.
pub fn unfoldings_are_well_formed()
    ensures { (items : List Item) (u : Unfolded.UnfoldedProgram)
        → UnfoldsTo items u → IsWellFormed u }
{}

/// The cells that a program's term declares, read from left to right, are all its cells, from 0 on in order and none twice.
pub fn cells_in_order()
    ensures { EachProgram (λ t m. InOrder 0 (cells_in t) (length m.cells)) }
{}

/// Within each ALT, what stands before an arm sets nothing that is set round it, and a declaration reads no cell of another arm.
pub fn alternatives_are_scoped()
    ensures { EachProgram (λ t m. EachAlt IsScoped t) }
{}

/// In each ALT the arm that is taken sets its indices and declarations again to what they were when the arm was found open.
pub fn arms_set_the_same_again()
    ensures { EachProgram (λ t m. EachAlt SetsTheSameAgain t) }
{}
