//! The usage rules.
ghost use Rattle.std.specs.Prelude.{◌≡◌, IfErr, IfOk, IfSome, IsErr, MatchResult};
ghost use Rattle.occ_term.specs.UnfoldedProgram.{Lawful};
ghost use Rattle.occ_usage.specs.Noted.{uses_in};
ghost use Rattle.occ_usage.specs.declared.checked.UsageFault.TheVariants.{Memory};
ghost use Rattle.occ_contracts.specs.Agreement.{Agree, BothGive};
ghost use Rattle.occ_contracts.specs.Usage.{IsUnbroken, rule_named};

use occ_term::{Term, Unfolded};
use occ_usage::{Checked, Refused, Use, check_usage, term_uses};
use sqlite_items::Items;
use std::alloc::{AllocError, Global};

/// A program is accepted or refused, and what is accepted is the program.
pub fn check_twice(
    alloc: Global,
    one: Unfolded,
    other: Unfolded,
) -> (Result<Checked, Refused>, Result<Checked, Refused>)
    requires { other ≡ one }
    ensures given { Agree (λ c. c) (λ r. r.fault ≡ Memory) result.0 result.1 }
    ensures program { IfOk result.0 (λ c. c ≡ one) }
{
    (check_usage(alloc, one), check_usage(alloc, other))
}

/// A program that keeps the usage rules is accepted.
pub fn check_lawful(alloc: Global, unfolded: Unfolded) -> Result<Checked, Refused>
    requires { Lawful unfolded }
    ensures { MatchResult result (λ c. c ≡ unfolded) (λ r. r.fault ≡ Memory) }
{
    check_usage(alloc, unfolded)
}

/// A program that does not is refused, and handed back.
pub fn check_unlawful(alloc: Global, unfolded: Unfolded) -> Result<Checked, Refused>
    requires { Lawful unfolded → ⊥ }
    ensures refused { IsErr result }
    ensures back { IfErr result (λ r. r.unfolded ≡ unfolded) }
{
    check_usage(alloc, unfolded)
}

/// No rule is named that the program keeps.
pub fn named_rule(alloc: Global, unfolded: Unfolded) -> Result<Checked, Refused>
    ensures { IfErr result
        (λ r. IfSome (rule_named r.fault) (λ rule. IsUnbroken rule unfolded → ⊥)) }
{
    check_usage(alloc, unfolded)
}

/// What a term uses is fixed. In which order and on which lines its uses are noted is not.
pub fn uses_twice(
    alloc: Global,
    term: &Term,
) -> (
    Result<Items<Use>, AllocError>,
    Result<Items<Use>, AllocError>,
)
    ensures { BothGive (λ a b. uses_in a ≡ uses_in b) result.0 result.1 }
{
    (term_uses(alloc, term), term_uses(alloc, term))
}
