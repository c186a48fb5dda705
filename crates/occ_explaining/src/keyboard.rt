//! Whether what is typed can change what a source comes to.
ghost use Rattle.std.specs.Prelude.{◌≡◌, IfErr, IfOk, IsFalse};
ghost use Rattle.occ_explaining.specs.Typing.{NeedsNoKeyboard, NeverInputs};
ghost use Rattle.occ_play.specs.Playing.{Refuses};
ghost use Rattle.occ_usage.specs.Noted.{between, use_of, uses_in};

use occ_play::{Options, PlayFault, code_of, status_of_fault, unfolded_of};
use occ_usage::{Kind, Use, term_uses};
use std::alloc::Global;

/// Whether a source may input from the keyboard. Where this is false, whatever is typed changes nothing: the source is refused, or its
/// program has no input and no guard on channel 0.
pub fn may_input(options: &Options, alloc: Global, source: &[u8]) -> bool
    ensures { IsFalse result → NeedsNoKeyboard options.now source.now }
{
    match inputs_in(options, alloc, source) {
        Ok(inputs) => inputs,
        Err(fault) => {
            if status_of_fault(&fault) == 1 {
                return false;
            }
            true
        }
    }
}

/// Whether the program of an accepted source has an input or a guard on channel 0.
#[tactic(auto, using(crate::proofs::Refusing::refuses_text))]
fn inputs_in(options: &Options, alloc: Global, source: &[u8]) -> Result<bool, PlayFault>
    ensures never { IfOk result (λ inputs. IsFalse inputs → NeverInputs source.now) }
    ensures refused { IfErr result (Refuses options.now source.now) }
{
    let _code = code_of(options, alloc, source)?;
    let unfolded = unfolded_of(alloc, source)?;
    let uses = term_uses(alloc, unfolded.term())?;
    Ok(has_keyboard(uses.as_slice()))
}

/// Whether one of these uses is an input from channel 0.
fn has_keyboard(uses: &[Use]) -> bool
    ensures { result ≡ (uses_in uses.now).ins 0 }
{
    for one in uses {
        if is_keyboard(one) {
            return true;
        }
    }
    false
}

/// Whether a use is an input from channel 0.
fn is_keyboard(one: &Use) -> bool
    ensures { result ≡ (use_of one.now.kind (between one.now.first one.now.end)).ins 0 }
{
    match one.kind {
        Kind::Input => one.first == 0 && one.end > 0,
        Kind::Read | Kind::Write | Kind::Output => false,
    }
}
