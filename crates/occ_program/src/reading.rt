//! Reads what is to be played.
ghost use Rattle.std.specs.Prelude.{◌≡◌, [], IfOk, IsFalse, true};
ghost use Rattle.occ_explaining.specs.Typing.{NeedsNoKeyboard};
ghost use Rattle.occ_play_inputs.specs.Asked.{IsAskedBy, IsSourceIn, IsTyped};
ghost use Rattle.occ_program.specs.Coming.{options_in};

use crate::program::options_of;
use occ_explaining::may_input;
use occ_play_inputs::{Failure, Inputs, Words, check_files, read_beside, read_source};
use std::alloc::Global;
use std::io::{Input, IsTerminal};
use std::rt::Files;

/// Reads what the words name: the source, the keyboard and the file of choices, in this order. A keyboard that is a terminal is left
/// unread where nothing that is typed there would change anything.
pub(crate) fn read_inputs<R: Files + Input + Eprint>(
    rt: &R,
    alloc: Global,
    words: &Words<'_>,
) -> Result<Inputs, Failure>
where
    R::Reader: IsTerminal,
    ensures asked { IfOk result (λ inputs. IsAskedBy words.now inputs.plan) }
    ensures joined { IfOk result (IsSourceIn words.now) }
    ensures typed { IfOk result (λ inputs. IsTyped words.now.file true inputs.keyboard.items) }
{
    check_files(rt, words)?;
    let source = read_source(rt, alloc, words)?;
    let wanted = is_wanted(rt, alloc, words, source.bytes.as_slice());
    read_beside(rt, alloc, words, source, wanted)
}

/// Reads what the words name but for the keyboard: the source and the file of choices, in this order.
pub(crate) fn read_untyped<R: Files + Input + Eprint>(
    rt: &R,
    alloc: Global,
    words: &Words<'_>,
) -> Result<Inputs, Failure>
where
    R::Reader: IsTerminal,
    ensures asked { IfOk result (λ inputs. IsAskedBy words.now inputs.plan) }
    ensures joined { IfOk result (IsSourceIn words.now) }
    ensures untyped { IfOk result (λ inputs. inputs.keyboard.items ≡ []) }
{
    check_files(rt, words)?;
    let source = read_source(rt, alloc, words)?;
    read_beside(rt, alloc, words, source, false)
}

/// Whether the keyboard is wanted: where it is no terminal, or what is typed there may change something.
fn is_wanted<R: Input>(rt: &R, alloc: Global, words: &Words<'_>, source: &[u8]) -> bool
where
    R::Reader: IsTerminal,
    ensures { IsFalse result → NeedsNoKeyboard (options_in words.now) source.now }
{
    if !rt.reader().is_terminal() {
        return true;
    }
    may_input(&options_of(words), alloc, source)
}
