//! Tells whether a source is refused.
ghost use Rattle.std.specs.Prelude.{◌≡◌, ◌≤◌, IfErr, IfOk};
ghost use Rattle.occ_program.specs.Coming.{IsLookStatus, LookedAt, look_status};
ghost use Rattle.occ_program.specs.Looked.{TellsFound, TellsRefused, TellsUnreachedIn};

use crate::explaining::{explain_fault, files_of, print_text};
use crate::exploring::check_printed;
use crate::program::{options_of, tell};
use occ_explaining::{refusal_object, unreached_told};
use occ_files::Noting;
use occ_play::{PlayFault, code_of, status_of};
use occ_play_inputs::{Failure, Joined, Words, read_source};
use occ_shown::{Counted, write_answer};
use std::alloc::Global;
use std::io::{self, IsTerminal};
use std::rt::Files;

/// Reads the source that the words name and prints why it is refused, where it is, or which PROCs no call reaches; nothing is played.
pub(crate) fn look_at_words<R: Files + Input + Print + Eprint>(
    rt: &R,
    alloc: Global,
    words: &Words<'_>,
) -> Result<u8, Failure>
where
    R::Reader: IsTerminal,
    ensures looked { IfOk result (IsLookStatus words.now) }
    ensures small { IfOk result (λ status. status ≤ 7) }
{
    let source = read_source(rt, alloc, words)?;
    let fault = fault_in(alloc, words, source.bytes.as_slice());
    if let Some(fault) = &fault {
        tell(rt, fault);
        let (bytes, ends) = (source.bytes.as_slice(), source.ends.as_slice());
        explain_fault(rt, alloc, words, bytes, ends, fault);
    }
    tell_found(rt, alloc, words, &source, &fault)?;
    Ok(status_of_look(fault))
}

/// Prints what was found: as objects of JSON to standard output, and in words to standard error.
fn tell_found<R: Print + Eprint>(
    rt: &R,
    alloc: Global,
    words: &Words<'_>,
    source: &Joined,
    fault: &Option<PlayFault>,
) -> Result<(), Failure> {
    let text = found_text(alloc, words, source, fault)?;
    if words.json {
        print_found(rt, text.as_slice())
    } else {
        print_text(rt, alloc, words, text.as_slice());
        Ok(())
    }
}

/// Prints the objects.
fn print_found<R: Print>(rt: &R, text: &[u8]) -> Result<(), Failure> {
    let mut screen = Noting::new(io::writer(rt));
    let printed = write_answer(text, &mut Counted::new(&mut screen)).is_ok();
    check_printed(printed, screen.reason())
}

/// What was found: of an accepted source the PROCs that no call reaches, and of a refused one the refusal, where objects are asked for.
fn found_text(
    alloc: Global,
    words: &Words<'_>,
    source: &Joined,
    fault: &Option<PlayFault>,
) -> Result<Vec<u8>, Failure>
    ensures found { IfOk result (λ text. TellsFound words.now source.now fault.now text.items) }
    ensures memory { IfErr result (λ failure. failure ≡ Failure.Memory) }
{
    match fault {
        None => unreached(alloc, words, source),
        Some(fault) if words.json => refusal(alloc, words, source, fault),
        Some(_) => Ok(Vec::new(alloc)),
    }
}

/// The PROCs that no call reaches.
fn unreached(alloc: Global, words: &Words<'_>, source: &Joined) -> Result<Vec<u8>, Failure>
    ensures told { IfOk result (λ text.
        TellsUnreachedIn words.now source.now text.items) }
    ensures memory { IfErr result (λ failure. failure ≡ Failure.Memory) }
{
    let files = files_of(words, source.ends.as_slice());
    match unreached_told(alloc, source.bytes.as_slice(), &files, words.json) {
        Ok(text) => Ok(text),
        Err(_) => Err(Failure::Memory),
    }
}

/// The object of a refusal, and nothing for any other fault.
fn refusal(
    alloc: Global,
    words: &Words<'_>,
    source: &Joined,
    fault: &PlayFault,
) -> Result<Vec<u8>, Failure>
    ensures told { IfOk result (λ text. TellsRefused words.now source.now fault.now text.items) }
    ensures memory { IfErr result (λ failure. failure ≡ Failure.Memory) }
{
    let files = files_of(words, source.ends.as_slice());
    match refusal_object(alloc, source.bytes.as_slice(), &files, fault)? {
        Some(text) => Ok(text),
        None => Ok(Vec::new(alloc)),
    }
}

/// Why the source has no code, where it has none.
fn fault_in(alloc: Global, words: &Words<'_>, source: &[u8]) -> Option<PlayFault>
    ensures { LookedAt words.now source.now result }
{
    match code_of(&options_of(words), alloc, source) {
        Ok(_) => None,
        Err(fault) => Some(fault),
    }
}

/// The exit status of a look at a source, which found this fault or none.
fn status_of_look(fault: Option<PlayFault>) -> u8
    ensures { result ≡ look_status fault }
{
    match fault {
        None => 0,
        Some(fault) => status_of(&Err(fault)),
    }
}
