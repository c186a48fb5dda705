//! Says how a source stands to its specification.
ghost use Rattle.std.specs.Prelude.{◌≡◌, IfOk, OnOk};
ghost use Rattle.std.specs.Option.{option_copied};
ghost use Rattle.occ_exploring.specs.Within.{counted_text, keeping_text, kept_text, outside_text, share_text};
ghost use Rattle.occ_shown.specs.Answers.{AddsText};

use crate::lines::{write_answer, write_counted, write_lasting};
use crate::within::{AllAnswers, Keeping, Kept, answer_at};
use occ_explore::{Answer, Asked};
use std::alloc::{AllocError, Global};

/// So many of a thing, behind this text.
fn write_many(
    alloc: Global,
    out: &mut Vec<u8>,
    text: &[u8],
    count: usize,
    word: &[u8],
) -> Result<(), AllocError>
    ensures { OnOk result (AddsText out.old out.new (counted_text text.now count word.now)) }
{
    out.extend_from_slice(text)?;
    write_counted(alloc, out, count, word)?;
    out.push(b'\n')?;
    Ok(())
}

/// An answer that is none of the specification's, and how many that has.
fn write_outside(
    alloc: Global,
    out: &mut Vec<u8>,
    asked: Asked,
    answer: Option<&Answer>,
    specified: usize,
) -> Result<(), AllocError>
    ensures { OnOk result
        (AddsText out.old out.new (outside_text asked (option_copied answer.entry) specified)) }
{
    match answer {
        Some(answer) => {
            write_answer(alloc, out, asked, 1, answer)?;
            let text = b"not one of the specification's: ";
            write_many(alloc, out, text, specified, b"answer")
        }
        None => Ok(()),
    }
}

/// How many answers are among those of the specification.
fn share_text(alloc: Global, count: usize) -> Result<Vec<u8>, AllocError>
    ensures { IfOk result (λ text. text.items ≡ share_text count) }
{
    let text = format!(in alloc; "each answer is one of the specification's: {count} of ")?;
    Ok(text.into_bytes())
}

/// How the answers of a source stand to those of its specification, and how long its runs go on.
fn write_keeping(
    alloc: Global,
    out: &mut Vec<u8>,
    asked: Asked,
    own: &AllAnswers,
    specified: usize,
    keeping: Keeping,
) -> Result<(), AllocError>
    ensures { OnOk result
        (AddsText out.old out.new (keeping_text asked own.now specified keeping)) }
{
    match keeping {
        Keeping::Same => {
            let text = b"same answers as the specification: ";
            write_many(alloc, out, text, specified, b"answer")?;
            write_lasting(alloc, out, &own.lasting)
        }
        Keeping::Within => {
            let text = share_text(alloc, own.answers.len())?;
            write_many(alloc, out, text.as_slice(), specified, b"answer")?;
            write_lasting(alloc, out, &own.lasting)
        }
        Keeping::Outside(place) => {
            let answer = answer_at(own.answers.as_slice(), place);
            write_outside(alloc, out, asked, answer, specified)
        }
    }
}

/// What is printed of a source and its specification, each of which might come to `most` states: whether each answer of the source is
/// one of the specification's and how long its runs go on, or the first answer that is none.
///
/// # Errors
///
/// A refused growth.
pub fn kept_text(alloc: Global, kept: &Kept, asked: Asked, most: u32) -> Result<Vec<u8>, AllocError>
    ensures { IfOk result (λ bytes. bytes.items ≡ kept_text asked most kept.now) }
{
    let mut out = Vec::new(alloc);
    match kept {
        Kept::Compared(told) => {
            let (own, specified) = (&told.own, told.specified);
            write_keeping(alloc, &mut out, asked, own, specified, told.keeping)?;
        }
        Kept::SourcePassed => {
            let text = b"no verdict: the program passed the bound of ";
            write_many(alloc, &mut out, text, most as usize, b"state")?;
        }
        Kept::SpecificationPassed => {
            let text = b"no verdict: the specification passed the bound of ";
            write_many(alloc, &mut out, text, most as usize, b"state")?;
        }
    }
    Ok(out)
}
