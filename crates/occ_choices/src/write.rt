//! Writes files of choices.
ghost use Rattle.std.specs.Prelude.{◌≡◌, ◌++◌, IfOk, OnOk};
ghost use Rattle.occ_choices.specs.Lines.{choice_text, choice_line};

use occ_net_replay::Choice;
use std::alloc::{AllocError, Global};

/// The text of a file of choices: a line for each, without leading zeros, ended by LF.
pub fn choices_text(alloc: Global, choices: &[Choice]) -> Result<Vec<u8>, AllocError>
    ensures { IfOk result (λ text. text.items ≡ choice_text choices.now) }
{
    let mut text = Vec::new(alloc);
    for choice in choices {
        write_line(alloc, &mut text, choice)?;
    }
    Ok(text)
}

fn write_line(alloc: Global, text: &mut Vec<u8>, choice: &Choice) -> Result<(), AllocError>
    ensures { OnOk result (text.new.items ≡ text.old.items ++ choice_line choice.now) }
{
    let which = choice.which;
    let pick = choice.pick;
    let line = format!(in alloc; "{which} {pick}\n")?;
    text.extend_from_slice(line.as_bytes())
}
