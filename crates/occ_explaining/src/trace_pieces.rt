//! The text of a trace, piece by piece.
ghost use Rattle.std.specs.Prelude.{OnOk};
ghost use Rattle.occ_explaining.specs.Traced.{AddsForm, form_end};
ghost use Rattle.occ_shown.specs.Answers.{AddsText};
ghost use Rattle.occ_term.specs.Endings.{ending_text};

use crate::tracing::Form;
use occ_files::Pieces;
use occ_net_tables::{Entries, Entry, Outcome};
use occ_shown::{write_ending, write_line, write_object};
use occ_term::{Channel, Ending};
use std::alloc::{AllocError, Global};

/// The text of a trace: a piece for each communication, and the last one for the ending.
#[derive(Drop)]
pub(crate) struct TracePieces<'a> {
    alloc: Global,
    channels: &'a [Channel],
    entries: Entries<'a>,
    number: u64,
    ending: Ending,
    form: Form,
    ended: bool,
}

/// Puts a communication, which has this number, behind these bytes.
fn write_one(
    alloc: Global,
    out: &mut Vec<u8>,
    form: Form,
    number: u64,
    communication: &Entry<'_>,
    channels: &[Channel],
) -> Result<(), AllocError>
    ensures { OnOk result
        (AddsForm form channels.now number communication.now out.old out.new) }
{
    match form {
        Form::Lines => write_line(alloc, out, number, communication, channels),
        Form::Json => write_object(alloc, out, number, communication, channels),
    }
}

/// Puts the ending behind these bytes.
fn write_end(alloc: Global, out: &mut Vec<u8>, form: Form, ending: Ending) -> Result<(), AllocError>
    ensures { OnOk result (AddsText out.old out.new (form_end form ending)) }
{
    match form {
        Form::Lines => {
            let line = format!(in alloc; "{ending}\n")?;
            out.extend_from_slice(line.as_bytes())
        }
        Form::Json => write_ending(alloc, out, ending),
    }
}

impl<'a> TracePieces<'a> {
    ghost use Rattle.std.specs.Prelude.{◌≡◌};
    ghost use Rattle.occ_explaining.specs.Traced.{form_text};
    ghost use Rattle.occ_explaining.specs.TraceLeft.{CanCount, trace_left};
    ghost use Rattle.occ_shown.specs.Answers.{entries_in};

    /// The whole text of what a run came to, with the names of these channels.
    pub(crate) fn new(
        alloc: Global,
        channels: &'a [Channel],
        outcome: &'a Outcome,
        form: Form,
    ) -> TracePieces<'a>
        ensures can { CanCount result }
        ensures text { trace_left result ≡ form_text form (entries_in channels.now outcome.now.trace)
            outcome.now.ending }
    {
        TracePieces {
            alloc,
            channels,
            entries: outcome.trace.entries(),
            number: 0,
            ending: outcome.ending,
            form,
            ended: false,
        }
    }
}

impl<'a> Pieces for TracePieces<'a> {
    ghost use Rattle.std.specs.Prelude.{◌≡◌};
    ghost use Rattle.occ_explaining.specs.TraceLeft.{CanCount, left_count, trace_left};

    ghost can_write = { CanCount };

    ghost is_left = { λ pieces text. text ≡ trace_left pieces };

    ghost most = { left_count };

    fn write_next(&mut self, out: &mut Vec<u8>) -> Result<bool, AllocError> {
        if self.ended {
            return Ok(false);
        }
        match self.entries.next() {
            Some(communication) => {
                self.number += 1;
                let (alloc, form, number) = (self.alloc, self.form, self.number);
                write_one(alloc, out, form, number, &communication, self.channels)?;
                Ok(true)
            }
            None => {
                self.ended = true;
                write_end(self.alloc, out, self.form, self.ending)?;
                Ok(true)
            }
        }
    }
}
