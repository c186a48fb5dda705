//! Runs, turn by turn.
use crate::Places;
use crate::stepping::step;
use occ_files::Pieces;
use occ_machine::Code;
use occ_net_replay::Choice;
use occ_net_tables::{News, Tables};
use occ_proc::Scratch;
use std::alloc::{AllocError, Global};

/// The line of each turn of a run by some choices: its number, the processes that were ready, the one that took it, the pick, at what the
/// turn stopped, with its line where that is known, and the communication that it made possible. A piece is a line; the turn is taken
/// when the line is asked for.
#[derive(Drop)]
pub struct TurnLines<'a> {
    alloc: Global,
    code: &'a Code,
    places: &'a Places,
    keyboard: &'a [u8],
    scratch: Scratch,
    tables: Tables,
    news: News,
    turns: u64,
    rest: &'a [Choice],
}

impl<'a> TurnLines<'a> {
    ghost use Rattle.std.specs.Prelude.{IfOk};
    ghost use Rattle.occ_report.specs.TurnLines.{CanWriteTurn, IsBeforeSteps};

    /// The turns of the run by these choices, before the first one.
    ///
    /// # Errors
    ///
    /// A refused growth.
    pub fn new(
        alloc: Global,
        code: &'a Code,
        places: &'a Places,
        keyboard: &'a [u8],
        choices: &'a [Choice],
    ) -> Result<TurnLines<'a>, AllocError>
        ensures can { IfOk result CanWriteTurn }
        ensures all { IfOk result
            (IsBeforeSteps places.now code.now keyboard.now choices.now) }
    {
        let tables = Tables::new(alloc, code)?;
        Ok(TurnLines {
            alloc,
            code,
            places,
            keyboard,
            scratch: Scratch::new(alloc),
            tables,
            news: News::new(alloc),
            turns: 0,
            rest: choices,
        })
    }
}

impl<'a> Pieces for TurnLines<'a> {
    ghost use Rattle.std.specs.Prelude.{length};
    ghost use Rattle.occ_report.specs.TurnLines.{CanWriteTurn, IsRestOfSteps};

    ghost can_write = { CanWriteTurn };

    ghost is_left = { IsRestOfSteps };

    ghost most = { λ lines. length lines.rest.now };

    fn write_next(&mut self, out: &mut Vec<u8>) -> Result<bool, AllocError> {
        if self.tables.ending(self.code.errors()).is_some() {
            return Ok(false);
        }
        let Some((choice, others)) = self.rest.split_first() else {
            return Ok(false);
        };
        self.turns += 1;
        step(
            self.alloc,
            self.code,
            self.places,
            &mut self.scratch,
            self.keyboard,
            &mut self.tables,
            &mut self.news,
            self.turns,
            *choice,
            out,
        )?;
        self.rest = others;
        Ok(true)
    }
}
