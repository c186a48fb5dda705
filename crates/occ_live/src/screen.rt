//! What of a run's screen was written.
ghost use Rattle.std.specs.Prelude.{◌≡◌, ◌<◌, ◌-◌, ◌^◌, IfErr, OnOk};
ghost use Rattle.occ_live.specs.Living.{IsMarked, MarksStart, Shows, ShowsPart, TellsWrite};
ghost use Rattle.occ_shown.specs.Answers.{AreByteMessages};
ghost use Rattle.occ_shown.specs.Counting.{failures_of};

use crate::fault::LiveFault;
use occ_net_tables::{Mark, News, Trace};
use occ_shown::{Counted, write_answer, write_bytes};
use occ_term::SCREEN;
use std::alloc::Global;
use std::io::Write;

/// How much of a trace was shown, with room for what is shown next.
#[derive(Drop)]
pub(crate) struct Screen {
    /// Behind what was shown.
    pub(crate) mark: Mark,
    news: News,
    bytes: Vec<u8>,
}

impl Screen {
    /// Nothing was shown.
    pub(crate) fn new(alloc: Global) -> Screen
        ensures { MarksStart result.mark }
    {
        Screen {
            mark: Trace::new(alloc).mark(),
            news: News::new(alloc),
            bytes: Vec::new(alloc),
        }
    }

    /// Writes the screen's bytes of what the trace has behind what was shown.
    pub(crate) fn show<W: Write>(
        &mut self,
        trace: &Trace,
        out: &mut Counted<W>,
    ) -> Result<(), LiveFault>
        requires room { failures_of out.old < 2 ^ 64 - 1 }
        requires screen { AreByteMessages SCREEN trace.now }
        requires marked { IsMarked self.old.mark trace.now }
        ensures shown { OnOk result
            (Shows W.contents out.old self.old.mark trace.now out.new self.new.mark) }
        ensures none_failed { OnOk result (failures_of out.new ≡ failures_of out.old) }
        ensures part { IfErr result
            (ShowsPart W.contents out.old self.old.mark trace.now out.new) }
        ensures told { IfErr result (TellsWrite out.old out.new) }
    {
        trace.copy_behind(&self.mark, &mut self.news)?;
        self.bytes.clear();
        write_bytes(&mut self.bytes, self.news.entries(), SCREEN)?;
        match write_answer(self.bytes.as_slice(), out) {
            Ok(()) => {
                self.mark = trace.mark();
                Ok(())
            }
            Err(_written) => Err(LiveFault::Write),
        }
    }
}
