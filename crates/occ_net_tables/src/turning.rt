//! A turn of the network: the chosen process goes on, and what that makes possible happens.
ghost use Rattle.std.specs.Prelude.{◌+◌, ◌<◌, ◌≤◌, ◌^◌, IfOk, IsTrue, OnOk, length};
ghost use Rattle.occ_choices.specs.Plans.{choices_of};
ghost use Rattle.occ_net_tables.specs.Halves.{BeginsTurn, CanBegin, IsBegun, SettlesBegun};
ghost use Rattle.occ_net_tables.specs.Endings.{GoesOn};
ghost use Rattle.occ_net_tables.specs.Rows.{StandsAlone};
ghost use Rattle.occ_net_tables.specs.Settling.{HasSomeMid, HasStopped, SettlesBy, SettlesOn, SettlesWait, Standing, TakesTurn};
ghost use Rattle.occ_net_tables.specs.Turning.{TakesRowOf};

use crate::ready::place_among;
use crate::tables::Tables;
use crate::tasks::{advance_task, advance_task_row, take_wait};
use occ_choices::Plan;
use occ_machine::{Code, Wait};
use occ_net_replay::Choice;
use occ_proc::{Scratch, TurnEnd, one_message};
use occ_term::Message;
use std::alloc::{AllocError, Global};

/// A turn that has come to its stop, before anything happens behind it.
#[derive(Clone, Copy)]
pub struct Begun {
    /// The place of its process among the ready ones.
    pub place: usize,
    /// The number of its process.
    pub number: u32,
    /// How it ended.
    pub end: TurnEnd,
}

impl Tables {
    /// The process that the choice selects takes a turn, and what that makes possible happens. It is TRUE only where the
    /// run hasn't ended by it. After a refused growth the network is not to be used.
    #[inline(always)]
    pub fn take_turn(
        &mut self,
        alloc: Global,
        code: &Code,
        scratch: &mut Scratch,
        keyboard: &[u8],
        choice: Choice,
    ) -> Result<bool, AllocError>
        requires { Standing code.now keyboard.now self.old }
        ensures turn { OnOk result (TakesTurn code.now keyboard.now choice self.old self.new) }
        ensures going { IfOk result (λ going. IsTrue going → GoesOn code.now self.new) }
    {
        let begun = self.begin_turn(alloc, code, scratch, choice)?;
        self.end_turn(alloc, code, scratch, keyboard, begun, choice.pick)
    }

    /// The process that the choice selects goes on to its next stop. What that makes possible hasn't happened yet. After a
    /// refused growth the network is not to be used.
    #[inline(always)]
    pub fn begin_turn(
        &mut self,
        alloc: Global,
        code: &Code,
        scratch: &mut Scratch,
        choice: Choice,
    ) -> Result<Begun, AllocError>
        requires { CanBegin code.now self.old }
        ensures { IfOk result (λ begun. BeginsTurn code.now choice self.old begun scratch.new self.new) }
    {
        code.compiled();
        let place = place_among(choice.which, self.ready.len());
        let number = self.ready[place];
        let Some(body) = code.body(number as usize) else {
            unreachable!()
        };
        let end = advance_task(alloc, body, scratch, &mut self.tasks, number)?;
        Ok(Begun { place, number, end })
    }

    /// The only process that is ready takes turns in a row, no more than this many, by the choices of the plan from the one with
    /// this number on, and what the last of them makes possible happens. It answers how many turns that were, and TRUE
    /// only where the run hasn't ended by them. After a refused growth the network is not to be used.
    #[inline(always)]
    pub(crate) fn take_turns(
        &mut self,
        alloc: Global,
        code: &Code,
        scratch: &mut Scratch,
        keyboard: &[u8],
        plan: &Plan,
        from: usize,
        most: u32,
    ) -> Result<(u32, bool), AllocError>
        requires alone { StandsAlone code.now keyboard.now self.old from }
        requires some { 0 < most }
        requires within { from + most ≤ length (choices_of plan.now) }
        requires fits { length (choices_of plan.now) < 2 ^ 64 }
        ensures row { IfOk result
            (TakesRowOf code.now keyboard.now plan.now from self.old self.new) }
        ensures some { IfOk result (λ row. (0 < row.0) × (row.0 ≤ most)) }
        ensures going { IfOk result (λ row. IsTrue row.1 → GoesOn code.now self.new) }
    {
        code.compiled();
        let number = self.ready[0];
        let Some(body) = code.body(number as usize) else {
            unreachable!()
        };
        let (count, end) = advance_task_row(alloc, body, scratch, &mut self.tasks, number, most)?;
        let Some(last) = plan.at(from + (count as usize - 1)) else {
            unreachable!()
        };
        let begun = Begun {
            place: 0,
            number,
            end,
        };
        let going = self.end_turn(alloc, code, scratch, keyboard, begun, last.pick)?;
        Ok((count, going))
    }

    /// What happens at once where the turn of a process ended so. It is TRUE only where the run hasn't ended by it. After a
    /// refused growth the network is not to be used.
    #[inline(always)]
    pub fn end_turn(
        &mut self,
        alloc: Global,
        code: &Code,
        scratch: &mut Scratch,
        keyboard: &[u8],
        begun: Begun,
        pick: u32,
    ) -> Result<bool, AllocError>
        requires { IsBegun code.now keyboard.now self.old begun scratch.old }
        ensures turn { OnOk result
            (SettlesBegun code.now keyboard.now begun scratch.old pick self.old self.new) }
        ensures going { IfOk result (λ going. IsTrue going → GoesOn code.now self.new) }
    {
        code.compiled();
        let Begun { place, number, end } = begun;
        match end {
            TurnEnd::Ready => Ok(true),
            TurnEnd::Offers(tag, chan) => {
                let message = scratch.take_message(tag);
                self.settle_offer(place, number, chan, message, pick)?;
                Ok(self.several_ready())
            }
            TurnEnd::OffersOne(primitive, value, chan) => {
                let message = one_message(primitive, value);
                self.settle_offer(place, number, chan, message, pick)?;
                Ok(self.several_ready())
            }
            TurnEnd::Awaits(chan) => {
                self.settle_input(keyboard, place, number, chan)?;
                Ok(self.several_ready())
            }
            TurnEnd::Other => {
                self.settle_wait(alloc, code, keyboard, place, number, pick)?;
                Ok(false)
            }
        }
    }

    /// Whether more than one process is ready.
    #[inline(always)]
    fn several_ready(&self) -> bool
        ensures { IsTrue result → 1 < length self.now.ready.items }
    {
        self.ready.len() > 1
    }

    /// What happens at once where a process offers this message after its turn.
    #[inline(never)]
    fn settle_offer(
        &mut self,
        place: usize,
        number: u32,
        chan: u32,
        message: Message,
        pick: u32,
    ) -> Result<(), AllocError>
        requires { HasSomeMid self.old number place (Wait.Offers chan message) }
        ensures { OnOk result
            (SettlesBy pick number place (Wait.Offers chan message) self.old self.new) }
    {
        self.make_room(1)?;
        self.offer_made(place, number, chan, message, pick)?;
        Ok(())
    }

    /// What happens at once where a process awaits a message after its turn.
    #[inline(never)]
    fn settle_input(
        &mut self,
        keyboard: &[u8],
        place: usize,
        number: u32,
        chan: u32,
    ) -> Result<(), AllocError>
        requires { HasSomeMid self.old number place (Wait.Awaits chan) }
        ensures { OnOk result
            (SettlesOn keyboard.now number place (Wait.Awaits chan) self.old self.new) }
    {
        self.make_room(1)?;
        self.await_on(keyboard, place, number, chan)?;
        Ok(())
    }

    /// What happens at once where a process stands at what is in its task after its turn.
    #[inline(never)]
    fn settle_wait(
        &mut self,
        alloc: Global,
        code: &Code,
        keyboard: &[u8],
        place: usize,
        number: u32,
        pick: u32,
    ) -> Result<(), AllocError>
        requires { HasStopped code.now self.old number place }
        ensures { OnOk result
            (SettlesWait code.now keyboard.now pick number place self.old self.new) }
    {
        let wait = take_wait(&mut self.tasks, number);
        match self.settle(alloc, code, keyboard, place, number, wait, pick) {
            Ok(()) => {}
            Err((_, refused)) => return Err(refused),
        }
        Ok(())
    }
}
