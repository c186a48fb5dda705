//! Offers and inputs: the two ends of a channel meet, or one waits for the other.
ghost use Rattle.std.specs.Prelude.{◌≡◌, ◌≢◌, ◌+◌, ◌<◌, ◌^◌, [], IfErr, None, OnErr, OnOk, Option, Some, remove, vec_capacity, vec_len, ℕ};
ghost use Rattle.occ_term.specs.declared.fault.Fault.{Fault};
ghost use Rattle.occ_machine.specs.SameStop.{IsRising};
ghost use Rattle.occ_machine.specs.declared.task.Arm.{Arm};
ghost use Rattle.occ_machine.specs.declared.task.Task.{Task};
ghost use Rattle.occ_net_tables.specs.Choosing.{input_arm};
ghost use Rattle.occ_net_tables.specs.Keys.{entry_in};
ghost use Rattle.occ_net_tables.specs.Light.{StandsLight};
ghost use Rattle.occ_net_tables.specs.Room.{HasRoom};
ghost use Rattle.occ_net_tables.specs.Settling.{HandsTo, HasSomeMid, IsAwaiting, IsOffering, IsTaking, IsTakingBy, LeavesChannels, NotesFirst, SettlesAnyhow, SettlesBy, SettlesOn, SettlesWith, TookByte, TookOffer, outer_taker};
ghost use Rattle.occ_net_tables.specs.Tasks.{WaitSet};

use crate::channel_ends::{
    copied_arm, input_arm, keyboard_channel, next_byte, offered, one_byte, reader, took,
};
use crate::choosing::{choose_arm, set_arms};
use crate::entries::{entry, set_entry};
use crate::ready::{insert, take_out};
use crate::tables::Tables;
use crate::tasks::{awaited, set_wait, take_offered, take_wait};
use occ_machine::{Arm, Task, Wait};
use occ_term::{End, Fault, KEYBOARD, Message};
use sqlite_items::Items;
use std::alloc::{AllocError, Global};

/// The process at this place among the ready ones is one no more, and stands at this.
#[inline(always)]
pub(crate) fn rest(
    tasks: &mut Vec<Option<Task>>,
    ready: &mut Vec<u32>,
    place: usize,
    number: u32,
    wait: Wait,
)
    requires there { StandsLight tasks.old.items number }
    requires within { place < vec_len ready.old }
    ensures tasks { WaitSet tasks.old.items number wait tasks.new.items }
    ensures ready { ready.new.items ≡ remove ready.old.items place }
    ensures room { vec_len ready.new < vec_capacity ready.new }
{
    take_out(ready, place);
    set_wait(tasks, number, wait);
}

/// The first of the faults that were noted and of this one, which comes after them.
fn first_of(noted: Option<Fault>, fault: Fault) -> Option<Fault>
    ensures { NotesFirst noted fault result }
{
    match noted {
        Some(first) => Some(first),
        None => Some(fault),
    }
}

impl Tables {
    /// A process that waits for a message on this channel, where no other offer stands, leaves its
    /// channels. The arm by which it takes the message is handed out.
    #[inline(never)]
    fn leave(&mut self, taker: u32, chan: u32, pick: u32) -> Arm
        requires { IsTaking self.old.tasks.items taker chan pick }
        ensures arm { IsTakingBy self.old.tasks.items taker chan pick result }
        ensures left { LeavesChannels self.old taker self.new }
    {
        match take_wait(&mut self.tasks, taker) {
            Wait::Awaits { chan: own } => {
                set_entry(&mut self.awaiting, own, None);
                input_arm(own)
            }
            Wait::Chooses { pri, mut arms } => {
                set_arms(&mut self.awaiting, arms.as_slice(), None);
                match choose_arm(Some(chan), &[], pri, pick, arms.as_slice()) {
                    Some(at) => arms.remove(at),
                    None => unreachable!(),
                }
            }
            _ => unreachable!(),
        }
    }

    /// The message goes to a process that awaits one on this channel alone, and which may go on.
    #[inline(always)]
    fn hand_to_input(&mut self, taker: u32, chan: u32, message: Message)
        requires awaits { IsAwaiting self.old.tasks.items taker chan }
        requires rising { IsRising self.old.ready.items }
        requires room { HasRoom self.old 1 }
        ensures { (pick : ℕ) → HandsTo self.old taker chan pick message self.new }
    {
        insert(&mut self.ready, taker);
        set_entry(&mut self.awaiting, chan, None);
        let wait = took(input_arm(chan), Some(message));
        set_wait(&mut self.tasks, taker, wait);
    }

    /// The message goes to a process that waits for one on this channel, and which may go on.
    #[inline(always)]
    fn hand_over(&mut self, taker: u32, chan: u32, message: Message, pick: u32)
        requires takes { IsTaking self.old.tasks.items taker chan pick }
        requires rising { IsRising self.old.ready.items }
        requires room { HasRoom self.old 1 }
        ensures { HandsTo self.old taker chan pick message self.new }
    {
        if let Some(_own) = awaited(&self.tasks, taker) {
            self.hand_to_input(taker, chan, message);
            return;
        }
        insert(&mut self.ready, taker);
        let arm = self.leave(taker, chan, pick);
        set_wait(&mut self.tasks, taker, took(arm, Some(message)));
    }

    /// The process waits until somebody takes what it offers on this channel.
    #[inline(always)]
    fn keep_offering(&mut self, place: usize, number: u32, chan: u32, message: Message)
        requires mid { HasSomeMid self.old number place (Wait.Offers chan message) }
        requires unread { outer_taker chan ≡ None }
        requires alone { entry_in self.old.awaiting.items chan ≡ None }
        ensures { SettlesAnyhow number place (Wait.Offers chan message) self.old self.new }
    {
        set_entry(&mut self.offering, chan, Some(number));
        let wait = Wait::Offers { chan, message };
        rest(&mut self.tasks, &mut self.ready, place, number, wait);
    }

    /// The process takes this byte, which is the keyboard's next one.
    fn take_byte(&mut self, number: u32, arm: Arm, byte: u8) -> Result<(), AllocError>
        requires there { StandsLight self.old.tasks.items number }
        requires counts { self.old.used + 1 < 2 ^ 64 }
        ensures ok { OnOk result (TookByte self.old number arm byte self.new) }
        ensures err { OnErr result (self.new ≡ self.old) }
    {
        let message = one_byte(byte);
        let (sender, receiver) = (End::Keyboard, End::Process(number));
        self.trace.push(KEYBOARD, sender, receiver, &message)?;
        self.used += 1;
        set_wait(&mut self.tasks, number, took(arm, Some(message)));
        Ok(())
    }

    /// The same of a process that awaits a message on this channel alone.
    #[inline(never)]
    fn input_byte(&mut self, number: u32, chan: u32, byte: u8) -> Result<(), AllocError>
        requires there { StandsLight self.old.tasks.items number }
        requires counts { self.old.used + 1 < 2 ^ 64 }
        ensures ok { OnOk result (TookByte self.old number (input_arm chan) byte self.new) }
        ensures err { OnErr result (self.new ≡ self.old) }
    {
        self.take_byte(number, input_arm(chan), byte)?;
        Ok(())
    }

    /// The process takes the message that another one offers.
    #[inline(always)]
    fn take_from(&mut self, number: u32, giver: u32, chan: u32, arm: Arm) -> Result<(), AllocError>
        requires there { StandsLight self.old.tasks.items number }
        requires offers { IsOffering self.old.tasks.items giver chan }
        requires apart { number ≢ giver }
        requires rising { IsRising self.old.ready.items }
        requires room { HasRoom self.old 1 }
        ensures ok { OnOk result (TookOffer self.old number giver chan arm self.new) }
        ensures err { OnErr result (self.new ≡ self.old) }
    {
        let (sender, receiver) = (End::Process(giver), End::Process(number));
        self.trace
            .push(chan, sender, receiver, offered(&self.tasks, giver))?;
        let message = take_offered(&mut self.tasks, giver);
        set_entry(&mut self.offering, chan, None);
        set_wait(&mut self.tasks, number, took(arm, Some(message)));
        insert(&mut self.ready, giver);
        Ok(())
    }

    /// What the process offers is taken, or it waits until it is.
    #[inline(always)]
    pub(crate) fn offer(
        &mut self,
        place: usize,
        number: u32,
        chan: u32,
        message: Message,
        pick: u32,
    ) -> Result<(), (Message, AllocError)>
        requires mid { HasSomeMid self.old number place (Wait.Offers chan message) }
        requires room { HasRoom self.old 1 }
        ensures ok { OnOk result
            (SettlesBy pick number place (Wait.Offers chan message) self.old self.new) }
        ensures err { IfErr result (λ e. (self.new ≡ self.old) × (e.0 ≡ message)) }
    {
        let sender = End::Process(number);
        if let Some(receiver) = reader(chan) {
            match self.trace.push(chan, sender, receiver, &message) {
                Ok(()) => return Ok(()),
                Err(refused) => return Err((message, refused)),
            }
        }
        let Some(taker) = entry(&self.awaiting, chan) else {
            self.keep_offering(place, number, chan, message);
            return Ok(());
        };
        match self.trace.push(chan, sender, End::Process(taker), &message) {
            Ok(()) => {}
            Err(refused) => return Err((message, refused)),
        }
        self.hand_over(taker, chan, message, pick);
        Ok(())
    }

    /// The same where nothing is handed back: after a refused growth the network is not to be used.
    #[inline(always)]
    pub(crate) fn offer_made(
        &mut self,
        place: usize,
        number: u32,
        chan: u32,
        message: Message,
        pick: u32,
    ) -> Result<(), AllocError>
        requires mid { HasSomeMid self.old number place (Wait.Offers chan message) }
        requires room { HasRoom self.old 1 }
        ensures { OnOk result
            (SettlesBy pick number place (Wait.Offers chan message) self.old self.new) }
    {
        match self.offer(place, number, chan, message, pick) {
            Ok(()) => Ok(()),
            Err((_, refused)) => Err(refused),
        }
    }

    /// The process takes a message that is there, or it waits for one.
    #[inline(always)]
    pub(crate) fn await_on(
        &mut self,
        keyboard: &[u8],
        place: usize,
        number: u32,
        chan: u32,
    ) -> Result<(), AllocError>
        requires mid { HasSomeMid self.old number place (Wait.Awaits chan) }
        requires room { HasRoom self.old 1 }
        ensures ok { OnOk result
            (SettlesOn keyboard.now number place (Wait.Awaits chan) self.old self.new) }
        ensures err { OnErr result (self.new ≡ self.old) }
    {
        if let Some(byte) = next_byte(chan, keyboard, self.used) {
            self.input_byte(number, chan, byte)?;
            return Ok(());
        }
        match entry(&self.offering, chan) {
            Some(giver) => self.take_from(number, giver, chan, input_arm(chan))?,
            None => {
                set_entry(&mut self.awaiting, chan, Some(number));
                let wait = Wait::Awaits { chan };
                rest(&mut self.tasks, &mut self.ready, place, number, wait);
            }
        }
        Ok(())
    }

    /// The process takes a ready arm, or it waits at the channels of its arms.
    pub(crate) fn choose(
        &mut self,
        alloc: Global,
        keyboard: &[u8],
        place: usize,
        number: u32,
        pri: bool,
        arms: Items<Arm>,
        pick: u32,
    ) -> Result<(), (Items<Arm>, AllocError)>
        requires mid { HasSomeMid self.old number place (Wait.Chooses pri arms) }
        requires room { HasRoom self.old 1 }
        ensures ok { OnOk result
            (SettlesWith keyboard.now pick number place (Wait.Chooses pri arms) self.old self.new) }
        ensures err { IfErr result (λ e. (self.new ≡ self.old) × (e.0 ≡ arms)) }
    {
        let named = keyboard_channel(keyboard, self.used);
        let Some(at) = choose_arm(named, &self.offering, pri, pick, arms.as_slice()) else {
            set_arms(&mut self.awaiting, arms.as_slice(), Some(number));
            let wait = Wait::Chooses { pri, arms };
            rest(&mut self.tasks, &mut self.ready, place, number, wait);
            return Ok(());
        };
        let arm = match copied_arm(alloc, arms.as_slice(), at) {
            Ok(arm) => arm,
            Err(refused) => return Err((arms, refused)),
        };
        let Some(chan) = arm.chan else {
            set_wait(&mut self.tasks, number, took(arm, None));
            return Ok(());
        };
        if let Some(byte) = next_byte(chan, keyboard, self.used) {
            match self.take_byte(number, arm, byte) {
                Ok(()) => return Ok(()),
                Err(refused) => return Err((arms, refused)),
            }
        }
        let Some(giver) = entry(&self.offering, chan) else {
            unreachable!()
        };
        match self.take_from(number, giver, chan, arm) {
            Ok(()) => Ok(()),
            Err(refused) => Err((arms, refused)),
        }
    }

    /// The process halts, for good.
    pub(crate) fn halt(&mut self, place: usize, number: u32)
        requires { HasSomeMid self.old number place Wait.Halted }
        ensures { SettlesAnyhow number place Wait.Halted self.old self.new }
    {
        rest(
            &mut self.tasks,
            &mut self.ready,
            place,
            number,
            Wait::Halted,
        );
    }

    /// The process fails, and stands so for good.
    pub(crate) fn fail(&mut self, place: usize, number: u32, fault: Fault)
        requires { HasSomeMid self.old number place (Wait.Faulted fault) }
        ensures { SettlesAnyhow number place (Wait.Faulted fault) self.old self.new }
    {
        rest(
            &mut self.tasks,
            &mut self.ready,
            place,
            number,
            Wait::Faulted(fault),
        );
        self.fault = first_of(self.fault, fault);
    }
}
