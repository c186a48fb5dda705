//! What happens at once where a process stands at something after its turn, and turns that were taken elsewhere: the last
//! one's task takes its process's place, and what that makes possible happens, or nothing changes.
ghost use Rattle.std.specs.Prelude.{◌≡◌, IfErr, IfOk, OnOk};
ghost use Rattle.occ_net_tables.specs.Room.{AreSame, HasRoom, more_ready};
ghost use Rattle.occ_net_tables.specs.Settling.{HasMid, IsTurnAt, Settles, Standing, StandsBehind, TakesLast, TakesTurnAt};

use crate::tables::Tables;
use crate::tasks::{is_ready, swap_task};
use occ_machine::{Code, Task, Wait};
use std::alloc::{AllocError, Global};
use std::mem;

/// How many more processes may be ready after a turn that ended so.
fn more_ready(wait: &Wait) -> usize
    ensures { result ≡ more_ready wait.now }
{
    match wait {
        Wait::Joins { branches } => branches.len(),
        _ => 1,
    }
}

impl Tables {
    /// The process at this place among the ready ones has taken a turn, and this is its task after
    /// it: what that makes possible happens. The error hands the task back, after a refused growth;
    /// then nothing has changed.
    pub fn settle_turn(
        &mut self,
        alloc: Global,
        code: &Code,
        keyboard: &[u8],
        place: usize,
        number: u32,
        after: Task,
        pick: u32,
    ) -> Result<(), (Task, AllocError)>
        requires standing { Standing code.now keyboard.now self.old }
        requires turn { IsTurnAt code.now self.old place number after }
        ensures ok { OnOk result (TakesTurnAt code.now keyboard.now place pick self.old self.new) }
        ensures err { IfErr result (λ e. AreSame self.old self.new × (e.0 ≡ after)) }
    {
        match self.settle_last(alloc, code, keyboard, place, number, after, pick) {
            Ok(_before) => Ok(()),
            Err(refused) => Err(refused),
        }
    }

    /// The process at this place among the ready ones has taken turns of which each but the last left it ready, and this is
    /// its task after the last one: what that makes possible happens. The task that it had here is handed out. The error hands the
    /// task back, after a refused growth; then nothing has changed.
    pub fn settle_last(
        &mut self,
        alloc: Global,
        code: &Code,
        keyboard: &[u8],
        place: usize,
        number: u32,
        after: Task,
        pick: u32,
    ) -> Result<Task, (Task, AllocError)>
        requires { StandsBehind code.now keyboard.now self.old place number after }
        ensures ok { IfOk result
            (TakesLast code.now keyboard.now self.old place number after pick self.new) }
        ensures err { IfErr result (λ e. AreSame self.old self.new × (e.0 ≡ after)) }
    {
        code.compiled();
        let mut task = after;
        let wait = mem::replace(&mut task.wait, Wait::Ready);
        let before = swap_task(&mut self.tasks, number, task);
        match self.settle(alloc, code, keyboard, place, number, wait, pick) {
            Ok(()) => Ok(before),
            Err((wait, refused)) => {
                let mut task = swap_task(&mut self.tasks, number, before);
                task.wait = wait;
                Err((task, refused))
            }
        }
    }

    /// Room for so many more processes that may be ready.
    pub(crate) fn make_room(&mut self, more: usize) -> Result<(), AllocError>
        ensures same { AreSame self.old self.new }
        ensures room { OnOk result (HasRoom self.new more) }
    {
        self.ready.reserve(more)?;
        Ok(())
    }

    /// What happens at once where a process stands at this after its turn. After a refused growth
    /// nothing has changed.
    pub(crate) fn settle(
        &mut self,
        alloc: Global,
        code: &Code,
        keyboard: &[u8],
        place: usize,
        number: u32,
        wait: Wait,
        pick: u32,
    ) -> Result<(), (Wait, AllocError)>
        requires { HasMid code.now self.old number place wait }
        ensures ok { OnOk result
            (Settles code.now keyboard.now pick number place wait self.old self.new) }
        ensures err { IfErr result (λ e. AreSame self.old self.new × (e.0 ≡ wait)) }
    {
        if is_ready(&wait) {
            return Ok(());
        }
        match self.make_room(more_ready(&wait)) {
            Ok(()) => {}
            Err(refused) => return Err((wait, refused)),
        }
        self.meet(alloc, code, keyboard, place, number, wait, pick)?;
        Ok(())
    }

    /// The same, where there is room.
    fn meet(
        &mut self,
        alloc: Global,
        code: &Code,
        keyboard: &[u8],
        place: usize,
        number: u32,
        wait: Wait,
        pick: u32,
    ) -> Result<(), (Wait, AllocError)>
        requires mid { HasMid code.now self.old number place wait }
        requires room { HasRoom self.old (more_ready wait) }
        ensures ok { OnOk result
            (Settles code.now keyboard.now pick number place wait self.old self.new) }
        ensures err { IfErr result (λ e. (self.new ≡ self.old) × (e.0 ≡ wait)) }
    {
        match wait {
            Wait::Ready => Ok(()),
            Wait::Offers { chan, message } => match self.offer(place, number, chan, message, pick) {
                Ok(()) => Ok(()),
                Err((message, refused)) => Err((Wait::Offers { chan, message }, refused)),
            },
            Wait::Awaits { chan } => match self.await_on(keyboard, place, number, chan) {
                Ok(()) => Ok(()),
                Err(refused) => Err((Wait::Awaits { chan }, refused)),
            },
            Wait::Chooses { pri, arms } => match self.choose(
                alloc, keyboard, place, number, pri, arms, pick,
            ) {
                Ok(()) => Ok(()),
                Err((arms, refused)) => Err((Wait::Chooses { pri, arms }, refused)),
            },
            Wait::Joins { branches } => match self.fork(alloc, code, place, number, branches) {
                Ok(()) => Ok(()),
                Err((branches, refused)) => Err((Wait::Joins { branches }, refused)),
            },
            Wait::Done => {
                self.finish(code, place, number);
                Ok(())
            }
            Wait::Halted => {
                self.halt(place, number);
                Ok(())
            }
            Wait::Faulted(fault) => {
                self.fail(place, number, fault);
                Ok(())
            }
            Wait::Took { .. } => unreachable!(),
        }
    }
}
