//! Forks: the branches of a process begin, and it waits for their end.
ghost use Rattle.std.specs.Prelude.{◌≡◌, ◌≤◌, ◌+◌, ◌∷◌, [], IfErr, IfOk, OnOk, length, vec_capacity, vec_len};
ghost use Rattle.occ_machine.specs.declared.task.Task.{Task};
ghost use Rattle.occ_net_replay.specs.Replay.{turns_at};
ghost use Rattle.occ_net_tables.specs.Room.{AreFirstFrames, BeginFrom, HasOneMore, HasRoom};
ghost use Rattle.occ_net_tables.specs.Settling.{AllBeganWith, BeganWith, BranchesMayBegin, HasMid, SettlesIn};
ghost use Rattle.occ_net_tables.specs.Tasks.{IsThere};

use crate::copying::branch_frames;
use crate::entries::{set_count, set_entry};
use crate::ready::insert;
use crate::tables::Tables;
use crate::tasks::{put_task, take_task};
use occ_machine::{Code, Task, Wait};
use occ_term::Frame;
use sqlite_items::Items;
use std::alloc::{AllocError, Global};

/// How many turns the process has taken, in earlier forks.
pub(crate) fn turns_at(tasks: &[Option<Task>], number: u32) -> u64
    ensures { result ≡ turns_at tasks.now number }
{
    match tasks.get(number as usize) {
        Some(Some(task)) => task.turns,
        _ => 0,
    }
}

/// The frames with which the branches of a process begin.
fn frames_of(
    alloc: Global,
    code: &Code,
    tasks: &[Option<Task>],
    number: u32,
    branches: &[u32],
) -> Result<Vec<Frame>, AllocError>
    requires { IsThere tasks.now number }
    ensures { IfOk result (BeginFrom code.now tasks.now number branches.now) }
{
    match &tasks[number as usize] {
        Some(task) => branch_frames(alloc, code, &task.frame, branches),
        None => unreachable!(),
    }
}

impl Tables {
    /// A branch begins, with this frame.
    fn begin(&mut self, code: &Code, parent: u32, frame: Frame, number: u32)
        requires may { BranchesMayBegin code.now self.old (number ∷ []) }
        requires room { vec_len self.old.ready + 1 ≤ vec_capacity self.old.ready }
        ensures began { BeganWith code.now parent frame self.old number self.new }
        ensures room { HasOneMore self.old.ready self.new.ready }
    {
        let turns = turns_at(&self.tasks, number);
        let task = Task {
            number,
            turns,
            pc: 0,
            frame,
            wait: Wait::Ready,
        };
        insert(&mut self.ready, number);
        put_task(&mut self.tasks, number, task);
        set_entry(&mut self.parents, number, Some(parent));
    }

    /// The branches begin, each with its frame.
    fn begin_all(&mut self, code: &Code, parent: u32, frames: Vec<Frame>, branches: &[u32])
        requires may { BranchesMayBegin code.now self.old branches.now }
        requires frames { AreFirstFrames code.now.bodies frames.items branches.now }
        requires room { vec_len self.old.ready + length branches.now ≤ vec_capacity self.old.ready }
        ensures { AllBeganWith code.now parent frames.items self.old branches.now self.new }
    {
        let mut left = frames.into_iter();
        for number in branches {
            let Some(frame) = left.next() else {
                unreachable!()
            };
            self.begin(code, parent, frame, *number);
        }
    }

    /// The branches begin, and the process waits for their end.
    pub(crate) fn fork(
        &mut self,
        alloc: Global,
        code: &Code,
        place: usize,
        number: u32,
        branches: Items<u32>,
    ) -> Result<(), (Items<u32>, AllocError)>
        requires mid { HasMid code.now self.old number place (Wait.Joins branches) }
        requires room { HasRoom self.old (length branches) }
        ensures ok { OnOk result
            (SettlesIn code.now number place (Wait.Joins branches) self.old self.new) }
        ensures err { IfErr result (λ e. (self.new ≡ self.old) × (e.0 ≡ branches)) }
    {
        let frames = match frames_of(alloc, code, &self.tasks, number, branches.as_slice()) {
            Ok(frames) => frames,
            Err(refused) => return Err((branches, refused)),
        };
        self.ready.remove(place);
        let mut task = take_task(&mut self.tasks, number);
        self.begin_all(code, number, frames, branches.as_slice());
        set_count(&mut self.unfinished, number, branches.len());
        task.wait = Wait::Joins { branches };
        put_task(&mut self.tasks, number, task);
        Ok(())
    }
}
