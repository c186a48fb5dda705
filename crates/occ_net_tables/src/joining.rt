//! The end of a process, and the join of the one that waited for it.
ghost use Rattle.std.specs.Prelude.{◌<◌, vec_capacity, vec_len};
ghost use Rattle.occ_net_tables.specs.Settling.{HasMid, Joining, JoinsAll, SettlesIn};

use crate::copying::merge;
use crate::entries::{clear_entries, count_down, entry};
use crate::meeting::rest;
use crate::ready::insert;
use crate::tables::Tables;
use crate::tasks::{put_task, take_task};
use occ_machine::{Code, Wait};
use std::mem;

impl Tables {
    /// A process goes on whose branches have come to their end.
    fn join(&mut self, code: &Code, number: u32)
        requires joining { Joining self.old number }
        requires room { vec_len self.old.ready < vec_capacity self.old.ready }
        ensures { JoinsAll code.now self.old number self.new }
    {
        let mut task = take_task(&mut self.tasks, number);
        let Wait::Joins { branches } = mem::replace(&mut task.wait, Wait::Ready) else {
            unreachable!()
        };
        merge(code, &self.tasks, branches.as_slice(), &mut task.frame);
        clear_entries(&mut self.parents, branches.as_slice());
        put_task(&mut self.tasks, number, task);
        insert(&mut self.ready, number);
    }

    /// The process is at its end. Another one goes on where it waited for this one alone.
    pub(crate) fn finish(&mut self, code: &Code, place: usize, number: u32)
        requires { HasMid code.now self.old number place Wait.Done }
        ensures { SettlesIn code.now number place Wait.Done self.old self.new }
    {
        rest(&mut self.tasks, &mut self.ready, place, number, Wait::Done);
        if let Some(parent) = entry(&self.parents, number) {
            if count_down(&mut self.unfinished, parent) == 0 {
                self.join(code, parent);
            }
        }
    }
}
