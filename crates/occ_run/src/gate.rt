//! What every turn of a worker goes through, outside the lock.
ghost use Rattle.std.specs.Prelude.{◌≡◌, ◌<◌, ◌+◌, ◌^◌, IfErr, IfOk, OnOk, length};
ghost use Rattle.std.specs.Arc.{arc_value};
ghost use Rattle.occ_machine.specs.Machine.{Stopping};
ghost use Rattle.occ_proc.specs.Turns.{HasStop};

use occ_machine::{Body, Task};
use occ_proc::{Scratch, Segment, advance, turn};
use std::alloc::{AllocError, Global};
use std::sync::Arc;

/// What every turn of a worker goes through, outside the lock.
pub trait Gate {
    /// Takes the next turn of a task, as `occ_proc::turn` does.
    fn run(
        &self,
        alloc: Global,
        body: Arc<Body, Global>,
        before: Task,
    ) -> Result<Segment, (Task, AllocError)>
        requires small { length (arc_value body).code + 1 < 2 ^ 32 }
        requires counts { before.turns + 1 < 2 ^ 64 }
        requires stops { HasStop (arc_value body) before }
        ensures ok { IfOk result (λ s. (s.body ≡ arc_value body) × (s.before ≡ before)) }
        ensures err { IfErr result (λ e. e.0 ≡ before) };

    /// Takes the next turn of a task in its place, as `occ_proc::advance` does: by `run`, on a copy of it, unless the gate knows
    /// better. After a refused growth the task is not to be used.
    fn go_on(
        &self,
        alloc: Global,
        scratch: &mut Scratch,
        body: &Arc<Body, Global>,
        task: &mut Task,
    ) -> Result<(), AllocError>
        requires small { length (arc_value body.now).code + 1 < 2 ^ 32 }
        requires counts { task.old.turns + 1 < 2 ^ 64 }
        requires stops { HasStop (arc_value body.now) task.old }
        ensures { OnOk result (Stopping (arc_value body.now) task.old task.new) }
    {
        let _scratch = scratch;
        let body = Arc::try_clone(body)?;
        let before = task.copy(alloc)?;
        match self.run(alloc, body, before) {
            Ok(segment) => {
                let (_, _, after) = segment.into_parts();
                *task = after;
                Ok(())
            }
            Err((_, refused)) => Err(refused),
        }
    }
}

/// A gate that takes each turn at once.
#[derive(Clone, Copy)]
pub struct FreeGate;

impl Gate for FreeGate {
    fn run(
        &self,
        alloc: Global,
        body: Arc<Body, Global>,
        before: Task,
    ) -> Result<Segment, (Task, AllocError)> {
        turn(alloc, body, before)
    }

    fn go_on(
        &self,
        alloc: Global,
        scratch: &mut Scratch,
        body: &Arc<Body, Global>,
        task: &mut Task,
    ) -> Result<(), AllocError> {
        advance(alloc, body, scratch, task)
    }
}
