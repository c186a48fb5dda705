//! A turn that was taken.
ghost use Rattle.std.specs.Prelude.{◌≡◌, ◌<◌, ◌+◌, ◌^◌, IfErr, IfOk, length};
ghost use Rattle.std.specs.Arc.{arc_value};
ghost use Rattle.occ_machine.specs.Machine.{Stopping};
ghost use Rattle.occ_proc.specs.Turns.{HasStop, Taken};

use crate::scratch::Scratch;
use crate::turns::advance;
use occ_machine::{Body, Task};
use std::alloc::{AllocError, Global};
use std::marker::Model;
use std::sync::Arc;

/// A turn that was taken: the task after it is what the body gives from the task before it at its
/// next stop.
pub struct Segment {
    body: Arc<Body, Global>,
    before: Task,
    after: Task,
}

impl Drop for Segment {
    fn drop(self) {
        let Segment {
            body: _,
            before: _,
            after: _,
        } = self;
    }
}

impl Model for Segment {
    ghost use Rattle.std.specs.Arc.{arc_value};
    ghost use Rattle.occ_machine.specs.Machine.{Stopping};
    ghost use Rattle.occ_proc.specs.Turns.{Taken};

    ghost Value = { Taken };

    ghost view = { λ s. record { body = arc_value s.body; before = s.before; after = s.after } };

    ghost invariant = { λ s. Stopping (arc_value s.body) s.before s.after };
}

impl Segment {
    /// The body.
    pub fn body(&self) -> &Arc<Body, Global>
        ensures { arc_value result.now ≡ self.now.body }
    {
        &self.body
    }

    /// The task before the turn.
    pub fn before(&self) -> &Task
        ensures { result.now ≡ self.now.before }
    {
        &self.before
    }

    /// The task after the turn.
    pub fn after(&self) -> &Task
        ensures after { result.now ≡ self.now.after }
        ensures turn { Stopping self.now.body self.now.before self.now.after }
    {
        &self.after
    }

    /// The body, and the tasks before and after the turn.
    pub fn into_parts(self) -> (Arc<Body, Global>, Task, Task)
        ensures body { arc_value result.0 ≡ self.body }
        ensures before { result.1 ≡ self.before }
        ensures after { result.2 ≡ self.after }
        ensures turn { Stopping (arc_value result.0) result.1 result.2 }
    {
        let Segment {
            body,
            before,
            after,
        } = self;
        (body, before, after)
    }

    /// The turn that these are the parts of.
    pub fn from_parts(body: Arc<Body, Global>, before: Task, after: Task) -> Segment
        requires { Stopping (arc_value body) before after }
        ensures { result ≡ record { body = arc_value body; before = before; after = after } }
    {
        Segment {
            body,
            before,
            after,
        }
    }
}

/// Takes the next turn of a task, on a copy of it. The error hands the task back, after a refused
/// growth.
pub fn turn(
    alloc: Global,
    body: Arc<Body, Global>,
    before: Task,
) -> Result<Segment, (Task, AllocError)>
    requires small { length (arc_value body).code + 1 < 2 ^ 32 }
    requires counts { before.turns + 1 < 2 ^ 64 }
    requires stops { HasStop (arc_value body) before }
    ensures ok { IfOk result (λ s. (s.body ≡ arc_value body) × (s.before ≡ before)) }
    ensures err { IfErr result (λ e. e.0 ≡ before) }
{
    match task_after(alloc, &body, &before) {
        Ok(after) => Ok(Segment {
            body,
            before,
            after,
        }),
        Err(refused) => Err((before, refused)),
    }
}

/// The task after the next turn.
fn task_after(alloc: Global, body: &Body, before: &Task) -> Result<Task, AllocError>
    requires small { length body.now.code + 1 < 2 ^ 32 }
    requires counts { before.now.turns + 1 < 2 ^ 64 }
    requires stops { HasStop body.now before.now }
    ensures { IfOk result (λ after. Stopping body.now before.now after) }
{
    let mut scratch = Scratch::new(alloc);
    let mut after = before.copy(alloc)?;
    advance(alloc, body, &mut scratch, &mut after)?;
    Ok(after)
}
