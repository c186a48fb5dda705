//! Turns of a process.
ghost use Rattle.std.specs.Prelude.{◌≡◌, ◌<◌, ◌≤◌, ◌+◌, ◌^◌, length, IfErr, IfOk, OnOk};
ghost use Rattle.std.specs.Arc.{arc_value};
ghost use Rattle.occ_proc.specs.Stretches.{CanTakeUpTo};
ghost use Rattle.occ_proc.specs.Turns.{HasStop, ended_task};
ghost use Rattle.occ_contracts.specs.Agreement.{BothGive, SameAfter};

use occ_machine::{Body, Task};
use occ_proc::{Scratch, Segment, TurnEnd, advance, advance_row, advance_to_end, turn};
use std::alloc::{AllocError, Global};
use std::sync::Arc;

/// A turn that is answered is of the body and from the task that were given. A refusal hands the task back.
pub fn turn_of_given(
    alloc: Global,
    body: Arc<Body, Global>,
    before: Task,
) -> Result<Segment, (Task, AllocError)>
    requires small { length (arc_value body).code + 1 < 2 ^ 32 }
    requires counts { before.turns + 1 < 2 ^ 64 }
    requires stops { HasStop (arc_value body) before }
    ensures given { IfOk result (λ s. (s.body ≡ arc_value body) × (s.before ≡ before)) }
    ensures back { IfErr result (λ e. e.0 ≡ before) }
{
    turn(alloc, body, before)
}

/// The body and the task before a turn fix the task after it.
pub fn one_turn(one: &Segment, other: &Segment)
    requires body { one.now.body ≡ other.now.body }
    requires before { one.now.before ≡ other.now.before }
    ensures { one.now ≡ other.now }
{
    let _after = one.after();
    let _same = other.after();
}

/// What is read of a turn is fixed.
pub fn parts_twice<'a>(
    one: &'a Segment,
    other: &'a Segment,
) -> ((&'a Task, &'a Task), (&'a Task, &'a Task))
    requires { other.now ≡ one.now }
    ensures before { result.0.0.now ≡ result.1.0.now }
    ensures after { result.0.1.now ≡ result.1.1.now }
{
    ((one.before(), one.after()), (other.before(), other.after()))
}

/// The parts of a turn make it up again.
pub fn taken_apart(segment: Segment) -> Segment
    ensures { result ≡ segment }
{
    let (body, before, after) = segment.into_parts();
    Segment::from_parts(body, before, after)
}

/// A turn in place comes to the task of that turn.
pub fn turn_in_place(
    alloc: Global,
    segment: &Segment,
    scratch: &mut Scratch,
    task: &mut Task,
) -> Result<(), AllocError>
    requires same { task.old ≡ segment.now.before }
    requires small { length segment.now.body.code + 1 < 2 ^ 32 }
    requires counts { task.old.turns + 1 < 2 ^ 64 }
    requires stops { HasStop segment.now.body task.old }
    ensures { OnOk result (task.new ≡ segment.now.after) }
{
    let _ = segment.after();
    advance(alloc, segment.body(), scratch, task)
}

/// Two turns in place come to one task.
pub fn advance_twice(
    alloc: Global,
    body: &Body,
    scratch: &mut Scratch,
    task: &mut Task,
    same_task: &mut Task,
) -> (Result<(), AllocError>, Result<(), AllocError>)
    requires same { same_task.old ≡ task.old }
    requires small { length body.now.code + 1 < 2 ^ 32 }
    requires counts { task.old.turns + 1 < 2 ^ 64 }
    requires stops { HasStop body.now task.old }
    ensures { BothGive (λ _ _. task.new ≡ same_task.new) result.0 result.1 }
{
    (
        advance(alloc, body, scratch, task),
        advance(alloc, body, scratch, same_task),
    )
}

/// So it is where the task is handed over with what the process stands at.
pub fn advance_to_end_twice(
    alloc: Global,
    body: &Body,
    room: &mut Scratch,
    one: &mut Task,
    spare: &mut Scratch,
    two: &mut Task,
) -> (Result<TurnEnd, AllocError>, Result<TurnEnd, AllocError>)
    requires same { two.old ≡ one.old }
    requires small { length body.now.code + 1 < 2 ^ 32 }
    requires counts { one.old.turns + 1 < 2 ^ 64 }
    requires stops { HasStop body.now one.old }
    ensures { BothGive (λ x y. ended_task one.new room.new x ≡ ended_task two.new spare.new y)
        result.0 result.1 }
{
    (
        advance_to_end(alloc, body, room, one),
        advance_to_end(alloc, body, spare, two),
    )
}

/// As many turns in a row lead to one task. How many are taken is not fixed: one at least, and no more than may be.
pub fn advance_row_twice(
    alloc: Global,
    body: &Body,
    room: &mut Scratch,
    one: &mut Task,
    spare: &mut Scratch,
    two: &mut Task,
    most: u32,
) -> (
    Result<(u32, TurnEnd), AllocError>,
    Result<(u32, TurnEnd), AllocError>,
)
    requires same { two.old ≡ one.old }
    requires small { length body.now.code + 1 < 2 ^ 32 }
    requires some { 0 < most }
    requires goes { CanTakeUpTo body.now most one.old }
    ensures one_task { BothGive (SameAfter (ended_task one.new room.new) (ended_task two.new spare.new))
        result.0 result.1 }
    ensures within { IfOk result.0 (λ r. (0 < r.0) × (r.0 ≤ most)) }
{
    (
        advance_row(alloc, body, room, one, most),
        advance_row(alloc, body, spare, two, most),
    )
}
