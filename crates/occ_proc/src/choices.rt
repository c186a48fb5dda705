//! Instructions that choose where a process goes on.
ghost use Rattle.std.specs.Prelude.{◌≡◌, IfOk};
ghost use Rattle.occ_term.specs.Selecting.{is_among};
ghost use Rattle.occ_machine.specs.declared.instr.Instr.TheVariants as instructions;
ghost use Rattle.occ_proc.specs.Doing.{OnStack};

use crate::numbers::number;
use crate::stack::Stack;
use crate::step::Step;
use std::alloc::AllocError;

pub(crate) fn and_then(stack: &mut Stack, skip: usize) -> Result<Step, AllocError>
    ensures { IfOk result (λ w. OnStack (instructions.AndThen skip) stack.old w stack.new) }
{
    let Some(test) = stack.pop() else {
        return Ok(Step::Stuck);
    };
    if test != 0 {
        return Ok(Step::Next);
    }
    stack.push(0)?;
    Ok(Step::Skip(skip))
}

pub(crate) fn or_else(stack: &mut Stack, skip: usize) -> Result<Step, AllocError>
    ensures { IfOk result (λ w. OnStack (instructions.OrElse skip) stack.old w stack.new) }
{
    let Some(test) = stack.pop() else {
        return Ok(Step::Stuck);
    };
    if test == 0 {
        return Ok(Step::Next);
    }
    stack.push(1)?;
    Ok(Step::Skip(skip))
}

pub(crate) fn choose(stack: &mut Stack, skip: usize) -> Step
    ensures { OnStack (instructions.Choose skip) stack.old result stack.new }
{
    let Some(test) = stack.pop() else {
        return Step::Stuck;
    };
    if test == 0 {
        return Step::Skip(skip);
    }
    stack.clear();
    Step::Next
}

pub(crate) fn if_among(
    stack: &mut Stack,
    constants: &[i64],
    skip: usize,
) -> Result<Step, AllocError>
    ensures { IfOk result
        (λ w. OnStack (instructions.IfAmong constants.now skip) stack.old w stack.new) }
{
    let Some(value) = stack.pop() else {
        return Ok(Step::Stuck);
    };
    if is_among(value, constants) {
        return Ok(Step::Next);
    }
    stack.push(value)?;
    Ok(Step::Skip(skip))
}

fn is_among(value: i64, constants: &[i64]) -> bool
    ensures { result ≡ is_among value constants.now }
{
    for constant in constants {
        if value == *constant {
            return true;
        }
    }
    false
}

/// Where no tag is left on the stack, the variants go on with the first one behind the skip.
pub(crate) fn if_tag(stack: &mut Stack, tag: u32, skip: usize) -> Result<Step, AllocError>
    ensures { IfOk result (λ w. OnStack (instructions.IfTag tag skip) stack.old w stack.new) }
{
    let Some(value) = stack.pop() else {
        return Ok(Step::Skip(skip));
    };
    if number(value) == u64::from(tag) {
        return Ok(Step::Next);
    }
    stack.push(value)?;
    Ok(Step::Skip(skip))
}

#[inline(always)]
pub(crate) fn drop_one(stack: &mut Stack) -> Step
    ensures { OnStack instructions.DropOne stack.old result stack.new }
{
    match stack.pop() {
        Some(_) => Step::Next,
        None => Step::Stuck,
    }
}
