//! The choices of a run.
ghost use Rattle.std.specs.Prelude.{◌≡◌, Some, length, slice_get};
ghost use Rattle.occ_choices.specs.Plans.{choices_of, turns_from};

use occ_net_replay::Choice;

/// The choices of a run.
#[derive(Drop)]
pub enum Plan {
    /// So many turns, of which the one with number k, from 0, has `which` k and `pick` 0.
    Turns(u32),
    /// These choices, in order.
    Choices(Vec<Choice>),
}

impl Plan {
    /// How many choices there are.
    pub fn len(&self) -> usize
        ensures { result ≡ length (choices_of self.now) }
    {
        match self {
            Plan::Turns(turns) => *turns as usize,
            Plan::Choices(choices) => choices.len(),
        }
    }

    /// The choice with this number, from 0; none past the last.
    pub fn at(&self, number: usize) -> Option<Choice>
        ensures { result ≡ slice_get (choices_of self.now) number }
    {
        match self {
            Plan::Turns(turns) => turn_at(number, *turns),
            Plan::Choices(choices) => choices.get(number).copied(),
        }
    }
}

fn turn_at(number: usize, turns: u32) -> Option<Choice>
    ensures { result ≡ slice_get (turns_from 0 turns) number }
{
    if number < turns as usize {
        let which = number as u32;
        Some(Choice { which, pick: 0 })
    } else {
        None
    }
}
