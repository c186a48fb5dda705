//! What a turn works on beside the frame.

ghost use Rattle.std.specs.Prelude.{◌≡◌};
ghost use Rattle.occ_term.specs.Messages.{message};
ghost use Rattle.occ_proc.specs.Turns.{left_message};

use crate::small_arms::SmallArm;
use crate::spots::Spots;
use crate::stack::Stack;
use occ_term::{Message, Parts};
use std::alloc::Global;
use std::mem;

/// The evaluation stack, the parts of a message, the targets, and room for open arms. One serves any number of turns, of
/// any bodies, one after the other.
#[derive(Drop)]
pub struct Scratch {
    pub(crate) stack: Stack,
    pub(crate) queue: Parts,
    pub(crate) spots: Spots,
    pub(crate) opened: Vec<SmallArm>,
}

impl Scratch {
    /// An empty one.
    pub fn new(alloc: Global) -> Scratch {
        Scratch {
            stack: Stack::new(alloc),
            queue: Parts::new(),
            spots: Spots::new(alloc),
            opened: Vec::new(alloc),
        }
    }

    /// The message with this tag that a turn left, which is taken.
    pub fn take_message(&mut self, tag: Option<u32>) -> Message
        ensures { result ≡ message tag (left_message self.old) }
    {
        let items = mem::replace(&mut self.queue, Parts::new());
        Message { tag, items }
    }
}
