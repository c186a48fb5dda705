//! The turn of a process: its instructions, from one stop to the next. [`turn`] answers the task after it,
//! as the machine of `occ_machine` has it, and [`advance`] takes it in place.
//!
//! `quick` goes over quick code, entry by entry, as far as the room of the stack and the frame allow; what is not common goes
//! instruction by instruction.
#![tactic(auto)]

mod arms;
mod assigns;
mod choices;
mod common;
mod common_arms;
mod counters;
mod entries;
mod jumps;
mod numbers;
mod opening;
mod operands;
mod parts;
mod pushes;
mod quick;
mod replicating;
mod results;
pub mod scratch;
pub mod segment;
mod small_arms;
mod spots;
mod stack;
mod step;
mod stop;
mod stores;
mod storing;
pub mod turn_end;
mod turns;
mod values;

pub use scratch::Scratch;
pub use segment::{Segment, turn};
pub use turn_end::{TurnEnd, one_message};
pub use turns::{advance, advance_row, advance_to_end};
