//! Who is at the other ends of channels where a run has not ended, and what kind of stop it has come to: [`process_uses`] tells what
//! each process of a program uses, [`ends_of`] which of those that are left may be at the ends of each channel, and [`left_in`] finds
//! processes that wait for one another in a circle, those that were halted, and those that were to come to their ends.
#![tactic(auto)]

mod circling;
mod endless;
pub mod ends;
pub mod for_good;
pub mod kinds;
pub mod uses;

pub use ends::{Ends, ends_of};
pub use for_good::{circles_wait_for_good, closed_sets_wait_for_good, stuck_in, waiting_in};
pub use kinds::{Kind, Left, kind_in, left_in};
pub use uses::{ProcessUses, process_uses};
