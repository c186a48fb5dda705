//! The network of a program's processes as one value, [`Network`]: what it was made of determines its
//! state. Its turns go out by `lease` and are taken in by `settle`, [`run`] takes those of a plan, [`run_choices`] and
//! [`run_turns`] those of a list and so many, and
//! what was communicated is read from its trace and its histories.
#![tactic(auto)]

pub mod fault;
pub mod history;
pub mod laws;
pub mod leasing;
pub mod network;
pub mod outcome;
mod own;
mod settling;
mod stretches;

pub use fault::NetFault;
pub use history::History;
pub use leasing::Lease;
pub use network::Network;
pub use outcome::{Outcome, run, run_choices, run_turns};
