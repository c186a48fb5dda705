//! A network run by several threads: one lock round it, and the turns outside the lock. [`run_workers`]
//! promises that its outcome is the replay of the choices that it answers, whatever the threads did. [`run_watched`] has its
//! communications published meanwhile, for watchers who never wait. [`run_network`] and [`watch_network`] answer the network
//! itself, of which nothing is copied.
#![tactic(auto)]

mod desk;
pub mod fault;
pub mod gate;
mod progress;
pub mod run;
mod stretch;
mod taking;
mod tokens;
pub mod watched;
mod workers;

pub use fault::RunFault;
pub use gate::{FreeGate, Gate};
pub use run::{run_network, run_workers};
pub use watched::{run_watched, watch_network};
