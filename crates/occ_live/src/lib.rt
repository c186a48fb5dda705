//! A run that gets the keyboard's bytes while it goes on, and whose screen is written while it goes on. [`run_live`] reads only where
//! what comes next depends on whether the keyboard has another byte, and writes what the screen has before it reads. What it
//! comes to is what a run comes to that had these bytes from the start. [`play_live`] plays a source so, and writes its answer.
#![tactic(auto)]

mod asking;
mod fault;
pub mod laws;
mod living;
mod playing;
mod reading;
mod screen;

pub use fault::{LiveFault, LivePlayFault};
pub use living::{Lived, run_live};
pub use playing::{LivePlayed, play_live};
