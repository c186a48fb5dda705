//! The choices of a run: a [`Plan`] of them, and files of them, by which a run is played again.
//! [`read_choices`] reads back just what [`choices_text`] writes, and names the line of anything else. And how
//! many workers may take the turns of a run ([`is_crew`]).
#![tactic(auto)]

pub mod crew;
pub mod fault;
pub mod laws;
pub mod plan;
mod read;
mod write;

pub use crew::{MOST_WORKERS, is_crew};
pub use fault::ChoiceFault;
pub use plan::Plan;
pub use read::{MOST_CHOICES, read_choices};
pub use write::choices_text;
