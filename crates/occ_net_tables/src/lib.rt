//! The network of a program's processes in code: who may take a turn, who waits for whom, and what happens
//! when one has taken a turn. [`run`] promises the replay of a plan's choices, with its ending and its
//! communications, which a [`Trace`] holds.
#![tactic(auto)]

mod asking;
mod channel_ends;
mod choosing;
mod copying;
mod counting;
mod entries;
mod forking;
mod joining;
mod lists;
mod meeting;
pub mod messages;
pub mod news;
mod pieces;
mod reading;
mod ready;
pub mod running;
mod settling;
mod shapes;
pub mod tables;
mod tasks;
pub mod trace;
pub mod trace_entries;
pub mod turning;

pub use messages::{MessageView, PartView, PartViews};
pub use news::{Mark, News};
pub use running::{Keep, Outcome, Ran, run, run_tables};
pub use tables::Tables;
pub use trace::Trace;
pub use trace_entries::{Entries, Entry};
pub use turning::Begun;
