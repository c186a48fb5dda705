//! The program around `occ_play::play_in` and `occ_play::play_workers_in`. [`run`] reads what the words
//! name, plays it and writes the answer, and its exit status is that of what was met;
//! [`exit_code`] tells the machine so.
#![tactic(auto)]

mod choosing;
mod columns;
mod counting;
pub mod exit;
mod explaining;
mod exploring;
mod graphing;
mod keeping;
mod live;
mod looking;
mod looks;
mod page;
mod paging;
pub mod program;
mod reading;
mod recording;
mod reporting;
mod seeding;
mod telling;
mod terminal;
mod troubles;
mod typing;
mod watching;

pub use exit::exit_code;
pub use program::run;
