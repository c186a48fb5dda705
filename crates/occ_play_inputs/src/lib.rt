//! What the command line asks for: [`read_words`] reads its words, [`read_source`] the source that they name, [`read_specification`]
//! the one that it is compared with, [`read_beside`] what is typed and the choices, and [`seeded_plan`] makes choices from a number.
//! A [`Failure`] says why nothing came of them, [`nameless`] that a word names no process. [`check_files`] refuses to write into what is read.
#![tactic(auto)]

mod apart;
mod command;
pub mod failure;
pub mod graphs;
pub mod inputs;
mod numbers;
mod paths;
mod seeds;
pub mod words;

pub use apart::check_files;
pub use failure::{Failure, Stream, Trouble};
pub use graphs::named_form;
pub use inputs::{Inputs, Joined, read_beside, read_source, read_specification};
pub use seeds::seeded_plan;
pub use words::{Words, nameless, read_words};
