//! What all runs of a source text come to, on a keyboard's bytes: [`explore_in`] searches
//! them, [`exploration_text`] says what was found, and [`laws`] has what follows for runs of the source. [`keep_in`] says whether
//! each of its runs comes to what some run of another text comes to, its specification.
//!
//! ```
//! let hello = b"PROC main (CHAN OF BYTE keyboard, screen)\n  screen ! 'A'\n:\n";
//! let (options, asked) = (Options::plain(), Asked::Answers);
//! let found = explore_in(&options, alloc, hello, b"", asked, false, false, false, 1_000, 64, &mut Untold)?;
//! assert_eq!(rt; found.answers.len(), 1); // each schedule shows the same
//! ```
#![tactic(auto)]

pub mod exploring;
pub mod graphs;
mod keeping_lines;
pub mod laws;
mod lines;
pub mod only;
mod strings;
mod using;
pub mod within;

pub use exploring::{explore_in, status_of_search};
pub use graphs::graph_text;
pub use keeping_lines::kept_text;
pub use lines::{MOST_ANSWERS, answer_line, exploration_text, found_line};
pub use occ_explore::{
    Answer, Asked, Exploration, Graph, GraphForm, Lasting, Progress, Untold, Waiting,
};
pub use only::{only_answer_in, only_text, status_of_only, turns_within};
pub use within::{KeepFault, Kept, keep_in, outside_of, status_of_kept};
