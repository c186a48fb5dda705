//! The unfolding of a tree: names, types, protocols, calls and replicators. [`unfold`] answers the one
//! program that the definitions of `occ_check_meaning` have for the tree, and refuses only a tree for which they
//! have none.
//!
//! ```
//! let hello = b"PROC main (CHAN OF BYTE keyboard, screen)\n  screen ! 'A'\n:\n";
//! let program = parse(alloc, &read_lines(alloc, hello)?)?;
//! let unfolded = unfold(alloc, &program)?;
//! assert_eq!(rt; unfolded.channels().len(), 3); // the keyboard, the screen and the error channel
//! ```
#![tactic(auto)]

mod arms;
mod blocks;
mod call;
mod choices;
mod copies;
mod entering;
mod formals;
mod given;
mod guards;
mod here;
mod one_line;
mod opened;
mod opening;
mod options;
mod process;
mod program;
mod unfolder;
mod variants;

pub use occ_check_lines::fault::CheckFault;
pub use program::unfold;
