//! Reading whole texts.
//!
//! [`parse`] answers the one tree whose written form is the lines of a text, and refuses only where
//! no tree has them, or memory runs out.
//!
//! ```
//! let hello = b"PROC main (CHAN OF BYTE keyboard, screen)\n  screen ! 'A'\n:\n";
//! let program = parse(alloc, &read_lines(alloc, hello)?)?;
//! assert_eq!(rt; program.items.len(), 1);
//! ```
#![tactic(auto)]

mod text;

pub use occ_tree_grammar::ParseFault;
pub use occ_tree_grammar::tree::process::{Program, Stmt};
pub use text::parse;
