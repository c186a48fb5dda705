//! The words and logical lines of a text. [`read_lines`] answers the lines that the definitions have for
//! the text's bytes, and refuses only a text that has none.
//!
//! ```
//! let source = read_lines(alloc, b"SEQ\n  x := 1\n")?;
//! assert_eq!(rt; source.lines.len(), 2);
//! ```
#![tactic(auto)]

mod class;
pub mod fault;
mod keyword;
pub mod laws;
mod literal;
mod number;
mod read;
mod symbol;
pub mod token;
mod words;

pub use fault::TextFault;
pub use read::read_lines;
pub use token::{Key, Line, Source, Sym, Token};
