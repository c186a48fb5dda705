//! Reading expressions, lines and processes: `expressions`, `item`, `kind` and `list` have the parts of a line, `read_head` and
//! `read_decl` the lines, and `processes::read::process` and those beside it whole processes, line by line. Each answers what the
//! grammar reads there with what stands behind it, and refuses only where it reads nothing.
#![tactic(auto)]

pub mod expressions;
pub mod item;
pub mod kind;
pub mod list;
pub mod processes;
pub mod read_decl;
pub mod read_head;
pub mod word;
