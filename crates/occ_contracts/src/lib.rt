//! Laws that the public contracts of the doors fix what is answered. Each law is a small caller, which knows nothing but the
//! contracts. Calls with equal inputs give the same where both give something. Where one is refused and the other is not, memory
//! ran out; in a law of threads, or where a law says so, it may be another cause. Why a call is refused is fixed where a law says so.
#![tactic(auto)]

pub mod board;
pub mod code;
pub mod names;
pub mod network;
pub mod process;
pub mod runs;
pub mod shown;
pub mod text;
pub mod tree_grammar;
pub mod usage;
pub mod workers;
