//! Laws of the definitions that no other crate rests on, and small programs whose runs show what the definitions mean.
//!
//! Each function's contract is a law, or the runs of a program; its body does nothing. What an arm that is taken sets again has its laws
//! in `occ_term::laws`, beside the definitions whose wrong forms they refuse.
#![tactic(auto)]

pub mod expressions;
pub mod faults;
pub mod networks;
pub mod processes;
pub mod runs;
pub mod steps;
pub mod turns;
pub mod usage;
pub mod values;
