//! The machine of one process: its instructions, its body with the entries of quick code, and its task between two turns.
//! A [`Code`] has a body for each process of a program that keeps the usage rules, and each does as its process's term
//! does, stop by stop.
#![tactic(auto)]

pub mod body;
mod channels;
pub mod code;
mod describing;
mod flat;
pub mod indices;
pub mod instr;
mod looking;
pub mod quick;
mod same_code;
pub mod task;

pub use body::Body;
pub use channels::copy_channels;
pub use code::Code;
pub use indices::Indices;
pub use instr::{Instr, Slot};
pub use quick::Quick;
pub use task::{Arm, Task, Wait};
