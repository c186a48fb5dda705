//! Where a run stands. [`places_of`] tells of each process the PROC that its branch calls, and the line of what it stops at: it goes
//! through the tree as the unfolding does, and tells a line only where the code has what the tree has, place by place.
//! [`report`] tells of each process that is left on which channel it waits, with which message, and who is at its other end.
//! [`TurnLines`] are a line for each turn of a run, and [`first_past`] finds a choice that names none of the processes that are ready.
#![tactic(auto)]

mod agreement;
mod arms;
pub mod calls;
mod components;
mod ended;
mod faults;
mod formals;
mod heads;
mod kinds;
mod marks;
mod naming;
mod parts;
mod past;
pub mod places;
pub mod placing;
mod process_lines;
pub mod reporting;
mod scope;
mod source_lines;
mod standing;
mod stepping;
pub mod stop;
mod stops;
mod taking;
mod text_lines;
pub mod turn_lines;
mod walk;

pub use calls::Call;
pub use past::first_past;
pub use places::Places;
pub use placing::places_of;
pub use reporting::{circle_of, report};
pub use stop::{Kind, Stop};
pub use turn_lines::TurnLines;
