//! Sequence charts of runs, in SVG: [`chart`] draws the first or the last communications of a trace, with a column for each
//! process and each of the keyboard, the screen and the error channel that takes part, but for processes that are left out, and at the foot
//! what each process waits for, as a [`Stub`]; [`foot_of`] has the words of what a process stands at.
#![tactic(auto)]

mod arrows;
mod charting;
mod columns;
mod feet;
mod headings;
mod heads;
mod labels;
mod left_out;
mod messages;
mod notes;
mod part;
mod places;
mod reaches;
mod stub;
mod xml;

pub use arrows::words_of;
pub use charting::chart;
pub use feet::foot_of;
pub use heads::write_end;
pub use messages::write_message;
pub use part::{MOST_ARROWS, Part};
pub use stub::Stub;
