//! What a run shows, in bytes: [`answer`] has those of the screen and of the error channel, the trace's
//! lines and the line of the ending, and [`write_answer`] writes them and counts refused writes. [`shown_as`] is
//! what watchers of a run are shown of a communication, and [`watch_lines`] its lines. [`write_line`] and [`write_object`] write one
//! communication, as a line of the answer and as a line of JSON, [`object_line`] writes an object with named members, and [`page`] a page
//! that shows runs in a browser.
#![tactic(auto)]

pub mod counted;
mod json_values;
mod lines;
mod messages;
pub mod object;
pub mod page_foot;
pub mod page_head;
mod pages;
mod showing;
mod values;
mod watching;

pub use counted::{Counted, write_answer};
pub use lines::{write_ending, write_object};
pub use messages::write_message;
pub use object::{Member, Value, object_line};
pub use pages::{RunTexts, page};
pub use showing::{answer, channel_bytes, write_bytes, write_line};
pub use values::{tag_name, write_array, write_name, write_numbers, write_value};
pub use watching::{is_shown, shown_as, watch_lines};
