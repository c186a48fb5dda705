//! A list of communications that one publisher makes longer, and at which watchers look without waiting for anybody. What a
//! watcher sees begins with all that it saw before and with all that it was told of; a [`Note`] stands for a list that was
//! published.
#![tactic(auto)]

mod front;
mod publisher;
mod shown;
mod trace;
mod watcher;

pub use front::{Front, Head, Naming, open_history};
pub use publisher::{Board, BoardFault, Opened, Publisher};
pub use shown::{Edition, Shown};
pub use watcher::{Note, Watcher};
