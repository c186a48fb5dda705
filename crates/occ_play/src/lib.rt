//! Plays occam programs: from a source text and the keyboard's bytes to the answer's bytes. [`play_in`]
//! and [`play_workers_in`] promise that the answer of an accepted program is shown by a run of its source
//! under the rules of the language, with that run's ending, and that a text is refused only where the
//! definitions refuse it.
//!
//! ```
//! let hello = b"PROC main (CHAN OF BYTE keyboard, screen)\n  screen ! 'A'\n:\n";
//! let mut screen = Counted::new(Vec::new(alloc));
//! let played = play(alloc, hello, b"", &Plan::Turns(10), false, &mut screen)?;
//! assert_eq!(rt; played.ending, Ending::Ended);
//! ```
#![tactic(auto)]

pub mod fault;
pub mod laws;
pub mod playing;
pub mod watched;
pub mod workers;

pub use fault::PlayFault;
pub use occ_board::{Board, BoardFault, Naming, Note, Opened, Publisher, Shown, Watcher};
pub use occ_choices::{ChoiceFault, Plan, choices_text, read_choices};
pub use occ_net_replay::Choice;
pub use occ_run::{FreeGate, Gate, RunFault};
pub use occ_shown::{Counted, watch_lines};
pub use occ_term::{Communication, End, Ending, Errors};
pub use playing::{
    Options, Played, code_of, play, play_in, status_of, status_of_fault, unfolded_of,
};
pub use watched::play_watched;
pub use workers::{play_workers, play_workers_in};
