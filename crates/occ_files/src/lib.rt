//! Input that is read whole or not at all: [`read_input`] reads by a [`CountedReader`], which counts the reads that
//! fail, and an [`InputFault`] says why it has no bytes to give. And files that are written so: [`save`] leaves what
//! stood in a file's place where it can't write all of the new text, which comes in [`Pieces`]. A [`Reason`] says why the system failed, [`Noting`] keeps
//! it, and [`printed_name`] is how a file's name is printed. Several files are one source by [`add_text`], and [`place_in_files`]
//! tells in which of them a line stands.
#![tactic(auto)]

pub mod fault;
pub mod folder;
pub mod joining;
pub mod names;
pub mod noting;
pub mod pieces;
pub mod places;
pub mod reader;
pub mod reason;
pub mod saving;

pub use fault::InputFault;
pub use folder::{Disk, Folder};
pub use joining::{add_text, last_line};
pub use names::printed_name;
pub use noting::Noting;
pub use pieces::{Pieces, Whole, whole_text};
pub use places::place_in_files;
pub use reader::{CountedReader, read_input};
pub use reason::{Reason, reason_of};
pub use saving::{are_one_file, save};
