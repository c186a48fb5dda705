//! What is told behind the first line of a refused text, and of a run: [`explained_fault`] has the explanation of a refusal,
//! [`refusal_object`] the same as an object of JSON, [`unreached_told`] the PROCs that no call reaches. [`study`] reads a source once;
//! by what it finds [`report_of`] tells what each process stands at that is left, [`chart_of`] draws a chart with the names of the PROCs, [`nameless`] finds a word that names none of its columns,
//! [`save_steps`] writes the turns of a run into a file, [`save_trace`] its trace, [`run_texts`] what a page has of it that [`page_of`] makes, and [`past_of`] tells whether
//! choices name who is ready. [`may_input`] tells whether what is typed can change anything.
#![tactic(auto)]

mod calls;
pub mod charted;
pub mod column_names;
mod feet;
pub mod files;
pub mod keyboard;
pub mod objects;
pub mod paged;
pub mod past;
mod reached;
mod refusal_names;
pub mod refused;
pub mod reported;
pub mod stepped;
pub mod studied;
mod trace_pieces;
pub mod tracing;
mod unchecked;
pub mod unreached;

pub use charted::chart_of;
pub use column_names::nameless;
pub use files::{Files, beginnings};
pub use keyboard::may_input;
pub use objects::refusal_object;
pub use paged::{page_of, run_texts};
pub use past::past_of;
pub use refused::explained_fault;
pub use reported::report_of;
pub use stepped::save_steps;
pub use studied::{Studied, study};
pub use tracing::{Form, save_trace};
pub use unreached::unreached_told;
