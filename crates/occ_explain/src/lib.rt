//! Why a text is refused, in words: [`explain`] answers the place of the mistake, what is wrong there and how it is
//! mended, and [`explained`] writes that.
#![tactic(auto)]

mod breaks;
mod calls;
mod cause_table;
mod causes;
mod class;
mod context;
pub mod explaining;
mod finding;
mod fronts;
mod headings;
mod hints;
mod kinds;
mod large;
mod leaving;
mod levels;
mod logical;
mod messages;
mod mismatch;
mod names;
mod odd;
mod place;
pub mod refusal;
mod scan;
mod scope;
mod sentence;
mod shapes;
mod telling;
pub mod text;
mod types;
mod uses;
mod words;

pub use explaining::{Explanation, explain};
pub use refusal::{Reader, Refusal};
pub use text::explained;
