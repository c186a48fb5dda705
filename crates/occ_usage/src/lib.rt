//! The usage rules: what a term uses, and whether branches of its PARs share what they may not.
//! [`check_usage`] answers a [`Checked`] program, which is lawful as [`occ_term`]'s `Uses` has it, or the
//! first clash in the order of the text.
//!
//! ```
//! let twice = b"PROC main (CHAN OF BYTE keyboard, screen)\n  PAR\n    screen ! 'A'\n    screen ! 'B'\n:\n";
//! let program = parse(alloc, &read_lines(alloc, twice)?)?;
//! let unfolded = unfold(alloc, &program)?;
//! assert!(rt; check_usage(alloc, unfolded).is_err()); // two branches output on one channel
//! ```
#![tactic(auto)]

pub mod checked;
mod clashes;
mod expressions;
mod heads;
mod index;
mod noted;
mod places;
mod terms;

pub use checked::{Checked, Refused, UsageFault, check_usage, term_uses};
pub use noted::{Kind, Use};
