//! Names, types, expressions, declarations and lines of a tree. Each function answers what the definitions of
//! `occ_check_meaning` give for its part of the tree under the names that are in scope, and refuses only where they give
//! nothing: `scope` has the names, `expression` and `types` what a line is made of, `declaration` and `replicator` what comes
//! into scope, `action` and those beside it whole lines, `numbers` and `measuring` what is counted. `occ_check` makes processes
//! and programs of them.
#![tactic(auto)]

pub mod action;
mod clash;
pub mod constant;
pub mod context;
pub mod declaration;
pub mod expression;
pub mod fault;
pub mod item;
pub mod known;
mod listing;
mod literal;
pub mod measuring;
mod named;
mod naming;
pub mod numbers;
pub mod operators;
pub mod overlap;
mod reading;
pub mod replicator;
pub mod scope;
mod span;
pub mod tags;
pub mod target;
pub mod typed;
pub mod types;
