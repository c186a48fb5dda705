//! Tests of runs by several threads.

mod held;
mod meeting;
mod runs;
mod watched;
