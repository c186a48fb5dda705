//! Limits of a text.

/// How many levels of lines may stand within one another, and how many brackets may stand open at one
/// place.
pub const MOST_LEVELS: u32 = 64;
