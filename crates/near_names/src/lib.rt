//! The known names that are nearest to a word that is none of them.
//!
//! A word and known names flow in, and at most three of these flow out. It is measured by `specs/Nearest.antt`, over
//! Levenshtein's distance.
#![tactic(auto)]

mod joining;
mod near;

pub use joining::joined;
pub use near::{char_count, nearest};
