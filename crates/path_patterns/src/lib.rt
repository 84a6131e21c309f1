//! Patterns of paths: which held paths a pattern matches, by a walk over directories that are read one at a time.
//!
//! It is measured by `specs/Matches.antt`, what a pattern matches and which directories are walked for it.
#![tactic(auto)]

mod directories;
mod first;
mod glob;
pub mod laws;
mod levels;
pub mod limits;
mod matches;
mod names;
mod order;
mod parts;
mod read;
mod row;
mod walk;

pub use directories::{DirError, Directories};
pub use glob::has_star;
pub use matches::{WalkError, find_matches};
