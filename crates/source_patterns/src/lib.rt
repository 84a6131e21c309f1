//! Patterns in the sources of typed modules: each is replaced by the held paths that it matches.
//!
//! Typed modules flow in and flow out, and directories are listed by the store in between. It is measured by
//! `ExpandMeans` in `specs/Expansion.antt`, a filter of the held paths, and by `specs/Walked.antt`, which directories
//! are walked.
#![tactic(auto)]

mod error;
mod expansion;
mod given;
mod groups;
mod items;
pub mod laws;
mod listings;
mod matches;
mod modules;
mod patterns;

pub use error::ExpandError;
pub use expansion::expand;
