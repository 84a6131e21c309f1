//! Directories, seen by the held paths that lie below them: the entries of each, and the path of a name in one.
//!
//! It is measured by `specs/Entries.antt`, what a directory's entries are.
#![tactic(auto)]

mod children;
mod entry;
pub mod laws;
mod listing;

pub use children::child;
pub use entry::DirEntry;
pub use listing::{entries_of, rest_below};
