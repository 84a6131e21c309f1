//! The loading of a tree: the list file, and all files of the tree phase by phase.
//!
//! The bytes of the list file flow in, and its paths flow out; then the bytes of all files, and the typed
//! modules flow out, or the first fault. It is measured by `ListMeans` in `specs/ListFile.antt`, `RawMean`
//! in `specs/Inherited.antt` and `LoadMeans` in `specs/Loaded.antt`.
#![tactic(auto)]

mod directory;
mod evaluating;
mod halves;
pub mod laws;
mod list_file;
mod names;
mod not_utf8;
mod opened;
mod parsed;
mod parsing;
mod raw;
mod tree;
mod typing;

pub use bp_faults::Refusal as LoadError;
pub use list_file::file_list;
pub use raw::raw_modules;
pub use source_patterns::{ExpandError, expand};
pub use tree::{LoadRest, Loaded, load, load_with_rest};
