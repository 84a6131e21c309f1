//! Runs of the program over files and streams in memory, for the crates of tests. Texts of trees and words flow in, and
//! how the program ends flows out, or how it ends in place of what a test wants.
//!
//! It has no contracts: what is compared here is seen only when a test runs.
#![tactic(auto)]

mod demo;
mod ended;
mod runs;
mod tree;

pub use demo::DEMO_TREE;
pub use ended::Ended;
pub use runs::{
    BUILD, end_of, end_within, other_than_built, other_than_fault, status_of, words_of,
};
pub use tree::{one_file, put, store_of, store_that_fails, tree_of};
