//! The values: what the expressions of a file are worth, and what its definitions give.
//!
//! It takes the tree of a file and the scope that it inherits; it gives its modules with their values
//! and the scope that the directories below inherit, or the first fault in the order of evaluation.
//! It is measured by `specs/Meaning.antt`: what a file means is a function of its definitions and of
//! the pairs of the inherited scope.
#![tactic(auto)]

mod depth;
mod expression;
mod file;
mod index_table;
mod kept_indices;
pub mod laws;
mod map_indices;
mod map_sum;
mod marks;
mod scope;
mod seed;
mod sums;
mod value;

pub use bp_faults::Refusal as EvalError;
pub use file::{RawModule, evaluate, evaluate_from};
pub use scope::Scope;
pub use seed::Seed;
pub use sums::sum;
pub use value::{Entry, Value};
