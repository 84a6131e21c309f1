//! Graphs of variants: what every mutator shares that splits the nodes of a graph or keeps it.
//!
//! A graph and the variants of its nodes flow in; the graph of the variants flows out, or what is first beyond its
//! limits. It is measured by `split_nodes` of `specs/Splitting.antt`, which says which variants there are and where
//! their edges lead, and by the limits of `specs/Limits.antt`.
#![tactic(auto)]

mod assembly;
mod error;
mod idle;
mod indices;
pub mod laws;
mod limit_check;
mod limits;
mod numbering;
mod payloads;
mod splitter;

pub use assembly::split_graph;
pub use error::StepError;
pub use idle::visit_idle;
pub use indices::{holds, index_in};
pub use limit_check::check_limits;
pub use payloads::{renew, value_of};
pub use splitter::Splitter;
