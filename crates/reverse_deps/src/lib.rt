//! Requests for edges: each is resolved to a node of the graph, and then all edges are added.
//!
//! The modules, a graph and what its nodes ask for flow in; the graph with the edges flows out, or the first fault.
//! It is measured by `resolved_node` of `specs/Resolved.antt` and by `ApplyMeans` of `specs/Applied.antt`.
#![tactic(auto)]

mod applied;
mod counting;
mod directory;
mod labels;
pub mod laws;
mod linking;
mod node_list;
mod resolving;

pub use applied::apply;
pub use resolving::resolve;
