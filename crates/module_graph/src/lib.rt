//! The plans of a module graph for passes, and the cycle that is reported where a walk returns.
//!
//! A graph of `graph_nodes` flows in; its plans and that cycle flow out. It is measured by `plan_of` in
//! `specs/Planned.antt`, by `IsValid` in `specs/Graphs.antt` and by `CycleMeans` in `specs/Cycles.antt`.
//! What `graph_nodes` says of nodes, names and texts can be had from here too.
#![tactic(auto)]

mod by_target;
mod cycle;
mod direction;
mod distances;
mod edges;
pub mod laws;
mod nearest;
mod parts;
mod settled;
mod start;

pub use bp_faults::Refusal as GraphError;
pub use cycle::check_cycle;
pub use direction::{Direction, plan};
pub use graph_nodes::{
    Axis, Edge, EdgeKind, Graph, Node, Variation, Variations, graph_text, label, variant_name,
    variation_name,
};
pub use pass_core::heights;
