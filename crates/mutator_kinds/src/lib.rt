//! Passes of the rules from the top down and from the bottom up.
//!
//! A graph, a rule and the way of a pass flow in; the graph with each node's result flows out, with what the nodes ask
//! for, or the fault of a node, or what is first beyond the limits, or the way's refusal. It is measured by
//! `TopDownMeans` of `specs/TopDown.antt` and by `BottomUpMeans` of `specs/BottomUp.antt`.
#![tactic(auto)]

mod asking;
mod downward;
mod idle;
mod idle_down;
mod in_place;
pub mod laws;
mod owned;
mod pass_graph;
mod results;
mod splitting;
mod upward;

pub use downward::{run_top_down, run_top_down_by};
pub use idle::run_idle_by;
pub use idle_down::run_top_down_idle_by;
pub use pass_graph::PassGraph;
pub use upward::{run_bottom_up, run_bottom_up_by};
