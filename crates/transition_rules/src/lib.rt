//! Passes of transition rules: each node gets the variants that it has by itself and those that its dependents want.
//!
//! A graph, a rule and the way of a pass flow in; the graph of the variants flows out, with their payloads mutated, or
//! the fault of a node, or what is beyond the limits. It is measured by `TransitionMeans` of `specs/Passes.antt`, whose
//! two steps are those of a pipeline.
#![tactic(auto)]

mod idle;
pub mod laws;
mod mutate_pass;
mod spelled;
mod transition_pass;
mod variants;
mod wanting;
mod wants_pass;

pub use idle::{run_mutate_idle_by, run_wants_idle_by};
pub use mutate_pass::{MutatedGraph, run_mutate_by};
pub use transition_pass::{TransitionGraph, run_transition};
pub use wants_pass::{WantedGraph, run_wants_by};
