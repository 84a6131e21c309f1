//! The mutators one after another, and the file for Ninja: from typed modules to its text.
//!
//! Modules and a configuration flow in; the graph after the first k mutators flows out, or the first fault, and the
//! text of a graph; or the text of the file for Ninja, with the journal of the passes. It is measured by `GraphAfter`
//! in `specs/Course.antt`, a fold over graphs, and by `TextMeans` in `specs/Generated.antt`.
#![tactic(auto)]

mod actions;
mod asking;
mod course;
mod first;
mod generated;
mod journal;
pub mod laws;
mod limits;
mod mutators;
mod passes;
mod ran;
mod replayed;
mod rest;
mod running;
mod shown;
mod sizes;
mod steps;
mod text;
mod workshop;

pub use bp_faults::Refusal as GenError;
pub use course::{graph_after, shared_graph_after};
pub use generated::{Generated, GeneratedWithRest, generate, generate_with_rest};
pub use replayed::{Replayed, replay, replay_lines, replay_with_rest};
pub use rest::PassRest;
pub use shown::show_graph;
pub use sizes::Sizes;
