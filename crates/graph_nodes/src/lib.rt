//! What the module graph is: each node is a variant of a module, and its edges lead to what it depends on.
//!
//! A graph is plain data, with whatever payload its maker gives the nodes; a node has a variation for each
//! axis. Nodes flow in; the names of their variants, their labels and the graph's text flow out. It is
//! measured by `label_of` in `specs/Names.antt` and by `graph_text_of` in `specs/GraphText.antt`.
#![tactic(auto)]

mod graph;
pub mod laws;
mod listing;
mod names;
mod variation;
mod variations;

pub use graph::{Edge, EdgeKind, Graph, Node};
pub use listing::graph_text;
pub use names::{label, name_of, variant_name, variation_name};
pub use variation::Variation;
pub use variations::{Axis, Variations};
