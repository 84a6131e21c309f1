ghost use Rattle.std.specs.Prelude.{◌≡◌, slice_get};
ghost use Rattle.std.specs.Option.{option_map};
ghost use Rattle.graph_nodes.specs.declared.graph.Edge.{Edge};
ghost use Rattle.variant_graphs.specs.Limits.{AnswersLimits};
ghost use Rattle.graph_nodes.specs.Nodes.{all_edges};

use bp_faults::Place;
use bp_faults::limits::{MOST_EDGES, MOST_NODES};
use module_graph::Graph;
use mutator_rules::KindError;

/// The place of the first edge beyond the limit, in node order.
fn first_edge_beyond<P>(g: &Graph<P>) -> Option<Place>
    ensures { result ≡ option_map (λ (e : Edge). e.at) (slice_get (all_edges g.now.nodes) MOST_EDGES) }
{
    let mut left = MOST_EDGES;
    for node in g.nodes.as_slice() {
        let edges = node.edges.as_slice();
        if let Some(beyond) = edges.get(left) {
            return Some(beyond.at);
        }
        left -= edges.len();
    }
    None
}

/// A graph is within the limits, or what is first beyond them.
pub fn check_limits<P>(g: &Graph<P>) -> Result<(), KindError>
    ensures { AnswersLimits g.now.nodes result }
{
    if let Some(node) = g.nodes.as_slice().get(MOST_NODES) {
        return Err(KindError::Nodes(node.module));
    }
    match first_edge_beyond(g) {
        Some(place) => Err(KindError::Edges(place)),
        None => Ok(()),
    }
}
