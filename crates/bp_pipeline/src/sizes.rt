ghost use Rattle.std.specs.Prelude.{◌≡◌, ◌<◌, ◌^◌, length};
ghost use Rattle.graph_nodes.specs.Nodes.{all_edges};
ghost use Rattle.module_graph.specs.Graphs.{IsNumbered};
ghost use Rattle.bp_pipeline.specs.Generated.{sizes_of};

use module_graph::{Graph, Node};
use module_rules::Record;

/// The numbers of nodes and of edges of a graph.
#[derive(Clone, Copy, Debug, PartialEq, Eq)]
pub struct Sizes {
    pub nodes: u32,
    pub edges: u32,
}

fn edge_count(nodes: &[Node<Record<'_>>]) -> u32
    requires { length (all_edges nodes.now) < 2 ^ 32 }
    ensures { result ≡ length (all_edges nodes.now) }
{
    let mut count = 0;
    for node in nodes {
        count += node.edges.as_slice().len() as u32;
    }
    count
}

/// The size of a graph.
pub fn sizes_of(g: &Graph<Record<'_>>) -> Sizes
    requires { IsNumbered g.now.nodes }
    ensures { result ≡ sizes_of g.now.nodes }
{
    let nodes = g.nodes.as_slice();
    Sizes {
        nodes: nodes.len() as u32,
        edges: edge_count(nodes),
    }
}
