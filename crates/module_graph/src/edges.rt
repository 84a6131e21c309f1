ghost use Rattle.std.specs.Prelude.{◌≡◌, IfOk, map};
ghost use Rattle.graph_nodes.specs.Numbered.{by_number};
ghost use Rattle.module_graph.specs.Graphs.{IsNumbered};
ghost use Rattle.module_graph.specs.Planned.{directed_edge};

use crate::{Direction, Edge, Graph, Node};
use bp_faults::{NodeId, OutOfMemory};
use graph_nodes::laws::one_more_item;
use pass_core::PlanEdge;
use std::alloc::Global;

/// An edge of node n as a pass in a direction has it.
fn plan_edge(dir: Direction, n: u32, edge: &Edge) -> PlanEdge
    ensures { result ≡ directed_edge dir n edge.now }
{
    let (node, to) = (NodeId(n), edge.to);
    match dir {
        Direction::BottomUp => PlanEdge { from: to, to: node },
        Direction::TopDown => PlanEdge { from: node, to },
    }
}

/// How many edges a graph has. A count beyond any memory stays where it is.
fn count_edges<P>(g: &Graph<P>) -> usize {
    let mut count = 0usize;
    for node in g.nodes.as_slice() {
        count = count.saturating_add(node.edges.as_slice().len());
    }
    count
}

/// The edges of a graph by node and index, as a pass in a direction has them.
pub fn edges_along<P>(
    alloc: Global,
    g: &Graph<P>,
    dir: Direction,
) -> Result<Vec<PlanEdge>, OutOfMemory>
    requires { IsNumbered g.now.nodes }
    ensures { IfOk result (λ edges. edges.items ≡ by_number (λ n x. map (directed_edge dir n) x.edges) 0 g.now.nodes) }
{
    one_more_item::<Node<P>, PlanEdge>();
    let mut edges = Vec::with_capacity(alloc, count_edges(g))?;
    let mut n = 0;
    for node in g.nodes.as_slice() {
        for edge in node.edges.as_slice() {
            edges.push(plan_edge(dir, n, edge))?;
        }
        n += 1;
    }
    Ok(edges)
}
