ghost use Rattle.std.specs.Prelude.{◌≡◌, ◌<◌, ◌≤◌, ◌^◌, length, slice_get};
ghost use Rattle.std.specs.List.{AllByRecursion};
ghost use Rattle.graph_nodes.specs.declared.graph.Edge.{Edge};
ghost use Rattle.module_graph.specs.Graphs.{IsNumbered};
ghost use Rattle.variant_graphs.specs.Inside.{total, kept_places, AnswersBegins, IsEdgeBeyond};

use bp_faults::Place;
use bp_faults::limits::{MOST_EDGES, MOST_NODES};
use module_graph::{Edge, Graph};
use mutator_rules::KindError;
use std::alloc::Global;

/// Where the variants of each node begin, by how many each has, and where those of the last end; or the module of the
/// first beyond the limit.
pub fn begin<P>(alloc: Global, g: &Graph<P>, counts: &[usize]) -> Result<Vec<u32>, KindError>
    requires { length counts.now ≡ length g.now.nodes }
    ensures { AnswersBegins counts.now g.now.nodes result }
{
    let mut begins = Vec::with_capacity(alloc, counts.len() + 1)?;
    let mut total: usize = 0;
    begins.push(0)?;
    for (n, count) in counts.iter().enumerate() {
        if *count > MOST_NODES - total {
            return Err(KindError::Nodes(g.nodes.as_slice()[n].module));
        }
        total += *count;
        begins.push(total as u32)?;
    }
    Ok(begins)
}

/// How many edges of a node are kept.
fn count_kept(counts: &[usize], edges: &[Edge]) -> usize
    requires { AllByRecursion (λ (e : Edge). e.to.0 < length counts.now) edges.now }
    ensures { result ≡ length (kept_places counts.now edges.now) }
{
    let mut kept = 0;
    for edge in edges {
        if counts[edge.to.0 as usize] > 0 {
            kept += 1;
        }
    }
    kept
}

/// The place of a node's kept edge with a number.
fn kept_at(counts: &[usize], edges: &[Edge], number: usize) -> Option<Place>
    requires { AllByRecursion (λ (e : Edge). e.to.0 < length counts.now) edges.now }
    ensures { result ≡ slice_get (kept_places counts.now edges.now) number }
{
    let mut left = number;
    for edge in edges {
        if counts[edge.to.0 as usize] > 0 {
            if left == 0 {
                return Some(edge.at);
            }
            left -= 1;
        }
    }
    None
}

/// The place of the first edge beyond the limit, by how many variants each node has.
pub fn edge_beyond<P>(g: &Graph<P>, counts: &[usize]) -> Option<Place>
    requires numbered { IsNumbered g.now.nodes }
    requires many { length counts.now ≡ length g.now.nodes }
    ensures { IsEdgeBeyond counts.now g.now.nodes result }
{
    let mut total = 0;
    for (n, node) in g.nodes.as_slice().iter().enumerate() {
        let edges = node.edges.as_slice();
        let kept = count_kept(counts, edges);
        for _copy in 0..counts[n] {
            if kept > MOST_EDGES - total {
                return kept_at(counts, edges, MOST_EDGES - total);
            }
            total += kept;
        }
    }
    None
}
