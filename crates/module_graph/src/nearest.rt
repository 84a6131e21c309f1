ghost use Rattle.std.specs.Prelude.{◌≡◌, ◌<◌, length};
ghost use Rattle.std.specs.List.{AllByRecursion};
ghost use Rattle.graph_nodes.specs.declared.graph.Edge.{Edge};
ghost use Rattle.module_graph.specs.Search.{IsNearestFound, nearer};

use crate::Edge;

/// An edge, and the distance of its target.
#[derive(Clone, Copy)]
pub struct Near {
    pub edge: Edge,
    pub distance: u32,
}

/// The nearer of the best edge so far and a later one, of whose target a distance may have been found.
fn better(best: Option<Near>, edge: Edge, distance: Option<u32>) -> Option<Near>
    ensures { result ≡ nearer best edge distance }
{
    let Some(distance) = distance else {
        return best;
    };
    match best {
        Some(near) if near.distance <= distance => best,
        _ => Some(Near { edge, distance }),
    }
}

/// The first edge among those whose targets have the least distance, where any has one.
pub fn nearest(edges: &[Edge], found: &[Option<u32>]) -> Option<Near>
    requires { AllByRecursion (λ (e : Edge). e.to.0 < length found.now) edges.now }
    ensures { IsNearestFound found.now edges.now result }
{
    let mut best = None;
    for edge in edges {
        best = better(best, *edge, found[edge.to.0 as usize]);
    }
    best
}
