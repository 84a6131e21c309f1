ghost use Rattle.std.specs.Prelude.{◌<◌, ℕ, IfOk};
ghost use Rattle.module_graph.specs.Graphs.{IsNumbered, edges_of};
ghost use Rattle.module_graph.specs.Walks.{Returns};
ghost use Rattle.module_graph.specs.Search.{IsFoundStart};

use crate::Graph;
use crate::direction::{Direction, plan};
use crate::distances::distances;
use crate::nearest::{Near, nearest};
use bp_faults::OutOfMemory;
use pass_core::starts_of;
use std::alloc::Global;

/// The least node that can reach itself, with the distances to it, and the nearest of its edges.
#[derive(Drop)]
pub struct Start {
    pub node: u32,
    pub found: Vec<Option<u32>>,
    pub first: Near,
}

/// The least node that can reach itself, where any can. None of those before `from` can.
pub fn find_start<P>(alloc: Global, g: &Graph<P>, from: u32) -> Result<Option<Start>, OutOfMemory>
    requires numbered { IsNumbered g.now.nodes }
    requires none { (n : ℕ) → n < from → Returns (edges_of g.now.nodes) n → ⊥ }
    ensures { IfOk result (λ start. IsFoundStart g.now.nodes start) }
{
    let plan = plan(alloc, g, Direction::TopDown)?;
    let starts = starts_of(alloc, &plan)?;
    for n in from..plan.count {
        let found = distances(alloc, &plan, &starts, n)?;
        let edges = g.nodes.as_slice()[n as usize].edges.as_slice();
        if let Some(first) = nearest(edges, &found) {
            return Ok(Some(Start {
                node: n,
                found,
                first,
            }));
        }
    }
    Ok(None)
}
