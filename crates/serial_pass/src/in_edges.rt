ghost use Rattle.std.specs.Prelude.{◌≡◌, ◌<◌, ◌+◌, map, IfOk};
ghost use Rattle.std.specs.List.{range_with_len};
ghost use Rattle.serial_pass.specs.InEdges.{in_degree, edges_below, AreStarts};
ghost use Rattle.serial_pass.specs.Plans.{IsPlan, StandByTarget, in_edges};

use crate::plan::{Plan, PlanEdge};
use bp_faults::{NodeId, OutOfMemory};
use std::alloc::Global;

/// Where the edges into a node end, which begin at an index.
fn end_of(edges: &[PlanEdge], n: u32, begin: usize) -> usize
    requires by_target { StandByTarget edges.now }
    requires begins { begin ≡ edges_below edges.now n }
    ensures { result ≡ edges_below edges.now (n + 1) }
{
    let mut end = begin;
    while end < edges.len() && edges[end].to.0 == n {
        end += 1;
    }
    end
}

/// Where the in-edges of each node begin, and last where all edges end.
pub fn starts_of(alloc: Global, plan: &Plan) -> Result<Vec<u32>, OutOfMemory>
    requires { IsPlan plan.now }
    ensures { IfOk result (λ starts. AreStarts plan.now starts.items) }
{
    let edges = plan.edges.as_slice();
    let mut starts = Vec::with_capacity(alloc, plan.count as usize + 1)?;
    let mut begin = 0;
    for n in 0..plan.count {
        starts.push(begin as u32)?;
        begin = end_of(edges, n, begin);
    }
    starts.push(begin as u32)?;
    Ok(starts)
}

/// The edges into a node.
pub fn edges_into<'a, 'b>(plan: &'a Plan, starts: &'b [u32], n: NodeId) -> &'a [PlanEdge]
    requires plan { IsPlan plan.now }
    requires starts { AreStarts plan.now starts.now }
    requires inside { n.0 < plan.now.count }
    ensures { result.now ≡ in_edges plan.now.edges n.0 }
{
    let begin = starts[n.0 as usize] as usize;
    let end = starts[n.0 as usize + 1] as usize;
    &plan.edges.as_slice()[begin..end]
}

/// The number of in-edges of each node.
pub fn in_degrees(alloc: Global, plan: &Plan, starts: &[u32]) -> Result<Vec<u32>, OutOfMemory>
    requires plan { IsPlan plan.now }
    requires starts { AreStarts plan.now starts.now }
    ensures { IfOk result (λ counts. counts.items ≡ map (in_degree plan.now) (range_with_len 0 plan.now.count)) }
{
    let mut counts = Vec::with_capacity(alloc, plan.count as usize)?;
    for n in 0..plan.count {
        counts.push(edges_into(plan, starts, NodeId(n)).len() as u32)?;
    }
    Ok(counts)
}
