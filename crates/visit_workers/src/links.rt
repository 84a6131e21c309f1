ghost use Rattle.std.specs.Prelude.{IfOk};
ghost use Rattle.serial_pass.specs.Plans.{IsPlan};
ghost use Rattle.visit_workers.specs.Links.{AreOuts};

use bp_faults::OutOfMemory;
use pass_core::Plan;
use std::alloc::Global;

/// The end of a chain of edges, which is no edge's number.
pub const END: u32 = u32::MAX;

/// The edges out of each node, chained by their numbers: the first of each node, and the next of each edge.
#[derive(Drop)]
pub struct Outs {
    pub first: Vec<u32>,
    pub next: Vec<u32>,
}

/// The edges out of each node of a plan, in the order of their numbers.
pub fn outs_of(alloc: Global, plan: &Plan) -> Result<Outs, OutOfMemory>
    requires { IsPlan plan.now }
    ensures { IfOk result (λ outs. AreOuts plan.now.count plan.now.edges outs) }
{
    let edges = plan.edges.as_slice();
    let mut first = vec![in alloc; END; plan.count as usize]?;
    let mut next = vec![in alloc; END; edges.len()]?;
    let mut e = edges.len();
    while e > 0 {
        e -= 1;
        let source = edges[e].from.0 as usize;
        next[e] = first[source];
        first[source] = e as u32;
    }
    Ok(Outs { first, next })
}
