ghost use Rattle.std.specs.Prelude.{◌≡◌, map, IfOk};
ghost use Rattle.std.specs.List.{range_with_len};
ghost use Rattle.serial_pass.specs.Inside.{ranked_node};
ghost use Rattle.serial_pass.specs.Orders.{IsSerial, numbers};
ghost use Rattle.serial_pass.specs.Plans.{IsPlan, HasNoCycle};

use crate::height::heights;
use crate::plan::Plan;
use bp_faults::{NodeId, OutOfMemory};
use std::alloc::Global;

/// Each node with its height, by node number.
fn ranked_nodes(alloc: Global, plan: &Plan) -> Result<Vec<(u32, NodeId)>, OutOfMemory>
    requires plan { IsPlan plan.now }
    requires free { HasNoCycle plan.now.edges }
    ensures { IfOk result (λ nodes. nodes.items ≡ map (ranked_node plan.now) (range_with_len 0 plan.now.count)) }
{
    let heights = heights(alloc, plan)?;
    let mut nodes = Vec::with_capacity(alloc, heights.len())?;
    for n in 0..plan.count {
        nodes.push((heights[n as usize], NodeId(n)))?;
    }
    Ok(nodes)
}

/// The nodes alone.
fn nodes_of(alloc: Global, ranked: &[(u32, NodeId)]) -> Result<Vec<NodeId>, OutOfMemory>
    ensures { IfOk result (λ nodes. nodes.items ≡ map (λ r. r.1) ranked.now) }
{
    let mut nodes = Vec::with_capacity(alloc, ranked.len())?;
    for (_height, node) in ranked {
        nodes.push(*node)?;
    }
    Ok(nodes)
}

/// The nodes of a plan by height, and then by number.
pub fn serial_order(alloc: Global, plan: &Plan) -> Result<Vec<NodeId>, OutOfMemory>
    requires plan { IsPlan plan.now }
    requires free { HasNoCycle plan.now.edges }
    ensures { IfOk result (λ order. IsSerial plan.now (numbers order.items)) }
{
    let mut ranked = ranked_nodes(alloc, plan)?;
    ranked.sort_unstable();
    nodes_of(alloc, &ranked)
}
