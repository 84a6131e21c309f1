ghost use Rattle.std.specs.Prelude.{◌≡◌, ◌↔◌, length, IsTrue};
ghost use Rattle.serial_pass.specs.InEdges.{AreStarts};
ghost use Rattle.pass_core.specs.Inside.{IsReadyByMarks};
ghost use Rattle.pass_core.specs.OrderOutcomes.{AnswersLegality, AnswersOrder};
ghost use Rattle.serial_pass.specs.Orders.{numbers};
ghost use Rattle.serial_pass.specs.Outcomes.{TakesPlan};
ghost use Rattle.serial_pass.specs.Plans.{IsPlan, HasNoCycle};

use crate::order_error::OrderError;
use bp_faults::NodeId;
use serial_pass::laws::predecessors_are_nodes;
use serial_pass::{Plan, Visit, edges_into, no_marks, run_serial, starts_of, visit_along};
use std::alloc::Global;
use std::sync::Arc;

/// Whether a node is one of the plan, isn't visited, and all its predecessors are.
fn is_ready(plan: &Plan, starts: &[u32], n: NodeId, visited: &[bool]) -> bool
    requires plan { IsPlan plan.now }
    requires starts { AreStarts plan.now starts.now }
    requires many { length visited.now ≡ plan.now.count }
    ensures { IsTrue result ↔ IsReadyByMarks plan.now visited.now n.0 }
{
    predecessors_are_nodes();
    if n.0 >= plan.count || visited[n.0 as usize] {
        return false;
    }
    for edge in edges_into(plan, starts, n) {
        if !visited[edge.from.0 as usize] {
            return false;
        }
    }
    true
}

/// Whether a list of nodes is a legal order of the plan, by where the in-edges of each node begin.
pub fn check_order(
    alloc: Global,
    plan: &Plan,
    starts: &[u32],
    order: &[NodeId],
) -> Result<(), OrderError>
    requires plan { IsPlan plan.now }
    requires starts { AreStarts plan.now starts.now }
    ensures { AnswersLegality plan.now (numbers order.now) result }
{
    let mut visited = no_marks(alloc, plan.count as usize)?;
    for (index, n) in order.iter().enumerate() {
        if !is_ready(plan, starts, *n, &visited) {
            return Err(OrderError::NotReady(index as u32));
        }
        visited[n.0 as usize] = true;
    }
    if order.len() < plan.count as usize {
        return Err(OrderError::Ends(order.len() as u32));
    }
    Ok(())
}

/// Visits the nodes of a plan in the order of a list, on one thread.
///
/// The results stand by node number. Where a visit has a fault, the pass is run again in serial order,
/// which tells the first node that isn't done.
pub fn run_order<V: Visit>(
    alloc: Global,
    plan: &Plan,
    v: &V,
    order: &[NodeId],
) -> Result<Vec<Arc<V::Out>>, OrderError>
    requires plan { IsPlan plan.now }
    requires free { HasNoCycle plan.now.edges }
    requires takes { TakesPlan (V.takes v.now) plan.now }
    ensures { AnswersOrder (V.meaning v.now) plan.now (numbers order.now) result }
{
    let starts = starts_of(alloc, plan)?;
    check_order(alloc, plan, &starts, order)?;
    match visit_along(alloc, plan, v, &starts, order)? {
        Some(outs) => Ok(outs),
        None => Ok(run_serial(alloc, plan, v)?),
    }
}
