ghost use Rattle.std.specs.Prelude.{◌≡◌, ◌<◌, if◌then◌else◌, length, map, IfOk, IfSome, IfNone, IsSome, None, Some, Ok};
ghost use Rattle.std.specs.List.{AllByRecursion};
ghost use Rattle.std.specs.Arc.{arc_value};
ghost use Rattle.serial_pass.specs.InEdges.{AreStarts};
ghost use Rattle.serial_pass.specs.Made.{made_at, all_of, AreRight, AnswersVisit};
ghost use Rattle.serial_pass.specs.Orders.{IsLegal, IsSerial, numbers};
ghost use Rattle.serial_pass.specs.Outcomes.{AnswersPass, HasFault, PassOutcomeMeans, TakesPlan};
ghost use Rattle.serial_pass.specs.Plans.{IsPlan, HasNoCycle, predecessors, sources};
ghost use Rattle.serial_pass.specs.declared.plan.PlanEdge.{PlanEdge};
ghost use Rattle.serial_pass.specs.Results.{node_result};

use crate::error::PassError;
use crate::in_edges::{edges_into, starts_of};
use crate::order::serial_order;
use crate::plan::{Plan, PlanEdge};
use crate::slots::{empty_slots, unwrapped};
use crate::visit::{Visit, VisitError};
use bp_faults::{NodeId, OutOfMemory};
use std::alloc::Global;
use std::sync::Arc;

/// Puts what the sources of some edges made into a list, as far as it is there, and tells whether all of it is. What
/// the list held before is dropped, and its memory serves again.
fn gather<O: Drop>(
    edges: &[PlanEdge],
    made: &[Option<Arc<O>>],
    ins: &mut Vec<Arc<O>>,
) -> Result<bool, OutOfMemory>
    requires { AllByRecursion (λ (e : PlanEdge). e.from.0 < length made.now) edges.now }
    ensures { IfOk result (λ whole. (if whole then Some (map arc_value ins.new.items) else None)
        ≡ all_of (map (made_at made.now) (sources edges.now))) }
{
    ins.clear();
    for edge in edges {
        match &made[edge.from.0 as usize] {
            Some(out) => ins.push(Arc::try_clone(out)?)?,
            None => return Ok(false),
        }
    }
    Ok(true)
}

/// Visits a node whose predecessors are made. The list serves to hand over what they made, whatever it holds.
pub fn visit_at<V: Visit>(
    alloc: Global,
    plan: &Plan,
    v: &V,
    starts: &[u32],
    n: NodeId,
    made: &[Option<Arc<V::Out>>],
    ins: &mut Vec<Arc<V::Out>>,
) -> Result<Arc<V::Out>, PassError>
    requires plan { IsPlan plan.now }
    requires free { HasNoCycle plan.now.edges }
    requires takes { V.takes v.now n.0 (length (predecessors plan.now.edges n.0)) }
    requires starts { AreStarts plan.now starts.now }
    requires inside { n.0 < plan.now.count }
    requires many { length made.now ≡ plan.now.count }
    requires right { AreRight (node_result (V.meaning v.now) plan.now) made.now }
    requires ready { AllByRecursion (λ m. IsSome (made_at made.now m)) (predecessors plan.now.edges n.0) }
    ensures { AnswersVisit n.0 (node_result (V.meaning v.now) plan.now n.0) result }
{
    if !gather(edges_into(plan, starts, n), made, ins)? {
        unreachable!()
    }
    match v.visit(alloc, n, ins.as_slice()) {
        Ok(out) => Ok(Arc::new(alloc, out)?),
        Err(VisitError::Bad(fault)) => Err(PassError::At(n, fault)),
        Err(VisitError::OutOfMemory) => Err(PassError::OutOfMemory),
    }
}

/// Visits the nodes one after another in serial order.
fn run_along<V: Visit>(
    alloc: Global,
    plan: &Plan,
    v: &V,
    starts: &[u32],
    order: &[NodeId],
) -> Result<Vec<Arc<V::Out>>, PassError>
    requires plan { IsPlan plan.now }
    requires free { HasNoCycle plan.now.edges }
    requires takes { TakesPlan (V.takes v.now) plan.now }
    requires starts { AreStarts plan.now starts.now }
    requires serial { IsSerial plan.now (numbers order.now) }
    ensures { AnswersPass (V.meaning v.now) plan.now result }
{
    let mut made = empty_slots(alloc, plan.count)?;
    let mut ins = Vec::new(alloc);
    for n in order {
        let out = visit_at(alloc, plan, v, starts, *n, &made, &mut ins)?;
        made[n.0 as usize] = Some(out);
    }
    Ok(unwrapped(alloc, made)?)
}

/// Visits the nodes one after another in a legal order. There are no results where a node has a fault.
pub fn visit_along<V: Visit>(
    alloc: Global,
    plan: &Plan,
    v: &V,
    starts: &[u32],
    order: &[NodeId],
) -> Result<Option<Vec<Arc<V::Out>>>, OutOfMemory>
    requires plan { IsPlan plan.now }
    requires free { HasNoCycle plan.now.edges }
    requires takes { TakesPlan (V.takes v.now) plan.now }
    requires starts { AreStarts plan.now starts.now }
    requires legal { IsLegal plan.now (numbers order.now) }
    ensures outs { IfOk result
        (λ r. IfSome r (λ outs. PassOutcomeMeans (V.meaning v.now) plan.now (Ok (map arc_value outs.items)))) }
    ensures fault { IfOk result (λ r. IfNone r (HasFault (V.meaning v.now) plan.now)) }
{
    let mut made = empty_slots(alloc, plan.count)?;
    let mut ins = Vec::new(alloc);
    for n in order {
        match visit_at(alloc, plan, v, starts, *n, &made, &mut ins) {
            Ok(out) => made[n.0 as usize] = Some(out),
            Err(PassError::At(_, _)) => return Ok(None),
            Err(PassError::OutOfMemory) => return Err(OutOfMemory),
        }
    }
    Ok(Some(unwrapped(alloc, made)?))
}

/// Visits each node of a plan after its predecessors, on one thread.
///
/// The results stand by node number. `PassError::At` is the first node in serial order whose result
/// isn't done.
pub fn run_serial<V: Visit>(
    alloc: Global,
    plan: &Plan,
    v: &V,
) -> Result<Vec<Arc<V::Out>>, PassError>
    requires plan { IsPlan plan.now }
    requires free { HasNoCycle plan.now.edges }
    requires takes { TakesPlan (V.takes v.now) plan.now }
    ensures { AnswersPass (V.meaning v.now) plan.now result }
{
    let starts = starts_of(alloc, plan)?;
    let order = serial_order(alloc, plan)?;
    run_along(alloc, plan, v, &starts, &order)
}
