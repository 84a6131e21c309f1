ghost use Rattle.serial_pass.specs.Outcomes.{TakesPlan};
ghost use Rattle.serial_pass.specs.Plans.{IsPlan, HasNoCycle};
ghost use Rattle.pass_ways.specs.Ways.{AnswersWay, Follows, IsPassWay};

use crate::alone::run_alone;
use crate::along::run_along;
use crate::error::WayError;
use crate::way::Way;
use bp_faults::{NodeId, Seq};
use bp_ports::Gate;
use pass_core::{PassError, Plan, Visit};
use serial_pass::laws::{one_serial_order, serial_order_is_legal};
use std::alloc::Global;
use std::sync::Arc;
use std::thread::Threads;
use visit_workers::visit_all;

/// What a pass made, by node number, and the order in which it visited the nodes.
#[derive(Drop)]
pub struct WayRun<O> {
    pub outs: Vec<Arc<O>>,
    pub order: Seq<NodeId>,
}

/// Visits each node of a plan after its predecessors, in some way.
///
/// `before` holds the visits of the passes before this one: an order file is read on behind them. The results stand by
/// node number. `WayError::At` has the first node in serial order whose result isn't done.
pub fn run_by_way<R: Threads + Sync, V: Visit<Out: Send + Sync> + Sync, G: Gate + Sync>(
    rt: &R,
    alloc: Global,
    way: &Way<'_, G>,
    before: &[(u32, NodeId)],
    pass: u32,
    plan: &Plan,
    v: &V,
) -> Result<WayRun<V::Out>, WayError>
    requires plan { IsPlan plan.now }
    requires free { HasNoCycle plan.now.edges }
    requires takes { TakesPlan (V.takes v.now) plan.now }
    requires way { IsPassWay way.now }
    requires follows { Follows way.now before.now }
    ensures { AnswersWay way.now (V.meaning v.now) plan.now pass before.now result }
{
    match way {
        Way::Workers { workers, gate } => {
            serial_order_is_legal();
            one_serial_order();
            if *workers == 1 {
                return run_alone(alloc, *gate, pass, plan, v);
            }
            match visit_all(rt, alloc, pass, plan, v, *workers, *gate) {
                Ok(run) => {
                    let (outs, order) = run.into_parts();
                    Ok(WayRun {
                        outs,
                        order: Seq::new(order),
                    })
                }
                Err(PassError::At(n, fault)) => Err(WayError::At(n, fault)),
                Err(PassError::OutOfMemory) => Err(WayError::OutOfMemory),
            }
        }
        Way::Lines(lines) => run_along(alloc, lines, before, pass, plan, v),
    }
}
