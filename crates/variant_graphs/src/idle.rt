ghost use Rattle.module_graph.specs.Graphs.{IsNumbered, IsValid};
ghost use Rattle.module_graph.specs.Planned.{plan_of};
ghost use Rattle.pass_ways.specs.Idle.{AnswersIdle};
ghost use Rattle.pass_ways.specs.Ways.{Follows, IsPassWay};

use bp_faults::NodeId;
use bp_ports::Gate;
use module_graph::laws::valid_plans_have_no_cycle;
use module_graph::{Direction, Graph, plan};
use pass_ways::{IdleRun, Way, WayError, order_by_way};
use std::alloc::Global;
use std::thread::Threads;

/// Visits each node in a direction, in some way, and makes nothing: the order of the visits, and what shows it.
///
/// `before` holds the visits of the passes before this one.
pub fn visit_idle<'a, R, P, G>(
    rt: &R,
    alloc: Global,
    way: &Way<'a, G>,
    before: &[(u32, NodeId)],
    pass: u32,
    g: &Graph<P>,
    dir: Direction,
) -> Result<IdleRun<'a, G>, WayError>
where
    R: Threads + Sync,
    G: Gate + Sync,
    requires valid { IsValid g.now.nodes }
    requires numbered { IsNumbered g.now.nodes }
    requires way { IsPassWay way.now }
    requires follows { Follows way.now before.now }
    ensures { AnswersIdle way.now (plan_of dir g.now.nodes) pass before.now result }
{
    valid_plans_have_no_cycle::<P>();
    let plan = plan(alloc, g, dir)?;
    order_by_way(rt, alloc, way, before, pass, &plan)
}
