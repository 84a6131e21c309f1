ghost use Rattle.std.specs.Prelude.{◌≡◌, IfOk, [], None};
ghost use Rattle.module_graph.specs.declared.direction.Direction.TheVariants.{TopDown};
ghost use Rattle.module_graph.specs.Graphs.{IsValid};
ghost use Rattle.module_graph.specs.Planned.{plan_of};
ghost use Rattle.mutator_rules.specs.Conditions.{MayRun};
ghost use Rattle.mutator_rules.specs.Idle.{KeepsPayloads};
ghost use Rattle.pass_ways.specs.Ways.{Follows, IsPassWay, RefusesPass, Runs};
ghost use Rattle.variant_graphs.specs.Splitting.{StayFree};
ghost use Rattle.variant_graphs.specs.Steps.{AnswersStep, FollowedMeans};
ghost use Rattle.mutator_kinds.specs.TopDown.{from_above, TopDownMeans};

use crate::PassGraph;
use bp_faults::{NodeId, Payload, Seq};
use bp_ports::Gate;
use module_graph::{Direction, Graph};
use mutator_rules::TopDown;
use pass_ways::Way;
use std::alloc::Global;
use std::thread::Threads;
use variant_graphs::laws::idle_passes_make;
use variant_graphs::{StepError, visit_idle};

/// Runs a rule from the top down that makes of each node's payload what it is, in some way. Nothing is asked.
///
/// It is visited as any rule is, but nothing is made of the nodes, and the graph is kept.
pub fn run_top_down_idle_by<R, P, M, G>(
    rt: &R,
    alloc: Global,
    way: &Way<'_, G>,
    before: &[(u32, NodeId)],
    pass: u32,
    g: Graph<P>,
    rule: &M,
) -> Result<PassGraph<P>, StepError>
where
    R: Threads + Sync,
    P: Payload + Send + Sync + Drop,
    M: TopDown<P> + Sync,
    G: Gate + Sync,
    requires valid { IsValid g.nodes }
    requires may { MayRun (M.accepts rule.now) g.nodes }
    requires keeps { KeepsPayloads (from_above (M.meaning rule.now) g.nodes) g.nodes }
    requires way { IsPassWay way.now }
    requires follows { Follows way.now before.now }
    ensures means { AnswersStep (λ made. made.graph.nodes) (TopDownMeans (M.meaning rule.now) g.nodes)
        (RefusesPass way.now before.now pass (plan_of TopDown g.nodes)) result }
    ensures followed { FollowedMeans (λ made. made.order)
        (Runs (Follows way.now) (plan_of TopDown g.nodes) pass before.now) result }
    ensures asked { IfOk result (λ made. made.asked ≡ []) }
    ensures valid { IfOk result (λ made. IsValid made.graph.nodes) }
    ensures may { IfOk result (λ made. MayRun (M.accepts rule.now) made.graph.nodes) }
    ensures free { IfOk result (λ made. StayFree None g.nodes made.graph.nodes) }
{
    idle_passes_make::<P, P>();
    let _rule = rule;
    let run = visit_idle(rt, alloc, way, before, pass, &g, Direction::TopDown)?;
    Ok(PassGraph {
        graph: g,
        order: run.into_order(),
        asked: Seq::new(Vec::new(alloc)),
    })
}
