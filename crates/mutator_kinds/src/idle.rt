ghost use Rattle.std.specs.Prelude.{IfOk};
ghost use Rattle.module_graph.specs.declared.direction.Direction.TheVariants.{BottomUp};
ghost use Rattle.module_graph.specs.Graphs.{IsValid};
ghost use Rattle.module_graph.specs.Planned.{plan_of};
ghost use Rattle.mutator_rules.specs.Conditions.{MayRun};
ghost use Rattle.mutator_rules.specs.Idle.{LeavesAll};
ghost use Rattle.pass_ways.specs.Ways.{Follows, IsPassWay, RefusesPass, Runs};
ghost use Rattle.variant_graphs.specs.Splitting.{StayFree};
ghost use Rattle.variant_graphs.specs.Steps.{AnswersStep, FollowedMeans};
ghost use Rattle.mutator_kinds.specs.BottomUp.{BottomUpMeans, IsFreeFor};

use crate::PassGraph;
use bp_faults::{NodeId, Payload, Seq};
use bp_ports::Gate;
use module_graph::{Direction, Graph, Variation};
use mutator_rules::{BottomUp, Split};
use pass_ways::Way;
use std::alloc::Global;
use std::thread::Threads;
use variant_graphs::laws::{idle_passes_make, splits_of_one_keep};
use variant_graphs::{StepError, check_limits, visit_idle};

/// Runs a rule from the bottom up that leaves every node as it is, in some way.
///
/// It is visited as any rule is, but nothing is made of the nodes, and the graph is kept.
pub fn run_idle_by<R, P, M, G>(
    rt: &R,
    alloc: Global,
    way: &Way<'_, G>,
    before: &[(u32, NodeId)],
    pass: u32,
    g: Graph<P>,
    rule: &M,
) -> Result<PassGraph<P>, StepError>
where
    R: Threads + Sync,
    P: Payload + Send + Sync + Drop,
    M: BottomUp<P> + Sync,
    G: Gate + Sync,
    requires valid { IsValid g.nodes }
    requires may { MayRun (M.accepts rule.now) g.nodes }
    requires free { IsFreeFor (M.splits_along rule.now) g.nodes }
    requires alone { LeavesAll (M.meaning rule.now) g.nodes }
    requires way { IsPassWay way.now }
    requires follows { Follows way.now before.now }
    ensures means { AnswersStep (λ made. (made.graph.nodes, made.asked))
        (BottomUpMeans (M.meaning rule.now) g.nodes (M.splits_along rule.now))
        (RefusesPass way.now before.now pass (plan_of BottomUp g.nodes)) result }
    ensures followed { FollowedMeans (λ made. made.order)
        (Runs (Follows way.now) (plan_of BottomUp g.nodes) pass before.now) result }
    ensures valid { IfOk result (λ made. IsValid made.graph.nodes) }
    ensures may { IfOk result (λ made. MayRun (M.accepts rule.now) made.graph.nodes) }
    ensures free { IfOk result (λ made. StayFree (M.splits_along rule.now) g.nodes made.graph.nodes) }
{
    idle_passes_make::<P, Split<P>>();
    splits_of_one_keep::<P, (Variation, P)>();
    let _rule = rule;
    let run = visit_idle(rt, alloc, way, before, pass, &g, Direction::BottomUp)?;
    check_limits(&g)?;
    Ok(PassGraph {
        graph: g,
        order: run.into_order(),
        asked: Seq::new(Vec::new(alloc)),
    })
}
