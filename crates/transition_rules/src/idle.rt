ghost use Rattle.std.specs.Prelude.{IfOk, None, Some};
ghost use Rattle.module_graph.specs.declared.direction.Direction.TheVariants.{BottomUp, TopDown};
ghost use Rattle.module_graph.specs.Graphs.{IsValid};
ghost use Rattle.module_graph.specs.Planned.{plan_of};
ghost use Rattle.mutator_rules.specs.Conditions.{MayRun};
ghost use Rattle.mutator_rules.specs.Idle.{KeepsPayloads, WantsNothing};
ghost use Rattle.pass_ways.specs.Ways.{Follows, IsPassWay, RefusesPass, Runs};
ghost use Rattle.variant_graphs.specs.Splitting.{HasFreeAxis, StayFree};
ghost use Rattle.variant_graphs.specs.Steps.{AnswersStep, FollowedMeans};
ghost use Rattle.transition_rules.specs.Passes.{MutateMeans, SplitsDiffer, WantsMean};

use crate::mutate_pass::MutatedGraph;
use crate::wants_pass::WantedGraph;
use bp_faults::{NodeId, Payload, Seq};
use bp_ports::Gate;
use module_graph::{Direction, Graph, Variation};
use mutator_rules::Transition;
use pass_ways::Way;
use std::alloc::Global;
use std::thread::Threads;
use variant_graphs::laws::{idle_passes_make, splits_of_one_keep};
use variant_graphs::{StepError, check_limits, visit_idle};

/// The first step of a transition that wants nothing: the nodes are visited, but the graph is kept.
///
/// `Nodes` and `Edges` come after the pass. `before` holds the visits of the passes before this one.
pub fn run_wants_idle_by<R, P, M, G>(
    rt: &R,
    alloc: Global,
    way: &Way<'_, G>,
    before: &[(u32, NodeId)],
    pass: u32,
    g: Graph<P>,
    rule: &M,
) -> Result<WantedGraph<P>, StepError>
where
    R: Threads + Sync,
    P: Payload + Send + Sync + Drop,
    M: Transition<P> + Sync,
    G: Gate + Sync,
    requires valid { IsValid g.nodes }
    requires may { MayRun (M.accepts rule.now) g.nodes }
    requires free { HasFreeAxis (M.meaning rule.now).axis g.nodes }
    requires differ { SplitsDiffer (M.meaning rule.now) g.nodes }
    requires nothing { WantsNothing (M.meaning rule.now) g.nodes }
    requires way { IsPassWay way.now }
    requires follows { Follows way.now before.now }
    ensures means { AnswersStep (λ made. made.graph.nodes) (WantsMean (M.meaning rule.now) g.nodes)
        (RefusesPass way.now before.now pass (plan_of TopDown g.nodes)) result }
    ensures followed { FollowedMeans (λ made. made.order)
        (Runs (Follows way.now) (plan_of TopDown g.nodes) pass before.now) result }
    ensures valid { IfOk result (λ made. IsValid made.graph.nodes) }
    ensures may { IfOk result (λ made. MayRun (M.accepts rule.now) made.graph.nodes) }
    ensures free { IfOk result (λ made. StayFree (Some (M.meaning rule.now).axis) g.nodes made.graph.nodes) }
{
    idle_passes_make::<P, Seq<Variation>>();
    splits_of_one_keep::<P, Variation>();
    let _rule = rule;
    let run = visit_idle(rt, alloc, way, before, pass, &g, Direction::TopDown)?;
    check_limits(&g)?;
    Ok(WantedGraph {
        graph: g,
        order: run.into_order(),
    })
}

/// The second step of a transition that keeps the payloads: the nodes are visited, but the graph is kept.
///
/// `before` holds the visits of the passes before this one.
pub fn run_mutate_idle_by<R, P, M, G>(
    rt: &R,
    alloc: Global,
    way: &Way<'_, G>,
    before: &[(u32, NodeId)],
    pass: u32,
    g: Graph<P>,
    rule: &M,
) -> Result<MutatedGraph<P>, StepError>
where
    R: Threads + Sync,
    P: Payload + Send + Sync + Drop,
    M: Transition<P> + Sync,
    G: Gate + Sync,
    requires valid { IsValid g.nodes }
    requires may { MayRun (M.accepts rule.now) g.nodes }
    requires keeps { KeepsPayloads ((M.meaning rule.now).mutate g.nodes) g.nodes }
    requires way { IsPassWay way.now }
    requires follows { Follows way.now before.now }
    ensures means { AnswersStep (λ made. made.graph.nodes) (MutateMeans (M.meaning rule.now) g.nodes)
        (RefusesPass way.now before.now pass (plan_of BottomUp g.nodes)) result }
    ensures followed { FollowedMeans (λ made. made.order)
        (Runs (Follows way.now) (plan_of BottomUp g.nodes) pass before.now) result }
    ensures valid { IfOk result (λ made. IsValid made.graph.nodes) }
    ensures may { IfOk result (λ made. MayRun (M.accepts rule.now) made.graph.nodes) }
    ensures free { IfOk result (λ made. StayFree None g.nodes made.graph.nodes) }
{
    idle_passes_make::<P, P>();
    let _rule = rule;
    let run = visit_idle(rt, alloc, way, before, pass, &g, Direction::BottomUp)?;
    Ok(MutatedGraph {
        graph: g,
        order: run.into_order(),
    })
}
