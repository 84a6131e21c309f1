ghost use Rattle.std.specs.Prelude.{◌≡◌, IfOk, IsTrue, None, Some};
ghost use Rattle.module_graph.specs.declared.direction.Direction.TheVariants.{BottomUp as Upwards};
ghost use Rattle.module_graph.specs.declared.direction.Direction.TheVariants.{TopDown as Downwards};
ghost use Rattle.module_graph.specs.Graphs.{IsValid};
ghost use Rattle.module_graph.specs.Planned.{plan_of};
ghost use Rattle.mutator_rules.specs.Conditions.{MayRun};
ghost use Rattle.mutator_rules.specs.Idle.{KeepsPayloads, LeavesAll, WantsNothing};
ghost use Rattle.mutator_kinds.specs.BottomUp.{BottomUpMeans, DifferFor, IsFreeFor};
ghost use Rattle.mutator_kinds.specs.TopDown.{TopDownMeans, from_above};
ghost use Rattle.pass_ways.specs.Ways.{Follows, IsPassWay, RefusesPass, Runs};
ghost use Rattle.transition_rules.specs.Passes.{MutateMeans, SplitsDiffer, WantsMean};
ghost use Rattle.variant_graphs.specs.Splitting.{HasFreeAxis, StayFree};
ghost use Rattle.variant_graphs.specs.Steps.{AnswersStep, FollowedMeans};

use bp_faults::{NodeId, Payload};
use bp_ports::Gate;
use module_graph::Graph;
use mutator_kinds::{
    PassGraph, run_bottom_up_by, run_idle_by, run_top_down_by, run_top_down_idle_by,
};
use mutator_rules::{BottomUp, TopDown, Transition};
use pass_ways::Way;
use std::alloc::Global;
use std::thread::Threads;
use transition_rules::{
    MutatedGraph, WantedGraph, run_mutate_by, run_mutate_idle_by, run_wants_by, run_wants_idle_by,
};
use variant_graphs::StepError;

/// Runs a rule from the bottom up, in some way. Where it is idle, the rule leaves every node as it is.
pub fn run_by<R, P, M, G>(
    rt: &R,
    alloc: Global,
    way: &Way<'_, G>,
    before: &[(u32, NodeId)],
    pass: u32,
    graph: Graph<P>,
    rule: &M,
    idle: bool,
) -> Result<PassGraph<P>, StepError>
where
    R: Threads + Sync,
    P: Payload + Send + Sync + Drop,
    M: BottomUp<P> + Sync,
    G: Gate + Sync,
    requires valid { IsValid graph.nodes }
    requires may { MayRun (M.accepts rule.now) graph.nodes }
    requires free { IsFreeFor (M.splits_along rule.now) graph.nodes }
    requires differ { DifferFor (M.meaning rule.now) graph.nodes (M.splits_along rule.now) }
    requires alone { IsTrue idle → LeavesAll (M.meaning rule.now) graph.nodes }
    requires way { IsPassWay way.now }
    requires follows { Follows way.now before.now }
    ensures means { AnswersStep (λ made. (made.graph.nodes, made.asked))
        (BottomUpMeans (M.meaning rule.now) graph.nodes (M.splits_along rule.now))
        (RefusesPass way.now before.now pass (plan_of Upwards graph.nodes)) result }
    ensures followed { FollowedMeans (λ made. made.order)
        (Runs (Follows way.now) (plan_of Upwards graph.nodes) pass before.now) result }
    ensures valid { IfOk result (λ made. IsValid made.graph.nodes) }
    ensures may { IfOk result (λ made. MayRun (M.accepts rule.now) made.graph.nodes) }
    ensures free { IfOk result (λ made. StayFree (M.splits_along rule.now) graph.nodes made.graph.nodes) }
{
    if idle {
        run_idle_by(rt, alloc, way, before, pass, graph, rule)
    } else {
        run_bottom_up_by(rt, alloc, way, before, pass, graph, rule)
    }
}

/// Runs the first step of a transition, in some way. Where it is idle, the rule wants nothing of any node.
pub fn run_wants<R, P, M, G>(
    rt: &R,
    alloc: Global,
    way: &Way<'_, G>,
    before: &[(u32, NodeId)],
    pass: u32,
    graph: Graph<P>,
    rule: &M,
    idle: bool,
) -> Result<WantedGraph<P>, StepError>
where
    R: Threads + Sync,
    P: Payload + Send + Sync + Drop,
    M: Transition<P> + Sync,
    G: Gate + Sync,
    requires valid { IsValid graph.nodes }
    requires may { MayRun (M.accepts rule.now) graph.nodes }
    requires free { HasFreeAxis (M.meaning rule.now).axis graph.nodes }
    requires differ { SplitsDiffer (M.meaning rule.now) graph.nodes }
    requires nothing { IsTrue idle → WantsNothing (M.meaning rule.now) graph.nodes }
    requires way { IsPassWay way.now }
    requires follows { Follows way.now before.now }
    ensures means { AnswersStep (λ made. made.graph.nodes) (WantsMean (M.meaning rule.now) graph.nodes)
        (RefusesPass way.now before.now pass (plan_of Downwards graph.nodes)) result }
    ensures followed { FollowedMeans (λ made. made.order)
        (Runs (Follows way.now) (plan_of Downwards graph.nodes) pass before.now) result }
    ensures valid { IfOk result (λ made. IsValid made.graph.nodes) }
    ensures may { IfOk result (λ made. MayRun (M.accepts rule.now) made.graph.nodes) }
    ensures free { IfOk result (λ made. StayFree (Some (M.meaning rule.now).axis) graph.nodes made.graph.nodes) }
{
    if idle {
        run_wants_idle_by(rt, alloc, way, before, pass, graph, rule)
    } else {
        run_wants_by(rt, alloc, way, before, pass, graph, rule)
    }
}

/// Runs the second step of a transition, in some way. Where it is idle, the rule keeps the payload of every node.
pub fn run_mutate<R, P, M, G>(
    rt: &R,
    alloc: Global,
    way: &Way<'_, G>,
    before: &[(u32, NodeId)],
    pass: u32,
    graph: Graph<P>,
    rule: &M,
    idle: bool,
) -> Result<MutatedGraph<P>, StepError>
where
    R: Threads + Sync,
    P: Payload + Send + Sync + Drop,
    M: Transition<P> + Sync,
    G: Gate + Sync,
    requires valid { IsValid graph.nodes }
    requires may { MayRun (M.accepts rule.now) graph.nodes }
    requires keeps { IsTrue idle → KeepsPayloads ((M.meaning rule.now).mutate graph.nodes) graph.nodes }
    requires way { IsPassWay way.now }
    requires follows { Follows way.now before.now }
    ensures means { AnswersStep (λ made. made.graph.nodes) (MutateMeans (M.meaning rule.now) graph.nodes)
        (RefusesPass way.now before.now pass (plan_of Upwards graph.nodes)) result }
    ensures followed { FollowedMeans (λ made. made.order)
        (Runs (Follows way.now) (plan_of Upwards graph.nodes) pass before.now) result }
    ensures valid { IfOk result (λ made. IsValid made.graph.nodes) }
    ensures may { IfOk result (λ made. MayRun (M.accepts rule.now) made.graph.nodes) }
    ensures free { IfOk result (λ made. StayFree None graph.nodes made.graph.nodes) }
{
    if idle {
        run_mutate_idle_by(rt, alloc, way, before, pass, graph, rule)
    } else {
        run_mutate_by(rt, alloc, way, before, pass, graph, rule)
    }
}

/// Runs a rule from the top down, in some way. Where it is idle, the rule keeps the payload of every node.
pub fn run_down<R, P, M, G>(
    rt: &R,
    alloc: Global,
    way: &Way<'_, G>,
    before: &[(u32, NodeId)],
    pass: u32,
    graph: Graph<P>,
    rule: &M,
    idle: bool,
) -> Result<PassGraph<P>, StepError>
where
    R: Threads + Sync,
    P: Payload + Send + Sync + Drop,
    M: TopDown<P> + Sync,
    G: Gate + Sync,
    requires valid { IsValid graph.nodes }
    requires may { MayRun (M.accepts rule.now) graph.nodes }
    requires keeps { IsTrue idle → KeepsPayloads (from_above (M.meaning rule.now) graph.nodes) graph.nodes }
    requires way { IsPassWay way.now }
    requires follows { Follows way.now before.now }
    ensures means { AnswersStep (λ made. made.graph.nodes) (TopDownMeans (M.meaning rule.now) graph.nodes)
        (RefusesPass way.now before.now pass (plan_of Downwards graph.nodes)) result }
    ensures followed { FollowedMeans (λ made. made.order)
        (Runs (Follows way.now) (plan_of Downwards graph.nodes) pass before.now) result }
    ensures valid { IfOk result (λ made. IsValid made.graph.nodes) }
    ensures may { IfOk result (λ made. MayRun (M.accepts rule.now) made.graph.nodes) }
    ensures free { IfOk result (λ made. StayFree None graph.nodes made.graph.nodes) }
{
    if idle {
        run_top_down_idle_by(rt, alloc, way, before, pass, graph, rule)
    } else {
        run_top_down_by(rt, alloc, way, before, pass, graph, rule)
    }
}
