ghost use Rattle.std.specs.Prelude.{◌≡◌, IfOk, None, length};
ghost use Rattle.graph_nodes.specs.Nodes.{targets};
ghost use Rattle.module_graph.specs.declared.direction.Direction.TheVariants.{BottomUp};
ghost use Rattle.module_graph.specs.Graphs.{IsValid};
ghost use Rattle.module_graph.specs.Planned.{plan_of};
ghost use Rattle.mutator_rules.specs.Conditions.{MayRun, MayVisit};
ghost use Rattle.pass_ways.specs.Ways.{AnswersWay, Follows, IsPassWay, RefusesPass, Runs};
ghost use Rattle.variant_graphs.specs.Splitting.{StayFree};
ghost use Rattle.variant_graphs.specs.Steps.{AnswersStep, FollowedMeans};
ghost use Rattle.transition_rules.specs.Passes.{MutateMeans};

use bp_faults::{NodeId, Payload, Seq};
use bp_ports::Gate;
use module_graph::laws::{
    plans_of_graphs_are_plans, predecessors_are_targets, valid_plans_have_no_cycle,
};
use module_graph::{Direction, Graph, plan};
use mutator_rules::Transition;
use pass_core::{Visit, VisitError};
use pass_ways::{Way, WayError, WayRun, run_by_way};
use serial_pass::laws::outs_are_many;
use std::alloc::Global;
use std::sync::Arc;
use std::thread::Threads;
use variant_graphs::laws::{
    new_payloads_keep_modules, new_payloads_leave_axes_free, new_payloads_stay_valid,
};
use variant_graphs::{StepError, renew};

/// Makes the payload of each node from those of its edges' targets.
struct MutateVisit<'a, 'b, P, M> {
    graph: &'a Graph<P>,
    rule: &'b M,
}

impl<'a, 'b, P, M> Drop for MutateVisit<'a, 'b, P, M> {
    fn drop(self) {
        let Self { graph: _, rule: _ } = self;
    }
}

impl<'a, 'b, P: Drop, M: Transition<P>> Visit for MutateVisit<'a, 'b, P, M> {
    type Out = P;

    ghost meaning = { λ v n ins. (M.meaning v.rule.now).mutate v.graph.now.nodes n ins };

    ghost takes = { λ v n count. MayVisit (M.accepts v.rule.now) v.graph.now.nodes n
        × (count ≡ length (targets v.graph.now.nodes n)) };

    fn visit(&self, alloc: Global, n: NodeId, ins: &[Arc<P>]) -> Result<P, VisitError> {
        self.rule.mutate(alloc, self.graph, n, ins)
    }
}

/// The payload of each node, from the bottom up.
pub fn mutate_nodes<R, P, M, G>(
    rt: &R,
    alloc: Global,
    way: &Way<'_, G>,
    before: &[(u32, NodeId)],
    pass: u32,
    g: &Graph<P>,
    rule: &M,
) -> Result<WayRun<P>, WayError>
where
    R: Threads + Sync,
    P: Send + Sync + Drop,
    M: Transition<P> + Sync,
    G: Gate + Sync,
    requires valid { IsValid g.now.nodes }
    requires may { MayRun (M.accepts rule.now) g.now.nodes }
    requires way { IsPassWay way.now }
    requires follows { Follows way.now before.now }
    ensures { AnswersWay way.now ((M.meaning rule.now).mutate g.now.nodes)
        (plan_of BottomUp g.now.nodes) pass before.now result }
{
    valid_plans_have_no_cycle::<P>();
    predecessors_are_targets::<P>();
    let plan = plan(alloc, g, Direction::BottomUp)?;
    let v = MutateVisit { graph: g, rule };
    run_by_way(rt, alloc, way, before, pass, &plan, &v)
}

/// The graph with the payloads that a transition makes, and the order in which its nodes were visited.
#[derive(Drop)]
pub struct MutatedGraph<P> {
    pub graph: Graph<P>,
    pub order: Seq<NodeId>,
}

/// The second step of a transition: the payload of each node of the graph of the variants, from the bottom up.
///
/// `before` holds the visits of the passes before this one.
pub fn run_mutate_by<R, P, M, G>(
    rt: &R,
    alloc: Global,
    way: &Way<'_, G>,
    before: &[(u32, NodeId)],
    pass: u32,
    g: Graph<P>,
    rule: &M,
) -> Result<MutatedGraph<P>, StepError>
where
    R: Threads + Sync,
    P: Payload + Send + Sync + Drop,
    M: Transition<P> + Sync,
    G: Gate + Sync,
    requires valid { IsValid g.nodes }
    requires may { MayRun (M.accepts rule.now) g.nodes }
    requires way { IsPassWay way.now }
    requires follows { Follows way.now before.now }
    ensures means { AnswersStep (λ made. made.graph.nodes) (MutateMeans (M.meaning rule.now) g.nodes)
        (RefusesPass way.now before.now pass (plan_of BottomUp g.nodes)) result }
    ensures followed { FollowedMeans (λ made. made.order)
        (Runs (Follows way.now) (plan_of BottomUp g.nodes) pass before.now) result }
    ensures valid { IfOk result (λ made. IsValid made.graph.nodes) }
    ensures may { IfOk result (λ made. MayRun (M.accepts rule.now) made.graph.nodes) }
    ensures free { IfOk result (λ made. StayFree None g.nodes made.graph.nodes) }
{
    outs_are_many::<P>();
    new_payloads_stay_valid::<P>();
    new_payloads_keep_modules::<P>();
    new_payloads_leave_axes_free::<P>();
    let run = mutate_nodes(rt, alloc, way, before, pass, &g, rule)?;
    let graph = renew(alloc, g, run.outs)?;
    Ok(MutatedGraph {
        graph,
        order: run.order,
    })
}
