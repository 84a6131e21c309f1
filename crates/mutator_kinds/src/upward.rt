ghost use Rattle.std.specs.Prelude.{◌≡◌, ◌≤◌, IfOk, length, map};
ghost use Rattle.std.specs.Arc.{arc_value};
ghost use Rattle.bp_faults.specs.declared.limits.TheConstants.{MOST_WORKERS};
ghost use Rattle.serial_pass.specs.Orders.{IsLegal, numbers};
ghost use Rattle.graph_nodes.specs.Nodes.{targets};
ghost use Rattle.module_graph.specs.declared.direction.Direction.TheVariants.{BottomUp};
ghost use Rattle.module_graph.specs.Graphs.{IsValid};
ghost use Rattle.module_graph.specs.Planned.{plan_of};
ghost use Rattle.mutator_rules.specs.Conditions.{MayRun, MayVisit};
ghost use Rattle.mutator_rules.specs.Outcomes.{AnswersKind};
ghost use Rattle.mutator_rules.specs.Shapes.{AreShaped};
ghost use Rattle.pass_ways.specs.Ways.{AnswersWay, Follows, IsPassWay, RefusesPass, Runs};
ghost use Rattle.variant_graphs.specs.Splitting.{StayFree};
ghost use Rattle.variant_graphs.specs.Steps.{AnswersStep, FollowedMeans};
ghost use Rattle.mutator_kinds.specs.BottomUp.{BottomUpMeans, DifferFor, IsFreeFor};
ghost use Rattle.mutator_kinds.specs.Inside.{AreFit};

use crate::PassGraph;
use crate::results::graph_after;
use bp_faults::{NodeId, Payload, Seq};
use bp_ports::Gate;
use module_graph::laws::{predecessors_are_targets, valid_plans_have_no_cycle};
use module_graph::{Direction, Graph, Variation, plan};
use mutator_rules::{BottomUp, KindError, Split};
use pass_core::{Visit, VisitError};
use pass_ways::{Way, WayError, WayRun, run_by_way};
use serial_pass::laws::{outs_are_many, outs_meet_their_equation};
use std::alloc::Global;
use std::sync::Arc;
use std::thread::Threads;
use variant_graphs::StepError;
use variant_graphs::laws::{
    new_payloads_keep_modules, new_payloads_leave_axes_free, new_payloads_stay_valid,
    other_axes_stay_free, splits_keep_modules, splits_stay_valid,
};

/// Makes the variants of each node from those of its edges' targets.
struct BottomUpVisit<'a, 'b, P, M> {
    graph: &'a Graph<P>,
    rule: &'b M,
}

impl<'a, 'b, P, M> Drop for BottomUpVisit<'a, 'b, P, M> {
    fn drop(self) {
        let Self { graph: _, rule: _ } = self;
    }
}

impl<'a, 'b, P: Drop, M: BottomUp<P>> Visit for BottomUpVisit<'a, 'b, P, M> {
    type Out = Split<P>;

    ghost meaning = { λ v n ins. M.meaning v.rule.now v.graph.now.nodes n ins };

    ghost takes = { λ v n count. MayVisit (M.accepts v.rule.now) v.graph.now.nodes n
        × (count ≡ length (targets v.graph.now.nodes n)) };

    fn visit(
        &self,
        alloc: Global,
        n: NodeId,
        ins: &[Arc<Split<P>>],
    ) -> Result<Split<P>, VisitError> {
        self.rule.visit(alloc, self.graph, n, ins)
    }
}

/// Each result of a rule has its shape.
fn has_shape<P, M: BottomUp<P>>(rule: &M)
    ensures { AreShaped (M.splits_along rule.now) (M.meaning rule.now) }
{
    let _rule = rule;
}

/// The result of each node, from the bottom up, in some way.
fn visit_up<R, P, M, G>(
    rt: &R,
    alloc: Global,
    way: &Way<'_, G>,
    before: &[(u32, NodeId)],
    pass: u32,
    g: &Graph<P>,
    rule: &M,
) -> Result<WayRun<Split<P>>, WayError>
where
    R: Threads + Sync,
    P: Send + Sync + Drop,
    M: BottomUp<P> + Sync,
    G: Gate + Sync,
    requires valid { IsValid g.now.nodes }
    requires may { MayRun (M.accepts rule.now) g.now.nodes }
    requires differ { DifferFor (M.meaning rule.now) g.now.nodes (M.splits_along rule.now) }
    requires way { IsPassWay way.now }
    requires follows { Follows way.now before.now }
    ensures answers { AnswersWay way.now (M.meaning rule.now g.now.nodes)
        (plan_of BottomUp g.now.nodes) pass before.now result }
    ensures many { IfOk result (λ run. length run.outs.items ≡ length g.now.nodes) }
    ensures fit { IfOk result (λ run. AreFit (M.splits_along rule.now) (map arc_value run.outs.items)) }
{
    valid_plans_have_no_cycle::<P>();
    predecessors_are_targets::<P>();
    outs_are_many::<Split<P>>();
    outs_meet_their_equation::<Split<P>>();
    has_shape(rule);
    let plan = plan(alloc, g, Direction::BottomUp)?;
    let v = BottomUpVisit { graph: g, rule };
    run_by_way(rt, alloc, way, before, pass, &plan, &v)
}

/// Runs a rule from the bottom up over a graph, in some way.
///
/// `before` holds the visits of the passes before this one. `Nodes` and `Edges` come before any node of the new graph
/// is made. A rule that splits asks nothing; the nodes of one that asks keep their numbers.
pub fn run_bottom_up_by<R, P, M, G>(
    rt: &R,
    alloc: Global,
    way: &Way<'_, G>,
    before: &[(u32, NodeId)],
    pass: u32,
    g: Graph<P>,
    rule: &M,
) -> Result<PassGraph<P>, StepError>
where
    R: Threads + Sync,
    P: Payload + Send + Sync + Drop,
    M: BottomUp<P> + Sync,
    G: Gate + Sync,
    requires valid { IsValid g.nodes }
    requires may { MayRun (M.accepts rule.now) g.nodes }
    requires free { IsFreeFor (M.splits_along rule.now) g.nodes }
    requires differ { DifferFor (M.meaning rule.now) g.nodes (M.splits_along rule.now) }
    requires way { IsPassWay way.now }
    requires follows { Follows way.now before.now }
    ensures means { AnswersStep (λ made. (made.graph.nodes, made.asked))
        (BottomUpMeans (M.meaning rule.now) g.nodes (M.splits_along rule.now))
        (RefusesPass way.now before.now pass (plan_of BottomUp g.nodes)) result }
    ensures followed { FollowedMeans (λ made. made.order)
        (Runs (Follows way.now) (plan_of BottomUp g.nodes) pass before.now) result }
    ensures valid { IfOk result (λ made. IsValid made.graph.nodes) }
    ensures may { IfOk result (λ made. MayRun (M.accepts rule.now) made.graph.nodes) }
    ensures free { IfOk result (λ made. StayFree (M.splits_along rule.now) g.nodes made.graph.nodes) }
{
    splits_stay_valid::<P, (Variation, P)>();
    splits_keep_modules::<P, (Variation, P)>();
    other_axes_stay_free::<P, (Variation, P)>();
    new_payloads_stay_valid::<P>();
    new_payloads_keep_modules::<P>();
    new_payloads_leave_axes_free::<P>();
    let run = visit_up(rt, alloc, way, before, pass, &g, rule)?;
    let made = graph_after(alloc, g, rule.axis(), run.outs)?;
    Ok(PassGraph {
        graph: made.0,
        order: run.order,
        asked: Seq::new(made.1),
    })
}

/// Runs a rule from the bottom up over a graph, on 1 to 64 workers.
///
/// `Nodes` and `Edges` come before any node of the new graph is made.
pub fn run_bottom_up<R, P, M, G>(
    rt: &R,
    alloc: Global,
    pass: u32,
    g: Graph<P>,
    m: &M,
    workers: u32,
    gate: &G,
) -> Result<PassGraph<P>, KindError>
where
    R: Threads + Sync,
    P: Payload + Send + Sync + Drop,
    M: BottomUp<P> + Sync,
    G: Gate + Sync,
    requires valid { IsValid g.nodes }
    requires may { MayRun (M.accepts m.now) g.nodes }
    requires free { IsFreeFor (M.splits_along m.now) g.nodes }
    requires differ { DifferFor (M.meaning m.now) g.nodes (M.splits_along m.now) }
    requires workers { (1 ≤ workers) × (workers ≤ MOST_WORKERS) }
    ensures means { AnswersKind (λ made. (made.graph.nodes, made.asked))
        (BottomUpMeans (M.meaning m.now) g.nodes (M.splits_along m.now)) result }
    ensures legal { IfOk result (λ made. IsLegal (plan_of BottomUp g.nodes) (numbers made.order)) }
    ensures valid { IfOk result (λ made. IsValid made.graph.nodes) }
    ensures may { IfOk result (λ made. MayRun (M.accepts m.now) made.graph.nodes) }
    ensures free { IfOk result (λ made. StayFree (M.splits_along m.now) g.nodes made.graph.nodes) }
{
    let way = Way::Workers { workers, gate };
    match run_bottom_up_by(rt, alloc, &way, &[], pass, g, m) {
        Ok(made) => Ok(made),
        Err(StepError::Kind(error)) => Err(error),
        Err(StepError::Refused(_)) => unreachable!(),
    }
}
