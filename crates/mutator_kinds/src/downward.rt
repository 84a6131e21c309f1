ghost use Rattle.std.specs.Prelude.{◌≡◌, ◌≤◌, IfOk, [], length, None};
ghost use Rattle.bp_faults.specs.declared.limits.TheConstants.{MOST_WORKERS};
ghost use Rattle.serial_pass.specs.Orders.{IsLegal, numbers};
ghost use Rattle.serial_pass.specs.Plans.{IsPlan};
ghost use Rattle.module_graph.specs.declared.direction.Direction.TheVariants.{TopDown};
ghost use Rattle.module_graph.specs.Graphs.{IsNumbered, IsValid};
ghost use Rattle.module_graph.specs.Planned.{plan_of};
ghost use Rattle.mutator_rules.specs.Arrivals.{kinds_into};
ghost use Rattle.mutator_rules.specs.Conditions.{MayRun, MayVisit};
ghost use Rattle.pass_ways.specs.Ways.{AnswersWay, Follows, IsPassWay, RefusesPass, Runs};
ghost use Rattle.variant_graphs.specs.Splitting.{StayFree};
ghost use Rattle.variant_graphs.specs.Steps.{AnswersStep, FollowedMeans};
ghost use Rattle.mutator_kinds.specs.Answers.{AnswersTopDown};
ghost use Rattle.mutator_kinds.specs.Inside.{all_kinds};
ghost use Rattle.mutator_kinds.specs.TopDown.{from_above, TopDownMeans};

use crate::PassGraph;
use bp_faults::{NodeId, OutOfMemory, Payload, Seq};
use bp_ports::Gate;
use module_graph::laws::valid_plans_have_no_cycle;
use module_graph::{Direction, EdgeKind, Graph, plan};
use mutator_rules::laws::predecessors_are_arrivals;
use mutator_rules::{Arriving, KindError, TopDown, arrivals_of, kinds_of};
use pass_core::{PassError, Plan, Visit, VisitError};
use pass_ways::{Way, WayError, WayRun, run_by_way};
use serial_pass::laws::outs_are_many;
use std::alloc::Global;
use std::sync::Arc;
use std::thread::Threads;
use variant_graphs::laws::{
    new_payloads_keep_modules, new_payloads_leave_axes_free, new_payloads_stay_valid,
};
use variant_graphs::{StepError, renew};

/// The kinds of the edges that lead to each node. The plan is that from the top down.
fn kinds_by_node<P>(
    alloc: Global,
    g: &Graph<P>,
    plan: &Plan,
) -> Result<Arriving<EdgeKind>, OutOfMemory>
    requires numbered { IsNumbered g.now.nodes }
    requires planned { plan.now ≡ plan_of TopDown g.now.nodes }
    requires is_plan { IsPlan plan.now }
    ensures { IfOk result (λ lists. lists ≡ all_kinds g.now.nodes) }
{
    let arrivals = arrivals_of(alloc, g, plan)?;
    kinds_of(alloc, arrivals)
}

/// Makes the payload of each node from those of the nodes whose edges lead to it.
struct TopDownVisit<'a, 'b, 'c, P, M> {
    graph: &'a Graph<P>,
    rule: &'b M,
    kinds: &'c Arriving<EdgeKind>,
}

impl<'a, 'b, 'c, P, M> Drop for TopDownVisit<'a, 'b, 'c, P, M> {
    fn drop(self) {
        let Self {
            graph: _,
            rule: _,
            kinds: _,
        } = self;
    }
}

impl<'a, 'b, 'c, P: Drop, M: TopDown<P>> Visit for TopDownVisit<'a, 'b, 'c, P, M> {
    type Out = P;

    ghost meaning = { λ v n ins. from_above (M.meaning v.rule.now) v.graph.now.nodes n ins };

    ghost takes = { λ v n count. MayVisit (M.accepts v.rule.now) v.graph.now.nodes n
        × (v.kinds.now ≡ all_kinds v.graph.now.nodes) × (count ≡ length (kinds_into v.graph.now.nodes n)) };

    fn visit(&self, alloc: Global, n: NodeId, ins: &[Arc<P>]) -> Result<P, VisitError> {
        let kinds = self.kinds.at(n);
        self.rule.visit(alloc, self.graph, n, kinds, ins)
    }
}

/// The result of each node, from the top down, in some way.
fn visit_down<R, P, M, G>(
    rt: &R,
    alloc: Global,
    way: &Way<'_, G>,
    before: &[(u32, NodeId)],
    pass: u32,
    g: &Graph<P>,
    rule: &M,
) -> Result<WayRun<P>, WayError>
where
    R: Threads + Sync,
    P: Send + Sync + Drop,
    M: TopDown<P> + Sync,
    G: Gate + Sync,
    requires valid { IsValid g.now.nodes }
    requires may { MayRun (M.accepts rule.now) g.now.nodes }
    requires way { IsPassWay way.now }
    requires follows { Follows way.now before.now }
    ensures { AnswersWay way.now (from_above (M.meaning rule.now) g.now.nodes)
        (plan_of TopDown g.now.nodes) pass before.now result }
{
    valid_plans_have_no_cycle::<P>();
    predecessors_are_arrivals::<P>();
    let plan = plan(alloc, g, Direction::TopDown)?;
    let kinds = kinds_by_node(alloc, g, &plan)?;
    let v = TopDownVisit {
        graph: g,
        rule,
        kinds: &kinds,
    };
    run_by_way(rt, alloc, way, before, pass, &plan, &v)
}

/// Runs a rule from the top down over a graph, in some way. Nothing is asked.
///
/// `before` holds the visits of the passes before this one.
pub fn run_top_down_by<R, P, M, G>(
    rt: &R,
    alloc: Global,
    way: &Way<'_, G>,
    before: &[(u32, NodeId)],
    pass: u32,
    g: Graph<P>,
    rule: &M,
) -> Result<PassGraph<P>, StepError>
where
    R: Threads + Sync,
    P: Payload + Send + Sync + Drop,
    M: TopDown<P> + Sync,
    G: Gate + Sync,
    requires valid { IsValid g.nodes }
    requires may { MayRun (M.accepts rule.now) g.nodes }
    requires way { IsPassWay way.now }
    requires follows { Follows way.now before.now }
    ensures means { AnswersStep (λ made. made.graph.nodes) (TopDownMeans (M.meaning rule.now) g.nodes)
        (RefusesPass way.now before.now pass (plan_of TopDown g.nodes)) result }
    ensures followed { FollowedMeans (λ made. made.order)
        (Runs (Follows way.now) (plan_of TopDown g.nodes) pass before.now) result }
    ensures asked { IfOk result (λ made. made.asked ≡ []) }
    ensures valid { IfOk result (λ made. IsValid made.graph.nodes) }
    ensures may { IfOk result (λ made. MayRun (M.accepts rule.now) made.graph.nodes) }
    ensures free { IfOk result (λ made. StayFree None g.nodes made.graph.nodes) }
{
    outs_are_many::<P>();
    new_payloads_stay_valid::<P>();
    new_payloads_keep_modules::<P>();
    new_payloads_leave_axes_free::<P>();
    let run = visit_down(rt, alloc, way, before, pass, &g, rule)?;
    let graph = renew(alloc, g, run.outs)?;
    Ok(PassGraph {
        graph,
        order: run.order,
        asked: Seq::new(Vec::new(alloc)),
    })
}

/// Runs a rule from the top down over a graph, on 1 to 64 workers. Nothing is asked.
pub fn run_top_down<R, P, M, G>(
    rt: &R,
    alloc: Global,
    pass: u32,
    g: Graph<P>,
    m: &M,
    workers: u32,
    gate: &G,
) -> Result<PassGraph<P>, PassError>
where
    R: Threads + Sync,
    P: Payload + Send + Sync + Drop,
    M: TopDown<P> + Sync,
    G: Gate + Sync,
    requires valid { IsValid g.nodes }
    requires may { MayRun (M.accepts m.now) g.nodes }
    requires workers { (1 ≤ workers) × (workers ≤ MOST_WORKERS) }
    ensures means { AnswersTopDown (λ made. made.graph.nodes) (TopDownMeans (M.meaning m.now) g.nodes) result }
    ensures legal { IfOk result (λ made. IsLegal (plan_of TopDown g.nodes) (numbers made.order)) }
    ensures asked { IfOk result (λ made. made.asked ≡ []) }
    ensures valid { IfOk result (λ made. IsValid made.graph.nodes) }
    ensures may { IfOk result (λ made. MayRun (M.accepts m.now) made.graph.nodes) }
    ensures free { IfOk result (λ made. StayFree None g.nodes made.graph.nodes) }
{
    let way = Way::Workers { workers, gate };
    match run_top_down_by(rt, alloc, &way, &[], pass, g, m) {
        Ok(made) => Ok(made),
        Err(StepError::Kind(KindError::At(n, fault))) => Err(PassError::At(n, fault)),
        Err(StepError::Kind(KindError::OutOfMemory)) => Err(PassError::OutOfMemory),
        Err(_) => unreachable!(),
    }
}
