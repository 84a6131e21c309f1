ghost use Rattle.std.specs.Prelude.{◌≡◌, IfOk, Ok, Some, map};
ghost use Rattle.module_graph.specs.declared.direction.Direction.TheVariants.{TopDown};
ghost use Rattle.module_graph.specs.Graphs.{IsValid};
ghost use Rattle.module_graph.specs.Planned.{plan_of};
ghost use Rattle.mutator_rules.specs.Conditions.{MayRun};
ghost use Rattle.pass_ways.specs.Ways.{AnswersWay, Follows, IsPassWay, RefusesPass, Runs};
ghost use Rattle.variant_graphs.specs.Splits.{AnswersSplit};
ghost use Rattle.variant_graphs.specs.Splitting.{splitting, HasFreeAxis, StayFree};
ghost use Rattle.variant_graphs.specs.Steps.{AnswersStep, FollowedMeans};
ghost use Rattle.transition_rules.specs.Passes.{wanted_variants, WantsMeans, SplitsDiffer, WantsMean};
ghost use Rattle.transition_rules.specs.Wants.{variations_meant};

use crate::laws::wants_split;
use crate::variants::{WantedVariants, lists_of};
use crate::wanting::WantsVisit;
use bp_faults::{NodeId, Payload, Seq};
use bp_ports::Gate;
use module_graph::laws::valid_plans_have_no_cycle;
use module_graph::{Direction, Graph, Variation, plan};
use mutator_rules::laws::{arrivals_come_from_nodes, predecessors_are_arrivals};
use mutator_rules::{KindError, Transition, arrivals_of};
use pass_ways::{Way, WayError, WayRun, run_by_way};
use std::alloc::Global;
use std::thread::Threads;
use variant_graphs::laws::{other_axes_stay_free, splits_keep_modules, splits_stay_valid};
use variant_graphs::{StepError, split_graph};

/// The variations of each node, from the top down.
fn visit_nodes<R, P, M, G>(
    rt: &R,
    alloc: Global,
    way: &Way<'_, G>,
    before: &[(u32, NodeId)],
    pass: u32,
    g: &Graph<P>,
    rule: &M,
) -> Result<WayRun<Seq<Variation>>, WayError>
where
    R: Threads + Sync,
    P: Send + Sync + Drop,
    M: Transition<P> + Sync,
    G: Gate + Sync,
    requires valid { IsValid g.now.nodes }
    requires may { MayRun (M.accepts rule.now) g.now.nodes }
    requires way { IsPassWay way.now }
    requires follows { Follows way.now before.now }
    ensures { AnswersWay way.now (variations_meant (M.meaning rule.now) g.now.nodes)
        (plan_of TopDown g.now.nodes) pass before.now result }
{
    valid_plans_have_no_cycle::<P>();
    predecessors_are_arrivals::<P>();
    let plan = plan(alloc, g, Direction::TopDown)?;
    let arriving = arrivals_of(alloc, g, &plan)?;
    let v = WantsVisit {
        graph: g,
        rule,
        arriving: &arriving,
    };
    run_by_way(rt, alloc, way, before, pass, &plan, &v)
}

/// The graph of the variants, by the variations of each node.
fn split<P: Payload + Drop, M: Transition<P>>(
    alloc: Global,
    g: &Graph<P>,
    rule: &M,
    lists: Vec<Seq<Variation>>,
) -> Result<Graph<P>, KindError>
    requires valid { IsValid g.now.nodes }
    requires may { MayRun (M.accepts rule.now) g.now.nodes }
    requires differ { SplitsDiffer (M.meaning rule.now) g.now.nodes }
    requires wants { WantsMeans (M.meaning rule.now) g.now.nodes (Ok lists.items) }
    ensures { AnswersSplit
        (splitting (wanted_variants (M.meaning rule.now) g.now.nodes) lists.items) g.now.nodes result }
{
    wants_split::<P>();
    let s = WantedVariants { graph: g, rule };
    split_graph(alloc, &s, g, lists)
}

/// The graph of the variants that are wanted of each node, with the payloads of the old graph, and the order in which
/// the nodes of the old graph were visited.
#[derive(Drop)]
pub struct WantedGraph<P> {
    pub graph: Graph<P>,
    pub order: Seq<NodeId>,
}

/// The first step of a transition: the variations of each node, from the top down, and the graph of the variants.
///
/// `Nodes` and `Edges` come after the pass and before any node of the new graph is made. `before` holds the visits of
/// the passes before this one.
pub fn run_wants_by<R, P, M, G>(
    rt: &R,
    alloc: Global,
    way: &Way<'_, G>,
    before: &[(u32, NodeId)],
    pass: u32,
    g: Graph<P>,
    rule: &M,
) -> Result<WantedGraph<P>, StepError>
where
    R: Threads + Sync,
    P: Payload + Send + Sync + Drop,
    M: Transition<P> + Sync,
    G: Gate + Sync,
    requires valid { IsValid g.nodes }
    requires may { MayRun (M.accepts rule.now) g.nodes }
    requires free { HasFreeAxis (M.meaning rule.now).axis g.nodes }
    requires differ { SplitsDiffer (M.meaning rule.now) g.nodes }
    requires way { IsPassWay way.now }
    requires follows { Follows way.now before.now }
    ensures means { AnswersStep (λ made. made.graph.nodes) (WantsMean (M.meaning rule.now) g.nodes)
        (RefusesPass way.now before.now pass (plan_of TopDown g.nodes)) result }
    ensures followed { FollowedMeans (λ made. made.order)
        (Runs (Follows way.now) (plan_of TopDown g.nodes) pass before.now) result }
    ensures valid { IfOk result (λ made. IsValid made.graph.nodes) }
    ensures may { IfOk result (λ made. MayRun (M.accepts rule.now) made.graph.nodes) }
    ensures free { IfOk result (λ made. StayFree (Some (M.meaning rule.now).axis) g.nodes made.graph.nodes) }
{
    wants_split::<P>();
    splits_stay_valid::<P, Variation>();
    splits_keep_modules::<P, Variation>();
    other_axes_stay_free::<P, Variation>();
    let run = visit_nodes(rt, alloc, way, before, pass, &g, rule)?;
    let lists = lists_of(alloc, run.outs)?;
    let graph = split(alloc, &g, rule, lists)?;
    Ok(WantedGraph {
        graph,
        order: run.order,
    })
}
