ghost use Rattle.std.specs.Prelude.{◌≤◌, ◌<◌, IfOk, Some};
ghost use Rattle.bp_faults.specs.declared.limits.TheConstants.{MOST_WORKERS};
ghost use Rattle.serial_pass.specs.Orders.{IsLegal, numbers};
ghost use Rattle.module_graph.specs.declared.direction.Direction.TheVariants.{BottomUp, TopDown};
ghost use Rattle.module_graph.specs.Graphs.{IsValid};
ghost use Rattle.module_graph.specs.Planned.{plan_of};
ghost use Rattle.mutator_rules.specs.Conditions.{MayRun};
ghost use Rattle.mutator_rules.specs.Outcomes.{AnswersKind};
ghost use Rattle.variant_graphs.specs.Splitting.{HasFreeAxis, StayFree};
ghost use Rattle.transition_rules.specs.Passes.{SplitsDiffer, TransitionMeans};

use crate::mutate_pass::run_mutate_by;
use crate::wants_pass::run_wants_by;
use bp_faults::{NodeId, Payload, Seq};
use bp_ports::Gate;
use module_graph::Graph;
use mutator_rules::{KindError, Transition};
use pass_ways::Way;
use std::alloc::Global;
use std::thread::Threads;
use variant_graphs::StepError;
use variant_graphs::laws::new_payloads_keep_plans;

/// The graph after a transition, and the orders in which its two passes visited the nodes: the first those of the old
/// graph, the second those of the new one.
#[derive(Drop)]
pub struct TransitionGraph<P> {
    pub graph: Graph<P>,
    pub wants: Seq<NodeId>,
    pub mutated: Seq<NodeId>,
}

/// Runs a transition rule over a graph, on 1 to 64 workers.
///
/// The first pass, from the top down over the old graph, has the given number; the second, from the bottom up over the
/// new one, has the next. `Nodes` and `Edges` come after the first and before any node of the new graph is made.
pub fn run_transition<R, P, M, G>(
    rt: &R,
    alloc: Global,
    pass: u32,
    g: Graph<P>,
    m: &M,
    workers: u32,
    gate: &G,
) -> Result<TransitionGraph<P>, KindError>
where
    R: Threads + Sync,
    P: Payload + Send + Sync + Drop,
    M: Transition<P> + Sync,
    G: Gate + Sync,
    requires pass { pass < 4294967295 }
    requires valid { IsValid g.nodes }
    requires may { MayRun (M.accepts m.now) g.nodes }
    requires free { HasFreeAxis (M.meaning m.now).axis g.nodes }
    requires differ { SplitsDiffer (M.meaning m.now) g.nodes }
    requires workers { (1 ≤ workers) × (workers ≤ MOST_WORKERS) }
    ensures means { AnswersKind (λ made. made.graph.nodes) (TransitionMeans (M.meaning m.now) g.nodes) result }
    ensures wants { IfOk result (λ made. IsLegal (plan_of TopDown g.nodes) (numbers made.wants)) }
    ensures mutated { IfOk result (λ made. IsLegal (plan_of BottomUp made.graph.nodes) (numbers made.mutated)) }
    ensures valid { IfOk result (λ made. IsValid made.graph.nodes) }
    ensures may { IfOk result (λ made. MayRun (M.accepts m.now) made.graph.nodes) }
    ensures free { IfOk result (λ made. StayFree (Some (M.meaning m.now).axis) g.nodes made.graph.nodes) }
{
    new_payloads_keep_plans::<P>();
    let way = Way::Workers { workers, gate };
    let wanted = match run_wants_by(rt, alloc, &way, &[], pass, g, m) {
        Ok(wanted) => wanted,
        Err(StepError::Kind(error)) => return Err(error),
        Err(StepError::Refused(_)) => unreachable!(),
    };
    match run_mutate_by(rt, alloc, &way, &[], pass + 1, wanted.graph, m) {
        Ok(made) => Ok(TransitionGraph {
            graph: made.graph,
            wants: wanted.order,
            mutated: made.order,
        }),
        Err(StepError::Kind(error)) => Err(error),
        Err(StepError::Refused(_)) => unreachable!(),
    }
}
