ghost use Rattle.std.specs.Prelude.{IfOk, All, map};
ghost use Rattle.std.specs.Arc.{arc_value};
ghost use Rattle.build_actions.specs.Acts.{acts_at};
ghost use Rattle.module_graph.specs.declared.direction.Direction.TheVariants.{BottomUp};
ghost use Rattle.module_graph.specs.Planned.{plan_of};
ghost use Rattle.order_text.specs.Lines.{IsVisit};
ghost use Rattle.serial_pass.specs.Outcomes.{PassMeans};
ghost use Rattle.pass_ways.specs.Ways.{AnswersWay};
ghost use Rattle.bp_pipeline.specs.Runs.{AnswersAll, MayStart, MayStep, TellsPass};
ghost use Rattle.bp_pipeline.specs.Generated.{AreSizes};

use crate::course::run_mutators;
use crate::journal::note;
use crate::passes::ACTIONS;
use crate::ran::Ran;
use crate::rest::records_of;
use crate::workshop::Workshop;
use bp_faults::{NodeId, Refusal};
use bp_ports::Gate;
use build_actions::{ActionVisit, Actions};
use module_graph::laws::{predecessors_are_targets, valid_plans_have_no_cycle};
use module_graph::{Direction, Graph, plan};
use module_rules::Record;
use pass_ways::{WayError, WayRun, run_by_way};
use std::alloc::Global;
use std::sync::Arc;
use std::thread::Threads;

/// What is done at each node of a graph, from the bottom up.
fn act<R: Threads + Sync, G: Gate + Sync>(
    rt: &R,
    alloc: Global,
    shop: &Workshop<'_, '_, G>,
    before: &[(u32, NodeId)],
    graph: &Graph<Record<'_>>,
) -> Result<WayRun<Actions>, WayError>
    requires may { MayStep shop.now before.now graph.now.nodes }
    ensures { AnswersWay shop.now.way (acts_at shop.now.mods.now graph.now.nodes)
        (plan_of BottomUp graph.now.nodes) ACTIONS before.now result }
{
    valid_plans_have_no_cycle::<Record<'_>>();
    predecessors_are_targets::<Record<'_>>();
    let plan = plan(alloc, graph, Direction::BottomUp)?;
    let visit = ActionVisit::new(shop.mods, graph);
    run_by_way(rt, alloc, &shop.way, before, ACTIONS, &plan, &visit)
}

/// The pass of the actions.
fn run_actions<R: Threads + Sync, G: Gate + Sync>(
    rt: &R,
    alloc: Global,
    shop: &Workshop<'_, '_, G>,
    journal: &mut Vec<(u32, NodeId)>,
    graph: &Graph<Record<'_>>,
) -> Result<Vec<Arc<Actions>>, Refusal>
    requires may { MayStep shop.now journal.old.items graph.now.nodes }
    ensures { TellsPass shop.now.way (λ made. map arc_value made.items)
        (PassMeans (acts_at shop.now.mods.now graph.now.nodes) (plan_of BottomUp graph.now.nodes))
        (plan_of BottomUp graph.now.nodes) ACTIONS journal.old.items journal.new.items result }
{
    match act(rt, alloc, shop, journal.as_slice(), graph) {
        Ok(run) => {
            note(journal, ACTIONS, run.order.as_slice())?;
            Ok(run.outs)
        }
        Err(WayError::At(_, fault)) => Err(Refusal::Bad(fault)),
        Err(WayError::Refused(fault)) => Err(Refusal::Bad(fault)),
        Err(WayError::OutOfMemory) => Err(Refusal::OutOfMemory),
    }
}

/// Runs all passes.
pub fn run_all<'m, R: Threads + Sync, G: Gate + Sync>(
    rt: &R,
    alloc: Global,
    shop: &Workshop<'m, '_, G>,
) -> Result<Ran<'m>, Refusal>
    requires may { MayStart shop.now }
    ensures run { AnswersAll shop.now.mods.now shop.now.config.now shop.now.way result }
    ensures visits { IfOk result (λ ran. All IsVisit ran.journal.items) }
    ensures sizes { IfOk result (λ ran. AreSizes shop.now.mods.now shop.now.config.now ran.sizes.items) }
{
    let mut journal = Vec::new(alloc);
    let mut sizes = Vec::new(alloc);
    let graph = run_mutators(rt, alloc, shop, &mut journal, &mut sizes)?;
    let made = run_actions(rt, alloc, shop, &mut journal, &graph)?;
    let records = records_of(alloc, graph)?;
    Ok(Ran {
        made,
        journal,
        sizes,
        records,
    })
}
