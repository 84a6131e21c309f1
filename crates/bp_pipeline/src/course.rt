ghost use Rattle.std.specs.Prelude.{◌≡◌, ◌≤◌, [], length, IfOk, All};
ghost use Rattle.bp_faults.specs.Answers.{Tells};
ghost use Rattle.bp_faults.specs.declared.limits.TheConstants.{MOST_MODULES, MOST_WORKERS};
ghost use Rattle.module_graph.specs.Graphs.{IsValid};
ghost use Rattle.mutator_rules.specs.Configs.{TargetsDiffer};
ghost use Rattle.order_text.specs.Lines.{IsVisit};
ghost use Rattle.bp_pipeline.specs.Course.{GraphAfter};
ghost use Rattle.bp_pipeline.specs.Generated.{AreSizes};
ghost use Rattle.bp_pipeline.specs.Inside.{IsUsable, AreFreeAt};
ghost use Rattle.bp_pipeline.specs.Journals.{IsJournal};
ghost use Rattle.bp_pipeline.specs.Mutators.{mutator_count, passes};
ghost use Rattle.bp_pipeline.specs.Runs.{MayStart, MayStep, AnswersCourse};

use crate::GenError;
use crate::first::first_graph;
use crate::mutators::{BUILT, passes_of};
use crate::sizes::{Sizes, sizes_of};
use crate::steps::step;
use crate::workshop::Workshop;
use bp_faults::{NodeId, Refusal};
use bp_ports::Gate;
use bp_props::{Module, Props};
use module_graph::Graph;
use module_rules::{Record, with_own_records};
use mutator_rules::Config;
use pass_ways::Way;
use std::alloc::Global;
use std::thread::Threads;

/// Runs the passes from one to another, behind those before.
fn run_passes<'m, R: Threads + Sync, G: Gate + Sync>(
    rt: &R,
    alloc: Global,
    shop: &Workshop<'m, '_, G>,
    journal: &mut Vec<(u32, NodeId)>,
    from: u32,
    to: u32,
    before: Graph<Record<'m>>,
) -> Result<Graph<Record<'m>>, Refusal>
    requires may { MayStep shop.now journal.old.items before.nodes }
    requires begun { IsJournal shop.now.mods.now shop.now.config.now from before.nodes journal.old.items }
    requires visits { All IsVisit journal.old.items }
    requires free { AreFreeAt from before.nodes }
    requires rises { from ≤ to }
    requires last { to ≤ passes }
    ensures course { AnswersCourse shop.now.mods.now shop.now.config.now shop.now.way to journal.new.items result }
    ensures usable { IfOk result (λ g. IsUsable (length shop.now.mods.now) g.nodes) }
    ensures visits { IfOk result (λ _. All IsVisit journal.new.items) }
    ensures free { IfOk result (λ g. AreFreeAt to g.nodes) }
{
    let mut graph = before;
    for number in from..to {
        graph = step(rt, alloc, shop, journal, number, graph)?;
    }
    Ok(graph)
}

/// Runs the passes of all mutators, and puts down the size of the graph after each mutator.
pub fn run_mutators<'m, R: Threads + Sync, G: Gate + Sync>(
    rt: &R,
    alloc: Global,
    shop: &Workshop<'m, '_, G>,
    journal: &mut Vec<(u32, NodeId)>,
    sizes: &mut Vec<Sizes>,
) -> Result<Graph<Record<'m>>, Refusal>
    requires may { MayStart shop.now }
    requires unvisited { journal.old.items ≡ [] }
    requires uncounted { sizes.old.items ≡ [] }
    ensures course { AnswersCourse shop.now.mods.now shop.now.config.now shop.now.way passes journal.new.items result }
    ensures usable { IfOk result (λ g. IsUsable (length shop.now.mods.now) g.nodes) }
    ensures visits { IfOk result (λ _. All IsVisit journal.new.items) }
    ensures sizes { IfOk result (λ _. AreSizes shop.now.mods.now shop.now.config.now sizes.new.items) }
{
    let mut graph = first_graph(alloc, shop.mods)?;
    for k in 0..BUILT {
        let (from, to) = (passes_of(k), passes_of(k + 1));
        graph = run_passes(rt, alloc, shop, journal, from, to, graph)?;
        sizes.push(sizes_of(&graph))?;
    }
    Ok(graph)
}

/// As `graph_after`, where what is given of a record is lent by its node's module, or shared by nodes.
pub fn shared_graph_after<'m, R: Threads + Sync, G: Gate + Sync>(
    rt: &R,
    alloc: Global,
    mods: &'m [Module],
    c: &'m Config,
    k: u32,
    workers: u32,
    gate: &'m G,
) -> Result<Graph<Record<'m>>, GenError>
    requires few { length mods.now ≤ MOST_MODULES }
    requires targets { TargetsDiffer c.now }
    requires built { k ≤ mutator_count }
    requires workers { (1 ≤ workers) × (workers ≤ MOST_WORKERS) }
    ensures means { Tells (λ g. g.nodes) (GraphAfter mods.now c.now k) result }
    ensures valid { IfOk result (λ g. IsValid g.nodes) }
{
    let shop = Workshop {
        mods,
        config: c,
        way: Way::Workers { workers, gate },
    };
    let mut journal = Vec::new(alloc);
    let first = first_graph(alloc, mods)?;
    run_passes(rt, alloc, &shop, &mut journal, 0, passes_of(k), first)
}

/// The graph after the first k mutators, or the first fault.
///
/// Refusals in the order of the mutators, and for each: its pass, its requests (21, 22, 25, 24), the limits (30), the
/// cycle rule (23). The answer is the same for any number of workers.
pub fn graph_after<R: Threads + Sync, G: Gate + Sync>(
    rt: &R,
    alloc: Global,
    mods: &[Module],
    c: &Config,
    k: u32,
    workers: u32,
    gate: &G,
) -> Result<Graph<Props>, GenError>
    requires few { length mods.now ≤ MOST_MODULES }
    requires targets { TargetsDiffer c.now }
    requires built { k ≤ mutator_count }
    requires workers { (1 ≤ workers) × (workers ≤ MOST_WORKERS) }
    ensures means { Tells (λ g. g.nodes) (GraphAfter mods.now c.now k) result }
    ensures valid { IfOk result (λ g. IsValid g.nodes) }
{
    match shared_graph_after(rt, alloc, mods, c, k, workers, gate) {
        Ok(shared) => Ok(with_own_records(alloc, shared)?),
        Err(refusal) => Err(refusal),
    }
}
