ghost use Rattle.std.specs.Prelude.{◌≡◌, ◌<◌, ◌+◌, ◌↔◌, ℕ, length, IfOk, IsTrue, None, Some};
ghost use Rattle.graph_nodes.specs.declared.variations.Axis.TheVariants.{Target, Image, Link};
ghost use Rattle.graph_nodes.specs.declared.variations.Axis.TheVariants.{PerSource as SourceAxis};
ghost use Rattle.graph_nodes.specs.declared.variations.Axis.TheVariants.{Sanitize as SanitizeAxis};
ghost use Rattle.module_graph.specs.declared.direction.Direction.TheVariants.{BottomUp as Upwards};
ghost use Rattle.module_graph.specs.Planned.{plan_of};
ghost use Rattle.mutator_rules.specs.Conditions.{indices_in};
ghost use Rattle.mutator_rules.specs.Idle.{LeavesAll};
ghost use Rattle.mutator_kinds.specs.BottomUp.{BottomUpMeans, IsFreeFor, DifferFor};
ghost use Rattle.variant_graphs.specs.Splitting.{HasFreeAxis, StayFree};
ghost use Rattle.bp_pipeline.specs.Inside.{IsUsable, AreFreeAt};
ghost use Rattle.bp_pipeline.specs.Limits.{ComesTo};
ghost use Rattle.bp_pipeline.specs.Passes.{AskMeans, MakeMeans, pass_at};
ghost use Rattle.bp_pipeline.specs.Runs.{MayStep, TellsPass, TellsStep};
ghost use Rattle.bp_pipeline.specs.Mutators.{passes};
ghost use Rattle.bp_pipeline.specs.declared.passes.Pass.TheVariants.{AskDefaults, MergeDefaults, AskPlugins};
ghost use Rattle.bp_pipeline.specs.declared.passes.Pass.TheVariants.{SplitTargets, SplitImages, SplitLinks};
ghost use Rattle.bp_pipeline.specs.declared.passes.Pass.TheVariants.{SplitSources, SplitSanitized, MarkSanitized};
ghost use Rattle.bp_pipeline.specs.declared.passes.Pass.TheVariants.{HandLevels};

use crate::asking::with_asked;
use crate::journal::note;
use crate::limits::refusal_of;
use crate::passes::{Pass, pass_at};
use crate::running::{run_by, run_down, run_mutate, run_wants};
use crate::workshop::Workshop;
use bp_faults::{NodeId, Payload, Refusal};
use bp_ports::Gate;
use bp_props::Module;
use defaults_mutator::{DefaultsDeps, DefaultsMerge};
use info_mutators::laws::own_variations_differ;
use info_mutators::{Info, Sanitize, SdkLevel};
use linkage_mutator::laws::{link_variants_differ, source_variants_differ};
use linkage_mutator::{DepsAsk, LinkSplit, PerSource, PluginsAsk, module_names};
use module_graph::Graph;
use module_rules::Record;
use mutator_kinds::PassGraph;
use mutator_rules::{BottomUp, Split};
use serial_pass::laws::outs_are_many;
use std::alloc::Global;
use std::thread::Threads;
use target_mutators::laws::{image_variants_differ, target_variants_differ};
use target_mutators::{ArchSplit, ImageSplit};

/// A pass of a rule from the bottom up. Where it is idle, the rule leaves every node as it is.
fn run_rule<R, P, M, G>(
    rt: &R,
    alloc: Global,
    shop: &Workshop<'_, '_, G>,
    journal: &mut Vec<(u32, NodeId)>,
    pass: u32,
    graph: Graph<P>,
    rule: &M,
    idle: bool,
) -> Result<PassGraph<P>, Refusal>
where
    R: Threads + Sync,
    P: Payload + Send + Sync + Drop,
    M: BottomUp<P> + Sync,
    G: Gate + Sync,
    requires may { MayStep shop.now journal.old.items graph.nodes }
    requires free { IsFreeFor (M.splits_along rule.now) graph.nodes }
    requires differ { DifferFor (M.meaning rule.now) graph.nodes (M.splits_along rule.now) }
    requires accepts { (m : ℕ) → M.accepts rule.now m ↔ indices_in (length shop.now.mods.now) m }
    requires alone { IsTrue idle → LeavesAll (M.meaning rule.now) graph.nodes }
    ensures tells { TellsPass shop.now.way (λ made. (made.graph.nodes, made.asked))
        (ComesTo shop.now.mods.now (BottomUpMeans (M.meaning rule.now) graph.nodes (M.splits_along rule.now)))
        (plan_of Upwards graph.nodes) pass journal.old.items journal.new.items result }
    ensures usable { IfOk result (λ made. IsUsable (length shop.now.mods.now) made.graph.nodes) }
    ensures free { IfOk result (λ made. StayFree (M.splits_along rule.now) graph.nodes made.graph.nodes) }
{
    match run_by(
        rt,
        alloc,
        &shop.way,
        journal.as_slice(),
        pass,
        graph,
        rule,
        idle,
    ) {
        Ok(made) => {
            note(journal, pass, made.order.as_slice())?;
            Ok(made)
        }
        Err(error) => Err(refusal_of(alloc, shop.mods, error)),
    }
}

/// A mutator that asks.
fn ask<R, P, M, G>(
    rt: &R,
    alloc: Global,
    shop: &Workshop<'_, '_, G>,
    journal: &mut Vec<(u32, NodeId)>,
    pass: u32,
    graph: Graph<P>,
    rule: &M,
    idle: bool,
) -> Result<Graph<P>, Refusal>
where
    R: Threads + Sync,
    P: Payload + Send + Sync + Drop,
    M: BottomUp<P> + Sync,
    G: Gate + Sync,
    requires may { MayStep shop.now journal.old.items graph.nodes }
    requires along { M.splits_along rule.now ≡ None }
    requires accepts { (m : ℕ) → M.accepts rule.now m ↔ indices_in (length shop.now.mods.now) m }
    requires alone { IsTrue idle → LeavesAll (M.meaning rule.now) graph.nodes }
    ensures tells { TellsPass shop.now.way (λ g. g.nodes)
        (AskMeans shop.now.mods.now (M.meaning rule.now) graph.nodes)
        (plan_of Upwards graph.nodes) pass journal.old.items journal.new.items result }
    ensures usable { IfOk result (λ g. IsUsable (length shop.now.mods.now) g.nodes) }
    ensures free { IfOk result (λ g. StayFree None graph.nodes g.nodes) }
{
    // A law: so each asking node is a node.
    outs_are_many::<Split<P>>();
    let made = run_rule(rt, alloc, shop, journal, pass, graph, rule, idle)?;
    with_asked(alloc, shop.mods, made.graph, made.asked.as_slice())
}

/// A mutator that asks nothing.
fn make<R, P, M, G>(
    rt: &R,
    alloc: Global,
    shop: &Workshop<'_, '_, G>,
    journal: &mut Vec<(u32, NodeId)>,
    pass: u32,
    graph: Graph<P>,
    rule: &M,
    idle: bool,
) -> Result<Graph<P>, Refusal>
where
    R: Threads + Sync,
    P: Payload + Send + Sync + Drop,
    M: BottomUp<P> + Sync,
    G: Gate + Sync,
    requires may { MayStep shop.now journal.old.items graph.nodes }
    requires free { IsFreeFor (M.splits_along rule.now) graph.nodes }
    requires differ { DifferFor (M.meaning rule.now) graph.nodes (M.splits_along rule.now) }
    requires accepts { (m : ℕ) → M.accepts rule.now m ↔ indices_in (length shop.now.mods.now) m }
    requires alone { IsTrue idle → LeavesAll (M.meaning rule.now) graph.nodes }
    ensures tells { TellsPass shop.now.way (λ g. g.nodes)
        (MakeMeans shop.now.mods.now (M.splits_along rule.now) (M.meaning rule.now) graph.nodes)
        (plan_of Upwards graph.nodes) pass journal.old.items journal.new.items result }
    ensures usable { IfOk result (λ g. IsUsable (length shop.now.mods.now) g.nodes) }
    ensures free { IfOk result (λ g. StayFree (M.splits_along rule.now) graph.nodes g.nodes) }
{
    let made = run_rule(rt, alloc, shop, journal, pass, graph, rule, idle)?;
    Ok(made.graph)
}

fn ask_defaults<'m, R: Threads + Sync, G: Gate + Sync>(
    rt: &R,
    alloc: Global,
    shop: &Workshop<'m, '_, G>,
    journal: &mut Vec<(u32, NodeId)>,
    pass: u32,
    graph: Graph<Record<'m>>,
) -> Result<Graph<Record<'m>>, Refusal>
    requires may { MayStep shop.now journal.old.items graph.nodes }
    ensures tells { TellsStep shop.now AskDefaults pass graph.entry.nodes journal.old.items journal.new.items result }
    ensures usable { IfOk result (λ g. IsUsable (length shop.now.mods.now) g.nodes) }
    ensures free { IfOk result (λ g. StayFree None graph.entry.nodes g.nodes) }
{
    let rule = DefaultsDeps::new(shop.mods, shop.config);
    let idle = rule.leaves_all(&graph);
    ask(rt, alloc, shop, journal, pass, graph, &rule, idle)
}

fn merge_defaults<'m, R: Threads + Sync, G: Gate + Sync>(
    rt: &R,
    alloc: Global,
    shop: &Workshop<'m, '_, G>,
    journal: &mut Vec<(u32, NodeId)>,
    pass: u32,
    graph: Graph<Record<'m>>,
) -> Result<Graph<Record<'m>>, Refusal>
    requires may { MayStep shop.now journal.old.items graph.nodes }
    ensures tells { TellsStep shop.now MergeDefaults pass graph.entry.nodes journal.old.items journal.new.items result }
    ensures usable { IfOk result (λ g. IsUsable (length shop.now.mods.now) g.nodes) }
    ensures free { IfOk result (λ g. StayFree None graph.entry.nodes g.nodes) }
{
    let rule = DefaultsMerge::new(shop.mods, shop.config);
    let idle = rule.leaves_all(&graph);
    make(rt, alloc, shop, journal, pass, graph, &rule, idle)
}

/// Whether a module is a plugin of others, so that a table of all names is worth its time.
fn has_plugins(mods: &[Module]) -> bool {
    mods.iter()
        .any(|item| !item.props.plugin_of.items().is_empty())
}

fn ask_plugins<'m, R: Threads + Sync, G: Gate + Sync>(
    rt: &R,
    alloc: Global,
    shop: &Workshop<'m, '_, G>,
    journal: &mut Vec<(u32, NodeId)>,
    pass: u32,
    graph: Graph<Record<'m>>,
) -> Result<Graph<Record<'m>>, Refusal>
    requires may { MayStep shop.now journal.old.items graph.nodes }
    ensures tells { TellsStep shop.now AskPlugins pass graph.entry.nodes journal.old.items journal.new.items result }
    ensures usable { IfOk result (λ g. IsUsable (length shop.now.mods.now) g.nodes) }
    ensures free { IfOk result (λ g. StayFree None graph.entry.nodes g.nodes) }
{
    if !has_plugins(shop.mods) {
        let rule = PluginsAsk::new(shop.mods, shop.config);
        let idle = rule.leaves_all(&graph);
        return ask(rt, alloc, shop, journal, pass, graph, &rule, idle);
    }
    let names = module_names(alloc, shop.mods)?;
    let rule = PluginsAsk::with_names(shop.mods, shop.config, &names);
    ask(rt, alloc, shop, journal, pass, graph, &rule, false)
}

fn split_targets<'m, R: Threads + Sync, G: Gate + Sync>(
    rt: &R,
    alloc: Global,
    shop: &Workshop<'m, '_, G>,
    journal: &mut Vec<(u32, NodeId)>,
    pass: u32,
    graph: Graph<Record<'m>>,
) -> Result<Graph<Record<'m>>, Refusal>
    requires may { MayStep shop.now journal.old.items graph.nodes }
    requires free { HasFreeAxis Target graph.nodes }
    ensures tells { TellsStep shop.now SplitTargets pass graph.entry.nodes journal.old.items journal.new.items result }
    ensures usable { IfOk result (λ g. IsUsable (length shop.now.mods.now) g.nodes) }
    ensures free { IfOk result (λ g. StayFree (Some Target) graph.entry.nodes g.nodes) }
{
    target_variants_differ();
    let rule = ArchSplit::new(shop.mods, shop.config);
    make(rt, alloc, shop, journal, pass, graph, &rule, false)
}

fn split_images<'m, R: Threads + Sync, G: Gate + Sync>(
    rt: &R,
    alloc: Global,
    shop: &Workshop<'m, '_, G>,
    journal: &mut Vec<(u32, NodeId)>,
    pass: u32,
    graph: Graph<Record<'m>>,
) -> Result<Graph<Record<'m>>, Refusal>
    requires may { MayStep shop.now journal.old.items graph.nodes }
    requires free { HasFreeAxis Image graph.nodes }
    ensures tells { TellsStep shop.now SplitImages pass graph.entry.nodes journal.old.items journal.new.items result }
    ensures usable { IfOk result (λ g. IsUsable (length shop.now.mods.now) g.nodes) }
    ensures free { IfOk result (λ g. StayFree (Some Image) graph.entry.nodes g.nodes) }
{
    image_variants_differ();
    let rule = ImageSplit::new(shop.mods, shop.config);
    let idle = rule.leaves_all(&graph);
    make(rt, alloc, shop, journal, pass, graph, &rule, idle)
}

fn split_links<'m, R: Threads + Sync, G: Gate + Sync>(
    rt: &R,
    alloc: Global,
    shop: &Workshop<'m, '_, G>,
    journal: &mut Vec<(u32, NodeId)>,
    pass: u32,
    graph: Graph<Record<'m>>,
) -> Result<Graph<Record<'m>>, Refusal>
    requires may { MayStep shop.now journal.old.items graph.nodes }
    requires free { HasFreeAxis Link graph.nodes }
    ensures tells { TellsStep shop.now SplitLinks pass graph.entry.nodes journal.old.items journal.new.items result }
    ensures usable { IfOk result (λ g. IsUsable (length shop.now.mods.now) g.nodes) }
    ensures free { IfOk result (λ g. StayFree (Some Link) graph.entry.nodes g.nodes) }
{
    link_variants_differ();
    let rule = LinkSplit::new(shop.mods, shop.config);
    make(rt, alloc, shop, journal, pass, graph, &rule, false)
}

fn split_sources<'m, R: Threads + Sync, G: Gate + Sync>(
    rt: &R,
    alloc: Global,
    shop: &Workshop<'m, '_, G>,
    journal: &mut Vec<(u32, NodeId)>,
    pass: u32,
    graph: Graph<Record<'m>>,
) -> Result<Graph<Record<'m>>, Refusal>
    requires may { MayStep shop.now journal.old.items graph.nodes }
    requires free { HasFreeAxis SourceAxis graph.nodes }
    ensures tells { TellsStep shop.now SplitSources pass graph.entry.nodes journal.old.items journal.new.items result }
    ensures usable { IfOk result (λ g. IsUsable (length shop.now.mods.now) g.nodes) }
    ensures free { IfOk result (λ g. StayFree (Some SourceAxis) graph.entry.nodes g.nodes) }
{
    source_variants_differ();
    let rule = PerSource::new(shop.mods, shop.config);
    let idle = rule.leaves_all(&graph);
    make(rt, alloc, shop, journal, pass, graph, &rule, idle)
}

/// The first pass of a mutator with transitions: each node gets the variants that are wanted of it.
fn split_sanitized<'m, R: Threads + Sync, G: Gate + Sync>(
    rt: &R,
    alloc: Global,
    shop: &Workshop<'m, '_, G>,
    journal: &mut Vec<(u32, NodeId)>,
    pass: u32,
    graph: Graph<Record<'m>>,
) -> Result<Graph<Record<'m>>, Refusal>
    requires may { MayStep shop.now journal.old.items graph.nodes }
    requires free { HasFreeAxis SanitizeAxis graph.nodes }
    ensures tells { TellsStep shop.now SplitSanitized pass graph.entry.nodes
        journal.old.items journal.new.items result }
    ensures usable { IfOk result (λ g. IsUsable (length shop.now.mods.now) g.nodes) }
    ensures free { IfOk result (λ g. StayFree (Some SanitizeAxis) graph.entry.nodes g.nodes) }
{
    own_variations_differ();
    let rule = Sanitize::new(shop.mods, shop.config);
    let idle = rule.wants_nothing(&graph);
    match run_wants(
        rt,
        alloc,
        &shop.way,
        journal.as_slice(),
        pass,
        graph,
        &rule,
        idle,
    ) {
        Ok(made) => {
            note(journal, pass, made.order.as_slice())?;
            Ok(made.graph)
        }
        Err(error) => Err(refusal_of(alloc, shop.mods, error)),
    }
}

/// The second pass of a mutator with transitions: each variant gets its record.
fn mark_sanitized<'m, R: Threads + Sync, G: Gate + Sync>(
    rt: &R,
    alloc: Global,
    shop: &Workshop<'m, '_, G>,
    journal: &mut Vec<(u32, NodeId)>,
    pass: u32,
    graph: Graph<Record<'m>>,
) -> Result<Graph<Record<'m>>, Refusal>
    requires may { MayStep shop.now journal.old.items graph.nodes }
    ensures tells { TellsStep shop.now MarkSanitized pass graph.entry.nodes journal.old.items journal.new.items result }
    ensures usable { IfOk result (λ g. IsUsable (length shop.now.mods.now) g.nodes) }
    ensures free { IfOk result (λ g. StayFree None graph.entry.nodes g.nodes) }
{
    let rule = Sanitize::new(shop.mods, shop.config);
    let idle = rule.keeps_payloads(&graph);
    match run_mutate(
        rt,
        alloc,
        &shop.way,
        journal.as_slice(),
        pass,
        graph,
        &rule,
        idle,
    ) {
        Ok(made) => {
            note(journal, pass, made.order.as_slice())?;
            Ok(made.graph)
        }
        Err(error) => Err(refusal_of(alloc, shop.mods, error)),
    }
}

fn hand_levels<'m, R: Threads + Sync, G: Gate + Sync>(
    rt: &R,
    alloc: Global,
    shop: &Workshop<'m, '_, G>,
    journal: &mut Vec<(u32, NodeId)>,
    pass: u32,
    graph: Graph<Record<'m>>,
) -> Result<Graph<Record<'m>>, Refusal>
    requires may { MayStep shop.now journal.old.items graph.nodes }
    ensures tells { TellsStep shop.now HandLevels pass graph.entry.nodes journal.old.items journal.new.items result }
    ensures usable { IfOk result (λ g. IsUsable (length shop.now.mods.now) g.nodes) }
    ensures free { IfOk result (λ g. StayFree None graph.entry.nodes g.nodes) }
{
    let rule = SdkLevel::new(shop.mods, shop.config);
    let idle = rule.keeps_payloads(&graph);
    match run_down(
        rt,
        alloc,
        &shop.way,
        journal.as_slice(),
        pass,
        graph,
        &rule,
        idle,
    ) {
        Ok(made) => {
            note(journal, pass, made.order.as_slice())?;
            Ok(made.graph)
        }
        Err(error) => Err(refusal_of(alloc, shop.mods, error)),
    }
}

/// Runs a pass by its number, counted from 0.
pub fn step<'m, R: Threads + Sync, G: Gate + Sync>(
    rt: &R,
    alloc: Global,
    shop: &Workshop<'m, '_, G>,
    journal: &mut Vec<(u32, NodeId)>,
    number: u32,
    graph: Graph<Record<'m>>,
) -> Result<Graph<Record<'m>>, Refusal>
    requires may { MayStep shop.now journal.old.items graph.nodes }
    requires free { AreFreeAt number graph.nodes }
    requires last { number < passes }
    ensures tells { TellsStep shop.now (pass_at number) (number + 1) graph.entry.nodes
        journal.old.items journal.new.items result }
    ensures usable { IfOk result (λ g. IsUsable (length shop.now.mods.now) g.nodes) }
    ensures free { IfOk result (λ g. AreFreeAt (number + 1) g.nodes) }
{
    let (mods, c) = (shop.mods, shop.config);
    let pass = number + 1;
    match pass_at(number) {
        Pass::AskDefaults => ask_defaults(rt, alloc, shop, journal, pass, graph),
        Pass::MergeDefaults => merge_defaults(rt, alloc, shop, journal, pass, graph),
        Pass::SplitTargets => split_targets(rt, alloc, shop, journal, pass, graph),
        Pass::SplitImages => split_images(rt, alloc, shop, journal, pass, graph),
        Pass::SplitLinks => split_links(rt, alloc, shop, journal, pass, graph),
        Pass::AskDependencies => ask(
            rt,
            alloc,
            shop,
            journal,
            pass,
            graph,
            &DepsAsk::new(mods, c),
            false,
        ),
        Pass::AskPlugins => ask_plugins(rt, alloc, shop, journal, pass, graph),
        Pass::SplitSources => split_sources(rt, alloc, shop, journal, pass, graph),
        Pass::SplitSanitized => split_sanitized(rt, alloc, shop, journal, pass, graph),
        Pass::MarkSanitized => mark_sanitized(rt, alloc, shop, journal, pass, graph),
        Pass::HandLevels => hand_levels(rt, alloc, shop, journal, pass, graph),
        Pass::GatherInfo => make(
            rt,
            alloc,
            shop,
            journal,
            pass,
            graph,
            &Info::new(mods, c),
            false,
        ),
    }
}
