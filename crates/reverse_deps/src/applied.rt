ghost use Rattle.std.specs.Prelude.{◌≡◌, ◌<◌, ◌^◌, IfOk, length, map};
ghost use Rattle.std.specs.List.{AllByRecursion};
ghost use Rattle.bp_faults.specs.Answers.{Answers, Tells};
ghost use Rattle.bp_faults.specs.declared.ids.NodeId.{NodeId};
ghost use Rattle.module_graph.specs.Cycles.{CycleMeans};
ghost use Rattle.module_graph.specs.Graphs.{IsValid};
ghost use Rattle.mutator_rules.specs.Conditions.{MayRun, indices_in};
ghost use Rattle.reverse_deps.specs.Applied.{labels_of, found_for, AskInside, ApplyMeans};
ghost use Rattle.reverse_deps.specs.Linked.{links, linked_nodes, without_edges};

use crate::counting::count_edges;
use crate::directory::Directory;
use crate::labels::labels;
use crate::linking::{link, links};
use crate::resolving::resolve_by;
use bp_faults::{NodeId, OutOfMemory, Refusal, Seq};
use bp_props::Module;
use module_graph::{Graph, GraphError, check_cycle};
use mutator_rules::Request;
use std::alloc::Global;

/// The nodes that requests are for, or the fault of the first that isn't resolved.
fn find_all<P>(
    alloc: Global,
    mods: &[Module],
    g: &Graph<P>,
    asked: &[(NodeId, Request)],
) -> Result<Vec<NodeId>, Refusal>
    requires few { length mods.now < 2 ^ 32 }
    requires may { MayRun (indices_in (length mods.now)) g.now.nodes }
    ensures { Answers (λ found. found.items) result (found_for mods.now g.now.nodes asked.now) }
{
    if asked.is_empty() {
        return Ok(Vec::new(alloc));
    }
    let directory = Directory::new(alloc, mods, g)?;
    let mut found = Vec::with_capacity(alloc, asked.len())?;
    for (_, request) in asked {
        found.push(resolve_by(alloc, &directory, mods, g, request)?)?;
    }
    Ok(found)
}

/// The graph with the edges of requests.
fn with_links<P: Drop>(
    alloc: Global,
    g: Graph<P>,
    asked: &[(NodeId, Request)],
    found: &[NodeId],
) -> Result<Graph<P>, OutOfMemory>
    requires many { length found.now ≡ length asked.now }
    requires asking { AskInside (length g.nodes) asked.now }
    requires found { AllByRecursion (λ (n : NodeId). n.0 < length g.nodes) found.now }
    ensures { IfOk result (λ made. made.nodes ≡ linked_nodes g.nodes (links asked.now found.now)) }
{
    let links = links(alloc, asked, found)?;
    let mut nodes = g.nodes.into_vec();
    link(nodes.as_mut_slice(), &links)?;
    Ok(Graph {
        nodes: Seq::new(nodes),
    })
}

/// No walk in a graph returns to its start. Labels are made only where one does.
fn refuse_cycle<P>(alloc: Global, mods: &[Module], g: &Graph<P>) -> Result<(), GraphError>
    requires { MayRun (indices_in (length mods.now)) g.now.nodes }
    ensures { Tells (λ done. done) (CycleMeans g.now.nodes (labels_of mods.now g.now.nodes)) result }
{
    match check_cycle(alloc, g, &[]) {
        Err(GraphError::Bad(_)) => {
            let labels = labels(alloc, mods, g)?;
            check_cycle(alloc, g, &labels)
        }
        answer => answer,
    }
}

/// Adds the edges that nodes ask for. All requests are resolved in the graph as it is handed in.
///
/// Forward edges stand behind the asking node's own, and reverse ones behind those at the node that was found.
/// Refusals in this order: the first request that isn't resolved (21, 22, 25, 24), the first edge beyond the limit
/// (30), the cycle (23).
pub fn apply<P: Drop>(
    alloc: Global,
    mods: &[Module],
    g: Graph<P>,
    asked: &[(NodeId, Request)],
) -> Result<Graph<P>, GraphError>
    requires few { length mods.now < 2 ^ 32 }
    requires may { MayRun (indices_in (length mods.now)) g.nodes }
    requires asking { AskInside (length g.nodes) asked.now }
    ensures means { Tells (λ made. made.nodes) (ApplyMeans mods.now g.nodes asked.now) result }
    ensures bare { IfOk result (λ made. map without_edges made.nodes ≡ map without_edges g.nodes) }
    ensures may { IfOk result (λ made. MayRun (indices_in (length mods.now)) made.nodes) }
    ensures valid { IsValid g.nodes → IfOk result (λ made. IsValid made.nodes) }
{
    let found = find_all(alloc, mods, &g, asked)?;
    let made = with_links(alloc, g, asked, &found)?;
    count_edges(alloc, &made)?;
    refuse_cycle(alloc, mods, &made)?;
    Ok(made)
}
