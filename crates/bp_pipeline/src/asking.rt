ghost use Rattle.std.specs.Prelude.{◌≡◌, ◌≤◌, ◌<◌, ◌^◌, IfOk, length, map};
ghost use Rattle.bp_faults.specs.declared.limits.TheConstants.{MOST_EDGES};
ghost use Rattle.bp_faults.specs.Answers.{Tells};
ghost use Rattle.graph_nodes.specs.Nodes.{all_edges};
ghost use Rattle.module_graph.specs.Graphs.{IsValid};
ghost use Rattle.mutator_rules.specs.Conditions.{MayRun, indices_in};
ghost use Rattle.reverse_deps.specs.Applied.{AskInside, ApplyMeans};
ghost use Rattle.reverse_deps.specs.Linked.{without_edges};

use bp_faults::NodeId;
use bp_props::Module;
use module_graph::{Graph, GraphError};
use mutator_rules::Request;
use reverse_deps::apply;
use reverse_deps::laws::nothing_asked_keeps;
use std::alloc::Global;

/// Adds the edges that nodes of a valid graph ask for. Where none asks, the graph is kept, and no cycle is looked for.
pub fn with_asked<P: Drop>(
    alloc: Global,
    mods: &[Module],
    g: Graph<P>,
    asked: &[(NodeId, Request)],
) -> Result<Graph<P>, GraphError>
    requires few { length mods.now < 2 ^ 32 }
    requires may { MayRun (indices_in (length mods.now)) g.nodes }
    requires asking { AskInside (length g.nodes) asked.now }
    requires valid { IsValid g.nodes }
    requires edges { length (all_edges g.nodes) ≤ MOST_EDGES }
    ensures means { Tells (λ made. made.nodes) (ApplyMeans mods.now g.nodes asked.now) result }
    ensures bare { IfOk result (λ made. map without_edges made.nodes ≡ map without_edges g.nodes) }
    ensures may { IfOk result (λ made. MayRun (indices_in (length mods.now)) made.nodes) }
    ensures valid { IfOk result (λ made. IsValid made.nodes) }
{
    nothing_asked_keeps::<P>();
    if asked.is_empty() {
        return Ok(g);
    }
    apply(alloc, mods, g, asked)
}
