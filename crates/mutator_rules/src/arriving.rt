ghost use Rattle.std.specs.Prelude.{◌≡◌, ◌≤◌, ◌<◌, List, IfOk, [], length, map, slice_index, slice_index_or};
ghost use Rattle.module_graph.specs.declared.direction.Direction.TheVariants.{TopDown};
ghost use Rattle.module_graph.specs.Graphs.{IsNumbered};
ghost use Rattle.module_graph.specs.Planned.{plan_of};
ghost use Rattle.serial_pass.specs.Plans.{IsPlan};
ghost use Rattle.mutator_rules.specs.Arrivals.{all_arrivals, arrivals};
ghost use Rattle.mutator_rules.specs.Inside.{AreCuts, HaveRoom, StandFrom, pieces};

use crate::laws::predecessors_are_arrivals;
use bp_faults::{NodeId, OutOfMemory};
use module_graph::laws::one_more_item;
use module_graph::{EdgeKind, Graph, Node};
use pass_core::{Plan, starts_of};
use std::alloc::Global;
use std::marker::Model;

/// What is kept of the edges that lead to each node, by source and index. Contracts see a list for each node; all lie
/// in one list, and a table says where those of each node begin, and last where all end.
#[derive(Debug, Drop)]
pub struct Arriving<T> {
    items: Vec<T>,
    starts: Vec<u32>,
}

impl<T> Model for Arriving<T> {
    ghost Value = { List (List T) };

    ghost view = { λ a. pieces a.starts.items a.items.items };

    ghost invariant = { λ a. AreCuts a.starts.items (length a.items.items) };
}

impl<T> Arriving<T> {
    /// What is kept of the edges that lead to a node.
    pub fn at(&self, n: NodeId) -> &[T]
        requires { n.0 < length self.now }
        ensures { result.now ≡ slice_index_or self.now n.0 [] }
    {
        let begin = self.starts[n.0 as usize] as usize;
        let end = self.starts[n.0 as usize + 1] as usize;
        &self.items.as_slice()[begin..end]
    }
}

/// Puts the source and the kind of each edge at the next free slot of its target.
fn fill<P>(g: &Graph<P>, next: &mut Vec<u32>, items: &mut Vec<(NodeId, EdgeKind)>)
    requires numbered { IsNumbered g.now.nodes }
    requires many { length g.now.nodes ≤ length next.old.items }
    requires room { HaveRoom (slice_index next.old.items) g.now.nodes (length items.old.items) }
    ensures many { length items.new.items ≡ length items.old.items }
    ensures each { StandFrom (length g.now.nodes) (slice_index next.old.items) (arrivals g.now.nodes) items.new.items }
{
    one_more_item::<Node<P>, (NodeId, EdgeKind)>();
    let mut n = 0;
    for node in g.nodes.as_slice() {
        for edge in node.edges.as_slice() {
            let slot = next[edge.to.0 as usize];
            items[slot as usize] = (NodeId(n), edge.kind);
            next[edge.to.0 as usize] = slot + 1;
        }
        n += 1;
    }
}

/// The edges that lead to each node, by source and index: the source and the kind of each. The plan is that from the
/// top down.
pub fn arrivals_of<P>(
    alloc: Global,
    g: &Graph<P>,
    plan: &Plan,
) -> Result<Arriving<(NodeId, EdgeKind)>, OutOfMemory>
    requires numbered { IsNumbered g.now.nodes }
    requires planned { plan.now ≡ plan_of TopDown g.now.nodes }
    requires is_plan { IsPlan plan.now }
    ensures { IfOk result (λ lists. lists ≡ all_arrivals g.now.nodes) }
{
    predecessors_are_arrivals::<P>();
    let starts = starts_of(alloc, plan)?;
    let mut next = Vec::new(alloc);
    next.extend_from_slice(&starts)?;
    let count = plan.edges.as_slice().len();
    let mut items = vec![in alloc; (NodeId(0), EdgeKind::Static); count]?;
    fill(g, &mut next, &mut items);
    Ok(Arriving { items, starts })
}

/// The kinds of some edges.
fn kinds_among(alloc: Global, arrivals: &[(NodeId, EdgeKind)]) -> Result<Vec<EdgeKind>, OutOfMemory>
    ensures { IfOk result (λ kinds. kinds.items ≡ map (λ a. a.1) arrivals.now) }
{
    let mut kinds = Vec::with_capacity(alloc, arrivals.len())?;
    for arrival in arrivals {
        kinds.push(arrival.1)?;
    }
    Ok(kinds)
}

/// The kinds of the edges that lead to each node.
pub fn kinds_of(
    alloc: Global,
    arrivals: Arriving<(NodeId, EdgeKind)>,
) -> Result<Arriving<EdgeKind>, OutOfMemory>
    ensures { IfOk result (λ kinds. kinds ≡ map (map (λ a. a.1)) arrivals) }
{
    let items = kinds_among(alloc, &arrivals.items)?;
    Ok(Arriving {
        items,
        starts: arrivals.starts,
    })
}
