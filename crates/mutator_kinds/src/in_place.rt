ghost use Rattle.std.specs.Prelude.{◌≡◌, ◌<◌, ◌^◌, [], IfOk, OnOk, length, map};
ghost use Rattle.std.specs.Arc.{arc_value};
ghost use Rattle.std.specs.List.{list_all};
ghost use Rattle.mutator_kinds.specs.BottomUp.{asked_of};
ghost use Rattle.mutator_kinds.specs.Inside.{has_one_variant, with_first, with_firsts};

use crate::asking::ask;
use crate::owned::split_of;
use bp_faults::{NodeId, OutOfMemory, Payload, Seq};
use module_graph::laws::one_more_item;
use module_graph::{Axis, Graph, Node, Variation};
use mutator_rules::{Request, Split};
use std::alloc::Global;
use std::sync::Arc;

/// Whether each result has exactly one variant.
pub fn has_one_each<P>(outs: &[Arc<Split<P>>]) -> bool
    ensures { result ≡ list_all has_one_variant (map arc_value outs.now) }
{
    outs.iter().all(|out| out.variants.as_slice().len() == 1)
}

/// Gives a node the payload of the first variant, if there is one, and along an axis its variation.
fn put_first<P: Drop>(node: &mut Node<P>, axis: Option<Axis>, mut variants: Vec<(Variation, P)>)
    ensures { node.new ≡ with_first axis node.old variants.items }
{
    if variants.is_empty() {
        return;
    }
    let variant = variants.swap_remove(0);
    if let Some(axis) = axis {
        node.vars.set(axis, variant.0);
    }
    node.payload = variant.1;
}

/// How many edges results ask for. A count beyond any memory stays where it is.
fn count_asked<P>(outs: &[Arc<Split<P>>]) -> usize {
    let mut count = 0usize;
    for out in outs {
        count = count.saturating_add(out.requests.as_slice().len());
    }
    count
}

/// Gives the nodes the first variants of their results, and takes what these ask for.
fn put_each<P: Payload + Drop>(
    alloc: Global,
    nodes: &mut Vec<Node<P>>,
    axis: Option<Axis>,
    outs: Vec<Arc<Split<P>>>,
    asked: &mut Vec<(NodeId, Request)>,
) -> Result<(), OutOfMemory>
    requires many { length outs.items ≡ length nodes.old.items }
    requires few { length outs.items < 2 ^ 32 }
    requires none { asked.old.items ≡ [] }
    ensures new { OnOk result (nodes.new.items ≡ with_firsts axis nodes.old.items (map arc_value outs.items)) }
    ensures asked { OnOk result (asked.new.items ≡ asked_of (map arc_value outs.items)) }
{
    one_more_item::<Split<P>, (NodeId, Request)>();
    let mut n = 0;
    for out in outs {
        let split = split_of(alloc, out)?;
        put_first(&mut nodes[n], axis, split.variants.into_vec());
        ask(NodeId(n as u32), split.requests, asked)?;
        n += 1;
    }
    Ok(())
}

/// The graph with the first variants of results in the places of its nodes, and what they ask for. Edges stay.
pub fn change_in_place<P: Payload + Drop>(
    alloc: Global,
    g: Graph<P>,
    axis: Option<Axis>,
    outs: Vec<Arc<Split<P>>>,
) -> Result<(Graph<P>, Vec<(NodeId, Request)>), OutOfMemory>
    requires many { length outs.items ≡ length g.nodes }
    requires few { length outs.items < 2 ^ 32 }
    ensures new { IfOk result (λ made. made.0.nodes ≡ with_firsts axis g.nodes (map arc_value outs.items)) }
    ensures asked { IfOk result (λ made. made.1.items ≡ asked_of (map arc_value outs.items)) }
{
    let mut nodes = g.nodes.into_vec();
    let mut asked = Vec::with_capacity(alloc, count_asked(&outs))?;
    put_each(alloc, &mut nodes, axis, outs, &mut asked)?;
    let graph = Graph {
        nodes: Seq::new(nodes),
    };
    Ok((graph, asked))
}
