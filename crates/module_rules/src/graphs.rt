ghost use Rattle.std.specs.Prelude.{◌≡◌, IfOk};

use crate::Record;
use bp_faults::{OutOfMemory, Seq};
use bp_props::Props;
use module_graph::{Graph, Node};
use std::alloc::Global;

fn with_record<'m>(alloc: Global, node: Node<Props>) -> Result<Node<Record<'m>>, OutOfMemory>
    ensures { IfOk result (λ made. made ≡ node) }
{
    Ok(Node {
        module: node.module,
        vars: node.vars,
        payload: Record::new(alloc, node.payload)?,
        edges: node.edges,
    })
}

/// The same graph, with records that other graphs can share.
pub fn with_records<'m>(alloc: Global, g: Graph<Props>) -> Result<Graph<Record<'m>>, OutOfMemory>
    ensures { IfOk result (λ made. made.nodes ≡ g.nodes) }
{
    let nodes = g.nodes.into_vec();
    let mut made = Vec::with_capacity(alloc, nodes.len())?;
    for node in nodes {
        made.push(with_record(alloc, node)?)?;
    }
    Ok(Graph {
        nodes: Seq::new(made),
    })
}

fn with_own_record(alloc: Global, node: Node<Record<'_>>) -> Result<Node<Props>, OutOfMemory>
    ensures { IfOk result (λ own. own ≡ node.entry) }
{
    Ok(Node {
        module: node.module,
        vars: node.vars,
        payload: node.payload.into_props(alloc)?,
        edges: node.edges,
    })
}

/// The same graph, each node with properties of its own.
pub fn with_own_records(alloc: Global, g: Graph<Record<'_>>) -> Result<Graph<Props>, OutOfMemory>
    ensures { IfOk result (λ own. own.nodes ≡ g.entry.nodes) }
{
    let nodes = g.nodes.into_vec();
    let mut own = Vec::with_capacity(alloc, nodes.len())?;
    for node in nodes {
        own.push(with_own_record(alloc, node)?)?;
    }
    Ok(Graph {
        nodes: Seq::new(own),
    })
}
