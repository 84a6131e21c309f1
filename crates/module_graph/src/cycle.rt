ghost use Rattle.std.specs.Prelude.{◌≡◌, ◌∷◌, map, length, IfOk, Some};
ghost use Rattle.bp_faults.specs.Answers.{Tells};
ghost use Rattle.graph_nodes.specs.declared.graph.Edge.{Edge};
ghost use Rattle.graph_nodes.specs.Names.{name_at};
ghost use Rattle.module_graph.specs.Graphs.{IsNumbered};
ghost use Rattle.module_graph.specs.Cycles.{IsWay, IsReported, CycleMeans};
ghost use Rattle.module_graph.specs.Search.{IsFoundStart};

use crate::nearest::nearest;
use crate::parts::number_parts;
use crate::settled::settled;
use crate::start::{Start, find_start};
use crate::{Edge, Graph, GraphError};
use bp_faults::{Fault, FaultKind, OutOfMemory, Seq, Text};
use graph_nodes::name_of;
use std::alloc::Global;

/// The edges of the cycle after its first.
fn rest_of_cycle<P>(alloc: Global, g: &Graph<P>, start: &Start) -> Result<Vec<Edge>, OutOfMemory>
    requires numbered { IsNumbered g.now.nodes }
    requires start { IsFoundStart g.now.nodes (Some start.now) }
    ensures { IfOk result
        (λ rest. IsWay g.now.nodes start.now.node start.now.first.edge.to.0 rest.items start.now.node) }
{
    let mut rest = Vec::new(alloc);
    let mut node = start.first.edge.to;
    for _step in 0..start.first.distance {
        let edges = g.nodes.as_slice()[node.0 as usize].edges.as_slice();
        match nearest(edges, &start.found) {
            Some(near) => {
                rest.push(near.edge)?;
                node = near.edge.to;
            }
            None => unreachable!(),
        }
    }
    Ok(rest)
}

/// The labels of a node and of the targets of its cycle's edges.
fn chain_of(
    alloc: Global,
    names: &[Text],
    node: u32,
    first: Edge,
    rest: &[Edge],
) -> Result<Vec<Text>, OutOfMemory>
    ensures { IfOk result (λ chain. chain.items
        ≡ name_at names.now node ∷ map (λ (e : Edge). name_at names.now e.to.0) (first ∷ rest.now)) }
{
    let mut chain = Vec::new(alloc);
    chain.push(Text::from_str(alloc, name_of(names, node as usize))?)?;
    chain.push(Text::from_str(alloc, name_of(names, first.to.0 as usize))?)?;
    for edge in rest {
        chain.push(Text::from_str(alloc, name_of(names, edge.to.0 as usize))?)?;
    }
    Ok(chain)
}

/// The fault that tells the cycle from a start.
fn fault_of<P>(
    alloc: Global,
    g: &Graph<P>,
    names: &[Text],
    start: &Start,
) -> Result<Fault, OutOfMemory>
    requires numbered { IsNumbered g.now.nodes }
    requires start { IsFoundStart g.now.nodes (Some start.now) }
    ensures { IfOk result (λ fault. IsReported g.now.nodes names.now fault) }
{
    let first = start.first.edge;
    let rest = rest_of_cycle(alloc, g, start)?;
    let chain = chain_of(alloc, names, start.node, first, &rest)?;
    Ok(Fault {
        kind: FaultKind::Cycle,
        at: first.at,
        subject: Text::new(String::new(alloc)),
        chain: Seq::new(chain),
    })
}

/// Refuses a graph in which a walk returns to its start, with the cycle from the least node that can reach itself.
///
/// `names` has the label of each node, by node number; a node beyond them has the empty label.
pub fn check_cycle<P>(alloc: Global, g: &Graph<P>, names: &[Text]) -> Result<(), GraphError>
    requires { IsNumbered g.now.nodes }
    ensures { Tells (λ done. done) (CycleMeans g.now.nodes names.now) result }
{
    let numbers = number_parts(alloc, g)?;
    let from = settled(g, &numbers);
    if from as usize == g.nodes.as_slice().len() {
        return Ok(());
    }
    match find_start(alloc, g, from)? {
        None => Ok(()),
        Some(start) => Err(GraphError::Bad(fault_of(alloc, g, names, &start)?)),
    }
}
