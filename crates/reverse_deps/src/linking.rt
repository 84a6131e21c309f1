ghost use Rattle.std.specs.Prelude.{◌≡◌, ◌++◌, IfOk, OnOk, length, zip};
ghost use Rattle.reverse_deps.specs.Inside.{AreHeld};
ghost use Rattle.reverse_deps.specs.Linked.{edge_for, link_of, links_in, links, linked_nodes, same_way};

use bp_faults::{NodeId, OutOfMemory};
use module_graph::{Edge, Node};
use mutator_rules::Request;
use std::alloc::Global;

fn edge_for(request: &Request, to: NodeId) -> Edge
    ensures { result ≡ edge_for request.now to }
{
    Edge {
        kind: request.kind,
        to,
        at: request.at,
    }
}

/// Which node gets an edge by a request that was resolved, and the edge.
fn link_of(asker: NodeId, request: &Request, found: NodeId) -> (NodeId, Edge)
    ensures { result ≡ link_of ((asker, request.now), found) }
{
    if request.reverse {
        (found, edge_for(request, asker))
    } else {
        (asker, edge_for(request, found))
    }
}

fn is_way(reverse: bool, request: &Request) -> bool
    ensures { result ≡ same_way «reverse» request.now.reverse }
{
    reverse == request.reverse
}

/// Adds the links of the requests of one direction.
fn add_links(
    made: &mut Vec<(NodeId, Edge)>,
    asked: &[(NodeId, Request)],
    found: &[NodeId],
    reverse: bool,
) -> Result<(), OutOfMemory>
    requires { length found.now ≡ length asked.now }
    ensures { OnOk result (made.new.items ≡ made.old.items ++ links_in «reverse» (zip asked.now found.now)) }
{
    for (index, (asker, request)) in asked.iter().enumerate() {
        if is_way(reverse, request) {
            made.push(link_of(*asker, request, found[index]))?;
        }
    }
    Ok(())
}

/// The links of all requests, the forward ones first.
pub fn links(
    alloc: Global,
    asked: &[(NodeId, Request)],
    found: &[NodeId],
) -> Result<Vec<(NodeId, Edge)>, OutOfMemory>
    requires { length found.now ≡ length asked.now }
    ensures { IfOk result (λ made. made.items ≡ links asked.now found.now) }
{
    let mut made = Vec::with_capacity(alloc, asked.len())?;
    add_links(&mut made, asked, found, false)?;
    add_links(&mut made, asked, found, true)?;
    Ok(made)
}

/// Gives each node the edges that it gets.
pub fn link<P>(nodes: &mut [Node<P>], links: &[(NodeId, Edge)]) -> Result<(), OutOfMemory>
    requires { AreHeld (length nodes.old) links.now }
    ensures { OnOk result (nodes.new ≡ linked_nodes nodes.old links.now) }
{
    for (holder, edge) in links {
        let node = &mut nodes[holder.0 as usize];
        node.edges.push(*edge)?;
    }
    Ok(())
}
