ghost use Rattle.std.specs.Prelude.{◌≡◌, IfOk, OnOk, length, map};
ghost use Rattle.std.specs.Arc.{arc_value};
ghost use Rattle.variant_graphs.specs.Payloads.{with_payloads};

use bp_faults::{OutOfMemory, Payload, Seq};
use module_graph::{Graph, Node};
use std::alloc::Global;
use std::sync::Arc;

/// A value out of its box: moved where nobody else holds it, else a copy.
pub fn value_of<T: Payload + Drop>(alloc: Global, shared: Arc<T>) -> Result<T, OutOfMemory>
    ensures { IfOk result (λ value. value ≡ arc_value shared) }
{
    match Arc::try_unwrap(shared) {
        Ok(value) => Ok(value),
        Err(still_shared) => still_shared.copy(alloc),
    }
}

/// Gives the nodes their payloads.
fn renew_nodes<P: Payload + Drop>(
    alloc: Global,
    nodes: &mut Vec<Node<P>>,
    outs: Vec<Arc<P>>,
) -> Result<(), OutOfMemory>
    requires { length outs.items ≡ length nodes.old.items }
    ensures { OnOk result (nodes.new.items ≡ with_payloads nodes.old.items (map arc_value outs.items)) }
{
    let mut n = 0;
    for out in outs {
        let payload = value_of(alloc, out)?;
        let node = &mut nodes[n];
        node.payload = payload;
        n += 1;
    }
    Ok(())
}

/// The graph with new payloads, by node number. They are moved where nobody else holds them.
pub fn renew<P: Payload + Drop>(
    alloc: Global,
    g: Graph<P>,
    outs: Vec<Arc<P>>,
) -> Result<Graph<P>, OutOfMemory>
    requires { length outs.items ≡ length g.nodes }
    ensures { IfOk result (λ new. new.nodes ≡ with_payloads g.nodes (map arc_value outs.items)) }
{
    let mut nodes = g.nodes.into_vec();
    renew_nodes(alloc, &mut nodes, outs)?;
    Ok(Graph {
        nodes: Seq::new(nodes),
    })
}
