ghost use Rattle.std.specs.Prelude.{◌≡◌, ◌≤◌, length, IfOk};
ghost use Rattle.bp_faults.specs.declared.limits.TheConstants.{MOST_MODULES};
ghost use Rattle.bp_pipeline.specs.First.{first_nodes, first_node};
ghost use Rattle.bp_pipeline.specs.Inside.{IsUsable, AreFreeAt};

use bp_faults::{ModuleId, OutOfMemory, Seq};
use bp_props::Module;
use module_graph::{Graph, Node, Variations};
use module_rules::Record;
use std::alloc::Global;

fn first_node<'m>(
    alloc: Global,
    number: u32,
    item: &'m Module,
) -> Result<Node<Record<'m>>, OutOfMemory>
    ensures { IfOk result (λ node. node ≡ first_node number item.now) }
{
    Ok(Node {
        module: ModuleId(number),
        vars: Variations::empty(alloc),
        payload: Record::lent(alloc, &item.props)?,
        edges: Seq::new(Vec::new(alloc)),
    })
}

/// The graph with a node for each module, to which it lends its properties, without edges.
pub fn first_graph<'m>(alloc: Global, mods: &'m [Module]) -> Result<Graph<Record<'m>>, OutOfMemory>
    requires { length mods.now ≤ MOST_MODULES }
    ensures first { IfOk result (λ g. g.nodes ≡ first_nodes mods.now) }
    ensures usable { IfOk result (λ g. IsUsable (length mods.now) g.nodes) }
    ensures free { IfOk result (λ g. AreFreeAt 0 g.nodes) }
{
    let mut nodes = Vec::with_capacity(alloc, mods.len())?;
    for (number, item) in mods.iter().enumerate() {
        nodes.push(first_node(alloc, number as u32, item)?)?;
    }
    Ok(Graph {
        nodes: Seq::new(nodes),
    })
}
