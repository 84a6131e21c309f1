ghost use Rattle.std.specs.Prelude.{length};
ghost use Rattle.module_rules.specs.Seen.{IsSeen};
ghost use Rattle.mutator_rules.specs.Conditions.{MayVisit, indices_in};

use crate::Record;
use bp_faults::NodeId;
use bp_props::Module;
use module_graph::{Graph, Node};

/// What a rule sees at a node.
#[derive(Clone, Copy)]
pub struct Seen<'a, 'm> {
    pub module: &'a Module,
    pub node: &'a Node<Record<'m>>,
}

impl<'a, 'm> Seen<'a, 'm> {
    /// The module and the node that a rule sees at node `n`.
    pub fn at(mods: &'a [Module], g: &'a Graph<Record<'m>>, n: NodeId) -> Seen<'a, 'm>
        requires { MayVisit (indices_in (length mods.now)) g.now.nodes n.0 }
        ensures { IsSeen mods.now g.now.nodes n.0 result.module.now result.node.now }
    {
        let node = &g.nodes.as_slice()[n.0 as usize];
        let module = &mods[node.module.0 as usize];
        Seen { module, node }
    }
}
