ghost use Rattle.std.specs.Prelude.{◌≡◌, IfOk, length};
ghost use Rattle.mutator_rules.specs.Conditions.{MayRun, indices_in};
ghost use Rattle.reverse_deps.specs.Applied.{labels_of};

use bp_faults::{OutOfMemory, Text};
use bp_props::Module;
use module_graph::{Graph, label};
use std::alloc::Global;

/// The label of each node.
pub fn labels<P>(alloc: Global, mods: &[Module], g: &Graph<P>) -> Result<Vec<Text>, OutOfMemory>
    requires { MayRun (indices_in (length mods.now)) g.now.nodes }
    ensures { IfOk result (λ labels. labels.items ≡ labels_of mods.now g.now.nodes) }
{
    let mut labels = Vec::new(alloc);
    for node in g.nodes.as_slice() {
        labels.push(label(alloc, &mods[node.module.0 as usize].name, &node.vars)?)?;
    }
    Ok(labels)
}
