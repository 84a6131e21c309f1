ghost use Rattle.std.specs.Prelude.{◌≡◌, IfOk};
ghost use Rattle.bp_pipeline.specs.Shown.{module_names, shown_graph};
ghost use Rattle.reverse_deps.specs.Applied.{name_of};

use bp_faults::{OutOfMemory, Text};
use bp_props::Module;
use module_graph::{Graph, graph_text};
use std::alloc::Global;

fn name_of(mods: &[Module], number: usize) -> &str
    ensures { result.now ≡ name_of mods.now number }
{
    match mods.get(number) {
        Some(item) => item.name.as_str(),
        None => "",
    }
}

fn module_names<P>(alloc: Global, mods: &[Module], g: &Graph<P>) -> Result<Vec<Text>, OutOfMemory>
    ensures { IfOk result (λ names. names.items ≡ module_names mods.now g.now.nodes) }
{
    let mut names = Vec::new(alloc);
    for node in g.nodes.as_slice() {
        names.push(Text::from_str(alloc, name_of(mods, node.module.0 as usize))?)?;
    }
    Ok(names)
}

/// The text of a graph, with the names of its nodes' modules.
pub fn show_graph<P>(alloc: Global, mods: &[Module], g: &Graph<P>) -> Result<Vec<u8>, OutOfMemory>
    ensures { IfOk result (λ text. text.items ≡ shown_graph mods.now g.now.nodes) }
{
    let names = module_names(alloc, mods, g)?;
    graph_text(alloc, g, &names)
}
