ghost use Rattle.std.specs.Prelude.{◌≡◌, ◌++◌, IfOk, OnOk, map};
ghost use Rattle.std.specs.Arc.{arc_value};
ghost use Rattle.build_actions.specs.Files.{results_of, is_sources, is_of_one_source, has_one_source, is_of_module};
ghost use Rattle.build_actions.specs.Files.{is_kept, leads_to_files, first_files, source_files, groups_behind};
ghost use Rattle.build_actions.specs.Files.{files_over};
ghost use Rattle.build_actions.specs.Files.{files_of};

use crate::Actions;
use crate::gather::push_result;
use bp_faults::{Item, NodeId, OutOfMemory, Payload, Text};
use bp_props::{Module, Source};
use module_graph::{Axis, Edge, EdgeKind, Graph, Node, Variation};
use module_rules::Record;
use std::alloc::Global;
use std::sync::Arc;

fn is_sources(kind: EdgeKind) -> bool
    ensures { result ≡ is_sources kind }
{
    matches!(kind, EdgeKind::Sources)
}

fn is_of_one_source(variation: Variation) -> bool
    ensures { result ≡ is_of_one_source variation }
{
    matches!(variation, Variation::PerSource(_))
}

fn has_one_source(node: &Node<Record<'_>>) -> bool
    ensures { result ≡ has_one_source node.now }
{
    is_of_one_source(node.vars.get(Axis::PerSource))
}

fn is_named(modules: &[Module], graph: &Graph<Record<'_>>, n: NodeId, name: &Text) -> bool
    ensures { result ≡ is_of_module modules.now graph.now.nodes n.0 name.now }
{
    let Some(node) = graph.nodes.as_slice().get(n.0 as usize) else {
        return false;
    };
    match modules.get(node.module.0 as usize) {
        Some(module) => module.name == *name,
        None => false,
    }
}

// Whether a node is of the module that the first source of another asks for.
fn is_kept(
    modules: &[Module],
    graph: &Graph<Record<'_>>,
    node: &Node<Record<'_>>,
    n: NodeId,
) -> bool
    ensures { result ≡ is_kept modules.now graph.now.nodes node.now n.0 }
{
    match node.payload.given().base.srcs.items().first() {
        Some(source) => is_named(modules, graph, n, &source.item.text),
        None => false,
    }
}

fn leads_to_files(
    modules: &[Module],
    graph: &Graph<Record<'_>>,
    node: &Node<Record<'_>>,
    edge: &Edge,
) -> bool
    ensures { result ≡ leads_to_files modules.now graph.now.nodes node.now edge.now }
{
    is_sources(edge.kind) && (!has_one_source(node) || is_kept(modules, graph, node, edge.to))
}

// What was made at the file groups that the node asks.
fn given(
    alloc: Global,
    modules: &[Module],
    graph: &Graph<Record<'_>>,
    node: &Node<Record<'_>>,
    edges: &[Edge],
    ins: &[Arc<Actions>],
) -> Result<Vec<Arc<Actions>>, OutOfMemory>
    ensures { IfOk result (λ given. map arc_value given.items
        ≡ results_of (leads_to_files modules.now graph.now.nodes node.now) edges.now (map arc_value ins.now)) }
{
    let mut given = Vec::new(alloc);
    for (index, edge) in edges.iter().enumerate() {
        let wanted = leads_to_files(modules, graph, node, edge);
        push_result(&mut given, ins, index, wanted)?;
    }
    Ok(given)
}

fn add_files(alloc: Global, files: &mut Vec<Item>, more: &[Item]) -> Result<(), OutOfMemory>
    ensures { OnOk result (files.new.items ≡ files.old.items ++ more.now) }
{
    for file in more {
        files.push(file.copy(alloc)?)?;
    }
    Ok(())
}

fn add_first(
    alloc: Global,
    files: &mut Vec<Item>,
    given: &[Arc<Actions>],
) -> Result<(), OutOfMemory>
    ensures { OnOk result (files.new.items ≡ files.old.items ++ first_files (map arc_value given.now)) }
{
    match given.split_first() {
        Some((made, _)) => add_files(alloc, files, made.files.as_slice()),
        None => Ok(()),
    }
}

fn add_source(
    alloc: Global,
    files: &mut Vec<Item>,
    source: &Source,
    given: &[Arc<Actions>],
) -> Result<(), OutOfMemory>
    ensures { OnOk result (files.new.items ≡ files.old.items ++ source_files source.now (map arc_value given.now)) }
{
    if source.names_module() {
        return add_first(alloc, files, given);
    }
    files.push(source.item.copy(alloc)?)?;
    Ok(())
}

// What is left for the sources behind.
fn behind<'a>(source: &Source, given: &'a [Arc<Actions>]) -> &'a [Arc<Actions>]
    ensures { map arc_value result.now ≡ groups_behind source.now (map arc_value given.now) }
{
    if !source.names_module() {
        return given;
    }
    match given.split_first() {
        Some((_, others)) => others,
        None => given,
    }
}

fn files_over(
    alloc: Global,
    sources: &[Source],
    given: &[Arc<Actions>],
) -> Result<Vec<Item>, OutOfMemory>
    ensures { IfOk result (λ files. files.items ≡ files_over sources.now (map arc_value given.now)) }
{
    let mut files = Vec::with_capacity(alloc, sources.len())?;
    let mut left = given;
    for source in sources {
        add_source(alloc, &mut files, source, left)?;
        left = behind(source, left);
    }
    Ok(files)
}

/// The files of a node, given what was made at its edges' targets.
pub fn files_of(
    alloc: Global,
    modules: &[Module],
    graph: &Graph<Record<'_>>,
    node: &Node<Record<'_>>,
    ins: &[Arc<Actions>],
) -> Result<Vec<Item>, OutOfMemory>
    ensures { IfOk result (λ files. files.items
        ≡ files_of modules.now graph.now.nodes node.now (map arc_value ins.now)) }
{
    let given = given(alloc, modules, graph, node, node.edges.as_slice(), ins)?;
    files_over(
        alloc,
        node.payload.given().base.srcs.items(),
        given.as_slice(),
    )
}
