ghost use Rattle.std.specs.Prelude.{◌≡◌, ◌++◌, IfOk, OnOk, map, codes};
ghost use Rattle.std.specs.Arc.{arc_value};
ghost use Rattle.std.specs.List.{filter_map, flat_map};
ghost use Rattle.build_parts.specs.Paths.{product_of, link_variation};
ghost use Rattle.build_actions.specs.declared.actions.Actions.{Actions};
ghost use Rattle.build_actions.specs.Compiles.{outs_of_steps};
ghost use Rattle.build_actions.specs.Files.{results_of};
ghost use Rattle.build_actions.specs.Products.{is_whole, is_data, objects_over, outputs_at, data_output, data_outputs};
ghost use Rattle.build_actions.specs.Products.{archive_step, link_ins, link_step, product_step};

use crate::Actions;
use crate::gather::push_result;
use bp_faults::{NodeId, OutOfMemory, Seq, Text, copy_all};
use bp_props::Module;
use build_parts::{
    Product, Views, add_texts, keep_first, link_variables, one, output_at, product_of, push_some,
};
use module_graph::{Edge, EdgeKind, Graph, Node};
use module_rules::Record;
use ninja_file::Statement;
use std::alloc::Global;
use std::sync::Arc;

fn is_whole(kind: EdgeKind) -> bool
    ensures { result ≡ is_whole kind }
{
    matches!(kind, EdgeKind::Whole)
}

fn is_data(kind: EdgeKind) -> bool
    ensures { result ≡ is_data kind }
{
    matches!(kind, EdgeKind::DataBin)
}

/// What was made at the whole libraries of a node.
pub fn whole_of(
    alloc: Global,
    edges: &[Edge],
    ins: &[Arc<Actions>],
) -> Result<Vec<Arc<Actions>>, OutOfMemory>
    ensures { IfOk result (λ whole. map arc_value whole.items
        ≡ results_of (λ e. is_whole e.kind) edges.now (map arc_value ins.now)) }
{
    let mut whole = Vec::new(alloc);
    for (index, edge) in edges.iter().enumerate() {
        push_result(&mut whole, ins, index, is_whole(edge.kind))?;
    }
    Ok(whole)
}

// Puts what some steps make at the end.
fn add_outs<'a>(list: &mut Views<'a>, steps: &'a [Statement]) -> Result<(), OutOfMemory>
    ensures { OnOk result (map (λ t. t.now) list.new.items
        ≡ map (λ t. t.now) list.old.items ++ outs_of_steps steps.now) }
{
    for step in steps {
        add_texts(list, step.outs.as_slice())?;
    }
    Ok(())
}

fn add_objects<'a>(list: &mut Views<'a>, whole: &'a [Arc<Actions>]) -> Result<(), OutOfMemory>
    ensures { OnOk result (map (λ t. t.now) list.new.items
        ≡ map (λ t. t.now) list.old.items
        ++ flat_map (λ (made : Actions). made.objects) (map arc_value whole.now)) }
{
    for made in whole {
        add_texts(list, made.objects.as_slice())?;
    }
    Ok(())
}

/// What the compile steps make, and then the objects of the whole libraries, each once.
pub fn objects_over(
    alloc: Global,
    steps: &[Statement],
    whole: &[Arc<Actions>],
) -> Result<Vec<Text>, OutOfMemory>
    ensures { IfOk result (λ objects. objects.items
        ≡ objects_over (outs_of_steps steps.now) (map arc_value whole.now)) }
{
    let mut objects = Views::new(alloc);
    add_outs(&mut objects, steps)?;
    add_objects(&mut objects, whole)?;
    keep_first(alloc, objects.as_slice())
}

// Puts the outputs of some nodes behind paths.
fn add_outputs(
    alloc: Global,
    modules: &[Module],
    graph: &Graph<Record<'_>>,
    numbers: &[NodeId],
    paths: &mut Vec<Text>,
) -> Result<(), OutOfMemory>
    ensures { OnOk result (paths.new.items ≡ paths.old.items ++ outputs_at modules.now graph.now.nodes numbers.now) }
{
    for n in numbers {
        push_some(paths, output_at(alloc, modules, graph, *n)?)?;
    }
    Ok(())
}

fn data_output(
    alloc: Global,
    modules: &[Module],
    graph: &Graph<Record<'_>>,
    edge: &Edge,
) -> Result<Option<Text>, OutOfMemory>
    ensures { IfOk result (λ path. path ≡ data_output modules.now graph.now.nodes edge.now) }
{
    if is_data(edge.kind) {
        return output_at(alloc, modules, graph, edge.to);
    }
    Ok(None)
}

// The programs that the edges name, also where one is repeated.
fn listed_data(
    alloc: Global,
    modules: &[Module],
    graph: &Graph<Record<'_>>,
    edges: &[Edge],
) -> Result<Vec<Text>, OutOfMemory>
    ensures { IfOk result (λ paths. paths.items ≡ filter_map (data_output modules.now graph.now.nodes) edges.now) }
{
    let mut outputs = Vec::new(alloc);
    for edge in edges {
        push_some(&mut outputs, data_output(alloc, modules, graph, edge)?)?;
    }
    Ok(outputs)
}

// The programs that must be there beside the node, each once.
fn data_outputs(
    alloc: Global,
    modules: &[Module],
    graph: &Graph<Record<'_>>,
    edges: &[Edge],
) -> Result<Vec<Text>, OutOfMemory>
    ensures { IfOk result (λ paths. paths.items ≡ data_outputs modules.now graph.now.nodes edges.now) }
{
    let outputs = listed_data(alloc, modules, graph, edges)?;
    let mut paths = Views::new(alloc);
    add_texts(&mut paths, outputs.as_slice())?;
    keep_first(alloc, paths.as_slice())
}

fn archive(alloc: Global, output: &Text, objects: &[Text]) -> Result<Statement, OutOfMemory>
    ensures { IfOk result (λ statement. statement ≡ archive_step output.now objects.now) }
{
    Ok(Statement {
        outs: one(alloc, output.copy(alloc)?)?,
        rule: Text::from_str(alloc, "ar")?,
        ins: Seq::new(copy_all(alloc, objects)?),
        implicit: Seq::new(Vec::new(alloc)),
        order_only: Seq::new(Vec::new(alloc)),
        vars: Seq::new(Vec::new(alloc)),
    })
}

// Copies objects to a list with room for some texts behind them.
fn copy_with_room(alloc: Global, objects: &[Text], room: usize) -> Result<Vec<Text>, OutOfMemory>
    ensures { IfOk result (λ copies. copies.items ≡ objects.now) }
{
    let mut copies = Vec::with_capacity(alloc, objects.len().saturating_add(room))?;
    for object in objects {
        copies.push(object.copy(alloc)?)?;
    }
    Ok(copies)
}

// What is linked: objects, and behind them the outputs of the link line and of the shared libraries.
fn link_ins(
    alloc: Global,
    modules: &[Module],
    graph: &Graph<Record<'_>>,
    node: &Node<Record<'_>>,
    objects: &[Text],
) -> Result<Vec<Text>, OutOfMemory>
    ensures { IfOk result (λ ins. ins.items ≡ link_ins modules.now graph.now.nodes node.now objects.now) }
{
    let line = node.payload.line();
    let slibs = node.payload.slibs();
    let mut ins = copy_with_room(alloc, objects, line.len().saturating_add(slibs.len()))?;
    add_outputs(alloc, modules, graph, line, &mut ins)?;
    add_outputs(alloc, modules, graph, slibs, &mut ins)?;
    Ok(ins)
}

fn link(
    alloc: Global,
    modules: &[Module],
    graph: &Graph<Record<'_>>,
    node: &Node<Record<'_>>,
    rule: &str,
    output: &Text,
    objects: &[Text],
) -> Result<Statement, OutOfMemory>
    ensures { IfOk result (λ statement. statement
        ≡ link_step modules.now graph.now.nodes node.now rule.now output.now objects.now) }
{
    let ins = link_ins(alloc, modules, graph, node, objects)?;
    let data = data_outputs(alloc, modules, graph, node.edges.as_slice())?;
    Ok(Statement {
        outs: one(alloc, output.copy(alloc)?)?,
        rule: Text::from_str(alloc, rule)?,
        ins: Seq::new(ins),
        implicit: Seq::new(Vec::new(alloc)),
        order_only: Seq::new(data),
        vars: link_variables(alloc, node)?,
    })
}

/// The statement that makes a node's output of its objects.
pub fn product_step(
    alloc: Global,
    modules: &[Module],
    graph: &Graph<Record<'_>>,
    node: &Node<Record<'_>>,
    output: &Text,
    objects: &[Text],
) -> Result<Statement, OutOfMemory>
    ensures { IfOk result (λ statement. statement
        ≡ product_step modules.now graph.now.nodes node.now (product_of (link_variation node.now)) output.now
        objects.now) }
{
    match product_of(node) {
        Product::Archive => archive(alloc, output, objects),
        Product::SharedObject => link(alloc, modules, graph, node, "solink", output, objects),
        Product::Program => link(alloc, modules, graph, node, "link", output, objects),
    }
}
