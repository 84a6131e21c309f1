ghost use Rattle.std.specs.Prelude.{◌≡◌, ◌++◌, ◌∷◌, map, IfOk, OnOk, string_bytes};
ghost use Rattle.std.specs.List.{flat_map};
ghost use Rattle.graph_nodes.specs.GraphText.{kind_word, node_line, edge_line, node_lines, graph_text_of};
ghost use Rattle.bp_faults.specs.Characters.{ended_line};

use crate::names::{name_of, variant_name};
use crate::{Edge, EdgeKind, Graph, Node};
use bp_faults::{OutOfMemory, Text};
use std::alloc::Global;

/// How the kind of an edge is spelled.
fn word_of(kind: EdgeKind) -> &'static str
    ensures { result.now ≡ kind_word kind }
{
    match kind {
        EdgeKind::Defaults => "defaults",
        EdgeKind::Whole => "whole",
        EdgeKind::Static => "static",
        EdgeKind::Shared => "shared",
        EdgeKind::Header => "header",
        EdgeKind::DataBin => "data",
        EdgeKind::Sources => "sources",
    }
}

/// Adds the line of an edge.
fn put_edge(text: &mut String, edge: &Edge) -> Result<(), OutOfMemory>
    ensures { OnOk result (string_bytes text.new ≡ string_bytes text.old ++ ended_line (edge_line edge.now)) }
{
    let word = word_of(edge.kind);
    let target = edge.to.0;
    write!(text, "  {word} {target}\n")?;
    Ok(())
}

/// Adds the line of a node.
fn put_node<P>(
    alloc: Global,
    text: &mut String,
    n: usize,
    name: &str,
    node: &Node<P>,
) -> Result<(), OutOfMemory>
    ensures { OnOk result
        (string_bytes text.new ≡ string_bytes text.old ++ ended_line (node_line n name.now node.now.vars)) }
{
    let variant = variant_name(alloc, &node.vars)?;
    let mut shown = variant.as_str();
    if shown.is_empty() {
        shown = "-";
    }
    write!(text, "{n} {name} {shown}\n")?;
    Ok(())
}

/// Adds the lines of some edges.
fn put_edges(text: &mut String, edges: &[Edge]) -> Result<(), OutOfMemory>
    ensures { OnOk result
        (string_bytes text.new ≡ string_bytes text.old ++ flat_map ended_line (map edge_line edges.now)) }
{
    for edge in edges {
        put_edge(text, edge)?;
    }
    Ok(())
}

/// Adds the lines of a node and its edges.
fn put_lines<P>(
    alloc: Global,
    text: &mut String,
    n: usize,
    names: &[Text],
    node: &Node<P>,
) -> Result<(), OutOfMemory>
    ensures { OnOk result
        (string_bytes text.new ≡ string_bytes text.old ++ flat_map ended_line (node_lines names.now n node.now)) }
{
    put_node(alloc, text, n, name_of(names, n), node)?;
    put_edges(text, node.edges.as_slice())
}

/// The graph as lines: for each node its number, its module's name and its variant's, and for each of its edges the
/// kind and the target's number.
///
/// `names` has the name of each node's module, by node number; a node beyond them has the empty name.
pub fn graph_text<P>(alloc: Global, g: &Graph<P>, names: &[Text]) -> Result<Vec<u8>, OutOfMemory>
    ensures { IfOk result (λ text. text.items ≡ graph_text_of g.now.nodes names.now) }
{
    let mut text = String::new(alloc);
    for (n, node) in g.nodes.as_slice().iter().enumerate() {
        put_lines(alloc, &mut text, n, names, node)?;
    }
    Ok(text.into_bytes())
}
