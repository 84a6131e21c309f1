ghost use Rattle.std.specs.Prelude.{◌≡◌, ◌<◌, ◌+◌, ◌++◌, IfOk, OnOk, length, map, slice_set};
ghost use Rattle.std.specs.List.{AllByRecursion, filter_map};
ghost use Rattle.graph_nodes.specs.declared.graph.Edge.{Edge};
ghost use Rattle.graph_nodes.specs.Axes.{axis_index};
ghost use Rattle.module_graph.specs.Graphs.{IsNumbered};
ghost use Rattle.variant_graphs.specs.Inside.{led_by, node_by, IsFit, IsNumbering};
ghost use Rattle.variant_graphs.specs.Splits.{AnswersSplit, IsSplitting, MayLead};
ghost use Rattle.variant_graphs.specs.Splitting.{split_nodes, splitting};

use crate::Splitter;
use crate::limits::{begin, edge_beyond};
use crate::numbering::{Numbering, count_variants, variations_of};
use bp_faults::{NodeId, OutOfMemory, Seq};
use module_graph::laws::{edges_stand_at_their_node, one_more_item};
use module_graph::{Axis, Edge, Graph, Node, Variation, Variations};
use mutator_rules::KindError;
use std::alloc::Global;

/// The variations of a variant.
fn varied(alloc: Global, old: &Variations, axis: Axis, variation: Variation) -> Variations
    ensures { result ≡ slice_set old.now (axis_index axis) variation }
{
    let mut vars = old.copy(alloc);
    vars.set(axis, variation);
    vars
}

/// An edge of the variant of node `n` with `v`, which stands at an index among the node's variants.
fn lead_edge<P, S: Splitter<P>>(
    s: &S,
    numbering: &Numbering,
    n: NodeId,
    v: Variation,
    index: usize,
    edge: Edge,
) -> Option<Edge>
    requires fit { IsFit (S.rule s.now) numbering.now }
    requires may { S.may_lead s.now n.0 edge }
    requires to { edge.to.0 + 1 < length numbering.now.begins.items }
    ensures { result ≡ led_by (S.rule s.now) numbering.now n.0 v edge }
{
    let target = edge.to.0 as usize;
    let first = numbering.begins[target];
    let end = numbering.begins[target + 1];
    let theirs = &numbering.variations[first as usize..end as usize];
    match s.lead(n, v, edge, theirs, index) {
        Some(chosen) => Some(Edge {
            kind: edge.kind,
            to: NodeId(first + chosen as u32),
            at: edge.at,
        }),
        None => None,
    }
}

/// The edges of a variant.
fn lead_edges<P, S: Splitter<P>>(
    alloc: Global,
    s: &S,
    numbering: &Numbering,
    n: NodeId,
    v: Variation,
    index: usize,
    edges: &[Edge],
) -> Result<Vec<Edge>, OutOfMemory>
    requires fit { IsFit (S.rule s.now) numbering.now }
    requires may { AllByRecursion (S.may_lead s.now n.0) edges.now }
    requires to { AllByRecursion (λ (e : Edge). e.to.0 + 1 < length numbering.now.begins.items) edges.now }
    ensures { IfOk result (λ made. made.items ≡ filter_map (led_by (S.rule s.now) numbering.now n.0 v) edges.now) }
{
    let mut made = Vec::with_capacity(alloc, edges.len())?;
    for edge in edges {
        if let Some(new) = lead_edge(s, numbering, n, v, index, *edge) {
            made.push(new)?;
        }
    }
    Ok(made)
}

/// A variant of node `n`, which stands at an index among the node's variants.
fn make_variant<P: Drop, S: Splitter<P>>(
    alloc: Global,
    s: &S,
    numbering: &Numbering,
    n: NodeId,
    node: &Node<P>,
    index: usize,
    variant: S::Variant,
) -> Result<Node<P>, OutOfMemory>
    requires fit { IsFit (S.rule s.now) numbering.now }
    requires may { AllByRecursion (S.may_lead s.now n.0) node.now.edges }
    requires to { AllByRecursion (λ (e : Edge). e.to.0 + 1 < length numbering.now.begins.items) node.now.edges }
    ensures { IfOk result (λ made. made ≡ node_by (S.rule s.now) numbering.now n.0 node.now variant) }
{
    let v = s.variation(&variant);
    let edges = lead_edges(alloc, s, numbering, n, v, index, node.edges.as_slice())?;
    let payload = s.payload(alloc, node, variant)?;
    Ok(Node {
        module: node.module,
        vars: varied(alloc, &node.vars, s.axis(), v),
        payload,
        edges: Seq::new(edges),
    })
}

/// Adds the variants of node `n`.
fn add_variants<P: Drop, S: Splitter<P>>(
    alloc: Global,
    s: &S,
    numbering: &Numbering,
    n: NodeId,
    node: &Node<P>,
    variants: Seq<S::Variant>,
    made: &mut Vec<Node<P>>,
) -> Result<(), OutOfMemory>
    requires fit { IsFit (S.rule s.now) numbering.now }
    requires may { AllByRecursion (S.may_lead s.now n.0) node.now.edges }
    requires to { AllByRecursion (λ (e : Edge). e.to.0 + 1 < length numbering.now.begins.items) node.now.edges }
    ensures { OnOk result (made.new.items
        ≡ made.old.items ++ map (node_by (S.rule s.now) numbering.now n.0 node.now) variants) }
{
    let mut index = 0;
    for variant in variants.into_vec() {
        made.push(make_variant(alloc, s, numbering, n, node, index, variant)?)?;
        index += 1;
    }
    Ok(())
}

/// The variants of all nodes.
fn make_nodes<P: Drop, S: Splitter<P>>(
    alloc: Global,
    s: &S,
    numbering: &Numbering,
    g: &Graph<P>,
    variants: Vec<Seq<S::Variant>>,
) -> Result<Vec<Node<P>>, OutOfMemory>
    requires may { MayLead (S.may_lead s.now) (length g.now.nodes) }
    requires numbering { IsNumbering (splitting (S.rule s.now) variants.items) numbering.now }
    requires numbered { IsNumbered g.now.nodes }
    requires many { length variants.items ≡ length g.now.nodes }
    ensures { IfOk result (λ made. made.items ≡ split_nodes (splitting (S.rule s.now) variants.items) g.now.nodes) }
{
    let nodes = g.nodes.as_slice();
    let mut made = Vec::with_capacity(alloc, numbering.variations.len())?;
    let mut n = 0;
    for list in variants {
        add_variants(
            alloc,
            s,
            numbering,
            NodeId(n as u32),
            &nodes[n],
            list,
            &mut made,
        )?;
        n += 1;
    }
    Ok(made)
}

/// The graph of the variants of a graph's nodes. They are given up, so that what they hold can be moved.
///
/// `Nodes` and `Edges` come before any new node is made.
pub fn split_graph<P: Drop, S: Splitter<P>>(
    alloc: Global,
    s: &S,
    g: &Graph<P>,
    variants: Vec<Seq<S::Variant>>,
) -> Result<Graph<P>, KindError>
    requires may { MayLead (S.may_lead s.now) (length g.now.nodes) }
    requires numbered { IsNumbered g.now.nodes }
    requires splits { IsSplitting (splitting (S.rule s.now) variants.items) g.now.nodes }
    ensures { AnswersSplit (splitting (S.rule s.now) variants.items) g.now.nodes result }
{
    let counts = count_variants(alloc, &variants)?;
    let begins = begin(alloc, g, &counts)?;
    if let Some(place) = edge_beyond(g, &counts) {
        return Err(KindError::Edges(place));
    }
    let total = begins[counts.len()] as usize;
    let variations = variations_of(alloc, s, &variants, total)?;
    let numbering = Numbering { begins, variations };
    let nodes = make_nodes(alloc, s, &numbering, g, variants)?;
    Ok(Graph {
        nodes: Seq::new(nodes),
    })
}
