ghost use Rattle.std.specs.Prelude.{◌≡◌, length, map, Some};
ghost use Rattle.std.specs.Arc.{arc_value};
ghost use Rattle.module_graph.specs.Graphs.{IsNumbered};
ghost use Rattle.mutator_rules.specs.Outcomes.{AnswersKind};
ghost use Rattle.mutator_kinds.specs.BottomUp.{ResultsMean};
ghost use Rattle.mutator_kinds.specs.Inside.{AreFit, HaveOneEach};

use crate::in_place::{change_in_place, has_one_each};
use crate::owned::variants_of;
use crate::splitting::SplitVariants;
use bp_faults::{NodeId, Payload};
use module_graph::{Axis, Graph};
use mutator_rules::{KindError, Request, Split};
use std::alloc::Global;
use std::sync::Arc;
use variant_graphs::{check_limits, split_graph};

/// The graph with its nodes changed in place, if it is within the limits, and what the results ask for.
fn graph_in_place<P: Payload + Drop>(
    alloc: Global,
    g: Graph<P>,
    axis: Option<Axis>,
    outs: Vec<Arc<Split<P>>>,
) -> Result<(Graph<P>, Vec<(NodeId, Request)>), KindError>
    requires numbered { IsNumbered g.nodes }
    requires many { length outs.items ≡ length g.nodes }
    requires one { HaveOneEach axis (map arc_value outs.items) }
    ensures { AnswersKind (λ made. (made.0.nodes, made.1.items))
        (ResultsMean axis g.nodes (map arc_value outs.items)) result }
{
    check_limits(&g)?;
    Ok(change_in_place(alloc, g, axis, outs)?)
}

/// The graph of the variants of results. They ask for nothing.
fn graph_of_variants<P: Payload + Drop>(
    alloc: Global,
    g: &Graph<P>,
    axis: Axis,
    outs: Vec<Arc<Split<P>>>,
) -> Result<(Graph<P>, Vec<(NodeId, Request)>), KindError>
    requires numbered { IsNumbered g.now.nodes }
    requires many { length outs.items ≡ length g.now.nodes }
    requires fit { AreFit (Some axis) (map arc_value outs.items) }
    ensures { AnswersKind (λ made. (made.0.nodes, made.1.items))
        (ResultsMean (Some axis) g.now.nodes (map arc_value outs.items)) result }
{
    let lists = variants_of(alloc, outs)?;
    let graph = split_graph(alloc, &SplitVariants { axis }, g, lists)?;
    Ok((graph, Vec::new(alloc)))
}

/// What results make of a graph, and what they ask for. Both are given up, so that payloads can be moved.
///
/// Nodes are changed in place where each stays one, as without an axis and mostly with one.
pub fn graph_after<P: Payload + Drop>(
    alloc: Global,
    g: Graph<P>,
    axis: Option<Axis>,
    outs: Vec<Arc<Split<P>>>,
) -> Result<(Graph<P>, Vec<(NodeId, Request)>), KindError>
    requires numbered { IsNumbered g.nodes }
    requires many { length outs.items ≡ length g.nodes }
    requires fit { AreFit axis (map arc_value outs.items) }
    ensures { AnswersKind (λ made. (made.0.nodes, made.1.items))
        (ResultsMean axis g.nodes (map arc_value outs.items)) result }
{
    match axis {
        Some(axis) if !has_one_each(&outs) => graph_of_variants(alloc, &g, axis, outs),
        _ => graph_in_place(alloc, g, axis, outs),
    }
}
