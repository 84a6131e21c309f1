//! Small rules over small graphs, and the limits.
ghost use Rattle.std.specs.Prelude.{◌≡◌, ◌<◌, ◌≤◌, length, map, IfOk, OnOk, IsTrue, Ok, Some, None, ⊤};
ghost use Rattle.std.specs.List.{AllByRecursion, range_with_len};
ghost use Rattle.graph_nodes.specs.declared.graph.Edge.{Edge as AnEdge};
ghost use Rattle.module_graph.specs.Graphs.{IsNumbered, IsValid};
ghost use Rattle.mutator_tests.specs.Kinds.{AreNew, is_whole_kind, lib_request};
ghost use Rattle.mutator_tests.specs.Kinds.{number_at, numbered_variant};

use bp_faults::{Fault, FaultKind, ModuleId, NodeId, OutOfMemory, Place, Refusal, Seq, Text};
use bp_ports::OpenGate;
use module_graph::laws::one_more_node;
use module_graph::{Axis, Edge, EdgeKind, Graph, Node, Variation, Variations, check_cycle};
use mutator_kinds::laws::{one_bottom_up_outcome, one_top_down_outcome};
use mutator_kinds::{PassGraph, run_bottom_up, run_idle_by, run_top_down};
use mutator_rules::{BottomUp, KindError, Request, Split, TopDown, Wanted};
use pass_core::{PassError, VisitError};
use pass_ways::Way;
use std::alloc::Global;
use std::process::Abort;
use std::sync::Arc;
use std::test::Fail;
use std::thread::Threads;
use variant_graphs::StepError;

/// The number that a node holds.
fn number_of(g: &Graph<NodeId>, n: NodeId) -> u32
    requires { n.0 < length g.now.nodes }
    ensures { result ≡ number_at g.now.nodes n.0 }
{
    g.nodes.as_slice()[n.0 as usize].payload.0
}

/// So many variants.
fn numbered(alloc: Global, count: u32) -> Result<Vec<(Variation, NodeId)>, OutOfMemory>
    ensures { IfOk result (λ variants. variants.items ≡ map numbered_variant (range_with_len 0 count)) }
{
    let mut variants = Vec::new(alloc);
    for i in 0..count {
        variants.push((Variation::PerSource(i as u64), NodeId(i)))?;
    }
    Ok(variants)
}

/// Each node gets as many variants as it holds.
#[derive(Drop)]
struct Splits;

impl BottomUp<NodeId> for Splits {
    ghost use Rattle.mutator_tests.specs.Kinds.{split_at, split_shaped};
    ghost use Rattle.graph_nodes.specs.declared.variations.Axis.TheVariants.{PerSource};

    ghost splits_along = { λ _. Some PerSource };

    ghost meaning = { λ _ nodes n _. split_at nodes n };

    ghost accepts = { λ _ _. ⊤ };

    fn axis(&self) -> Option<Axis> {
        Some(Axis::PerSource)
    }

    fn visit(
        &self,
        alloc: Global,
        g: &Graph<NodeId>,
        n: NodeId,
        _ins: &[Arc<Split<NodeId>>],
    ) -> Result<Split<NodeId>, VisitError> {
        let variants = numbered(alloc, number_of(g, n))?;
        Ok(Split {
            variants: Seq::new(variants),
            requests: Seq::new(Vec::new(alloc)),
        })
    }

    ghost shaped = { λ _ nodes n _ made is. split_shaped nodes n made is };
}

fn request(alloc: Global, n: NodeId) -> Result<Request, OutOfMemory>
    ensures { IfOk result (λ request. request ≡ lib_request n.0) }
{
    Ok(Request {
        reverse: false,
        kind: EdgeKind::Static,
        name: Text::from_str(alloc, "lib")?,
        at: Place::start(n.0),
        want: Wanted {
            target: Variation::Empty,
            image: Variation::Empty,
            link: Variation::Empty,
        },
    })
}

/// Each node asks twice.
#[derive(Drop)]
struct Asks;

impl BottomUp<NodeId> for Asks {
    ghost use Rattle.mutator_tests.specs.Kinds.{asking, asking_shaped};

    ghost splits_along = { λ _. None };

    ghost meaning = { λ _ _ n _. asking n };

    ghost accepts = { λ _ _. ⊤ };

    fn axis(&self) -> Option<Axis> {
        None
    }

    fn visit(
        &self,
        alloc: Global,
        _g: &Graph<NodeId>,
        n: NodeId,
        _ins: &[Arc<Split<NodeId>>],
    ) -> Result<Split<NodeId>, VisitError> {
        let mut variants = Vec::new(alloc);
        variants.push((Variation::Empty, n))?;
        let mut requests = Vec::new(alloc);
        requests.push(request(alloc, n)?)?;
        requests.push(request(alloc, n)?)?;
        Ok(Split {
            variants: Seq::new(variants),
            requests: Seq::new(requests),
        })
    }

    ghost shaped = { λ _ _ n _ made is. asking_shaped n made is };
}

/// Each node stays as it is.
#[derive(Drop)]
struct Stays;

impl BottomUp<NodeId> for Stays {
    ghost use Rattle.mutator_tests.specs.Kinds.{staying, staying_shaped};

    ghost splits_along = { λ _. None };

    ghost meaning = { λ _ nodes n _. staying nodes n };

    ghost accepts = { λ _ _. ⊤ };

    fn axis(&self) -> Option<Axis> {
        None
    }

    fn visit(
        &self,
        alloc: Global,
        g: &Graph<NodeId>,
        n: NodeId,
        _ins: &[Arc<Split<NodeId>>],
    ) -> Result<Split<NodeId>, VisitError> {
        let mut variants = Vec::new(alloc);
        variants.push((Variation::Empty, NodeId(number_of(g, n))))?;
        Ok(Split {
            variants: Seq::new(variants),
            requests: Seq::new(Vec::new(alloc)),
        })
    }

    ghost shaped = { λ _ nodes n _ made is. staying_shaped nodes n made is };
}

fn is_whole(kind: EdgeKind) -> bool
    ensures { result ≡ is_whole_kind kind }
{
    match kind {
        EdgeKind::Whole => true,
        EdgeKind::Defaults | EdgeKind::Static | EdgeKind::Shared => false,
        EdgeKind::Header | EdgeKind::DataBin | EdgeKind::Sources => false,
    }
}

/// Each node hands on what the source of its first edge made, if that edge is of kind Whole. One node is refused.
#[derive(Drop)]
struct Hands {
    refused: u32,
}

impl TopDown<NodeId> for Hands {
    ghost use Rattle.mutator_tests.specs.Kinds.{handed_unless};

    ghost meaning = { λ rule nodes n kinds ins. handed_unless rule.refused n kinds ins };

    ghost accepts = { λ _ _. ⊤ };

    fn visit(
        &self,
        alloc: Global,
        _g: &Graph<NodeId>,
        n: NodeId,
        kinds: &[EdgeKind],
        ins: &[Arc<NodeId>],
    ) -> Result<NodeId, VisitError> {
        if n.0 == self.refused {
            let at = Place::start(n.0);
            return Err(VisitError::Bad(Fault::at(alloc, FaultKind::BadSource, at)));
        }
        if kinds.is_empty() || !is_whole(kinds[0]) {
            return Ok(n);
        }
        Ok(*ins[0])
    }
}

/// What a node holds, and its edges.
type Row<'a> = (u32, &'a [(EdgeKind, u32)]);

fn edges_to(alloc: Global, targets: &[(EdgeKind, u32)]) -> Result<Seq<Edge>, OutOfMemory> {
    let mut edges = Vec::with_capacity(alloc, targets.len())?;
    for (kind, to) in targets {
        edges.push(Edge {
            kind: *kind,
            to: NodeId(*to),
            at: Place::start(1),
        })?;
    }
    Ok(Seq::new(edges))
}

/// A graph by its rows. Node n is of module n.
fn graph(alloc: Global, rows: &[Row<'_>]) -> Result<Graph<NodeId>, OutOfMemory>
    requires { length rows.now < 100 }
    ensures { IfOk result (λ g. AreNew g.nodes) }
{
    let mut nodes = Vec::new(alloc);
    for (n, row) in rows.iter().enumerate() {
        nodes.push(Node {
            module: ModuleId(n as u32),
            vars: Variations::empty(alloc),
            payload: NodeId(row.0),
            edges: edges_to(alloc, row.1)?,
        })?;
    }
    Ok(Graph {
        nodes: Seq::new(nodes),
    })
}

fn lead_inside(edges: &[Edge], count: usize) -> bool
    ensures { IsTrue result → AllByRecursion (λ (e : AnEdge). e.to.0 < count) edges.now }
{
    for edge in edges {
        if edge.to.0 as usize >= count {
            return false;
        }
    }
    true
}

/// Whether a `u32` numbers the nodes and edges of a graph, and each edge names a node.
fn is_numbered(g: &Graph<NodeId>) -> bool
    ensures { IsTrue result → IsNumbered g.now.nodes }
{
    one_more_node::<NodeId>();
    let nodes = g.nodes.as_slice();
    let mut many = 0;
    for node in nodes {
        let edges = node.edges.as_slice();
        if !lead_inside(edges, nodes.len()) || edges.len() >= (1 << 32) - many {
            return false;
        }
        many += edges.len();
    }
    nodes.len() < 1 << 32
}

/// A new graph is valid, or isn't taken.
fn check_valid(alloc: Global, g: &Graph<NodeId>) -> Result<(), Refusal>
    requires { AreNew g.now.nodes }
    ensures valid { OnOk result (IsValid g.now.nodes) }
    ensures numbered { OnOk result (IsNumbered g.now.nodes) }
{
    if !is_numbered(g) {
        return Err(Refusal::OutOfMemory);
    }
    check_cycle(alloc, g, &[])?;
    Ok(())
}

/// The graph after a pass of the splitting rule.
fn split<R: Threads + Sync>(
    rt: &R,
    alloc: Global,
    rows: &[Row<'_>],
) -> Result<Option<PassGraph<NodeId>>, KindError> {
    if rows.len() >= 100 {
        return Ok(None);
    }
    let g = graph(alloc, rows)?;
    let Ok(()) = check_valid(alloc, &g) else {
        return Ok(None);
    };
    Ok(Some(run_bottom_up(rt, alloc, 1, g, &Splits, 2, &OpenGate)?))
}

const SPLIT: [Row<'static>; 5] = [
    (0, &[]),
    (1, &[]),
    (3, &[]),
    (
        3,
        &[
            (EdgeKind::Static, 0),
            (EdgeKind::Whole, 1),
            (EdgeKind::Static, 2),
        ],
    ),
    (4, &[(EdgeKind::Static, 2)]),
];

/// The module of a new node, and the targets of its edges.
type New = (u32, &'static [u32]);

const NEW: [New; 11] = [
    (1, &[]),
    (2, &[]),
    (2, &[]),
    (2, &[]),
    (3, &[0, 1]),
    (3, &[0, 2]),
    (3, &[0, 3]),
    (4, &[1]),
    (4, &[2]),
    (4, &[3]),
    (4, &[1]),
];

fn is_new(node: &Node<NodeId>, module: u32, targets: &[u32]) -> bool {
    let edges = node.edges.as_slice();
    let mut same = node.module.0 == module && edges.len() == targets.len();
    for (edge, target) in edges.iter().zip(targets) {
        same &= edge.to.0 == *target;
    }
    same
}

fn are_new(nodes: &[Node<NodeId>], wanted: &[New]) -> bool {
    let mut same = nodes.len() == wanted.len();
    for (node, (module, targets)) in nodes.iter().zip(wanted) {
        same &= is_new(node, *module, targets);
    }
    same
}

/// Whether rows are split into wanted nodes; how many requests there are, and how many visits.
fn split_into<R: Threads + Sync>(
    rt: &R,
    alloc: Global,
    rows: &[Row<'_>],
    wanted: &[New],
) -> Result<(bool, usize, usize), KindError> {
    match split(rt, alloc, rows)? {
        Some(made) => Ok((
            are_new(made.graph.nodes.as_slice(), wanted),
            made.asked.as_slice().len(),
            made.order.as_slice().len(),
        )),
        None => Ok((false, 0, 0)),
    }
}

fn check_split<R: Threads + Sync + Abort>(
    rt: &R,
    alloc: Global,
    rows: &[Row<'_>],
    wanted: &[New],
) -> Result<(), Fail> {
    assert_eq!(rt; split_into(rt, alloc, rows, wanted)?, (true, 0, 5));
    Ok(())
}

#[test]
fn variants_and_edges(rt: HostRuntime) -> Result<(), Fail> {
    one_bottom_up_outcome::<NodeId>();
    check_split(&rt, rt.alloc(), &SPLIT, &NEW)
}

/// The number of new nodes, or the number of the module beyond the limit, or the file of the edge beyond it.
fn size<R: Threads + Sync>(rt: &R, alloc: Global, rows: &[Row<'_>]) -> (usize, u32) {
    match split(rt, alloc, rows) {
        Ok(Some(made)) => (made.graph.nodes.as_slice().len(), 0),
        Err(KindError::Nodes(module)) => (0, module.0),
        Err(KindError::Edges(place)) => (1, place.file),
        _ => (2, 0),
    }
}

#[test]
fn too_many_variants(rt: HostRuntime) {
    let alloc = rt.alloc();
    assert_eq!(rt;
        size(&rt, alloc, &[(200_000, &[]), (62_144, &[])]),
        (262_144, 0)
    );
    assert_eq!(rt;
        size(&rt, alloc, &[(200_000, &[]), (62_145, &[]), (3, &[])]),
        (0, 1)
    );
}

/// The size where each of 2048 variants has so many edges.
fn size_with<R: Threads + Sync>(
    rt: &R,
    alloc: Global,
    edges: u32,
) -> Result<(usize, u32), OutOfMemory> {
    let mut many = Vec::new(alloc);
    for _edge in 0..edges {
        many.push((EdgeKind::Static, 0))?;
    }
    Ok(size(rt, alloc, &[(1, &[]), (2048, &many)]))
}

#[test]
fn too_many_edges(rt: HostRuntime) -> Result<(), Fail> {
    let alloc = rt.alloc();
    assert_eq!(rt; size_with(&rt, alloc, 2048)?, (2049, 0));
    assert_eq!(rt; size_with(&rt, alloc, 2049)?, (1, 1));
    Ok(())
}

/// What each error of a rule's pass says of itself.
fn kind_texts(alloc: Global) -> Result<String, OutOfMemory> {
    let at = Place::start(1);
    let node = KindError::At(NodeId(0), Fault::at(alloc, FaultKind::BadSource, at));
    let (nodes, edges) = (KindError::Nodes(ModuleId(0)), KindError::Edges(at));
    let memory = KindError::OutOfMemory;
    Ok(format!(in alloc; "{node}; {nodes}; {edges}; {memory}")?)
}

/// What each error of a step says of itself.
fn step_texts(alloc: Global) -> Result<String, OutOfMemory> {
    let fault = Fault::at(alloc, FaultKind::NotReady, Place::start(1));
    let refused = StepError::Refused(fault);
    let kind = StepError::Kind(KindError::OutOfMemory);
    Ok(format!(in alloc; "{refused}; {kind}")?)
}

#[test]
fn texts_of_kind_errors(rt: HostRuntime) -> Result<(), Fail> {
    let want = "a node has a fault; too many nodes; too many edges; out of memory";
    assert_eq!(rt; kind_texts(rt.alloc())?.as_str(), want);
    let want = "the way of a pass is refused; a pass gives no graph";
    assert_eq!(rt; step_texts(rt.alloc())?.as_str(), want);
    Ok(())
}

/// Whether requests are of wanted nodes, and stand in the files of these numbers.
fn are_asked_by(asked: &[(NodeId, Request)], wanted: &[u32]) -> bool {
    let mut same = asked.len() == wanted.len();
    for ((node, request), want) in asked.iter().zip(wanted) {
        same &= node.0 == *want && request.at.file == *want;
    }
    same
}

/// Whether nodes hold wanted numbers.
fn hold(nodes: &[Node<NodeId>], wanted: &[u32]) -> bool {
    let mut same = nodes.len() == wanted.len();
    for (node, want) in nodes.iter().zip(wanted) {
        same &= node.payload.0 == *want;
    }
    same
}

/// Whether the requests of two nodes, and then their numbers, are as wanted.
fn asked_by_two<R: Threads + Sync>(rt: &R, alloc: Global) -> Result<(bool, bool), KindError> {
    let g = graph(alloc, &[(7, &[]), (7, &[(EdgeKind::Static, 0)])])?;
    let Ok(()) = check_valid(alloc, &g) else {
        return Ok((false, false));
    };
    let made = run_bottom_up(rt, alloc, 1, g, &Asks, 1, &OpenGate)?;
    Ok((
        are_asked_by(made.asked.as_slice(), &[0, 0, 1, 1]),
        hold(made.graph.nodes.as_slice(), &[0, 1]),
    ))
}

#[test]
fn requests_by_node(rt: HostRuntime) -> Result<(), Fail> {
    assert_eq!(rt; asked_by_two(&rt, rt.alloc())?, (true, true));
    Ok(())
}

/// Whether nodes are these, in this order.
fn are_nodes(order: &[NodeId], wanted: &[u32]) -> bool {
    let mut same = order.len() == wanted.len();
    for (node, want) in order.iter().zip(wanted) {
        same &= node.0 == *want;
    }
    same
}

/// Whether two nodes that are left as they are stay and ask nothing, and then whether they were visited in order.
fn left_by_two<R: Threads + Sync>(
    rt: &R,
    alloc: Global,
    workers: u32,
) -> Result<(bool, bool), StepError>
    requires { (1 ≤ workers) × (workers ≤ 64) }
{
    let g = graph(alloc, &[(7, &[(EdgeKind::Static, 1)]), (8, &[])])?;
    let Ok(()) = check_valid(alloc, &g) else {
        return Ok((false, false));
    };
    let way = Way::Workers {
        workers,
        gate: &OpenGate,
    };
    let made = run_idle_by(rt, alloc, &way, &[], 1, g, &Stays)?;
    Ok((
        hold(made.graph.nodes.as_slice(), &[7, 8]) && made.asked.as_slice().is_empty(),
        are_nodes(made.order.as_slice(), &[1, 0]),
    ))
}

#[test]
fn nodes_left_as_they_are(rt: HostRuntime) {
    assert!(rt; matches!(left_by_two(&rt, rt.alloc(), 1), Ok((true, true))));
    assert!(rt; matches!(left_by_two(&rt, rt.alloc(), 2), Ok((true, true))));
}

const HANDED: [Row<'static>; 5] = [
    (9, &[(EdgeKind::Whole, 1), (EdgeKind::Static, 3)]),
    (
        9,
        &[
            (EdgeKind::Static, 2),
            (EdgeKind::Whole, 3),
            (EdgeKind::Whole, 4),
        ],
    ),
    (9, &[]),
    (9, &[]),
    (9, &[]),
];

/// A graph after a pass from the top down, or its fault.
fn handed<R: Threads + Sync>(
    rt: &R,
    alloc: Global,
    refused: u32,
) -> Result<Graph<NodeId>, PassError> {
    let g = graph(alloc, &HANDED)?;
    let Ok(()) = check_valid(alloc, &g) else {
        return Err(PassError::OutOfMemory);
    };
    Ok(run_top_down(rt, alloc, 1, g, &Hands { refused }, 2, &OpenGate)?.graph)
}

#[test]
fn results_from_above(rt: HostRuntime) -> Result<(), Fail> {
    let alloc = rt.alloc();
    assert!(rt; hold(handed(&rt, alloc, 9)?.nodes.as_slice(), &[0, 0, 2, 3, 0]));
    assert!(rt; matches!(handed(&rt, alloc, 3), Err(PassError::At(NodeId(3), _))));
    one_top_down_outcome::<NodeId>();
    Ok(())
}
