//! Which variants a small rule makes, and where their edges lead.
ghost use Rattle.std.specs.Prelude.{◌≡◌, ◌<◌, IfOk, IfSome, length, ⊤};
ghost use Rattle.graph_nodes.specs.declared.variations.Axis.TheVariants.{Image};
ghost use Rattle.module_graph.specs.Graphs.{IsValid};
ghost use Rattle.mutator_rules.specs.Conditions.{MayRun};
ghost use Rattle.mutator_tests.specs.Transitions.{small_meaning, HasNodes, IsNodeOf};
ghost use Rattle.variant_graphs.specs.Splitting.{HasFreeAxis};

use bp_faults::{ModuleId, NodeId, OutOfMemory, Place, Seq};
use bp_ports::OpenGate;
use module_graph::{
    Axis, Edge, EdgeKind, Graph, GraphError, Node, Variation, Variations, check_cycle,
};
use mutator_rules::{KindError, Transition};
use pass_core::VisitError;
use std::alloc::Global;
use std::process::Abort;
use std::sync::Arc;
use std::test::Fail;
use std::thread::Threads;
use transition_rules::{TransitionGraph, laws, run_transition};

/// Each node has the empty variation; one has `vendor` beside it and one `recovery`, and one takes nothing else.
#[derive(Drop)]
struct SmallRule {
    vendor: u32,
    recovery: u32,
    stops: u32,
}

impl Transition<NodeId> for SmallRule {
    ghost meaning = { λ s. small_meaning s.vendor s.recovery s.stops };

    ghost accepts = { λ _ _. ⊤ };

    fn axis(&self) -> Axis {
        Axis::Image
    }

    fn split(
        &self,
        alloc: Global,
        _g: &Graph<NodeId>,
        n: NodeId,
    ) -> Result<Vec<Variation>, VisitError> {
        let mut own = Vec::new(alloc);
        own.push(Variation::Empty)?;
        if n.0 == self.vendor {
            own.push(Variation::Vendor)?;
        } else if n.0 == self.recovery {
            own.push(Variation::Recovery)?;
        }
        Ok(own)
    }

    fn outgoing(&self, _g: &Graph<NodeId>, _n: NodeId, _kind: EdgeKind, v: Variation) -> Variation {
        v
    }

    fn incoming(&self, _g: &Graph<NodeId>, n: NodeId, w: Variation) -> Variation {
        if n.0 == self.stops {
            return Variation::Empty;
        }
        w
    }

    fn mutate(
        &self,
        _alloc: Global,
        _g: &Graph<NodeId>,
        n: NodeId,
        _ins: &[Arc<NodeId>],
    ) -> Result<NodeId, VisitError> {
        Ok(n)
    }
}

/// Node `n`, of module `n`, with edges to the targets that are below the count, at most four.
fn node_of(alloc: Global, n: u32, targets: &[u32], count: u32) -> Result<Node<NodeId>, OutOfMemory>
    ensures { IfOk result (IsNodeOf count n) }
{
    let mut edges = Vec::new(alloc);
    for to in targets {
        if *to < count && edges.len() < 4 {
            edges.push(Edge {
                kind: EdgeKind::Static,
                to: NodeId(*to),
                at: Place::start(1),
            })?;
        }
    }
    Ok(Node {
        module: ModuleId(n),
        vars: Variations::empty(alloc),
        payload: NodeId(0),
        edges: Seq::new(edges),
    })
}

/// A node for each list of targets.
fn nodes_of(alloc: Global, targets: &[&[u32]]) -> Result<Vec<Node<NodeId>>, OutOfMemory>
    requires { length targets.now < 100 }
    ensures many { IfOk result (λ nodes. length nodes.items ≡ length targets.now) }
    ensures each { IfOk result (λ nodes. HasNodes (length targets.now) 0 nodes.items) }
{
    let mut nodes = Vec::new(alloc);
    for (n, list) in targets.iter().enumerate() {
        nodes.push(node_of(alloc, n as u32, list, targets.len() as u32)?)?;
    }
    Ok(nodes)
}

/// The graph of some lists of targets, where no walk returns.
fn graph_of(alloc: Global, targets: &[&[u32]]) -> Result<Graph<NodeId>, GraphError>
    requires { length targets.now < 100 }
    ensures valid { IfOk result (λ g. IsValid g.nodes) }
    ensures may { IfOk result (λ g. MayRun (λ _. ⊤) g.nodes) }
    ensures free { IfOk result (λ g. HasFreeAxis Image g.nodes) }
{
    let g = Graph {
        nodes: Seq::new(nodes_of(alloc, targets)?),
    };
    check_cycle(alloc, &g, &[])?;
    Ok(g)
}

const EMPTY: Variation = Variation::Empty;

const VENDOR: Variation = Variation::Vendor;

const RECOVERY: Variation = Variation::Recovery;

const NONE: u32 = u32::MAX;

/// The targets of each node, the nodes with `vendor`, with `recovery` and that takes nothing, and the new nodes: the
/// module, the variation and the targets of each.
type Case = (
    &'static [&'static [u32]],
    [u32; 3],
    &'static [(u32, Variation, &'static [u32])],
);

const CASES: [Case; 4] = [
    // wanted by a dependent alone, along two edges
    (
        &[&[], &[0], &[1]],
        [2, NONE, NONE],
        &[
            (0, EMPTY, &[]),
            (0, VENDOR, &[]),
            (1, EMPTY, &[0]),
            (1, VENDOR, &[1]),
            (2, EMPTY, &[2]),
            (2, VENDOR, &[3]),
        ],
    ),
    // stopped on the way
    (
        &[&[], &[0], &[1]],
        [2, NONE, 1],
        &[
            (0, EMPTY, &[]),
            (1, EMPTY, &[0]),
            (2, EMPTY, &[1]),
            (2, VENDOR, &[1]),
        ],
    ),
    // a diamond whose sides want different ones, which stand by spelling
    (
        &[&[], &[0], &[0], &[1, 2]],
        [1, 2, NONE],
        &[
            (0, EMPTY, &[]),
            (0, RECOVERY, &[]),
            (0, VENDOR, &[]),
            (1, EMPTY, &[0]),
            (1, VENDOR, &[2]),
            (2, EMPTY, &[0]),
            (2, RECOVERY, &[1]),
            (3, EMPTY, &[3, 5]),
        ],
    ),
    // wanted by two, and there once
    (
        &[&[], &[0], &[0], &[1, 2]],
        [3, NONE, NONE],
        &[
            (0, EMPTY, &[]),
            (0, VENDOR, &[]),
            (1, EMPTY, &[0]),
            (1, VENDOR, &[1]),
            (2, EMPTY, &[0]),
            (2, VENDOR, &[1]),
            (3, EMPTY, &[2, 4]),
            (3, VENDOR, &[3, 5]),
        ],
    ),
];

/// Whether a new node is as wanted, and its payload its number.
fn is_as_wanted(n: usize, node: &Node<NodeId>, want: &(u32, Variation, &[u32])) -> bool {
    let edges = node.edges.as_slice();
    for (edge, target) in edges.iter().zip(want.2) {
        if edge.to.0 != *target {
            return false;
        }
    }
    node.module.0 == want.0
        && node.vars.get(Axis::Image) == want.1
        && node.payload.0 as usize == n
        && edges.len() == want.2.len()
}

/// Runs the small rule on two workers.
fn transitioned<R: Threads + Sync>(
    rt: &R,
    alloc: Global,
    g: Graph<NodeId>,
    rule: &SmallRule,
) -> Result<TransitionGraph<NodeId>, KindError>
    requires valid { IsValid g.nodes }
    requires may { MayRun (λ _. ⊤) g.nodes }
    requires free { HasFreeAxis Image g.nodes }
{
    run_transition(rt, alloc, 1, g, rule, 2, &OpenGate)
}

/// What the small rule makes of some lists of targets, fewer than 100 and where no walk returns.
fn made_of<R: Threads + Sync>(
    rt: &R,
    alloc: Global,
    targets: &[&[u32]],
    rule: &SmallRule,
) -> Result<Option<TransitionGraph<NodeId>>, KindError> {
    if targets.len() >= 100 {
        return Ok(None);
    }
    match graph_of(alloc, targets) {
        Ok(g) => Ok(Some(transitioned(rt, alloc, g, rule)?)),
        Err(_) => Ok(None),
    }
}

/// Whether new nodes are as wanted.
fn are_as_wanted(nodes: &[Node<NodeId>], want: &[(u32, Variation, &[u32])]) -> bool {
    let mut same = nodes.len() == want.len();
    for (n, (node, wanted)) in nodes.iter().zip(want).enumerate() {
        same &= is_as_wanted(n, node, wanted);
    }
    same
}

/// Whether the new nodes of a case are as wanted; then how many nodes have wants, and how many payloads there are.
fn told_of<R: Threads + Sync>(
    rt: &R,
    alloc: Global,
    case: &Case,
) -> Result<(bool, usize, usize), KindError> {
    let (targets, [vendor, recovery, stops], want) = *case;
    let rule = SmallRule {
        vendor,
        recovery,
        stops,
    };
    match made_of(rt, alloc, targets, &rule)? {
        Some(made) => Ok((
            are_as_wanted(made.graph.nodes.as_slice(), want),
            made.wants.as_slice().len(),
            made.mutated.as_slice().len(),
        )),
        None => Ok((false, 0, 0)),
    }
}

fn check_cases<R: Threads + Sync + Abort>(
    rt: &R,
    alloc: Global,
    cases: &[Case],
) -> Result<(), Fail> {
    for (index, case) in cases.iter().enumerate() {
        assert_eq!(rt;
            told_of(rt, alloc, case)?,
            (true, case.0.len(), case.2.len()),
            "case {index}"
        );
    }
    Ok(())
}

#[test]
fn variants_that_are_wanted(rt: HostRuntime) -> Result<(), Fail> {
    check_cases(&rt, rt.alloc(), &CASES)
}

const BELOW: [u32; 19] = [
    0, 1, 2, 3, 4, 5, 6, 7, 8, 9, 10, 11, 12, 13, 14, 15, 16, 17, 18,
];

/// How many nodes a chain becomes in which each node depends on the one before, if the last has `vendor`.
fn many_of_chain<R: Threads + Sync>(
    rt: &R,
    alloc: Global,
    below: &[u32],
) -> Result<usize, KindError> {
    let mut targets: Vec<&[u32]> = Vec::new(alloc);
    targets.push(&[])?;
    for n in below {
        targets.push(std::slice::from_ref(n))?;
    }
    let rule = SmallRule {
        vendor: 19,
        recovery: NONE,
        stops: NONE,
    };
    match made_of(rt, alloc, &targets, &rule)? {
        Some(made) => Ok(made.graph.nodes.as_slice().len()),
        None => Ok(0),
    }
}

/// All nodes of a chain get what the last has.
#[test]
fn a_chain_of_twenty(rt: HostRuntime) -> Result<(), Fail> {
    assert_eq!(rt; many_of_chain(&rt, rt.alloc(), &BELOW)?, 40);
    Ok(())
}

#[test]
fn laws_of_transitions_can_be_called() {
    laws::wants_meet_their_equation::<NodeId>();
    laws::wants_split::<NodeId>();
    laws::one_transition::<NodeId>();
    laws::others_stand_by_spelling();
    laws::others_are_those_wanted();
    laws::others_rise();
    laws::spellings_differ();
}
