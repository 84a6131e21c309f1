//! Which cycle is reported.
use crate::graphs::{edges_to, graph, is_numbered};
use bp_faults::{ModuleId, NodeId, OutOfMemory, Place, Seq, Target, Text, fault_line};
use module_graph::{
    Axis, Edge, EdgeKind, Graph, GraphError, Node, Variation, Variations, check_cycle, label,
};
use std::alloc::Global;
use std::process::Abort;
use std::test::Fail;

fn files(alloc: Global) -> Result<Vec<Text>, OutOfMemory> {
    let mut files = Vec::new(alloc);
    files.push(Text::from_str(alloc, "list")?)?;
    files.push(Text::from_str(alloc, "Android.bp")?)?;
    Ok(files)
}

/// What the cycle rule says of a graph: nothing, or the fault's line.
fn said(alloc: Global, g: &Graph<bool>, names: &[Text]) -> Result<String, OutOfMemory> {
    if !is_numbered(g) {
        return Ok(String::from_str(alloc, "no graph")?);
    }
    match check_cycle(alloc, g, names) {
        Ok(()) => Ok(String::new(alloc)),
        Err(GraphError::OutOfMemory) => Err(OutOfMemory),
        Err(GraphError::Bad(fault)) => fault_line(alloc, &fault, &files(alloc)?),
    }
}

/// Each node's number as its label.
fn numbers(alloc: Global, count: usize) -> Result<Vec<Text>, OutOfMemory> {
    let mut names = Vec::new(alloc);
    for n in 0..count {
        names.push(Text::new(format!(in alloc; "{n}")?))?;
    }
    Ok(names)
}

/// What the cycle rule says of the graph of some targets, with each node's number as its label.
fn said_of(alloc: Global, targets: &[&[u32]]) -> Result<String, OutOfMemory> {
    let g = graph(alloc, targets)?;
    said(alloc, &g, &numbers(alloc, targets.len())?)
}

/// The targets of each node's edges, and the fault's line.
type Case = (&'static [&'static [u32]], &'static str);

/// Graphs whose reported cycle begins at the least node that can reach itself.
const CASES: [Case; 14] = [
    (&[], ""),
    (&[&[1, 2], &[3], &[3, 3], &[]], ""),
    // a part that closes before another is met
    (&[&[], &[], &[1]], ""),
    // an edge to itself
    (
        &[&[], &[0, 1]],
        "Android.bp:2:2: error 23: dependency cycle: 1 -> 1\n",
    ),
    // the first of two equal edges
    (
        &[&[1, 1], &[0]],
        "Android.bp:1:1: error 23: dependency cycle: 0 -> 1 -> 0\n",
    ),
    (
        &[&[1, 1, 2], &[2], &[0]],
        "Android.bp:1:3: error 23: dependency cycle: 0 -> 2 -> 0\n",
    ),
    // the least node that reaches a cycle isn't on one
    (
        &[&[1], &[2], &[1]],
        "Android.bp:2:1: error 23: dependency cycle: 1 -> 2 -> 1\n",
    ),
    // nor is one between two cycles
    (
        &[&[3], &[2, 0], &[1], &[4], &[3]],
        "Android.bp:2:1: error 23: dependency cycle: 1 -> 2 -> 1\n",
    ),
    // of two cycles that of the least node, which is longer
    (
        &[&[2], &[4], &[3], &[0], &[1]],
        "Android.bp:1:1: error 23: dependency cycle: 0 -> 2 -> 3 -> 0\n",
    ),
    // of two through the least node the shorter
    (
        &[&[1, 3], &[2], &[0], &[0]],
        "Android.bp:1:2: error 23: dependency cycle: 0 -> 3 -> 0\n",
    ),
    // of two as short that by the first edge, at the start and later
    (
        &[&[2, 1], &[3], &[3], &[0]],
        "Android.bp:1:1: error 23: dependency cycle: 0 -> 2 -> 3 -> 0\n",
    ),
    (
        &[&[1], &[3, 2], &[0], &[0]],
        "Android.bp:1:1: error 23: dependency cycle: 0 -> 1 -> 3 -> 0\n",
    ),
    // an edge to itself is shorter than any other way
    (
        &[&[1, 0], &[0]],
        "Android.bp:1:2: error 23: dependency cycle: 0 -> 0\n",
    ),
    // two parts of two nodes, and the nodes before and behind them
    (
        &[&[1, 5], &[2, 5], &[3], &[2, 4], &[], &[6], &[5]],
        "Android.bp:3:1: error 23: dependency cycle: 2 -> 3 -> 2\n",
    ),
];

fn cases() -> &'static [Case] {
    &CASES
}

#[test]
fn which_cycle_is_reported(rt: HostRuntime) -> Result<(), Fail> {
    let alloc = rt.alloc();
    for (targets, line) in cases() {
        assert_eq!(rt; said_of(alloc, targets)?.as_str(), *line, "{targets:?}");
    }
    Ok(())
}

/// A chain of nodes: each leads to the next or to the one before, and the end to the start where it is closed.
fn chain(
    alloc: Global,
    count: u32,
    forward: bool,
    closed: bool,
) -> Result<Graph<bool>, OutOfMemory> {
    let last = count.saturating_sub(1);
    let mut nodes = Vec::new(alloc);
    for n in 0..count {
        let (end, start, next) = if forward {
            (last, 0, n.saturating_add(1))
        } else {
            (0, last, n.saturating_sub(1))
        };
        let target = [if n == end { start } else { next }];
        let targets = if n == end && !closed {
            &[]
        } else {
            target.as_slice()
        };
        nodes.push(Node {
            module: ModuleId(n),
            vars: Variations::empty(alloc),
            payload: false,
            edges: edges_to(alloc, 1, targets)?,
        })?;
    }
    Ok(Graph {
        nodes: Seq::new(nodes),
    })
}

/// A chain from node 0 on that passes over node 1, which leads to node 0.
fn chain_over_one(alloc: Global, count: u32) -> Result<Graph<bool>, OutOfMemory> {
    let mut nodes = chain(alloc, count, true, false)?.nodes.into_vec();
    if nodes.len() > 1 {
        nodes[0].edges = edges_to(alloc, 1, &[2])?;
        nodes[1].edges = edges_to(alloc, 1, &[0])?;
    }
    Ok(Graph {
        nodes: Seq::new(nodes),
    })
}

/// How many labels the reported cycle has.
fn labels_in_cycle(alloc: Global, g: &Graph<bool>) -> Result<usize, OutOfMemory> {
    if !is_numbered(g) {
        return Ok(usize::MAX);
    }
    match check_cycle(alloc, g, &[]) {
        Ok(()) => Ok(0),
        Err(GraphError::Bad(fault)) => Ok(fault.chain.as_slice().len()),
        Err(GraphError::OutOfMemory) => Err(OutOfMemory),
    }
}

/// Each answer needs time near the number of nodes.
#[test]
fn long_chains(rt: HostRuntime) -> Result<(), Fail> {
    let alloc = rt.alloc();
    let count = 200_000;
    for (forward, closed, labels) in [
        (true, false, 0),
        (false, false, 0),
        (true, true, 200_001),
        (false, true, 200_001),
    ] {
        let g = chain(alloc, count, forward, closed)?;
        assert_eq!(rt;
            labels_in_cycle(alloc, &g)?,
            labels,
            "forward {forward}, closed {closed}"
        );
    }
    let g = chain_over_one(alloc, count)?;
    assert_eq!(rt; labels_in_cycle(alloc, &g)?, 0);
    Ok(())
}

/// Variants of static libraries with names of one letter, by the places of their edges: target, line, column.
fn libraries(alloc: Global, edges: &[&[(u32, u32, u32)]]) -> Result<Graph<bool>, OutOfMemory> {
    let mut nodes = Vec::new(alloc);
    let mut module = 0;
    for places in edges {
        let mut edges = Vec::new(alloc);
        for (to, line, col) in places.iter() {
            edges.push(Edge {
                kind: EdgeKind::Static,
                to: NodeId(*to),
                at: Place {
                    file: 1,
                    line: *line,
                    col: *col,
                },
            })?;
        }
        let mut vars = Variations::empty(alloc);
        vars.set(Axis::Target, Variation::Target(Target::AndroidArm64));
        vars.set(Axis::Link, Variation::Static);
        nodes.push(Node {
            module: ModuleId(module),
            vars,
            payload: false,
            edges: Seq::new(edges),
        })?;
        module = module.wrapping_add(1);
    }
    Ok(Graph {
        nodes: Seq::new(nodes),
    })
}

fn label_of(alloc: Global, node: &Node<bool>, name: &str) -> Result<Text, OutOfMemory> {
    label(alloc, &Text::from_str(alloc, name)?, &node.vars)
}

fn labels(alloc: Global, g: &Graph<bool>, names: &[&str]) -> Result<Vec<Text>, OutOfMemory> {
    let mut labels = Vec::new(alloc);
    for (node, name) in g.nodes.as_slice().iter().zip(names) {
        labels.push(label_of(alloc, node, name)?)?;
    }
    Ok(labels)
}

/// What the cycle rule says of the example *cycles*: a wants b; b wants c and a; c wants a.
fn said_of_cycles(alloc: Global) -> Result<String, OutOfMemory> {
    let g = libraries(
        alloc,
        &[&[(1, 1, 46)], &[(2, 2, 46), (0, 2, 51)], &[(0, 3, 46)]],
    )?;
    said(alloc, &g, &labels(alloc, &g, &["a", "b", "c"])?)
}

fn check_cycles(rt: &impl Abort, alloc: Global, want: &str) -> Result<(), Fail> {
    assert_eq!(rt; said_of_cycles(alloc)?.as_str(), want);
    Ok(())
}

/// The example *cycles*.
#[test]
fn cycles(rt: HostRuntime) -> Result<(), Fail> {
    let want = "Android.bp:1:46: error 23: dependency cycle: \
         a{android_arm64_static} -> b{android_arm64_static} -> a{android_arm64_static}\n";
    check_cycles(&rt, rt.alloc(), want)
}
