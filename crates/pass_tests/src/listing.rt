//! The graph text.
use bp_faults::{ModuleId, NodeId, OutOfMemory, Place, Seq, Target, Text};
use module_graph::{Axis, Edge, EdgeKind, Graph, Node, Variation, Variations, graph_text};
use std::alloc::Global;
use std::process::Abort;
use std::test::Fail;

/// A node with its edges, by kind and target.
fn node(
    alloc: Global,
    vars: Variations,
    edges: &[(EdgeKind, u32)],
) -> Result<Node<bool>, OutOfMemory> {
    let mut list = Vec::new(alloc);
    for (kind, to) in edges {
        list.push(Edge {
            kind: *kind,
            to: NodeId(*to),
            at: Place {
                file: 1,
                line: 1,
                col: 1,
            },
        })?;
    }
    Ok(Node {
        module: ModuleId(0),
        vars,
        payload: false,
        edges: Seq::new(list),
    })
}

fn shared(alloc: Global) -> Variations {
    let mut vars = Variations::empty(alloc);
    vars.set(Axis::Target, Variation::Target(Target::AndroidArm64));
    vars.set(Axis::Link, Variation::Shared);
    vars
}

/// An edge of every kind.
const KINDS: [(EdgeKind, u32); 7] = [
    (EdgeKind::Defaults, 0),
    (EdgeKind::Whole, 12),
    (EdgeKind::Static, 345),
    (EdgeKind::Shared, 0),
    (EdgeKind::Header, 0),
    (EdgeKind::DataBin, 0),
    (EdgeKind::Sources, 4294967295),
];

/// The example *reverse_cycle* after its dependencies, and an edge of every kind.
fn graph(alloc: Global) -> Result<Graph<bool>, OutOfMemory> {
    let mut nodes = Vec::new(alloc);
    nodes.push(node(alloc, shared(alloc), &[])?)?;
    nodes.push(node(alloc, shared(alloc), &[(EdgeKind::Shared, 0)])?)?;
    nodes.push(node(alloc, Variations::empty(alloc), &KINDS)?)?;
    Ok(Graph {
        nodes: Seq::new(nodes),
    })
}

fn names(alloc: Global) -> Result<Vec<Text>, OutOfMemory> {
    let mut names = Vec::new(alloc);
    names.push(Text::from_str(alloc, "host")?)?;
    names.push(Text::from_str(alloc, "p")?)?;
    names.push(Text::from_str(alloc, "a b")?)?;
    Ok(names)
}

fn listed(alloc: Global) -> Result<Vec<u8>, OutOfMemory> {
    graph_text(alloc, &graph(alloc)?, &names(alloc)?)
}

fn check_listed(rt: &impl Abort, alloc: Global, want: &str) -> Result<(), Fail> {
    assert!(rt; listed(alloc)?.as_slice() == want.as_bytes());
    Ok(())
}

#[test]
fn graphs_as_text(rt: HostRuntime) -> Result<(), Fail> {
    check_listed(&rt, rt.alloc(), TEXT)
}

const TEXT: &str = "0 host android_arm64_shared
1 p android_arm64_shared
  shared 0
2 a b -
  defaults 0
  whole 12
  static 345
  shared 0
  header 0
  data 0
  sources 4294967295
";
