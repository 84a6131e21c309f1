ghost use Rattle.std.specs.Prelude.{◌≡◌, IfOk, length};
ghost use Rattle.module_graph.specs.Graphs.{IsNumbered};

use bp_faults::{ModuleId, NodeId, OutOfMemory, Payload, Place, Seq, Text};
use module_graph::{Direction, Edge, EdgeKind, Graph, Node, Variation, Variations, plan};
use mutator_rules::laws::{arrivals_come_from_nodes, predecessors_are_arrivals};
use mutator_rules::{Request, Wanted, arrivals_of, kinds_of};
use std::alloc::Global;
use std::test::Fail;

/// A graph of two nodes, of which the second depends on the first.
fn two_nodes(alloc: Global) -> Result<Graph<()>, OutOfMemory>
    ensures numbered { IfOk result (λ g. IsNumbered g.nodes) }
    ensures two { IfOk result (λ g. length g.nodes ≡ 2) }
{
    let mut edges = Vec::new(alloc);
    edges.push(Edge {
        kind: EdgeKind::Header,
        to: NodeId(0),
        at: Place::start(1),
    })?;
    let mut nodes = Vec::new(alloc);
    nodes.push(Node {
        module: ModuleId(0),
        vars: Variations::empty(alloc),
        payload: (),
        edges: Seq::new(Vec::new(alloc)),
    })?;
    nodes.push(Node {
        module: ModuleId(1),
        vars: Variations::empty(alloc),
        payload: (),
        edges: Seq::new(edges),
    })?;
    Ok(Graph {
        nodes: Seq::new(nodes),
    })
}

/// Whether a list has so many arrivals, each from node 1 by a header edge.
fn has_arrivals(list: &[(NodeId, EdgeKind)], count: usize) -> bool {
    let mut same = list.len() == count;
    for (from, kind) in list {
        same &= *from == NodeId(1) && *kind == EdgeKind::Header;
    }
    same
}

/// Whether the arrivals of the graph are those of its one edge.
fn arrivals(alloc: Global) -> Result<bool, OutOfMemory> {
    let g = two_nodes(alloc)?;
    let plan = plan(alloc, &g, Direction::TopDown)?;
    let lists = arrivals_of(alloc, &g, &plan)?;
    let same = has_arrivals(lists.at(NodeId(0)), 1) && has_arrivals(lists.at(NodeId(1)), 0);
    let kinds = kinds_of(alloc, lists)?;
    Ok(same && kinds.at(NodeId(0)).len() == 1 && kinds.at(NodeId(1)).is_empty())
}

#[test]
fn arrivals_along_an_edge(rt: HostRuntime) -> Result<(), Fail> {
    assert!(rt; arrivals(rt.alloc())?);
    predecessors_are_arrivals::<()>();
    arrivals_come_from_nodes::<()>();
    Ok(())
}

const WANT: Wanted = Wanted {
    target: Variation::Common,
    image: Variation::Vendor,
    link: Variation::Shared,
};

fn request(alloc: Global) -> Result<Request, OutOfMemory> {
    Ok(Request {
        reverse: true,
        kind: EdgeKind::Shared,
        name: Text::from_str(alloc, "lib")?,
        at: Place::start(2),
        want: WANT,
    })
}

#[test]
fn a_copied_request(rt: HostRuntime) -> Result<(), Fail> {
    let alloc = rt.alloc();
    let copy = request(alloc)?.copy(alloc)?;
    assert_eq!(rt;
        (copy.name.as_str(), copy.at, copy.want),
        ("lib", Place::start(2), WANT)
    );
    Ok(())
}
