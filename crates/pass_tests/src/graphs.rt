ghost use Rattle.std.specs.Prelude.{◌<◌, IsTrue};
ghost use Rattle.std.specs.List.{AllByRecursion};
ghost use Rattle.graph_nodes.specs.declared.graph.Edge.{Edge};
ghost use Rattle.module_graph.specs.Graphs.{IsNumbered};

use crate::visits::falls;
use bp_faults::{ModuleId, NodeId, OutOfMemory, Place, Seq, Target, Text};
use module_graph::{
    Axis, Direction, Edge, EdgeKind, Graph, Node, Variation, Variations, heights, label, laws,
    plan, variant_name, variation_name,
};
use std::alloc::Global;
use std::test::Fail;

/// Edges to nodes, in order. They stand in one line, one in each column.
pub fn edges_to(alloc: Global, line: u32, targets: &[u32]) -> Result<Seq<Edge>, OutOfMemory> {
    let mut edges = Vec::new(alloc);
    let mut at = Place {
        file: 1,
        line,
        col: 1,
    };
    for to in targets {
        edges.push(Edge {
            kind: EdgeKind::Static,
            to: NodeId(*to),
            at,
        })?;
        at.col = at.col.wrapping_add(1);
    }
    Ok(Seq::new(edges))
}

/// A graph by the targets of each node's edges. The edges of node n stand in line n + 1.
pub fn graph(alloc: Global, targets: &[&[u32]]) -> Result<Graph<bool>, OutOfMemory> {
    let mut nodes = Vec::new(alloc);
    let mut module = 0;
    for targets in targets {
        nodes.push(Node {
            module: ModuleId(module),
            vars: Variations::empty(alloc),
            payload: false,
            edges: edges_to(alloc, module.wrapping_add(1), targets)?,
        })?;
        module = module.wrapping_add(1);
    }
    Ok(Graph {
        nodes: Seq::new(nodes),
    })
}

fn lead_inside(edges: &[Edge], count: usize) -> bool
    ensures { IsTrue result → AllByRecursion (λ (e : Edge). e.to.0 < count) edges.now }
{
    for edge in edges {
        if edge.to.0 as usize >= count {
            return false;
        }
    }
    true
}

/// Whether a graph may be planned.
pub fn is_numbered(g: &Graph<bool>) -> bool
    ensures { IsTrue result → IsNumbered g.now.nodes }
{
    laws::one_more_node::<bool>();
    let nodes = g.nodes.as_slice();
    let mut many = 0;
    for node in nodes {
        let edges = node.edges.as_slice();
        if !lead_inside(edges, nodes.len()) || edges.len() >= (1 << 32) - many {
            return false;
        }
        many += edges.len();
    }
    nodes.len() < 1 << 32
}

/// The ends of the edges of a graph's plan.
fn ends(alloc: Global, g: &Graph<bool>, dir: Direction) -> Result<Vec<(u32, u32)>, OutOfMemory>
    requires { IsNumbered g.now.nodes }
{
    let plan = plan(alloc, g, dir)?;
    let mut ends = Vec::new(alloc);
    for edge in plan.edges.as_slice() {
        ends.push((edge.from.0, edge.to.0))?;
    }
    Ok(ends)
}

const DIAMOND: [&[u32]; 4] = [&[1, 2], &[3], &[3, 3], &[]];

const UP: [(u32, u32); 5] = [(1, 0), (2, 0), (3, 1), (3, 2), (3, 2)];

const DOWN: [(u32, u32); 5] = [(0, 1), (0, 2), (1, 3), (2, 3), (2, 3)];

/// The ends of the edges of the diamond's plan; none where it may not be planned.
fn diamond_ends(alloc: Global, dir: Direction) -> Result<Vec<(u32, u32)>, OutOfMemory> {
    let g = graph(alloc, &DIAMOND)?;
    if !is_numbered(&g) {
        return Ok(Vec::new(alloc));
    }
    ends(alloc, &g, dir)
}

/// The heights of the diamond's nodes; none where it may not be planned, or its edges don't fall.
fn diamond_heights(alloc: Global) -> Result<Vec<u32>, OutOfMemory> {
    let g = graph(alloc, &DIAMOND)?;
    if !is_numbered(&g) {
        return Ok(Vec::new(alloc));
    }
    let plan = plan(alloc, &g, Direction::BottomUp)?;
    if !falls(&plan) {
        return Ok(Vec::new(alloc));
    }
    heights(alloc, &plan)
}

#[test]
fn edges_of_the_diamond(rt: HostRuntime) -> Result<(), Fail> {
    let alloc = rt.alloc();
    assert!(rt; diamond_ends(alloc, Direction::BottomUp)?.as_slice() == UP.as_slice());
    assert!(rt; diamond_ends(alloc, Direction::TopDown)?.as_slice() == DOWN.as_slice());
    Ok(())
}

#[test]
fn heights_of_the_diamond(rt: HostRuntime) -> Result<(), Fail> {
    assert!(rt; diamond_heights(rt.alloc())?.as_slice() == [2, 1, 1, 0].as_slice());
    Ok(())
}

#[test]
fn laws_of_graphs_can_be_called() {
    laws::none_returns_where_numbering_rises();
    laws::none_returns_where_plans_have_no_cycle::<bool>();
    laws::valid_plans_have_no_cycle::<bool>();
    laws::predecessors_are_targets::<bool>();
    laws::predecessors_are_sources::<bool>();
    laws::reported_where_a_walk_returns::<bool>();
    laws::one_cycle_meaning::<bool>();
    laws::at_most_one_cycle_meaning::<bool>();
    laws::the_cycle_is_shortest::<bool>();
    laws::plans_of_graphs_are_plans::<bool>();
    laws::in_edges_stay_by_target();
    laws::edges_join_nodes::<bool>();
    laws::one_more_node::<bool>();
    laws::one_more_item::<u32, bool>();
    laws::edges_stand_at_their_node::<bool>();
    laws::variant_names_are_plain();
}

/// A variation along an axis, and a label.
type Name = (Axis, Variation, &'static str);

/// One variation after another, and the label of a variant of `a` behind each.
const NAMES: [Name; 10] = [
    (Axis::Target, Variation::Empty, "a"),
    (Axis::Link, Variation::Static, "a{static}"),
    (
        Axis::Target,
        Variation::Target(Target::AndroidArm64),
        "a{android_arm64_static}",
    ),
    (
        Axis::Image,
        Variation::Vendor,
        "a{android_arm64_vendor_static}",
    ),
    (
        Axis::PerSource,
        Variation::PerSource(12),
        "a{android_arm64_vendor_static_t12}",
    ),
    (
        Axis::Sanitize,
        Variation::Asan,
        "a{android_arm64_vendor_static_t12_asan}",
    ),
    (
        Axis::Target,
        Variation::Common,
        "a{common_vendor_static_t12_asan}",
    ),
    (
        Axis::Image,
        Variation::Recovery,
        "a{common_recovery_static_t12_asan}",
    ),
    (
        Axis::Link,
        Variation::Shared,
        "a{common_recovery_shared_t12_asan}",
    ),
    (
        Axis::Target,
        Variation::Empty,
        "a{recovery_shared_t12_asan}",
    ),
];

fn names() -> &'static [Name] {
    &NAMES
}

/// Sets a variation: whether a copy then has it, and the label of a variant of `a` behind it.
fn set_and_label(
    alloc: Global,
    variations: &mut Variations,
    axis: Axis,
    variation: Variation,
) -> Result<(bool, Text), OutOfMemory> {
    variations.set(axis, variation);
    let copy = variations.copy(alloc);
    let module = Text::from_str(alloc, "a")?;
    Ok((
        copy.get(axis).is_same(variation),
        label(alloc, &module, &copy)?,
    ))
}

#[test]
fn names_of_variants(rt: HostRuntime) -> Result<(), Fail> {
    let alloc = rt.alloc();
    let mut variations = Variations::empty(alloc);
    for (axis, variation, want) in names() {
        let (is_set, label) = set_and_label(alloc, &mut variations, *axis, *variation)?;
        assert_eq!(rt; (is_set, label.as_str()), (true, *want), "{axis:?}");
    }
    assert_eq!(rt;
        variant_name(alloc, &variations)?.as_str(),
        "recovery_shared_t12_asan"
    );
    Ok(())
}

#[test]
fn name_of_a_variation(rt: HostRuntime) -> Result<(), Fail> {
    assert_eq!(rt;
        variation_name(rt.alloc(), Variation::Asan)?.as_str(),
        "asan"
    );
    Ok(())
}
