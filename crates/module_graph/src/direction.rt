ghost use Rattle.std.specs.Prelude.{◌≡◌, IfOk};
ghost use Rattle.serial_pass.specs.Plans.{IsPlan};
ghost use Rattle.module_graph.specs.Graphs.{IsNumbered};
ghost use Rattle.module_graph.specs.Planned.{plan_of, plan_edges};

use crate::Graph;
use crate::by_target::edges_by_target;
use crate::edges::edges_along;
use bp_faults::{OutOfMemory, Seq};
use pass_core::{Plan, PlanEdge};
use std::alloc::Global;

/// Which nodes a pass visits first.
#[derive(Clone, Copy, Debug, PartialEq, Eq)]
pub enum Direction {
    /// Each node after those that its edges lead to.
    BottomUp,
    /// Each node after those whose edges lead to it.
    TopDown,
}

/// The edges of the plan of a pass over a graph.
fn edges_for<P>(alloc: Global, g: &Graph<P>, dir: Direction) -> Result<Vec<PlanEdge>, OutOfMemory>
    requires { IsNumbered g.now.nodes }
    ensures { IfOk result (λ edges. edges.items ≡ plan_edges dir g.now.nodes) }
{
    match dir {
        Direction::BottomUp => edges_along(alloc, g, dir),
        Direction::TopDown => edges_by_target(alloc, g),
    }
}

/// The plan of a pass over a graph.
pub fn plan<P>(alloc: Global, g: &Graph<P>, dir: Direction) -> Result<Plan, OutOfMemory>
    requires { IsNumbered g.now.nodes }
    ensures exact { IfOk result (λ plan. plan ≡ plan_of dir g.now.nodes) }
    ensures is_plan { IfOk result IsPlan }
{
    let edges = edges_for(alloc, g, dir)?;
    Ok(Plan {
        count: g.nodes.as_slice().len() as u32,
        edges: Seq::new(edges),
    })
}
