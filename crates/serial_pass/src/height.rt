ghost use Rattle.std.specs.Prelude.{◌≡◌, ◌<◌, ◌+◌, ◌^◌, ◌++◌, [], ◌∷◌, map, length, IfOk, OnOk, IsSome};
ghost use Rattle.std.specs.List.{AllByRecursion, range_with_len};
ghost use Rattle.serial_pass.specs.Heights.{height};
ghost use Rattle.serial_pass.specs.InEdges.{AreStarts};
ghost use Rattle.serial_pass.specs.Plans.{IsPlan, HasNoCycle, predecessors};
ghost use Rattle.serial_pass.specs.Settling.{settled_at, AreSettled, AreAllSettled};
ghost use Rattle.serial_pass.specs.Settling.{IsPath, IsAdvanced, gone_up, start_at};

use crate::in_edges::{edges_into, starts_of};
use crate::plan::Plan;
use crate::slots::{empty_slots, unwrapped};
use bp_faults::{NodeId, OutOfMemory};
use std::alloc::Global;

/// A node whose height is sought, and the first of its in-edges that hasn't been looked at.
#[derive(Clone, Copy, Debug, PartialEq, Eq)]
pub struct Climb {
    pub node: NodeId,
    pub next: u32,
}

/// The height of a node whose predecessors' heights are settled.
fn height_of(plan: &Plan, starts: &[u32], n: NodeId, settled: &[Option<u32>]) -> u32
    requires plan { IsPlan plan.now }
    requires free { HasNoCycle plan.now.edges }
    requires starts { AreStarts plan.now starts.now }
    requires inside { n.0 < plan.now.count }
    requires settled { AreSettled plan.now settled.now }
    requires ready { AllByRecursion (λ m. IsSome (settled_at settled.now m)) (predecessors plan.now.edges n.0) }
    ensures { result ≡ height plan.now n.0 }
{
    let mut height = 0;
    for edge in edges_into(plan, starts, n) {
        match settled[edge.from.0 as usize] {
            Some(below) => height = height.max(below + 1),
            None => unreachable!(),
        }
    }
    height
}

/// Goes up from a node to the next of its predecessors, which is put on the path unless it is settled.
fn go_up(
    path: &mut Vec<Climb>,
    climb: Climb,
    source: NodeId,
    settled: &[Option<u32>],
) -> Result<(), OutOfMemory>
    requires fits { climb.next + 1 < 2 ^ 32 }
    requires inside { source.0 < length settled.now }
    ensures { OnOk result (path.new.items ≡ path.old.items ++ gone_up settled.now climb source) }
{
    path.push(Climb {
        node: climb.node,
        next: climb.next + 1,
    })?;
    if settled[source.0 as usize].is_none() {
        path.push(Climb {
            node: source,
            next: 0,
        })?;
    }
    Ok(())
}

/// Goes on from the end of a path, of which the last climb was taken.
fn advance(
    plan: &Plan,
    starts: &[u32],
    climb: Climb,
    settled: &mut [Option<u32>],
    path: &mut Vec<Climb>,
) -> Result<(), OutOfMemory>
    requires plan { IsPlan plan.now }
    requires free { HasNoCycle plan.now.edges }
    requires starts { AreStarts plan.now starts.now }
    requires settled { AreSettled plan.now settled.old }
    requires path { IsPath plan.now settled.old (path.old.items ++ climb ∷ []) }
    ensures { OnOk result (IsAdvanced plan.now settled.old (path.old.items ++ climb ∷ []) settled.new path.new.items) }
{
    let node = climb.node.0 as usize;
    if settled[node].is_some() {
        return Ok(());
    }
    let edges = edges_into(plan, starts, climb.node);
    let next = climb.next as usize;
    if next < edges.len() {
        return go_up(path, climb, edges[next].from, settled);
    }
    settled[node] = Some(height_of(plan, starts, climb.node, settled));
    Ok(())
}

/// A climb from each node.
fn every_climb(alloc: Global, count: u32) -> Result<Vec<Climb>, OutOfMemory>
    ensures { IfOk result (λ path. path.items ≡ map start_at (range_with_len 0 count)) }
{
    let mut path = Vec::with_capacity(alloc, count as usize)?;
    for n in 0..count {
        path.push(Climb {
            node: NodeId(n),
            next: 0,
        })?;
    }
    Ok(path)
}

/// Settles the height of each node: up from a node to its predecessors, and back once they are settled.
fn settle(alloc: Global, plan: &Plan, starts: &[u32]) -> Result<Vec<Option<u32>>, OutOfMemory>
    requires plan { IsPlan plan.now }
    requires free { HasNoCycle plan.now.edges }
    requires starts { AreStarts plan.now starts.now }
    ensures { IfOk result (λ settled. AreAllSettled plan.now settled.items) }
{
    let mut settled = empty_slots(alloc, plan.count)?;
    let mut path = every_climb(alloc, plan.count)?;
    while let Some(climb) = path.pop() {
        advance(plan, starts, climb, &mut settled, &mut path)?;
    }
    Ok(settled)
}

/// The height of each node, by node number: 0 without predecessors, else one more than the greatest
/// predecessor's.
pub fn heights(alloc: Global, plan: &Plan) -> Result<Vec<u32>, OutOfMemory>
    requires plan { IsPlan plan.now }
    requires free { HasNoCycle plan.now.edges }
    ensures { IfOk result (λ hs. hs.items ≡ map (height plan.now) (range_with_len 0 plan.now.count)) }
{
    let starts = starts_of(alloc, plan)?;
    let settled = settle(alloc, plan, &starts)?;
    unwrapped(alloc, settled)
}
