ghost use Rattle.std.specs.Prelude.{◌≡◌, ◌<◌, ◌+◌, ℕ, [], length, IfOk};
ghost use Rattle.std.specs.List.{AllByRecursion};
ghost use Rattle.serial_pass.specs.InEdges.{AreStarts};
ghost use Rattle.serial_pass.specs.Plans.{IsPlan};
ghost use Rattle.module_graph.specs.Search.{AreDistances, GrowsPast, IsGiven, unfound};

use bp_faults::{NodeId, OutOfMemory};
use pass_core::{Plan, edges_into};
use std::alloc::Global;

/// Gives a node a distance, unless it has one.
fn give(
    found: &mut [Option<u32>],
    next: &mut Vec<u32>,
    n: u32,
    level: u32,
) -> Result<(), OutOfMemory>
    requires { n < length found.old }
    ensures { IfOk result (λ _. IsGiven n level found.old next.old.items found.new next.new.items) }
{
    if found[n as usize].is_none() {
        found[n as usize] = Some(level);
        next.push(n)?;
    }
    Ok(())
}

/// Gives a level to the nodes that have edges to the nodes in front, and says which are new.
fn grow(
    alloc: Global,
    plan: &Plan,
    starts: &[u32],
    found: &mut [Option<u32>],
    front: &[u32],
    level: u32,
) -> Result<Vec<u32>, OutOfMemory>
    requires plan { IsPlan plan.now }
    requires starts { AreStarts plan.now starts.now }
    requires many { length found.old ≡ plan.now.count }
    requires inside { AllByRecursion (λ n. n < plan.now.count) front.now }
    ensures grown { IfOk result (λ next. GrowsPast plan.now.edges level front.now found.old found.new next.items) }
    ensures fewer { IfOk result (λ next. unfound found.new + length next.items ≡ unfound found.old) }
    ensures inside { IfOk result (λ next. AllByRecursion (λ n. n < plan.now.count) next.items) }
{
    let mut next = Vec::new(alloc);
    for n in front {
        for edge in edges_into(plan, starts, NodeId(*n)) {
            give(found, &mut next, edge.from.0, level)?;
        }
    }
    Ok(next)
}

/// The distances of the nodes to one of them, by node number. It searches backward, level by level.
pub fn distances(
    alloc: Global,
    plan: &Plan,
    starts: &[u32],
    s: u32,
) -> Result<Vec<Option<u32>>, OutOfMemory>
    requires plan { IsPlan plan.now }
    requires starts { AreStarts plan.now starts.now }
    requires inside { s < plan.now.count }
    ensures many { IfOk result (λ found. length found.items ≡ plan.now.count) }
    ensures exact { IfOk result (λ found. AreDistances plan.now.edges s found.items) }
{
    let mut found = vec![in alloc; None; plan.count as usize]?;
    found[s as usize] = Some(0);
    let mut front = Vec::new(alloc);
    front.push(s)?;
    let mut level = 1;
    loop {
        let next = grow(alloc, plan, starts, found.as_mut_slice(), &front, level)?;
        if next.is_empty() {
            break;
        }
        front = next;
        level += 1;
    }
    Ok(found)
}
