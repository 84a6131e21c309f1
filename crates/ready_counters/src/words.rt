ghost use Rattle.std.specs.Prelude.{◌≡◌, ◌<◌, ℕ, length, IfOk, replicate};
ghost use Rattle.std.specs.Mem.Slots.{IsFull};
ghost use Rattle.ready_counters.specs.Edges.{edge_target, edge_targets};
ghost use Rattle.ready_counters.specs.Meaning.{AreFirst};

use atomic_table::Closed;
use bp_faults::OutOfMemory;
use pass_core::Plan;
use std::alloc::Global;

pub fn count_of(plan: &Plan) -> u32
    ensures { result ≡ plan.now.count }
{
    plan.count
}

fn zeros(alloc: Global, many: usize) -> Result<Vec<u64>, OutOfMemory>
    ensures { IfOk result (λ words. words.items ≡ replicate many 0) }
{
    let mut words = Vec::with_capacity(alloc, many)?;
    for _i in 0..many {
        words.push(0)?;
    }
    Ok(words)
}

/// A counter for each node, and a 0 for each edge and for the tickets.
pub fn first_words(alloc: Global, plan: &Plan) -> Result<Vec<u64>, OutOfMemory>
    requires ends { (e : ℕ) → e < length plan.now.edges → edge_target plan.now.edges e < plan.now.count }
    requires few { length plan.now.edges < 4294967296 }
    ensures { IfOk result (λ words. AreFirst plan.now.count (length plan.now.edges) plan.now.edges words.items) }
{
    let edges = plan.edges.as_slice();
    let mut words = zeros(alloc, plan.count as usize + edges.len() + 1)?;
    for edge in edges {
        words[edge.to.0 as usize] += 1;
    }
    Ok(words)
}

/// The target of each edge.
pub fn targets_of_plan(alloc: Global, plan: &Plan) -> Result<Vec<u32>, OutOfMemory>
    ensures { IfOk result (λ targets. targets.items ≡ edge_targets plan.now.edges) }
{
    let edges = plan.edges.as_slice();
    let mut targets = Vec::with_capacity(alloc, edges.len())?;
    for edge in edges {
        targets.push(edge.to.0)?;
    }
    Ok(targets)
}

/// Drops what still waits in the slots, and gives their memory back.
pub fn free_all<S: Drop>(mut closed: Closed<S, Global>)
    requires { IsFull closed.slots }
{
    let mut i = 0;
    while i < closed.slot_count() {
        drop(closed.take(i));
        i += 1;
    }
    closed.free();
}
