ghost use Rattle.std.specs.Prelude.{◌≡◌, ◌<◌, ◌≤◌, ◌+◌, All, [], length, IfOk};
ghost use Rattle.bp_faults.specs.declared.limits.TheConstants.{MOST_WORKERS};
ghost use Rattle.ready_counters.specs.Seen.{view_of, IsSeatOf};
ghost use Rattle.ready_counters.specs.Views.{whole, all_of_it};
ghost use Rattle.visit_workers.specs.Passes.{IsPass, Works};
ghost use Rattle.visit_workers.specs.Tasks.{IsAtWork};

use crate::lists::Lists;
use crate::pass::Pass;
use crate::task::Task;
use bp_faults::{NodeId, OutOfMemory};
use bp_ports::Gate;
use crossbeam_deque::{Stealer, Worker};
use pass_core::Visit;
use ready_counters::Seat;
use std::alloc::Global;

/// A deque of hints for each worker.
pub fn deques(alloc: Global, workers: u32) -> Result<Vec<Worker<NodeId>>, OutOfMemory>
    ensures { IfOk result (λ ds. length ds.items ≡ workers) }
{
    let mut deques = Vec::with_capacity(alloc, workers as usize)?;
    for _worker in 0..workers {
        deques.push(Worker::new_lifo(alloc, 64)?)?;
    }
    Ok(deques)
}

/// What steals from each of the deques.
pub fn stealers(
    alloc: Global,
    deques: &[Worker<NodeId>],
) -> Result<Vec<Stealer<NodeId>>, OutOfMemory> {
    let mut stealers = Vec::with_capacity(alloc, deques.len())?;
    for deque in deques {
        stealers.push(deque.stealer()?)?;
    }
    Ok(stealers)
}

/// Deals the nodes without predecessors to the deques, to each a stretch of node numbers. They are pushed from the
/// last on, since a deque gives out first what was pushed last: so a worker visits its stretch in rising order.
///
/// The first stretch goes to the last deque: the caller itself works along that one, and at once, while the threads of
/// the others have still to start.
pub fn deal<V: Visit, G: Gate>(pass: &Pass<V, G>, deques: &mut [Worker<NodeId>])
    requires pass { IsPass (V.takes pass.now.visitor.now) pass.now }
    requires some { 0 < length deques.old }
    requires few { length deques.old ≤ MOST_WORKERS }
    ensures { length deques.new ≡ length deques.old }
{
    let many = deques.len();
    let count = pass.plan.count as usize;
    for n in (0..count).rev() {
        if pass.starts[n] == pass.starts[n + 1] {
            let stretch = n * many / count;
            let _ = deques[many - 1 - stretch].push(NodeId(n as u32));
        }
    }
}

/// A task for each deque, with a seat that is split off.
pub fn tasks_of<V: Visit, G: Gate>(
    pass: &Pass<V, G>,
    seat: &mut Seat<V>,
    deques: Vec<Worker<NodeId>>,
) -> Result<Vec<Task<V>>, OutOfMemory>
    requires seat { IsSeatOf pass.now.board.now seat.old }
    requires first { view_of seat.old ≡ all_of_it }
    requires few { length deques.items ≤ MOST_WORKERS }
    ensures seat { IsSeatOf pass.now.board.now seat.new }
    ensures many { IfOk result (λ tasks. length tasks.items ≡ length deques.items) }
    ensures weight { IfOk result (λ tasks. (view_of seat.new).weight + length tasks.items ≡ whole) }
    ensures working { Works (V.meaning pass.now.visitor.now) pass.now seat.new [] }
    ensures seats { IfOk result (λ tasks. All (λ t. IsSeatOf pass.now.board.now t.seat) tasks.items) }
    ensures light { IfOk result (λ tasks. All (λ t. (view_of t.seat).weight ≡ 1) tasks.items) }
    ensures works { IfOk result (λ tasks. All (λ t. IsAtWork (V.meaning pass.now.visitor.now) pass.now t) tasks.items) }
{
    let mut tasks = Vec::with_capacity(pass.alloc, deques.len())?;
    for hints in deques {
        tasks.push(Task {
            seat: pass.board.split(seat),
            hints,
            made: Vec::new(pass.alloc),
            lists: Lists::new(pass.alloc),
            failed: false,
        })?;
    }
    Ok(tasks)
}
