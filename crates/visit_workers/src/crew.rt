ghost use Rattle.std.specs.Prelude.{◌≡◌, ◌<◌, ◌+◌, All, [], ◌++◌, length, IfOk, OnOk};
ghost use Rattle.ready_counters.specs.Seen.{view_of, IsSeatOf};
ghost use Rattle.ready_counters.specs.Views.{whole};
ghost use Rattle.visit_workers.specs.Passes.{IsPass, Works};
ghost use Rattle.visit_workers.specs.Tasks.{IsAtWork, HasWorked};

use crate::made::Made;
use crate::pass::Pass;
use crate::task::Task;
use crate::work::work;
use bp_faults::{NodeId, OutOfMemory};
use bp_ports::Gate;
use crossbeam_deque::Stealer;
use pass_core::Visit;
use ready_counters::Seat;
use std::thread;
use std::thread::Threads;

fn run_task<V: Visit, G: Gate>(pass: &Pass<V, G>, others: &[Stealer<NodeId>], task: &mut Task<V>)
    requires pass { IsPass (V.takes pass.now.visitor.now) pass.now }
    requires seat { IsSeatOf pass.now.board.now task.old.seat }
    requires light { (view_of task.old.seat).weight ≡ 1 }
    requires working { IsAtWork (V.meaning pass.now.visitor.now) pass.now task.old }
    ensures seat { IsSeatOf pass.now.board.now task.new.seat }
    ensures light { (view_of task.new.seat).weight ≡ 1 }
    ensures working { HasWorked (V.meaning pass.now.visitor.now) pass.now task.new }
{
    task.failed = work(
        pass,
        &mut task.seat,
        &mut task.hints,
        others,
        &mut task.made,
        &mut task.lists,
    )
    .is_err();
}

/// All workers, each in a thread of its own.
pub fn run_tasks<R: Threads + Sync, V: Visit<Out: Send + Sync> + Sync, G: Gate + Sync>(
    rt: &R,
    pass: &Pass<V, G>,
    others: &[Stealer<NodeId>],
    tasks: &mut [Task<V>],
)
    requires many { 0 < length tasks.old }
    requires pass { IsPass (V.takes pass.now.visitor.now) pass.now }
    requires seats { All (λ t. IsSeatOf pass.now.board.now t.seat) tasks.old }
    requires light { All (λ t. (view_of t.seat).weight ≡ 1) tasks.old }
    requires working { All (λ t. IsAtWork (V.meaning pass.now.visitor.now) pass.now t) tasks.old }
    ensures many { length tasks.new ≡ length tasks.old }
    ensures seats { All (λ t. IsSeatOf pass.now.board.now t.seat) tasks.new }
    ensures light { All (λ t. (view_of t.seat).weight ≡ 1) tasks.new }
    ensures working { All (λ t. HasWorked (V.meaning pass.now.visitor.now) pass.now t) tasks.new }
{
    let threads = tasks.len();
    thread::for_each_mut(rt, tasks, threads, &|_, task| run_task(pass, others, task));
}

/// Puts what another worker made behind what stands there.
fn append<O: Drop>(made: &mut Vec<Made<O>>, more: Vec<Made<O>>) -> Result<(), OutOfMemory>
    ensures { OnOk result (made.new.items ≡ made.old.items ++ more.items) }
{
    for m in more {
        made.push(m)?;
    }
    Ok(())
}

/// Takes in a worker's seat and what it made.
fn take_in<V: Visit, G: Gate>(
    pass: &Pass<V, G>,
    seat: &mut Seat<V>,
    task: Task<V>,
    made: &mut Vec<Made<V::Out>>,
) -> Result<(), OutOfMemory>
    requires seat { IsSeatOf pass.now.board.now seat.old }
    requires working { Works (V.meaning pass.now.visitor.now) pass.now seat.old made.old.items }
    requires other { IsSeatOf pass.now.board.now task.seat }
    requires other_light { (view_of task.seat).weight ≡ 1 }
    requires other_working { HasWorked (V.meaning pass.now.visitor.now) pass.now task }
    ensures seat { OnOk result (IsSeatOf pass.now.board.now seat.new) }
    ensures weight { OnOk result ((view_of seat.new).weight ≡ (view_of seat.old).weight + 1) }
    ensures working { OnOk result (Works (V.meaning pass.now.visitor.now) pass.now seat.new made.new.items) }
{
    let (theirs, more, failed) = task.into_parts();
    if failed {
        return Err(OutOfMemory);
    }
    pass.board.join(seat, theirs);
    append(made, more)?;
    Ok(())
}

/// Takes in all workers' seats and what they made.
pub fn join_all<V: Visit, G: Gate>(
    pass: &Pass<V, G>,
    seat: &mut Seat<V>,
    tasks: Vec<Task<V>>,
) -> Result<Vec<Made<V::Out>>, OutOfMemory>
    requires seat { IsSeatOf pass.now.board.now seat.old }
    requires weight { (view_of seat.old).weight + length tasks.items ≡ whole }
    requires working { Works (V.meaning pass.now.visitor.now) pass.now seat.old [] }
    requires seats { All (λ t. IsSeatOf pass.now.board.now t.seat) tasks.items }
    requires light { All (λ t. (view_of t.seat).weight ≡ 1) tasks.items }
    requires works { All (λ t. HasWorked (V.meaning pass.now.visitor.now) pass.now t) tasks.items }
    ensures seat { OnOk result (IsSeatOf pass.now.board.now seat.new) }
    ensures weight { OnOk result ((view_of seat.new).weight ≡ whole) }
    ensures working { IfOk result (λ made. Works (V.meaning pass.now.visitor.now) pass.now seat.new made.items) }
{
    let mut made = Vec::with_capacity(pass.alloc, pass.plan.count as usize)?;
    for task in tasks {
        take_in(pass, seat, task, &mut made)?;
    }
    Ok(made)
}
