ghost use Rattle.std.specs.Prelude.{◌≡◌, ◌<◌, ◌≤◌, ℕ, IfOk, OnOk};
ghost use Rattle.bp_faults.specs.declared.limits.TheConstants.{MOST_WORKERS};
ghost use Rattle.serial_pass.specs.Outcomes.{TakesPlan};
ghost use Rattle.serial_pass.specs.Plans.{IsPlan, HasNoCycle};
ghost use Rattle.ready_counters.specs.Seen.{view_of, IsSeatOf};
ghost use Rattle.ready_counters.specs.Views.{whole, times, all_of_it};
ghost use Rattle.visit_workers.specs.Passes.{IsPass, Works};
ghost use Rattle.visit_workers.specs.Runs.{AnswersRun};

use crate::completeness::is_each_made;
use crate::crew::{join_all, run_tasks};
use crate::dealing::{deal, deques, stealers, tasks_of};
use crate::finish::{by_ticket, outcome};
use crate::links::outs_of;
use crate::lists::Lists;
use crate::made::Made;
use crate::pass::Pass;
use crate::work::sweep;
use bp_faults::{NodeId, OutOfMemory};
use bp_ports::Gate;
use crossbeam_deque::Worker;
use pass_core::{PassError, Plan, Visit, serial_order, starts_of};
use ready_counters::{Board, Receipt, Seat};
use serial_pass::laws::serial_order_is_legal;
use std::alloc::Global;
use std::sync::Arc;
use std::thread::Threads;

/// What a pass made, by node number, the order in which it visited the nodes, and the receipt of its board.
pub struct PassRun<V: Visit> {
    pub outs: Vec<Arc<V::Out>>,
    pub order: Vec<NodeId>,
    pub receipt: Receipt<V>,
}

impl<V: Visit> PassRun<V> {
    /// The results and the order. The receipt is given up.
    pub fn into_parts(self) -> (Vec<Arc<V::Out>>, Vec<NodeId>)
        ensures outs { result.0 ≡ self.outs }
        ensures order { result.1 ≡ self.order }
    {
        let Self {
            outs,
            order,
            receipt: _receipt,
        } = self;
        (outs, order)
    }

    /// The receipt. The results and the order beside it are given up.
    pub fn into_receipt(self) -> Receipt<V>
        ensures { result ≡ self.receipt }
    {
        let Self {
            outs: _outs,
            order: _order,
            receipt,
        } = self;
        receipt
    }
}

impl<V: Visit> Drop for PassRun<V> {
    fn drop(self) {
        let Self {
            outs: _outs,
            order: _order,
            receipt: _receipt,
        } = self;
    }
}

/// Lets the workers follow their hints, and takes in what they did.
fn run_crew<R: Threads + Sync, V: Visit<Out: Send + Sync> + Sync, G: Gate + Sync>(
    rt: &R,
    pass: &Pass<V, G>,
    seat: &mut Seat<V>,
    workers: u32,
) -> Result<Vec<Made<V::Out>>, OutOfMemory>
    requires pass { IsPass (V.takes pass.now.visitor.now) pass.now }
    requires workers { (1 ≤ workers) × (workers ≤ MOST_WORKERS) }
    requires seat { IsSeatOf pass.now.board.now seat.old }
    requires first { view_of seat.old ≡ all_of_it }
    ensures seat { OnOk result (IsSeatOf pass.now.board.now seat.new) }
    ensures weight { OnOk result ((view_of seat.new).weight ≡ whole) }
    ensures working { IfOk result (λ made. Works (V.meaning pass.now.visitor.now) pass.now seat.new made.items) }
{
    let mut hints = deques(pass.alloc, workers)?;
    let others = stealers(pass.alloc, &hints)?;
    deal(pass, &mut hints);
    let mut tasks = tasks_of(pass, seat, hints)?;
    run_tasks(rt, pass, &others, &mut tasks);
    join_all(pass, seat, tasks)
}

/// Visits all nodes: the workers as many as they come to, and the caller what is left, if anything is.
fn visit_each<R: Threads + Sync, V: Visit<Out: Send + Sync> + Sync, G: Gate + Sync>(
    rt: &R,
    pass: &Pass<V, G>,
    seat: &mut Seat<V>,
    workers: u32,
) -> Result<Vec<Made<V::Out>>, OutOfMemory>
    requires pass { IsPass (V.takes pass.now.visitor.now) pass.now }
    requires workers { (1 ≤ workers) × (workers ≤ MOST_WORKERS) }
    requires seat { IsSeatOf pass.now.board.now seat.old }
    requires first { view_of seat.old ≡ all_of_it }
    ensures seat { OnOk result (IsSeatOf pass.now.board.now seat.new) }
    ensures weight { OnOk result ((view_of seat.new).weight ≡ whole) }
    ensures working { IfOk result (λ made. Works (V.meaning pass.now.visitor.now) pass.now seat.new made.items) }
    ensures each { OnOk result ((n : ℕ) → n < pass.now.plan.now.count → 1 ≤ times n (view_of seat.new).claimed) }
{
    let mut made = run_crew(rt, pass, seat, workers)?;
    if is_each_made(pass.alloc, pass.plan.count, &made)? {
        return Ok(made);
    }
    serial_order_is_legal();
    let order = serial_order(pass.alloc, pass.plan)?;
    let mut hints = Worker::new_lifo(pass.alloc, 64)?;
    let mut lists = Lists::new(pass.alloc);
    sweep(pass, seat, &order, &mut hints, &mut made, &mut lists)?;
    Ok(made)
}

/// The same nodes.
fn copy_of(alloc: Global, nodes: &[NodeId]) -> Result<Vec<NodeId>, OutOfMemory>
    ensures { IfOk result (λ copy. copy.items ≡ nodes.now) }
{
    let mut copy = Vec::with_capacity(alloc, nodes.len())?;
    for n in nodes {
        copy.push(*n)?;
    }
    Ok(copy)
}

/// Visits each node of a plan after its predecessors, in as many threads as there are workers.
///
/// The results stand by node number. `PassError::At` has the first node in serial order whose result isn't
/// done, whatever the workers met first. The gate is entered before each visit, with the number of the pass.
pub fn visit_all<R: Threads + Sync, V: Visit<Out: Send + Sync> + Sync, G: Gate + Sync>(
    rt: &R,
    alloc: Global,
    pass: u32,
    plan: &Plan,
    v: &V,
    workers: u32,
    gate: &G,
) -> Result<PassRun<V>, PassError>
    requires plan { IsPlan plan.now }
    requires free { HasNoCycle plan.now.edges }
    requires takes { TakesPlan (V.takes v.now) plan.now }
    requires workers { (1 ≤ workers) × (workers ≤ MOST_WORKERS) }
    ensures { AnswersRun (V.meaning v.now) plan.now result }
{
    let starts = starts_of(alloc, plan)?;
    let outs_by_source = outs_of(alloc, plan)?;
    let (board, mut seat) = Board::new(alloc, plan, v)?;
    let under_way = Pass {
        alloc,
        number: pass,
        plan,
        visitor: v,
        gate,
        board: &board,
        starts: &starts,
        outs: &outs_by_source,
    };
    let made = visit_each(rt, &under_way, &mut seat, workers)?;
    let ticketed = by_ticket(alloc, plan.count, &made)?;
    let outs = outcome(&under_way, made)?;
    let order = copy_of(alloc, &ticketed)?;
    let receipt = board.close(seat, plan, ticketed);
    Ok(PassRun {
        outs,
        order,
        receipt,
    })
}
