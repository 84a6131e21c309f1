//! Visits that make nothing of their nodes. They come to the order in which they were made.

ghost use Rattle.std.specs.Prelude.{IfOk, IfSome, IsTrue, ◌≤◌, ◌<◌, length};
ghost use Rattle.bp_faults.specs.declared.limits.TheConstants.{MOST_WORKERS};
ghost use Rattle.serial_pass.specs.InEdges.{AreStarts};
ghost use Rattle.serial_pass.specs.Orders.{IsLegal, numbers};
ghost use Rattle.serial_pass.specs.Plans.{IsPlan, HasNoCycle};
ghost use Rattle.pass_ways.specs.Idle.{AnswersIdle, AnswersIdleOrder, IsShownFor};
ghost use Rattle.pass_ways.specs.OrderFiles.{IsRefused, Say};
ghost use Rattle.pass_ways.specs.Ways.{Follows, IsPassWay};

use crate::along::{lines_from, nodes_of, refusal_at};
use crate::deep::deep_order;
use crate::error::WayError;
use crate::idle_run::IdleRun;
use crate::stretches::visit_stretches;
use crate::way::{OrderLines, Way};
use bp_faults::{NodeId, OutOfMemory, Seq};
use bp_ports::Gate;
use pass_core::{OrderError, Plan, check_order, serial_order, starts_of};
use serial_pass::laws::serial_order_is_legal;
use std::alloc::Global;
use std::thread::Threads;

/// Whether a list of nodes is a legal order, by where the in-edges of each node begin.
fn is_legal(
    alloc: Global,
    plan: &Plan,
    starts: &[u32],
    order: &[NodeId],
) -> Result<bool, OutOfMemory>
    requires plan { IsPlan plan.now }
    requires starts { AreStarts plan.now starts.now }
    ensures { IfOk result (λ legal. IsTrue legal → IsLegal plan.now (numbers order.now)) }
{
    match check_order(alloc, plan, starts, order) {
        Ok(()) => Ok(true),
        Err(OrderError::OutOfMemory) => Err(OutOfMemory),
        Err(_) => Ok(false),
    }
}

/// The nodes of some visits.
fn visited(alloc: Global, visits: &[(u32, NodeId)]) -> Result<Vec<NodeId>, OutOfMemory> {
    let mut nodes = Vec::with_capacity(alloc, visits.len())?;
    for (_, n) in visits {
        nodes.push(*n)?;
    }
    Ok(nodes)
}

/// The order of the last visits, as many as the plan has nodes, or that order backwards, where it is legal.
///
/// Most passes go over the graph of the pass before, in the same or the opposite direction.
fn order_again(
    alloc: Global,
    before: &[(u32, NodeId)],
    plan: &Plan,
    starts: &[u32],
) -> Result<Option<Vec<NodeId>>, OutOfMemory>
    requires plan { IsPlan plan.now }
    requires starts { AreStarts plan.now starts.now }
    ensures { IfOk result (λ found. IfSome found (λ order. IsLegal plan.now (numbers order.items))) }
{
    let Some(first) = before.len().checked_sub(plan.count as usize) else {
        return Ok(None);
    };
    let mut order = visited(alloc, &before[first..])?;
    if is_legal(alloc, plan, starts, &order)? {
        return Ok(Some(order));
    }
    order.reverse();
    if is_legal(alloc, plan, starts, &order)? {
        return Ok(Some(order));
    }
    Ok(None)
}

/// A legal order: that of the pass before where it serves, else that of a search in depth. The serial order stands in
/// for one that isn't legal, of which none is known.
fn legal_order(
    alloc: Global,
    before: &[(u32, NodeId)],
    plan: &Plan,
    starts: &[u32],
) -> Result<Vec<NodeId>, OutOfMemory>
    requires plan { IsPlan plan.now }
    requires free { HasNoCycle plan.now.edges }
    requires starts { AreStarts plan.now starts.now }
    ensures { IfOk result (λ order. IsLegal plan.now (numbers order.items)) }
{
    serial_order_is_legal();
    if let Some(order) = order_again(alloc, before, plan, starts)? {
        return Ok(order);
    }
    let order = deep_order(alloc, plan, starts)?;
    if is_legal(alloc, plan, starts, &order)? {
        return Ok(order);
    }
    serial_order(alloc, plan)
}

/// Visits the nodes of a list, each behind the gate: nothing else is done.
fn enter_each<G: Gate>(gate: &G, pass: u32, order: &[NodeId]) {
    for n in order {
        gate.enter(pass, *n);
    }
}

/// Visits the nodes of a plan, each behind the gate: one worker does it on the caller's thread.
fn visit_on_workers<'a, R: Threads + Sync, G: Gate + Sync>(
    rt: &R,
    alloc: Global,
    gate: &'a G,
    workers: u32,
    before: &[(u32, NodeId)],
    pass: u32,
    plan: &Plan,
) -> Result<IdleRun<'a, G>, OutOfMemory>
    requires plan { IsPlan plan.now }
    requires free { HasNoCycle plan.now.edges }
    requires workers { (1 ≤ workers) × (workers ≤ MOST_WORKERS) }
    ensures legal { IfOk result (λ run. IsLegal plan.now (numbers run.order)) }
    ensures shown { IfOk result (λ run. IsShownFor workers plan.now run.order run.receipt) }
{
    let starts = starts_of(alloc, plan)?;
    let order = legal_order(alloc, before, plan, &starts)?;
    if workers == 1 {
        enter_each(gate, pass, &order);
        return Ok(IdleRun {
            order: Seq::new(order),
            receipt: None,
        });
    }
    visit_stretches(rt, alloc, gate, workers, pass, plan, &starts, order)
}

/// The order in which the lines behind the visits before a pass name its nodes.
fn order_along(
    alloc: Global,
    lines: &OrderLines<'_>,
    before: &[(u32, NodeId)],
    pass: u32,
    plan: &Plan,
) -> Result<Seq<NodeId>, WayError>
    requires plan { IsPlan plan.now }
    requires few { length lines.now.lines.now < 4294967295 }
    requires follows { Say lines.now.lines.now before.now }
    ensures { AnswersIdleOrder (Say lines.now.lines.now) (IsRefused lines.now.lines.now lines.now.file)
        plan.now pass before.now result }
{
    let made = before.len();
    let order = nodes_of(alloc, lines_from(lines.lines, made), pass, plan.count)?;
    let starts = starts_of(alloc, plan)?;
    match check_order(alloc, plan, &starts, &order) {
        Ok(()) => Ok(Seq::new(order)),
        Err(OrderError::NotReady(index)) => Err(refusal_at(alloc, lines, made + index as usize)),
        Err(OrderError::Ends(index)) => Err(refusal_at(alloc, lines, made + index as usize)),
        Err(OrderError::At(_, _)) => unreachable!(),
        Err(OrderError::OutOfMemory) => Err(WayError::OutOfMemory),
    }
}

/// Visits each node of a plan after its predecessors, in some way, and makes nothing of the nodes: the order of the
/// visits.
///
/// `before` holds the visits of the passes before this one: where the last of them went over the same graph, its order
/// is taken again, or that order backwards. No way makes a box for a node. Several workers visit stretches of nodes,
/// over a board, whose receipt stands beside the order.
pub fn order_by_way<'a, R: Threads + Sync, G: Gate + Sync>(
    rt: &R,
    alloc: Global,
    way: &Way<'a, G>,
    before: &[(u32, NodeId)],
    pass: u32,
    plan: &Plan,
) -> Result<IdleRun<'a, G>, WayError>
    requires plan { IsPlan plan.now }
    requires free { HasNoCycle plan.now.edges }
    requires way { IsPassWay way.now }
    requires follows { Follows way.now before.now }
    ensures { AnswersIdle way.now plan.now pass before.now result }
{
    match way {
        Way::Workers { workers, gate } => {
            Ok(visit_on_workers(rt, alloc, *gate, *workers, before, pass, plan)?)
        }
        Way::Lines(lines) => Ok(IdleRun {
            order: order_along(alloc, lines, before, pass, plan)?,
            receipt: None,
        }),
    }
}
