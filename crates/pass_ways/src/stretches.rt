//! Visits on workers that make nothing: a legal order is cut in stretches, and the workers visit these like nodes, so
//! that what a visit costs beside its gate is paid once for a stretch.

ghost use Rattle.std.specs.Prelude.{◌≡◌, ◌≤◌, ◌<◌, ◌*◌, ℕ, IfOk, OnOk, Ok, ⊤, length, slice_index};
ghost use Rattle.std.specs.List.{AllByRecursion};
ghost use Rattle.bp_faults.specs.declared.ids.NodeId.{NodeId};
ghost use Rattle.bp_faults.specs.declared.limits.TheConstants.{MOST_WORKERS};
ghost use Rattle.serial_pass.specs.declared.plan.PlanEdge.{PlanEdge};
ghost use Rattle.pass_core.specs.CoreStates.{IsMarked};
ghost use Rattle.serial_pass.specs.InEdges.{AreStarts};
ghost use Rattle.serial_pass.specs.Orders.{IsLegal, numbers};
ghost use Rattle.serial_pass.specs.Plans.{IsPlan, HasNoCycle, sources};
ghost use Rattle.pass_ways.specs.Idle.{IsShownFor};
ghost use Rattle.pass_ways.specs.Stretches.{most_in_stretch, stretch, joined_stretches, AddsEdges, IsPlanOfStretches};
ghost use Rattle.pass_ways.specs.Stretches.{KeepsMarks, MarksSources, TellsStretches};

use crate::idle_run::IdleRun;
use bp_faults::{NodeId, OutOfMemory, Seq};
use bp_ports::{Gate, OpenGate};
use pass_core::{PassError, Plan, PlanEdge, Visit, VisitError, edges_into};
use ready_counters::Receipt;
use serial_pass::laws::results_meet_their_equation;
use std::alloc::Global;
use std::sync::Arc;
use std::thread::Threads;
use visit_workers::visit_all;

/// How many nodes a stretch has, and how many stretches there are: at most sixteen for each worker.
fn sizes(count: u32, workers: u32) -> (usize, u32)
    requires { (1 ≤ workers) × (workers ≤ MOST_WORKERS) }
    ensures positive { 0 < result.0 }
    ensures fair { result.0 ≤ most_in_stretch count workers }
    ensures enough { count ≤ result.1 * result.0 }
    ensures few { result.1 ≤ 1024 }
{
    let size = count as usize / (16 * workers as usize) + 1;
    (size, (count as usize).div_ceil(size) as u32)
}

/// The nodes of a stretch.
fn stretch_at(order: &[NodeId], size: usize, k: u32) -> &[NodeId]
    ensures { result.now ≡ stretch size k order.now }
{
    let begin = (k as usize).saturating_mul(size).min(order.len());
    let behind = &order[begin..];
    &behind[..size.min(behind.len())]
}

/// Enters the gate for each node of a stretch, one after another, and makes nothing of them.
pub struct StretchVisit<'a, G> {
    order: Vec<NodeId>,
    size: usize,
    gate: &'a G,
    pass: u32,
}

impl<'a, G> Drop for StretchVisit<'a, G> {
    fn drop(self) {
        let Self {
            order: _order,
            size: _,
            gate: _,
            pass: _,
        } = self;
    }
}

impl<'a, G: Gate> Visit for StretchVisit<'a, G> {
    type Out = ();

    ghost meaning = { λ _ _ _. Ok tt };

    ghost takes = { λ _ _ _. ⊤ };

    fn visit(&self, _alloc: Global, k: NodeId, _ins: &[Arc<()>]) -> Result<(), VisitError> {
        for n in stretch_at(&self.order, self.size, k.0) {
            self.gate.enter(self.pass, *n);
        }
        Ok(())
    }
}

/// In which stretch each node stands.
fn stretch_numbers(
    alloc: Global,
    plan: &Plan,
    order: &[NodeId],
    size: usize,
) -> Result<Vec<u32>, OutOfMemory>
    requires legal { IsLegal plan.now (numbers order.now) }
    requires positive { 0 < size }
    ensures { IfOk result
        (λ table. TellsStretches plan.now.count size (numbers order.now) (length order.now) table.items) }
{
    let mut table = vec![in alloc; 0; plan.count as usize]?;
    for (index, n) in order.iter().enumerate() {
        table[n.0 as usize] = (index / size) as u32;
    }
    Ok(table)
}

/// Marks the stretches from which edges lead.
fn mark_sources(edges: &[PlanEdge], table: &[u32], marks: &mut [bool])
    requires inside { AllByRecursion (λ (e : PlanEdge). e.from.0 < length table.now) edges.now }
    requires below { AllByRecursion (λ (e : PlanEdge). slice_index table.now e.from.0 < length marks.old) edges.now }
    ensures kept { KeepsMarks marks.old marks.new }
    ensures made { AllByRecursion (λ m. IsMarked marks.new (slice_index table.now m)) (sources edges.now) }
{
    for edge in edges {
        marks[table[edge.from.0 as usize] as usize] = true;
    }
}

/// From which stretches edges lead to some nodes.
fn sources_of(
    alloc: Global,
    plan: &Plan,
    starts: &[u32],
    table: &[u32],
    nodes: &[NodeId],
    many: u32,
) -> Result<Vec<bool>, OutOfMemory>
    requires plan { IsPlan plan.now }
    requires starts { AreStarts plan.now starts.now }
    requires nodes { AllByRecursion (λ (n : NodeId). n.0 < plan.now.count) nodes.now }
    requires each { length table.now ≡ plan.now.count }
    requires below { (m : ℕ) → m < plan.now.count → slice_index table.now m < many }
    ensures { IfOk result (λ marks. (length marks.items ≡ many)
        × MarksSources plan.now.edges table.now (numbers nodes.now) marks.items) }
{
    let mut marks = vec![in alloc; false; many as usize]?;
    for n in nodes {
        mark_sources(edges_into(plan, starts, *n), table, &mut marks);
    }
    Ok(marks)
}

/// Adds the edges to a stretch from the marked stretches before it.
fn push_edges(marks: &[bool], to: u32, edges: &mut Vec<PlanEdge>) -> Result<(), OutOfMemory>
    requires inside { to ≤ length marks.now }
    ensures { OnOk result (AddsEdges marks.now to to edges.old.items edges.new.items) }
{
    for from in 0..to {
        if marks[from as usize] {
            edges.push(PlanEdge {
                from: NodeId(from),
                to: NodeId(to),
            })?;
        }
    }
    Ok(())
}

/// The plan of the stretches of a legal order.
fn plan_of_stretches(
    alloc: Global,
    plan: &Plan,
    starts: &[u32],
    order: &[NodeId],
    size: usize,
    many: u32,
) -> Result<Plan, OutOfMemory>
    requires plan { IsPlan plan.now }
    requires starts { AreStarts plan.now starts.now }
    requires legal { IsLegal plan.now (numbers order.now) }
    requires positive { 0 < size }
    requires enough { length order.now ≤ many * size }
    requires few { many ≤ 1024 }
    ensures { IfOk result (IsPlanOfStretches plan.now size (numbers order.now)) }
{
    let table = stretch_numbers(alloc, plan, order, size)?;
    let mut edges = Vec::new(alloc);
    for k in 0..many {
        let nodes = stretch_at(order, size, k);
        let marks = sources_of(alloc, plan, starts, &table, nodes, many)?;
        push_edges(&marks, k, &mut edges)?;
    }
    Ok(Plan {
        count: many,
        edges: Seq::new(edges),
    })
}

/// Workers visit the stretches: the receipt of their board.
fn visit_on_workers<'a, R: Threads + Sync, G: Gate + Sync>(
    rt: &R,
    alloc: Global,
    stretches: &Plan,
    visitor: &StretchVisit<'a, G>,
    workers: u32,
) -> Result<Receipt<StretchVisit<'a, G>>, OutOfMemory>
    requires plan { IsPlan stretches.now }
    requires free { HasNoCycle stretches.now.edges }
    requires workers { (1 ≤ workers) × (workers ≤ MOST_WORKERS) }
    ensures plan { IfOk result (λ receipt. receipt.plan ≡ stretches.now) }
    ensures legal { IfOk result (λ receipt. IsLegal stretches.now (numbers receipt.order)) }
{
    results_meet_their_equation::<()>();
    match visit_all(
        rt,
        alloc,
        visitor.pass,
        stretches,
        visitor,
        workers,
        &OpenGate,
    ) {
        Ok(run) => Ok(run.into_receipt()),
        Err(PassError::At(_, _)) => unreachable!(),
        Err(PassError::OutOfMemory) => Err(OutOfMemory),
    }
}

/// The nodes of stretches, one stretch after another.
fn join_stretches(
    alloc: Global,
    order: &[NodeId],
    size: usize,
    turns: &[NodeId],
) -> Result<Vec<NodeId>, OutOfMemory>
    ensures { IfOk result (λ nodes. nodes.items ≡ joined_stretches size order.now (numbers turns.now)) }
{
    let mut nodes = Vec::with_capacity(alloc, order.len())?;
    for k in turns {
        nodes.extend_from_slice(stretch_at(order, size, k.0))?;
    }
    Ok(nodes)
}

/// Visits the nodes of a plan on workers, by the stretches of a legal order: for each the gate is entered, and nothing
/// else is done. It comes to the order in which the stretches were visited, with the receipt for it.
pub fn visit_stretches<'a, R: Threads + Sync, G: Gate + Sync>(
    rt: &R,
    alloc: Global,
    gate: &'a G,
    workers: u32,
    pass: u32,
    plan: &Plan,
    starts: &[u32],
    order: Vec<NodeId>,
) -> Result<IdleRun<'a, G>, OutOfMemory>
    requires plan { IsPlan plan.now }
    requires starts { AreStarts plan.now starts.now }
    requires workers { (1 ≤ workers) × (workers ≤ MOST_WORKERS) }
    requires legal { IsLegal plan.now (numbers order.items) }
    ensures legal { IfOk result (λ run. IsLegal plan.now (numbers run.order)) }
    ensures shown { IfOk result (λ run. IsShownFor workers plan.now run.order run.receipt) }
{
    let (size, many) = sizes(plan.count, workers);
    let stretches = plan_of_stretches(alloc, plan, starts, &order, size, many)?;
    let visitor = StretchVisit {
        order,
        size,
        gate,
        pass,
    };
    let receipt = visit_on_workers(rt, alloc, &stretches, &visitor, workers)?;
    let nodes = join_stretches(alloc, &visitor.order, size, receipt.order())?;
    Ok(IdleRun {
        order: Seq::new(nodes),
        receipt: Some(receipt),
    })
}
