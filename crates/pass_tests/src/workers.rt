ghost use Rattle.std.specs.Prelude.{◌≡◌, ◌≤◌, IsTrue, ⊤};
ghost use Rattle.serial_pass.specs.Plans.{IsPlan, HasNoCycle};
ghost use Rattle.pass_tests.specs.Workers.{number_but};

use crate::visits::falls;
use bp_faults::{Fault, FaultKind, NodeId, OutOfMemory, Place, Seq};
use bp_ports::{Gate, OpenGate, PairGate};
use pass_core::{PassError, Plan, PlanEdge, Visit, VisitError};
use std::alloc::Global;
use std::process::Abort;
use std::sync::Arc;
use std::sync::atomic::{AtomicBool, AtomicU32, Ordering};
use std::test::Fail;
use std::thread;
use std::thread::Threads;
use visit_workers::{PassRun, visit_all};

/// A node makes its own number, and two nodes are refused.
#[derive(Drop)]
struct NumberBut {
    one: u32,
    other: u32,
}

impl Visit for NumberBut {
    type Out = u32;

    ghost meaning = { λ v n _. number_but v.one v.other n };

    ghost takes = { λ _ _ _. ⊤ };

    fn visit(&self, alloc: Global, n: NodeId, _ins: &[Arc<u32>]) -> Result<u32, VisitError> {
        if n.0 == self.one || n.0 == self.other {
            let at = Place {
                file: n.0,
                line: 1,
                col: 1,
            };
            return Err(VisitError::Bad(Fault::at(alloc, FaultKind::BadSource, at)));
        }
        Ok(n.0)
    }
}

const ALL: NumberBut = NumberBut {
    one: u32::MAX,
    other: u32::MAX,
};

/// How many turns a gate holds a node, so that a run which never brings both together ends soon. It is one of 64.
pub const TURNS: u32 = 1 << 18;

/// The same where there is one run alone.
const MANY_TURNS: u32 = 1 << 22;

/// Whether the edges stand by target and each leads to a greater node.
pub fn rises(plan: &Plan) -> bool
    ensures plan { IsTrue result → IsPlan plan.now }
    ensures free { IsTrue result → HasNoCycle plan.now.edges }
{
    let mut target = 0;
    for edge in plan.edges.as_slice() {
        if edge.to.0 < target || edge.to.0 <= edge.from.0 || edge.to.0 >= plan.count {
            return false;
        }
        target = edge.to.0;
    }
    plan.edges.as_slice().len() < 1 << 32
}

fn plan(alloc: Global, count: u32, pairs: &[(u32, u32)]) -> Result<Plan, OutOfMemory> {
    let mut edges = Vec::with_capacity(alloc, pairs.len())?;
    for (from, to) in pairs {
        edges.push(PlanEdge {
            from: NodeId(*from),
            to: NodeId(*to),
        })?;
    }
    Ok(Plan {
        count,
        edges: Seq::new(edges),
    })
}

/// Node 0, and a chain of the nodes from 1 on, whose edges lead to greater nodes or to lesser ones.
pub fn one_and_chain(alloc: Global, last: u32, is_rising: bool) -> Result<Plan, OutOfMemory>
    requires { last ≤ 3000 }
{
    let mut edges = Vec::new(alloc);
    for n in 1..last {
        let (from, to) = if is_rising { (n, n + 1) } else { (n + 1, n) };
        edges.push(PlanEdge {
            from: NodeId(from),
            to: NodeId(to),
        })?;
    }
    Ok(Plan {
        count: last + 1,
        edges: Seq::new(edges),
    })
}

/// Runs a pass on two workers until its gate has held the first node while the second entered, 64 times at most.
fn until_met<R: Threads + Sync>(
    rt: &R,
    alloc: Global,
    plan: &Plan,
    first: u32,
    second: u32,
) -> Result<Option<PassRun<NumberBut>>, PassError>
    requires plan { IsPlan plan.now }
    requires free { HasNoCycle plan.now.edges }
{
    for _run in 0..64 {
        let gate = PairGate::new((7, NodeId(first)), (7, NodeId(second)), TURNS);
        let run = visit_all(rt, alloc, 7, plan, &ALL, 2, &gate)?;
        if gate.met() {
            return Ok(Some(run));
        }
    }
    Ok(None)
}

/// How many nodes an order has before node 0.
pub fn before_first(order: &[NodeId]) -> Option<usize> {
    order.iter().position(|n| *n == NodeId(0))
}

/// Whether node 0 is held until the end of a chain has entered, so that the order has the others before it.
fn is_held_over_chain<R: Threads + Sync>(
    rt: &R,
    alloc: Global,
    many: u32,
    is_rising: bool,
) -> Result<bool, PassError>
    requires { many ≤ 3000 }
{
    let chain = one_and_chain(alloc, many, is_rising)?;
    if !rises(&chain) && !falls(&chain) {
        return Ok(false);
    }
    let end = if is_rising { many } else { 1 };
    match until_met(rt, alloc, &chain, 0, end)? {
        Some(run) => {
            let least = (many as usize).saturating_sub(1);
            let is_whole = run.receipt.order().len() == run.order.len();
            Ok(is_whole && before_first(&run.order) >= Some(least))
        }
        None => Ok(false),
    }
}

/// Whether two nodes meet at a gate, on two workers.
fn two_meet<R: Threads + Sync>(rt: &R, alloc: Global) -> Result<bool, PassError> {
    let two = plan(alloc, 2, &[])?;
    if !rises(&two) {
        return Ok(false);
    }
    Ok(until_met(rt, alloc, &two, 0, 1)?.is_some())
}

/// Whether two nodes meet at a gate, on one worker, and how many it visits.
fn one_alone<R: Threads + Sync>(rt: &R, alloc: Global) -> Result<(bool, usize), PassError> {
    let two = plan(alloc, 2, &[])?;
    if !rises(&two) {
        return Ok((true, 0));
    }
    let alone = PairGate::new((7, NodeId(0)), (7, NodeId(1)), 1_000);
    let run = visit_all(rt, alloc, 7, &two, &ALL, 1, &alone)?;
    Ok((alone.met(), run.order.len()))
}

#[test]
fn gates(rt: HostRuntime) -> Result<(), Fail> {
    let alloc = rt.alloc();
    assert!(rt; two_meet(&rt, alloc)?);
    assert_eq!(rt; one_alone(&rt, alloc)?, (false, 2));
    Ok(())
}

/// How many nodes a chain has, and whether its edges rise.
const CHAINS: [(u32, bool); 4] = [(3, true), (1_000, true), (3_000, true), (3_000, false)];

#[test]
fn gates_over_chains(rt: HostRuntime) -> Result<(), Fail> {
    for (many, is_rising) in CHAINS {
        let is_held = many <= 3_000 && is_held_over_chain(&rt, rt.alloc(), many, is_rising)?;
        assert!(rt; is_held, "a chain of {many} with rising edges: {is_rising}");
    }
    Ok(())
}

/// A gate that holds each of some nodes of a pass until all of them are in it, for so many turns at most.
#[derive(Drop)]
pub struct MeetingGate {
    pass: u32,
    first: u32,
    many: u32,
    limit: u32,
    inside: AtomicU32,
    met: AtomicBool,
}

impl MeetingGate {
    /// A gate for so many nodes from a first one on.
    pub fn new(pass: u32, first: u32, many: u32, limit: u32) -> MeetingGate {
        MeetingGate {
            pass,
            first,
            many,
            limit,
            inside: AtomicU32::new(0),
            met: AtomicBool::new(false),
        }
    }

    /// Whether all nodes were in the gate at once.
    pub fn met(&self) -> bool {
        self.met.load(Ordering::SeqCst)
    }

    /// Waits for the others. A node that has waited long enough is in the gate no more.
    fn wait(&self) {
        for _turn in 0..self.limit {
            if self.inside.load(Ordering::SeqCst) >= self.many {
                self.met.store(true, Ordering::SeqCst);
                return;
            }
            thread::yield_now();
        }
        self.inside.fetch_sub(1, Ordering::SeqCst);
    }
}

impl Gate for MeetingGate {
    fn enter(&self, pass: u32, n: NodeId) {
        if pass == self.pass && n.0 >= self.first && n.0 - self.first < self.many {
            self.inside.fetch_add(1, Ordering::SeqCst);
            self.wait();
        }
    }
}

/// How many nodes without edges there are, the first of those that meet, and how many meet, by as many workers.
type Meeting = (u32, u32, u32);

const MEETINGS: [Meeting; 4] = [(2, 0, 2), (1_000, 998, 2), (3, 0, 3), (16, 0, 16)];

/// Whether some nodes meet in a gate.
fn meet<R: Threads + Sync>(rt: &R, alloc: Global, meeting: Meeting) -> Result<bool, PassError> {
    let (count, first, many) = meeting;
    let plan = plan(alloc, count, &[])?;
    if !rises(&plan) || many < 1 || many > 64 {
        return Ok(false);
    }
    let gate = MeetingGate::new(7, first, many, MANY_TURNS);
    visit_all(rt, alloc, 7, &plan, &ALL, many, &gate)?;
    Ok(gate.met())
}

#[test]
fn gates_where_all_meet(rt: HostRuntime) -> Result<(), Fail> {
    for meeting in MEETINGS {
        assert!(rt; meet(&rt, rt.alloc(), meeting)?, "{meeting:?}");
    }
    Ok(())
}

/// The node of the fault of a pass that refuses two nodes.
fn faulty<R: Threads + Sync>(
    rt: &R,
    alloc: Global,
    plan: &Plan,
    refused: (u32, u32),
    workers: u32,
) -> Option<u32>
    requires plan { IsPlan plan.now }
    requires free { HasNoCycle plan.now.edges }
    requires workers { (1 ≤ workers) × (workers ≤ 64) }
{
    let v = NumberBut {
        one: refused.0,
        other: refused.1,
    };
    match visit_all(rt, alloc, 0, plan, &v, workers, &OpenGate) {
        Ok(_) => None,
        Err(PassError::At(n, _)) => Some(n.0),
        Err(PassError::OutOfMemory) => Some(u32::MAX),
    }
}

/// The two nodes that are refused, and the node of the fault.
type Case = ((u32, u32), Option<u32>);

const CASES: [Case; 5] = [
    ((3, 1), Some(1)),
    ((2, 1), Some(1)),
    ((0, 2), Some(0)),
    ((3, 3), Some(3)),
    ((9, 9), None),
];

fn cases() -> &'static [Case] {
    &CASES
}

/// The node of the fault of a pass of four nodes.
fn faulty_node<R: Threads + Sync>(
    rt: &R,
    alloc: Global,
    refused: (u32, u32),
    workers: u32,
) -> Result<Option<u32>, OutOfMemory>
    requires workers { (1 ≤ workers) × (workers ≤ 64) }
{
    let plan = plan(alloc, 4, &[(0, 3), (0, 3), (2, 3)])?;
    if !rises(&plan) {
        return Ok(Some(u32::MAX));
    }
    Ok(faulty(rt, alloc, &plan, refused, workers))
}

fn check_faulty<R: Threads + Sync + Abort>(rt: &R, alloc: Global, workers: u32) -> Result<(), Fail>
    requires workers { (1 ≤ workers) × (workers ≤ 64) }
{
    for (refused, want) in cases() {
        assert_eq!(rt;
            faulty_node(rt, alloc, *refused, workers)?,
            *want,
            "{refused:?} refused"
        );
    }
    Ok(())
}

#[test]
fn two_faults(rt: HostRuntime) -> Result<(), Fail> {
    check_faulty(&rt, rt.alloc(), 1)
}

#[test]
fn two_faults_on_two_workers(rt: HostRuntime) -> Result<(), Fail> {
    check_faulty(&rt, rt.alloc(), 2)
}

#[test]
fn two_faults_on_many_workers(rt: HostRuntime) -> Result<(), Fail> {
    check_faulty(&rt, rt.alloc(), 64)
}

/// How many nodes a pass of so many without edges visits, and whether each makes its own number.
fn visited<R: Threads + Sync>(
    rt: &R,
    alloc: Global,
    count: u32,
    workers: u32,
) -> Result<(usize, bool), PassError> {
    let plan = plan(alloc, count, &[])?;
    if !rises(&plan) || workers < 1 || workers > 64 {
        return Ok((usize::MAX, false));
    }
    let run = visit_all(rt, alloc, 0, &plan, &ALL, workers, &OpenGate)?;
    let mut own = true;
    for (n, out) in run.outs.iter().enumerate() {
        own &= **out as usize == n;
    }
    Ok((run.order.len(), own))
}

fn check_visits<R: Threads + Sync + Abort>(
    rt: &R,
    alloc: Global,
    cases: &[(u32, u32)],
) -> Result<(), Fail> {
    for (count, workers) in cases {
        assert_eq!(rt;
            visited(rt, alloc, *count, *workers)?,
            (*count as usize, true),
            "{count} nodes, {workers} workers"
        );
    }
    Ok(())
}

#[test]
fn few_nodes_and_many_workers(rt: HostRuntime) -> Result<(), Fail> {
    check_visits(&rt, rt.alloc(), &[(0, 1), (0, 64), (1, 64), (5, 3)])
}

#[test]
fn many_nodes_and_two_workers(rt: HostRuntime) -> Result<(), Fail> {
    check_visits(&rt, rt.alloc(), &[(200_000, 2)])
}
