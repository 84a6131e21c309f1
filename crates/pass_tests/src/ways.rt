ghost use Rattle.std.specs.Prelude.{◌≡◌, ◌≤◌, ◌<◌, length, IfOk, ⊤, []};
ghost use Rattle.serial_pass.specs.Plans.{IsPlan, HasNoCycle};
ghost use Rattle.pass_tests.specs.Ways.{number_unless};
ghost use Rattle.pass_ways.specs.Visits.{visits};
ghost use Rattle.pass_ways.specs.Ways.{Follows, IsPassWay};

use crate::visits::{check_text, falls, fault, large};
use crate::workers::{TURNS, before_first, one_and_chain, rises};
use bp_faults::{Fault, FaultKind, NodeId, OutOfMemory, Place, Seq, Text};
use bp_ports::{Gate, OpenGate, PairGate};
use pass_core::{Plan, PlanEdge, Visit, VisitError};
use pass_ways::laws::{
    legal_orders_are_whole, lines_say_one_order, one_refusal, parts_are_short,
    refused_have_no_order,
};
use pass_ways::{OrderLine, OrderLines, Way, WayError, order_by_way, run_by_way};
use std::alloc::Global;
use std::process::Abort;
use std::sync::Arc;
use std::sync::atomic::{AtomicU32, Ordering};
use std::test::Fail;
use std::thread::Threads;

/// A node makes its own number, and one node is refused.
#[derive(Drop)]
struct NumberUnless {
    refused: u32,
}

impl Visit for NumberUnless {
    type Out = u32;

    ghost meaning = { λ v n _. number_unless v.refused n };

    ghost takes = { λ _ _ _. ⊤ };

    fn visit(&self, alloc: Global, n: NodeId, _ins: &[Arc<u32>]) -> Result<u32, VisitError> {
        if n.0 == self.refused {
            let at = Place::start(n.0);
            return Err(VisitError::Bad(Fault::at(alloc, FaultKind::BadSource, at)));
        }
        Ok(n.0)
    }
}

const NONE: u32 = u32::MAX;

/// Node 0, and node 1 behind it.
fn two_nodes(alloc: Global) -> Result<Plan, OutOfMemory>
    ensures plan { IfOk result IsPlan }
    ensures free { IfOk result (λ plan. HasNoCycle plan.edges) }
{
    let mut edges = Vec::new(alloc);
    edges.push(PlanEdge {
        from: NodeId(0),
        to: NodeId(1),
    })?;
    Ok(Plan {
        count: 2,
        edges: Seq::new(edges),
    })
}

/// Lines that name these passes and nodes.
fn lines_of(alloc: Global, entries: &[(u32, u32)]) -> Result<Vec<OrderLine>, OutOfMemory> {
    let mut lines = Vec::new(alloc);
    for (pass, node) in entries {
        lines.push(OrderLine {
            entry: Some((*pass, NodeId(*node))),
            text: Text::from_str(alloc, "line")?,
        })?;
    }
    Ok(lines)
}

/// The number of the fault and the line of a first pass along lines; 0 where it has results.
fn refused_at<R: Threads + Sync>(
    rt: &R,
    alloc: Global,
    plan: &Plan,
    lines: &[OrderLine],
    refused: u32,
) -> (u32, u32)
    requires plan { IsPlan plan.now }
    requires free { HasNoCycle plan.now.edges }
    requires few { length lines.now < 100 }
{
    let way: Way<'_, OpenGate> = Way::Lines(OrderLines { lines, file: 9 });
    match run_by_way(rt, alloc, &way, &[], 1, plan, &NumberUnless { refused }) {
        Ok(_) => (0, 0),
        Err(WayError::At(n, fault)) => (fault.kind.number(), n.0),
        Err(WayError::Refused(fault)) => (fault.kind.number(), fault.at.line),
        Err(WayError::OutOfMemory) => (NONE, NONE),
    }
}

/// The passes and nodes of lines, the node that is refused, and the number of the fault and its line.
type Case = (&'static [(u32, u32)], u32, (u32, u32));

const CASES: [Case; 9] = [
    (&[(1, 0), (1, 1)], NONE, (0, 0)),
    (&[(1, 0), (1, 1), (1, 1)], NONE, (0, 0)),
    (&[(1, 1), (1, 0)], NONE, (35, 1)),
    (&[(1, 0), (2, 1)], NONE, (35, 2)),
    (&[(1, 0), (1, 0)], NONE, (35, 2)),
    (&[(1, 0)], NONE, (36, 2)),
    (&[], NONE, (36, 1)),
    (&[(1, 0)], 0, (36, 2)),
    (&[(1, 0), (1, 1)], 0, (25, 0)),
];

/// What a first pass of two nodes along fewer than 100 lines comes to.
fn refused_along<R: Threads + Sync>(
    rt: &R,
    alloc: Global,
    entries: &[(u32, u32)],
    refused: u32,
) -> Result<(u32, u32), OutOfMemory> {
    let plan = two_nodes(alloc)?;
    let lines = lines_of(alloc, entries)?;
    if lines.len() >= 100 {
        return Ok((NONE, NONE));
    }
    Ok(refused_at(rt, alloc, &plan, &lines, refused))
}

fn check_cases<R: Threads + Sync + Abort>(
    rt: &R,
    alloc: Global,
    cases: &[Case],
) -> Result<(), Fail> {
    for (entries, refused, want) in cases {
        assert_eq!(rt;
            refused_along(rt, alloc, entries, *refused)?,
            *want,
            "{entries:?}, {refused} refused"
        );
    }
    Ok(())
}

#[test]
fn lines_of_a_pass(rt: HostRuntime) -> Result<(), Fail> {
    check_cases(&rt, rt.alloc(), &CASES)
}

/// The visits of a pass in an order.
fn visits_of(alloc: Global, pass: u32, order: &[NodeId]) -> Result<Vec<(u32, NodeId)>, OutOfMemory>
    ensures { IfOk result (λ made. made.items ≡ visits pass order.now) }
{
    let mut made = Vec::with_capacity(alloc, order.len())?;
    for n in order {
        made.push((pass, *n))?;
    }
    Ok(made)
}

/// A gate that counts how often it is entered in a first pass and in a second.
#[derive(Drop)]
struct CountingGate {
    first: AtomicU32,
    second: AtomicU32,
}

impl CountingGate {
    fn new() -> CountingGate {
        CountingGate {
            first: AtomicU32::new(0),
            second: AtomicU32::new(0),
        }
    }

    fn entered(&self) -> (u32, u32) {
        let first = self.first.load(Ordering::SeqCst);
        (first, self.second.load(Ordering::SeqCst))
    }
}

impl Gate for CountingGate {
    fn enter(&self, pass: u32, _n: NodeId) {
        if pass == 1 {
            self.first.fetch_add(1, Ordering::SeqCst);
        }
        if pass == 2 {
            self.second.fetch_add(1, Ordering::SeqCst);
        }
    }
}

/// Two passes one after the other, in some way.
fn two_passes<R: Threads + Sync, G: Gate + Sync>(
    rt: &R,
    alloc: Global,
    plan: &Plan,
    way: &Way<'_, G>,
) -> Result<(usize, usize), WayError>
    requires plan { IsPlan plan.now }
    requires free { HasNoCycle plan.now.edges }
    requires way { IsPassWay way.now }
    requires begins { Follows way.now [] }
{
    let v = NumberUnless { refused: NONE };
    let first = run_by_way(rt, alloc, way, &[], 1, plan, &v)?;
    let before = visits_of(alloc, 1, first.order.as_slice())?;
    let second = run_by_way(rt, alloc, way, &before, 2, plan, &v)?;
    Ok((first.outs.len(), second.order.as_slice().len()))
}

/// How many nodes two passes visit, and how often each enters the gate.
type Visited = ((usize, usize), (u32, u32));

/// Two passes of two nodes on workers.
fn two_on_workers<R: Threads + Sync>(
    rt: &R,
    alloc: Global,
    workers: u32,
) -> Result<Visited, WayError>
    requires { (1 ≤ workers) × (workers ≤ 64) }
{
    let plan = two_nodes(alloc)?;
    let gate = CountingGate::new();
    let way = Way::Workers {
        workers,
        gate: &gate,
    };
    let visited = two_passes(rt, alloc, &plan, &way)?;
    Ok((visited, gate.entered()))
}

/// Two passes of two nodes along fewer than 100 lines.
fn two_along<R: Threads + Sync>(
    rt: &R,
    alloc: Global,
    entries: &[(u32, u32)],
) -> Result<(usize, usize), WayError> {
    let plan = two_nodes(alloc)?;
    let lines = lines_of(alloc, entries)?;
    if lines.len() >= 100 {
        return Err(WayError::OutOfMemory);
    }
    let way: Way<'_, OpenGate> = Way::Lines(OrderLines {
        lines: &lines,
        file: 9,
    });
    two_passes(rt, alloc, &plan, &way)
}

/// Node 0 behind node 3, and node 4 behind node 2.
fn both_ways(alloc: Global) -> Result<Plan, OutOfMemory>
    ensures plan { IfOk result IsPlan }
    ensures free { IfOk result (λ plan. HasNoCycle plan.edges) }
{
    let falling = PlanEdge {
        from: NodeId(3),
        to: NodeId(0),
    };
    let rising = PlanEdge {
        from: NodeId(2),
        to: NodeId(4),
    };
    Ok(Plan {
        count: 5,
        edges: Seq::new(Vec::from_array(alloc, [falling, rising])?),
    })
}

/// The order in which one worker visits five nodes, a digit for each.
fn order_alone<R: Threads + Sync>(rt: &R, alloc: Global) -> Result<u64, WayError> {
    let plan = both_ways(alloc)?;
    let way = Way::Workers {
        workers: 1,
        gate: &OpenGate,
    };
    let run = run_by_way(
        rt,
        alloc,
        &way,
        &[],
        1,
        &plan,
        &NumberUnless { refused: NONE },
    )?;
    let mut shown = 0u64;
    for n in run.order.as_slice() {
        shown = shown.wrapping_mul(10).wrapping_add(u64::from(n.0));
    }
    Ok(shown)
}

/// Each of 120 nodes behind one of 120 others.
fn pairs(alloc: Global) -> Result<Plan, OutOfMemory> {
    let mut edges = Vec::new(alloc);
    for n in 0..120 {
        edges.push(PlanEdge {
            from: NodeId(n + 120),
            to: NodeId(n),
        })?;
    }
    Ok(Plan {
        count: 240,
        edges: Seq::new(edges),
    })
}

/// Whether an order has 240 nodes from the greatest to the least.
fn is_falling(order: &[NodeId]) -> bool {
    for (index, n) in order.iter().rev().enumerate() {
        if n.0 as usize != index {
            return false;
        }
    }
    order.len() == 240
}

/// Whether one worker begins at the greatest node, where all edges lead to lesser ones.
fn pairs_alone<R: Threads + Sync>(rt: &R, alloc: Global) -> Result<bool, WayError> {
    let plan = pairs(alloc)?;
    if !falls(&plan) {
        return Ok(false);
    }
    let way = Way::Workers {
        workers: 1,
        gate: &OpenGate,
    };
    let v = NumberUnless { refused: NONE };
    let run = run_by_way(rt, alloc, &way, &[], 1, &plan, &v)?;
    Ok(is_falling(run.order.as_slice()))
}

/// One worker visits a node as soon as its predecessors are visited, and these as late as may be.
#[test]
fn one_worker_in_depth(rt: HostRuntime) -> Result<(), Fail> {
    assert_eq!(rt; order_alone(&rt, rt.alloc())?, 30124);
    assert!(rt; pairs_alone(&rt, rt.alloc())?);
    Ok(())
}

/// The order of a pass on two workers, which makes numbers or nothing.
fn order_behind<R: Threads + Sync, G: Gate + Sync>(
    rt: &R,
    alloc: Global,
    gate: &G,
    pass: u32,
    plan: &Plan,
    is_idle: bool,
) -> Result<Seq<NodeId>, WayError>
    requires plan { IsPlan plan.now }
    requires free { HasNoCycle plan.now.edges }
{
    let way = Way::Workers { workers: 2, gate };
    if is_idle {
        return Ok(order_by_way(rt, alloc, &way, &[], pass, plan)?.into_order());
    }
    let v = NumberUnless { refused: NONE };
    Ok(run_by_way(rt, alloc, &way, &[], pass, plan, &v)?.order)
}

/// Whether a pass holds node 0 until the end of a chain of three has entered, and its order has the others before it.
fn is_held_by_way<R: Threads + Sync>(
    rt: &R,
    alloc: Global,
    pass: u32,
    is_idle: bool,
) -> Result<bool, WayError> {
    let chain = one_and_chain(alloc, 3, true)?;
    if !rises(&chain) {
        return Ok(false);
    }
    for _run in 0..64 {
        let gate = PairGate::new((pass, NodeId(0)), (pass, NodeId(3)), TURNS);
        let order = order_behind(rt, alloc, &gate, pass, &chain, is_idle)?;
        if gate.met() {
            return Ok(before_first(order.as_slice()) >= Some(2));
        }
    }
    Ok(false)
}

fn check_held<R: Threads + Sync + Abort>(rt: &R, alloc: Global, is_idle: bool) -> Result<(), Fail> {
    for pass in 1..14 {
        assert!(rt; is_held_by_way(rt, alloc, pass, is_idle)?, "pass {pass}");
    }
    Ok(())
}

#[test]
fn gates_of_ways(rt: HostRuntime) -> Result<(), Fail> {
    check_held(&rt, rt.alloc(), false)
}

#[test]
fn gates_of_idle_ways(rt: HostRuntime) -> Result<(), Fail> {
    check_held(&rt, rt.alloc(), true)
}

/// Two passes of a plan on workers that make nothing.
fn nothing_on_workers<R: Threads + Sync>(
    rt: &R,
    alloc: Global,
    plan: &Plan,
    workers: u32,
) -> Result<Visited, WayError>
    requires plan { IsPlan plan.now }
    requires free { HasNoCycle plan.now.edges }
    requires workers { (1 ≤ workers) × (workers ≤ 64) }
{
    let gate = CountingGate::new();
    let way = Way::Workers {
        workers,
        gate: &gate,
    };
    let first = order_by_way(rt, alloc, &way, &[], 1, plan)?.into_order();
    let before = visits_of(alloc, 1, first.as_slice())?;
    let second = order_by_way(rt, alloc, &way, &before, 2, plan)?.into_order();
    let visited = (first.as_slice().len(), second.as_slice().len());
    Ok((visited, gate.entered()))
}

/// The same of five nodes, which stand in stretches of one node.
fn nothing_of_five<R: Threads + Sync>(
    rt: &R,
    alloc: Global,
    workers: u32,
) -> Result<Visited, WayError>
    requires { (1 ≤ workers) × (workers ≤ 64) }
{
    let plan = both_ways(alloc)?;
    nothing_on_workers(rt, alloc, &plan, workers)
}

/// The same of 240 nodes, of which 100 are a chain: more than there are stretches.
fn nothing_of_many<R: Threads + Sync>(
    rt: &R,
    alloc: Global,
    workers: u32,
) -> Result<Visited, WayError>
    requires { (1 ≤ workers) × (workers ≤ 64) }
{
    let plan = large(alloc, 100, 70, 70)?;
    if !falls(&plan) {
        return Ok(((0, 0), (0, 0)));
    }
    nothing_on_workers(rt, alloc, &plan, workers)
}

#[test]
fn nothing_of_five_nodes(rt: HostRuntime) -> Result<(), Fail> {
    assert_eq!(rt; nothing_of_five(&rt, rt.alloc(), 1)?, ((5, 5), (5, 5)));
    assert_eq!(rt; nothing_of_five(&rt, rt.alloc(), 2)?, ((5, 5), (5, 5)));
    Ok(())
}

#[test]
fn nothing_of_many_nodes(rt: HostRuntime) -> Result<(), Fail> {
    assert_eq!(rt;
        nothing_of_many(&rt, rt.alloc(), 1)?,
        ((240, 240), (240, 240))
    );
    assert_eq!(rt;
        nothing_of_many(&rt, rt.alloc(), 4)?,
        ((240, 240), (240, 240))
    );
    Ok(())
}

#[test]
fn two_passes_on_workers(rt: HostRuntime) -> Result<(), Fail> {
    assert_eq!(rt; two_on_workers(&rt, rt.alloc(), 1)?, ((2, 2), (2, 2)));
    assert_eq!(rt; two_on_workers(&rt, rt.alloc(), 2)?, ((2, 2), (2, 2)));
    Ok(())
}

#[test]
fn two_passes_along_lines(rt: HostRuntime) -> Result<(), Fail> {
    let entries = [(1, 0), (1, 1), (2, 0), (2, 1)];
    assert_eq!(rt; two_along(&rt, rt.alloc(), &entries)?, (2, 2));
    Ok(())
}

/// What each error of a pass in some way says of itself.
fn way_texts(alloc: Global) -> Result<String, OutOfMemory> {
    let node = WayError::At(NodeId(0), fault(alloc));
    let refused = WayError::Refused(fault(alloc));
    let memory = WayError::OutOfMemory;
    Ok(format!(in alloc; "{node}; {refused}; {memory}")?)
}

#[test]
fn texts_of_way_errors(rt: HostRuntime) -> Result<(), Fail> {
    let want = "a node has a fault; the pass is refused; out of memory";
    check_text(&rt, way_texts(rt.alloc()), want)
}

#[test]
fn laws_of_ways_can_be_called() {
    parts_are_short();
    legal_orders_are_whole();
    lines_say_one_order();
    refused_have_no_order();
    one_refusal();
}
