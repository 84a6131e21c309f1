ghost use Rattle.std.specs.Prelude.{◌≡◌, IsTrue, IfOk, IfSome, Ok, ⊤};
ghost use Rattle.pass_tests.specs.Visits.{counted_but};
ghost use Rattle.serial_pass.specs.Plans.{IsPlan, HasNoCycle};

use bp_faults::{Fault, FaultKind, NodeId, OutOfMemory, Place, Seq};
use pass_core::{
    Core, OrderError, PassError, Plan, PlanEdge, Published, Step, StepError, Visit, VisitError,
    edges_into, heights, laws, run_order, run_pass, serial_order, starts_of,
};
use serial_pass::{in_degrees, laws as serial_laws};
use std::alloc::Global;
use std::cell::Cell;
use std::process::Abort;
use std::sync::Arc;
use std::test::Fail;

/// Counts the predecessors, and refuses two nodes.
#[derive(Drop)]
struct CountBut {
    one: u32,
    other: u32,
}

impl Visit for CountBut {
    type Out = usize;

    ghost meaning = { λ v n ins. counted_but v.one v.other n ins };

    ghost takes = { λ _ _ _. ⊤ };

    fn visit(&self, alloc: Global, n: NodeId, ins: &[Arc<usize>]) -> Result<usize, VisitError> {
        if n.0 == self.one || n.0 == self.other {
            let at = Place {
                file: n.0,
                line: 1,
                col: 1,
            };
            return Err(VisitError::Bad(Fault::at(alloc, FaultKind::BadSource, at)));
        }
        Ok(ins.len())
    }
}

/// Whether the edges stand by target and each leads to a lesser node.
pub fn falls(plan: &Plan) -> bool
    ensures plan { IsTrue result → IsPlan plan.now }
    ensures free { IsTrue result → HasNoCycle plan.now.edges }
{
    let mut target = 0;
    for edge in plan.edges.as_slice() {
        if edge.to.0 < target || edge.from.0 <= edge.to.0 || edge.from.0 >= plan.count {
            return false;
        }
        target = edge.to.0;
    }
    plan.edges.as_slice().len() < 1 << 32
}

fn plan(alloc: Global, count: u32, pairs: &[(u32, u32)]) -> Result<Plan, OutOfMemory> {
    let mut edges = Vec::new(alloc);
    for (from, to) in pairs {
        edges.push(PlanEdge {
            from: NodeId(*from),
            to: NodeId(*to),
        })?;
    }
    Ok(Plan {
        count,
        edges: Seq::new(edges),
    })
}

/// A chain of many nodes, each after the next, beside a layer in which each of many nodes stands after many.
pub fn large(alloc: Global, chain: u32, wide: u32, deep: u32) -> Result<Plan, OutOfMemory> {
    let middle = chain.saturating_add(wide);
    let count = middle.saturating_add(deep);
    let mut edges = Vec::new(alloc);
    for n in 1..chain {
        edges.push(PlanEdge {
            from: NodeId(n),
            to: NodeId(n - 1),
        })?;
    }
    for n in chain..middle {
        for k in middle..count {
            edges.push(PlanEdge {
                from: NodeId(k),
                to: NodeId(n),
            })?;
        }
    }
    Ok(Plan {
        count,
        edges: Seq::new(edges),
    })
}

fn nodes(alloc: Global, numbers: &[u32]) -> Result<Vec<NodeId>, OutOfMemory> {
    let mut nodes = Vec::new(alloc);
    for n in numbers {
        nodes.push(NodeId(*n))?;
    }
    Ok(nodes)
}

/// What a run along a list of nodes comes to, in a word and a number.
fn along(alloc: Global, plan: &Plan, refused: CountBut, order: &[NodeId]) -> (&'static str, u32)
    requires plan { IsPlan plan.now }
    requires free { HasNoCycle plan.now.edges }
{
    match run_order(alloc, plan, &refused, order) {
        Ok(_) => ("results", 0),
        Err(OrderError::NotReady(index)) => ("not ready", index),
        Err(OrderError::Ends(many)) => ("ends", many),
        Err(OrderError::At(n, _)) => ("fault", n.0),
        Err(OrderError::OutOfMemory) => ("memory", 0),
    }
}

const NONE: u32 = 9;

const DIAMOND: &[(u32, u32)] = &[(1, 0), (2, 0), (3, 1), (3, 2)];

const TWICE: &[(u32, u32)] = &[(1, 0), (1, 0), (3, 0)];

/// Nodes: their edges, the two that are refused, the order, and what comes of it.
type Run = (
    &'static [(u32, u32)],
    u32,
    u32,
    &'static [u32],
    (&'static str, u32),
);

const RUNS: [Run; 14] = [
    (DIAMOND, NONE, NONE, &[3, 1, 2, 0], ("results", 0)),
    (DIAMOND, NONE, NONE, &[3, 2, 1, 0], ("results", 0)),
    (DIAMOND, NONE, NONE, &[0], ("not ready", 0)),
    (DIAMOND, NONE, NONE, &[3, 1, 3, 2, 0], ("not ready", 2)),
    (DIAMOND, NONE, NONE, &[3, 4], ("not ready", 1)),
    (DIAMOND, NONE, NONE, &[3, 1, 2, 0, 0], ("not ready", 4)),
    (DIAMOND, NONE, NONE, &[3, 1], ("ends", 2)),
    (DIAMOND, NONE, NONE, &[], ("ends", 0)),
    (DIAMOND, 2, NONE, &[3, 2, 1, 0], ("fault", 2)),
    (DIAMOND, 2, NONE, &[3, 2], ("ends", 2)),
    (TWICE, 0, 2, &[3, 2, 1, 0], ("fault", 2)),
    (TWICE, 0, 0, &[3, 2, 1, 0], ("fault", 0)),
    (TWICE, 3, 1, &[3, 2, 1, 0], ("fault", 1)),
    (TWICE, NONE, NONE, &[3, 2, 1, 0], ("results", 0)),
];

/// What a run along an order comes to, over so many nodes with such edges.
fn run_of(
    alloc: Global,
    count: u32,
    edges: &[(u32, u32)],
    refused: CountBut,
    order: &[u32],
) -> Result<(&'static str, u32), OutOfMemory> {
    let plan = plan(alloc, count, edges)?;
    if !falls(&plan) {
        return Ok(("no plan", 0));
    }
    Ok(along(alloc, &plan, refused, &nodes(alloc, order)?))
}

fn check_runs(rt: &impl Abort, alloc: Global, count: u32, runs: &[Run]) -> Result<(), Fail> {
    for (edges, one, other, order, want) in runs {
        let refused = CountBut {
            one: *one,
            other: *other,
        };
        assert_eq!(rt;
            run_of(alloc, count, edges, refused, order)?,
            *want,
            "{edges:?} along {order:?}, {one} and {other} refused"
        );
    }
    Ok(())
}

#[test]
fn runs_along_orders(rt: HostRuntime) -> Result<(), Fail> {
    check_runs(&rt, rt.alloc(), 4, &RUNS)
}

/// How many results a pass makes that refuses no node.
fn counted(alloc: Global, plan: &Plan) -> Result<usize, VisitError>
    requires plan { IsPlan plan.now }
    requires free { HasNoCycle plan.now.edges }
{
    let none = CountBut {
        one: u32::MAX,
        other: u32::MAX,
    };
    Ok(run_pass(alloc, plan, &none)?.len())
}

const REFUSED: CountBut = CountBut {
    one: NONE,
    other: NONE,
};

const NO_NODES: [Run; 2] = [
    (&[], NONE, NONE, &[], ("results", 0)),
    (&[], NONE, NONE, &[0], ("not ready", 0)),
];

#[test]
fn orders_of_no_nodes(rt: HostRuntime) -> Result<(), Fail> {
    check_runs(&rt, rt.alloc(), 0, &NO_NODES)
}

#[test]
fn large_and_empty_plans(rt: HostRuntime) -> Result<(), Fail> {
    let alloc = rt.alloc();
    for (chain, wide, deep) in [(100_000, 1_000, 200), (0, 0, 0)] {
        let plan = large(alloc, chain, wide, deep)?;
        assert!(rt; falls(&plan), "a chain of {chain}");
        assert_eq!(rt;
            counted(alloc, &plan)?,
            plan.count as usize,
            "a chain of {chain}"
        );
    }
    Ok(())
}

/// The diamond's plan.
fn diamond(alloc: Global) -> Result<Option<Plan>, OutOfMemory>
    ensures plan { IfOk result (λ o. IfSome o IsPlan) }
    ensures free { IfOk result (λ o. IfSome o (λ plan. HasNoCycle plan.edges)) }
    ensures many { IfOk result (λ o. IfSome o (λ plan. plan.count ≡ 4)) }
{
    let plan = plan(alloc, 4, DIAMOND)?;
    if !falls(&plan) || plan.count != 4 {
        return Ok(None);
    }
    Ok(Some(plan))
}

/// How many edges lead to the diamond's first node.
fn edges_into_first(alloc: Global) -> Result<usize, OutOfMemory> {
    let Some(plan) = diamond(alloc)? else {
        return Ok(0);
    };
    let starts = starts_of(alloc, &plan)?;
    Ok(edges_into(&plan, &starts, NodeId(0)).len())
}

fn diamond_in_degrees(alloc: Global) -> Result<Vec<u32>, OutOfMemory> {
    let Some(plan) = diamond(alloc)? else {
        return Ok(Vec::new(alloc));
    };
    let starts = starts_of(alloc, &plan)?;
    in_degrees(alloc, &plan, &starts)
}

fn diamond_heights(alloc: Global) -> Result<Vec<u32>, OutOfMemory> {
    match diamond(alloc)? {
        Some(plan) => heights(alloc, &plan),
        None => Ok(Vec::new(alloc)),
    }
}

fn diamond_order(alloc: Global) -> Result<Vec<NodeId>, OutOfMemory> {
    match diamond(alloc)? {
        Some(plan) => serial_order(alloc, &plan),
        None => Ok(Vec::new(alloc)),
    }
}

const ORDER: [NodeId; 4] = [NodeId(3), NodeId(1), NodeId(2), NodeId(0)];

#[test]
fn edges_and_heights_of_the_diamond(rt: HostRuntime) -> Result<(), Fail> {
    let alloc = rt.alloc();
    assert_eq!(rt; edges_into_first(alloc)?, 2);
    assert!(rt; diamond_in_degrees(alloc)?.as_slice() == [2, 1, 1, 0].as_slice());
    assert!(rt; diamond_heights(alloc)?.as_slice() == [2, 1, 1, 0].as_slice());
    Ok(())
}

#[test]
fn order_of_the_diamond(rt: HostRuntime) -> Result<(), Fail> {
    assert!(rt; diamond_order(rt.alloc())?.as_slice() == ORDER.as_slice());
    Ok(())
}

/// Counts its visits.
#[derive(Drop)]
struct CountVisits {
    visits: Cell<u32>,
}

impl Visit for CountVisits {
    type Out = u32;

    ghost meaning = { λ _ n _. Ok n };

    ghost takes = { λ _ _ _. ⊤ };

    fn visit(&self, _alloc: Global, n: NodeId, _ins: &[Arc<u32>]) -> Result<u32, VisitError> {
        self.visits.set(self.visits.get().wrapping_add(1));
        Ok(n.0)
    }
}

/// How many visits a run along an order of the diamond makes.
fn visits_along(alloc: Global, order: &[NodeId]) -> Result<u32, OrderError> {
    let counted = CountVisits {
        visits: Cell::new(0),
    };
    if let Some(plan) = diamond(alloc)? {
        run_order(alloc, &plan, &counted, order)?;
    }
    Ok(counted.visits.get())
}

#[test]
fn an_order_visits_each_node_once(rt: HostRuntime) -> Result<(), Fail> {
    assert_eq!(rt; visits_along(rt.alloc(), &ORDER)?, 4);
    Ok(())
}

#[test]
fn laws_of_passes_can_be_called() {
    serial_laws::in_edges_are_together();
    serial_laws::edge_numbers_are_together();
    serial_laws::starts_of_edges_rise();
    serial_laws::indices_tell_targets();
    serial_laws::predecessors_are_nodes();
    serial_laws::predecessors_are_less();
    serial_laws::predecessors_come_before();
    serial_laws::heights_meet_their_equation();
    serial_laws::heights_are_below_the_count();
    serial_laws::recursion_meets_its_equation::<u32>();
    serial_laws::one_serial_order();
    serial_laws::serial_order_is_legal();
    serial_laws::earlier_nodes_stand_earlier();
    serial_laws::results_meet_their_equation::<u32>();
    serial_laws::one_solution::<u32>();
    serial_laws::first_undone_is_bad::<u32>();
    serial_laws::one_outcome::<u32>();
    serial_laws::at_most_one_outcome::<u32>();
    serial_laws::pass_gathers::<u32>();
    serial_laws::outs_are_many::<u32>();
    serial_laws::outs_meet_their_equation::<u32>();
    laws::filled_edges_hold_results::<u32>();
    laws::no_step_twice::<u32>();
    laws::claimed_after_in_edges::<u32>();
    laws::steps_are_entries::<u32>();
    laws::finished_by_count::<u32>();
    laws::never_stuck::<u32>();
    laws::finished_has_results::<u32>();
    laws::legal_orders_agree::<u32>();
    laws::one_order_outcome::<u32>();
}

/// A fault at a place.
pub fn fault(alloc: Global) -> Fault {
    let at = Place {
        file: 1,
        line: 1,
        col: 1,
    };
    Fault::at(alloc, FaultKind::BadSource, at)
}

/// What each error of a pass says of itself.
fn pass_texts(alloc: Global) -> Result<String, OutOfMemory> {
    let node = PassError::At(NodeId(0), fault(alloc));
    let memory = PassError::OutOfMemory;
    Ok(format!(in alloc; "{node}; {memory}")?)
}

/// What the errors of an order's entries say of themselves.
fn entry_texts(alloc: Global) -> Result<String, OutOfMemory> {
    let (early, late) = (OrderError::NotReady(0), OrderError::Ends(0));
    Ok(format!(in alloc; "{early}; {late}")?)
}

/// What the other errors of an order say of themselves.
fn order_texts(alloc: Global) -> Result<String, OutOfMemory> {
    let node = OrderError::At(NodeId(0), fault(alloc));
    let memory = OrderError::OutOfMemory;
    Ok(format!(in alloc; "{node}; {memory}")?)
}

/// What each error of a step says of itself.
fn step_texts(alloc: Global) -> Result<String, OutOfMemory> {
    let step = StepError::NotAllowed(Step::Fill(0));
    let memory = StepError::OutOfMemory;
    Ok(format!(in alloc; "{step}; {memory}")?)
}

/// A text is what is wanted.
pub fn check_text(
    rt: &impl Abort,
    text: Result<String, OutOfMemory>,
    want: &str,
) -> Result<(), Fail> {
    assert_eq!(rt; text?.as_str(), want);
    Ok(())
}

#[test]
fn texts_of_pass_errors(rt: HostRuntime) -> Result<(), Fail> {
    check_text(
        &rt,
        pass_texts(rt.alloc()),
        "a node has a fault; out of memory",
    )
}

#[test]
fn texts_of_entry_errors(rt: HostRuntime) -> Result<(), Fail> {
    let want = "an entry isn't ready; the order ends early";
    check_text(&rt, entry_texts(rt.alloc()), want)
}

#[test]
fn texts_of_order_errors(rt: HostRuntime) -> Result<(), Fail> {
    check_text(
        &rt,
        order_texts(rt.alloc()),
        "a node has a fault; out of memory",
    )
}

#[test]
fn texts_of_step_errors(rt: HostRuntime) -> Result<(), Fail> {
    check_text(
        &rt,
        step_texts(rt.alloc()),
        "the step isn't allowed; out of memory",
    )
}

/// Two nodes, with two edges from node 0 to node 1.
fn two_edges(alloc: Global) -> Result<Plan, OutOfMemory>
    ensures plan { IfOk result IsPlan }
    ensures free { IfOk result (λ plan. HasNoCycle plan.edges) }
{
    let edge = PlanEdge {
        from: NodeId(0),
        to: NodeId(1),
    };
    Ok(Plan {
        count: 2,
        edges: Seq::new(Vec::from_array(alloc, [edge; 2])?),
    })
}

/// The steps of a pass over these, and whether each is allowed when its turn comes.
const STEPS: [(Step, bool); 13] = [
    (Step::Claim(NodeId(1)), false),
    (Step::Claim(NodeId(0)), true),
    (Step::Fill(0), true),
    (Step::Subtract(0), true),
    (Step::Claim(NodeId(1)), false),
    (Step::Subtract(0), false),
    (Step::Fill(0), false),
    (Step::Fetch(0), false),
    (Step::Fill(1), true),
    (Step::Subtract(1), true),
    (Step::Claim(NodeId(1)), true),
    (Step::Fetch(1), true),
    (Step::Fetch(0), true),
];

/// Whether a step is taken, and not refused.
fn takes(alloc: Global, core: &mut Core<CountBut>, s: Step) -> bool {
    match core.step(alloc, s) {
        Ok(()) => true,
        Err(StepError::NotAllowed(_)) => false,
        Err(StepError::OutOfMemory) => false,
    }
}

fn steps() -> &'static [(Step, bool)] {
    &STEPS
}

/// Tries each step: whether the core was finished before none, and took those that are allowed and no others.
fn takes_allowed(alloc: Global, core: &mut Core<CountBut>) -> bool {
    let mut same = true;
    for (s, allowed) in steps() {
        let finished = core.finished();
        let taken = takes(alloc, core, *s);
        same &= !finished && taken == *allowed;
    }
    same
}

/// The results of a core that is finished; the greatest number for none.
fn results(alloc: Global, core: Core<CountBut>) -> Result<Vec<usize>, OutOfMemory> {
    let mut results = Vec::new(alloc);
    if !core.finished() {
        return Ok(results);
    }
    for out in &core.into_outs(alloc)? {
        results.push(match out {
            Published::Done(count) => **count,
            _ => usize::MAX,
        })?;
    }
    Ok(results)
}

#[test]
fn core_and_board(rt: HostRuntime) -> Result<(), Fail> {
    let alloc = rt.alloc();
    let mut core = Core::new(alloc, two_edges(alloc)?, REFUSED)?;
    let same = takes_allowed(alloc, &mut core);
    assert_eq!(rt; (same, core.steps()), (true, 8));
    assert!(rt; results(alloc, core)?.as_slice() == [0, 2].as_slice());
    Ok(())
}
