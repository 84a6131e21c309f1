ghost use Rattle.std.specs.Prelude.{◌≡◌, ◌<◌, ◌≤◌, ◌+◌, [], length, OnOk};
ghost use Rattle.std.specs.Arc.{arc_value};
ghost use Rattle.pass_core.specs.Shown.{published_result};
ghost use Rattle.ready_counters.specs.Edges.{edge_source};
ghost use Rattle.ready_counters.specs.Seen.{view_of, IsSeatOf};
ghost use Rattle.ready_counters.specs.Views.{times, tickets_for, with_filled, with_subtract};
ghost use Rattle.visit_workers.specs.Passes.{IsPass, result_of, AreInsOf, HasGathered, HasSpread};
ghost use Rattle.visit_workers.specs.Settled.{HasNotFetched, HasNotSpread};
ghost use Rattle.visit_workers.specs.Verdicts.{verdict_result};

use crate::links::END;
use crate::pass::Pass;
use crate::verdict::Verdict;
use bp_faults::{NodeId, OutOfMemory};
use bp_ports::Gate;
use crossbeam_deque::Worker;
use pass_core::{Published, Visit, edges_into};
use ready_counters::Seat;
use serial_pass::laws::{in_edges_are_together, indices_tell_targets, starts_of_edges_rise};
use std::sync::Arc;

/// Fetches all edges into a node into a list. What the list held before is dropped, and its memory serves again.
pub fn gather<V: Visit, G: Gate>(
    pass: &Pass<V, G>,
    seat: &mut Seat<V>,
    n: NodeId,
    fetched: &mut Vec<Arc<Published<V::Out>>>,
) -> Result<(), OutOfMemory>
    requires pass { IsPass (V.takes pass.now.visitor.now) pass.now }
    requires inside { n.0 < pass.now.plan.now.count }
    requires seat { IsSeatOf pass.now.board.now seat.old }
    requires claimed { 1 ≤ times n.0 (view_of seat.old).claimed }
    requires fresh { HasNotFetched pass.now.plan.now.edges n.0 (view_of seat.old) }
    ensures seat { IsSeatOf pass.now.board.now seat.new }
    ensures weight { (view_of seat.new).weight ≡ (view_of seat.old).weight }
    ensures gathered { OnOk result (HasGathered pass.now n.0 (view_of seat.old) (view_of seat.new)) }
    ensures values { OnOk result (AreInsOf (V.meaning pass.now.visitor.now) pass.now n.0 fetched.new.items) }
{
    in_edges_are_together();
    starts_of_edges_rise();
    indices_tell_targets();
    let edges = edges_into(pass.plan, pass.starts, n);
    fetched.clear();
    let mut e = pass.starts[n.0 as usize];
    for _edge in edges {
        let shared = pass.board.fetch(seat, e);
        fetched.push(shared)?;
        e += 1;
    }
    Ok(())
}

/// Fills and subtracts an edge out of a node. A target that got ready becomes a hint.
fn spread_to<V: Visit, G: Gate>(
    pass: &Pass<V, G>,
    seat: &mut Seat<V>,
    e: u32,
    n: NodeId,
    value: &Arc<Published<V::Out>>,
    hints: &mut Worker<NodeId>,
) -> Result<(), OutOfMemory>
    requires pass { IsPass (V.takes pass.now.visitor.now) pass.now }
    requires seat { IsSeatOf pass.now.board.now seat.old }
    requires edge { e < length pass.now.plan.now.edges }
    requires source { edge_source pass.now.plan.now.edges e ≡ n.0 }
    requires ticket { 1 ≤ tickets_for n.0 (view_of seat.old).tickets }
    requires fresh { (times e (view_of seat.old).filled ≡ 0) × (times e (view_of seat.old).subtracted ≡ 0) }
    requires value { published_result (arc_value value.now) ≡ result_of (V.meaning pass.now.visitor.now) pass.now n.0 }
    ensures seat { IsSeatOf pass.now.board.now seat.new }
    ensures weight { (view_of seat.new).weight ≡ (view_of seat.old).weight }
    ensures went { OnOk result (view_of seat.new ≡ with_subtract (with_filled (view_of seat.old) e) e) }
{
    let shared = Arc::try_clone(value)?;
    pass.board.fill(seat, e, shared);
    if pass.board.subtract(seat, e) {
        let _ = hints.push(pass.plan.edges.as_slice()[e as usize].to);
    }
    Ok(())
}

/// Fills and subtracts all edges out of a node. They share one box, which is made only where there are such edges.
pub fn spread<V: Visit, G: Gate>(
    pass: &Pass<V, G>,
    seat: &mut Seat<V>,
    n: NodeId,
    verdict: &Verdict<V::Out>,
    hints: &mut Worker<NodeId>,
) -> Result<(), OutOfMemory>
    requires pass { IsPass (V.takes pass.now.visitor.now) pass.now }
    requires inside { n.0 < pass.now.plan.now.count }
    requires seat { IsSeatOf pass.now.board.now seat.old }
    requires ticket { 1 ≤ tickets_for n.0 (view_of seat.old).tickets }
    requires fresh { HasNotSpread pass.now.plan.now.edges n.0 (view_of seat.old) }
    requires verdict { verdict_result verdict.now ≡ result_of (V.meaning pass.now.visitor.now) pass.now n.0 }
    ensures seat { IsSeatOf pass.now.board.now seat.new }
    ensures weight { (view_of seat.new).weight ≡ (view_of seat.old).weight }
    ensures spread { OnOk result (HasSpread pass.now n.0 (view_of seat.old) (view_of seat.new)) }
{
    let mut e = pass.outs.first[n.0 as usize];
    if e == END {
        return Ok(());
    }
    let value = verdict.publish(pass.alloc)?;
    while e != END {
        spread_to(pass, seat, e, n, &value, hints)?;
        e = pass.outs.next[e as usize];
    }
    Ok(())
}
