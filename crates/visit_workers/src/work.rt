ghost use Rattle.std.specs.Prelude.{◌≡◌, ◌<◌, ◌≤◌, ℕ, OnOk};
ghost use Rattle.serial_pass.specs.Orders.{IsLegal, numbers};
ghost use Rattle.ready_counters.specs.Seen.{view_of, IsSeatOf};
ghost use Rattle.ready_counters.specs.Views.{whole, times};
ghost use Rattle.visit_workers.specs.Passes.{IsPass, Works};

use crate::attempt::attempt;
use crate::lists::Lists;
use crate::made::Made;
use crate::pass::Pass;
use bp_faults::{NodeId, OutOfMemory};
use bp_ports::Gate;
use crossbeam_deque::{Steal, Stealer, Worker};
use pass_core::Visit;
use ready_counters::Seat;

/// The most rounds of steals for one hint, where other thieves are quicker each time.
const MOST_ROUNDS: u32 = 1_024;

/// What a round of steals finds: a hint, or whether another thief was quicker somewhere.
fn steal_round(others: &[Stealer<NodeId>]) -> Steal<NodeId> {
    let mut found = Steal::Empty;
    for other in others {
        match other.steal() {
            Steal::Success(n) => return Steal::Success(n),
            Steal::Retry => found = Steal::Retry,
            Steal::Empty => (),
        }
    }
    found
}

/// A hint of its own, or else one that it steals. It goes round again only where another thief was quicker.
fn next_hint(hints: &mut Worker<NodeId>, others: &[Stealer<NodeId>]) -> Option<NodeId> {
    if let Some(n) = hints.pop() {
        return Some(n);
    }
    for _round in 0..MOST_ROUNDS {
        match steal_round(others) {
            Steal::Success(n) => return Some(n),
            Steal::Empty => return None,
            Steal::Retry => (),
        }
    }
    None
}

/// Follows hints until there are none.
pub fn work<V: Visit, G: Gate>(
    pass: &Pass<V, G>,
    seat: &mut Seat<V>,
    hints: &mut Worker<NodeId>,
    others: &[Stealer<NodeId>],
    made: &mut Vec<Made<V::Out>>,
    lists: &mut Lists<V::Out>,
) -> Result<(), OutOfMemory>
    requires pass { IsPass (V.takes pass.now.visitor.now) pass.now }
    requires seat { IsSeatOf pass.now.board.now seat.old }
    requires working { Works (V.meaning pass.now.visitor.now) pass.now seat.old made.old.items }
    ensures seat { IsSeatOf pass.now.board.now seat.new }
    ensures weight { (view_of seat.new).weight ≡ (view_of seat.old).weight }
    ensures working { OnOk result (Works (V.meaning pass.now.visitor.now) pass.now seat.new made.new.items) }
{
    for _turn in 0..u64::MAX {
        let Some(n) = next_hint(hints, others) else {
            return Ok(());
        };
        if n.0 < pass.plan.count {
            attempt(pass, seat, n, hints, made, lists)?;
        }
    }
    Ok(())
}

/// Visits what is left, along an order in which each node comes after its predecessors.
pub fn sweep<V: Visit, G: Gate>(
    pass: &Pass<V, G>,
    seat: &mut Seat<V>,
    order: &[NodeId],
    hints: &mut Worker<NodeId>,
    made: &mut Vec<Made<V::Out>>,
    lists: &mut Lists<V::Out>,
) -> Result<(), OutOfMemory>
    requires pass { IsPass (V.takes pass.now.visitor.now) pass.now }
    requires seat { IsSeatOf pass.now.board.now seat.old }
    requires all { (view_of seat.old).weight ≡ whole }
    requires working { Works (V.meaning pass.now.visitor.now) pass.now seat.old made.old.items }
    requires legal { IsLegal pass.now.plan.now (numbers order.now) }
    ensures seat { IsSeatOf pass.now.board.now seat.new }
    ensures weight { (view_of seat.new).weight ≡ (view_of seat.old).weight }
    ensures working { OnOk result (Works (V.meaning pass.now.visitor.now) pass.now seat.new made.new.items) }
    ensures claimed { OnOk result ((n : ℕ) → n < pass.now.plan.now.count → 1 ≤ times n (view_of seat.new).claimed) }
{
    for n in order {
        attempt(pass, seat, *n, hints, made, lists)?;
    }
    Ok(())
}
