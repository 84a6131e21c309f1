ghost use Rattle.std.specs.Prelude.{◌≡◌, ◌<◌, ◌∷◌, IfOk, OnOk};
ghost use Rattle.ready_counters.specs.Seen.{view_of, IsSeatOf};
ghost use Rattle.visit_workers.specs.Passes.{IsPass, IsMadeRight, Works};
ghost use Rattle.visit_workers.specs.Settled.{IsSettled, JustClaimed, Reaches};

use crate::judge::judge;
use crate::lists::Lists;
use crate::made::Made;
use crate::node::{gather, spread};
use crate::pass::Pass;
use bp_faults::{NodeId, OutOfMemory};
use bp_ports::Gate;
use crossbeam_deque::Worker;
use pass_core::Visit;
use ready_counters::{Claim, Seat};
use serial_pass::laws::{in_edges_are_together, indices_tell_targets, starts_of_edges_rise};

/// Does all that is to do for a node that was just claimed. Its ticket is drawn after its visit.
fn visit_claimed<V: Visit, G: Gate>(
    pass: &Pass<V, G>,
    seat: &mut Seat<V>,
    n: NodeId,
    hints: &mut Worker<NodeId>,
    lists: &mut Lists<V::Out>,
) -> Result<Made<V::Out>, OutOfMemory>
    requires pass { IsPass (V.takes pass.now.visitor.now) pass.now }
    requires seat { IsSeatOf pass.now.board.now seat.old }
    requires inside { n.0 < pass.now.plan.now.count }
    requires claimed { JustClaimed pass.now.plan.now.edges n.0 (view_of seat.old) }
    ensures seat { IsSeatOf pass.now.board.now seat.new }
    ensures weight { (view_of seat.new).weight ≡ (view_of seat.old).weight }
    ensures settled { OnOk result (IsSettled pass.now.plan.now.edges (view_of seat.new)) }
    ensures claimed { OnOk result ((view_of seat.new).claimed ≡ (view_of seat.old).claimed) }
    ensures tickets { IfOk result (λ m. (view_of seat.new).tickets ≡ (n.0, m.ticket) ∷ (view_of seat.old).tickets) }
    ensures made { IfOk result (λ m. m.node ≡ n) }
    ensures right { IfOk result (λ m. IsMadeRight (V.meaning pass.now.visitor.now) pass.now m) }
{
    in_edges_are_together();
    starts_of_edges_rise();
    indices_tell_targets();
    gather(pass, seat, n, &mut lists.fetched)?;
    let verdict = judge(pass, n, &lists.fetched, &mut lists.outs)?;
    let ticket = pass.board.ticket(seat, n);
    spread(pass, seat, n, &verdict, hints)?;
    Ok(Made {
        node: n,
        ticket,
        verdict,
    })
}

/// Claims a node and does all that is to do for it, if it is free and ready.
pub fn attempt<V: Visit, G: Gate>(
    pass: &Pass<V, G>,
    seat: &mut Seat<V>,
    n: NodeId,
    hints: &mut Worker<NodeId>,
    made: &mut Vec<Made<V::Out>>,
    lists: &mut Lists<V::Out>,
) -> Result<(), OutOfMemory>
    requires pass { IsPass (V.takes pass.now.visitor.now) pass.now }
    requires seat { IsSeatOf pass.now.board.now seat.old }
    requires inside { n.0 < pass.now.plan.now.count }
    requires working { Works (V.meaning pass.now.visitor.now) pass.now seat.old made.old.items }
    ensures seat { IsSeatOf pass.now.board.now seat.new }
    ensures weight { (view_of seat.new).weight ≡ (view_of seat.old).weight }
    ensures working { OnOk result (Works (V.meaning pass.now.visitor.now) pass.now seat.new made.new.items) }
    ensures reaches { OnOk result (Reaches pass.now.plan.now.edges n.0 (view_of seat.old) (view_of seat.new)) }
{
    match pass.board.claim(seat, n) {
        Claim::Claimed => {
            let done = visit_claimed(pass, seat, n, hints, lists)?;
            made.push(done)?;
            Ok(())
        }
        Claim::NotReady(_) => Ok(()),
        Claim::Gone => Ok(()),
    }
}
