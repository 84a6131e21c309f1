ghost use Rattle.std.specs.Prelude.{◌≡◌, ◌<◌, IfOk, Ok, ⊤};
ghost use Rattle.std.specs.Arc.{arc_value};
ghost use Rattle.serial_pass.specs.Plans.{IsPlan};
ghost use Rattle.serial_pass.specs.Results.{Done};
ghost use Rattle.pass_core.specs.Shown.{published_result};
ghost use Rattle.ready_counters.specs.Answers.{AnswersSubtract};
ghost use Rattle.ready_counters.specs.Seen.{plan_on_board, view_of, IsSeatOf};
ghost use Rattle.ready_counters.specs.Views.{all_of_it, lighter, one, with_claim};
ghost use Rattle.pass_tests.specs.Counters.{pair, chain, no_nodes};
ghost use Rattle.pass_tests.specs.Counters.{first_done, second_done, third_done};

use bp_faults::{NodeId, OutOfMemory, Seq};
use pass_core::{Plan, PlanEdge, Published, Visit, VisitError};
use ready_counters::{Board, Claim, Seat, laws};
use std::alloc::Global;
use std::process::Abort;
use std::sync::Arc;
use std::test::Fail;

/// A node makes its own number.
#[derive(Drop)]
struct Number;

impl Visit for Number {
    type Out = u32;

    ghost meaning = { λ _ n _. Ok n };

    ghost takes = { λ _ _ _. ⊤ };

    fn visit(&self, _alloc: Global, n: NodeId, _ins: &[Arc<u32>]) -> Result<u32, VisitError> {
        Ok(n.0)
    }
}

/// What is published of a node.
fn published(alloc: Global, n: u32) -> Result<Arc<Published<u32>>, OutOfMemory>
    ensures { IfOk result (λ value. published_result (arc_value value) ≡ Done n) }
{
    Ok(Arc::new(alloc, Published::Done(Arc::new(alloc, n)?))?)
}

fn edge(from: u32, to: u32) -> PlanEdge
    ensures { result ≡ record { from = record { 0 = from }; to = record { 0 = to } } }
{
    PlanEdge {
        from: NodeId(from),
        to: NodeId(to),
    }
}

/// Two nodes, and two edges from the first to the second.
fn two_edges(alloc: Global) -> Result<Plan, OutOfMemory>
    ensures plan { IfOk result (λ p. p ≡ pair) }
    ensures is_plan { IfOk result (λ p. IsPlan p) }
{
    let edges = Seq::new(vec![in alloc; edge(0, 1), edge(0, 1)]?);
    Ok(Plan { count: 2, edges })
}

/// A chain of three nodes.
fn three_in_a_chain(alloc: Global) -> Result<Plan, OutOfMemory>
    ensures plan { IfOk result (λ p. p ≡ chain) }
    ensures is_plan { IfOk result (λ p. IsPlan p) }
{
    let edges = Seq::new(vec![in alloc; edge(0, 1), edge(1, 2)]?);
    Ok(Plan { count: 3, edges })
}

/// No node.
fn nothing_to_do(alloc: Global) -> Plan
    ensures plan { result ≡ no_nodes }
    ensures is_plan { IsPlan result }
{
    Plan {
        count: 0,
        edges: Seq::new(Vec::new(alloc)),
    }
}

/// Claims a node that is ready.
fn take<V: Visit>(rt: &impl Abort, board: &Board<V>, seat: &mut Seat<V>, n: u32)
    requires seat { IsSeatOf board.now seat.old }
    requires node { n < (plan_on_board board.now).count }
    ensures seat { IsSeatOf board.now seat.new }
    ensures claimed { view_of seat.new ≡ with_claim (view_of seat.old) n }
{
    match board.claim(seat, NodeId(n)) {
        Claim::Claimed => (),
        other => panic!(rt; "{other:?}"),
    }
}

/// Claims a node that isn't free and ready.
fn miss<V: Visit>(rt: &impl Abort, board: &Board<V>, seat: &mut Seat<V>, n: u32, answer: Claim)
    requires seat { IsSeatOf board.now seat.old }
    requires node { n < (plan_on_board board.now).count }
    ensures seat { IsSeatOf board.now seat.new }
    ensures same { view_of seat.new ≡ view_of seat.old }
{
    match board.claim(seat, NodeId(n)) {
        Claim::Claimed => panic!(rt; "node {n} was claimed"),
        other => assert_eq!(rt; other, answer),
    }
}

#[test]
fn core_and_board(rt: HostRuntime) -> Result<(), Fail> {
    let alloc = rt.alloc();
    let plan = two_edges(alloc)?;
    let (board, mut seat) = Board::new(alloc, &plan, &Number)?;
    miss(&rt, &board, &mut seat, 1, Claim::NotReady(2));
    take(&rt, &board, &mut seat, 0);
    let ticket = board.ticket(&mut seat, NodeId(0));
    assert_eq!(rt; ticket, 0);
    board.fill(&mut seat, 0, published(alloc, 0)?);
    let first = board.subtract(&mut seat, 0);
    assert!(rt; !first);
    miss(&rt, &board, &mut seat, 1, Claim::NotReady(1));
    board.fill(&mut seat, 1, published(alloc, 0)?);
    let second = board.subtract(&mut seat, 1);
    assert!(rt; second);
    miss(&rt, &board, &mut seat, 0, Claim::Gone);
    Ok(())
}

/// Ends the visit of the chain's first node, which is claimed: its ticket, and whether the next is ready.
fn end_first(
    alloc: Global,
    board: &Board<Number>,
    seat: &mut Seat<Number>,
) -> Result<(u64, bool), OutOfMemory>
    requires plan { plan_on_board board.now ≡ chain }
    requires seat { IsSeatOf board.now seat.old }
    requires claimed { view_of seat.old ≡ with_claim (lighter all_of_it) 0 }
    ensures seat { IfOk result (λ told. IsSeatOf board.now seat.new) }
    ensures done { IfOk result (λ told. view_of seat.new ≡ first_done told.0) }
{
    let ticket = board.ticket(seat, NodeId(0));
    board.fill(seat, 0, published(alloc, 0)?);
    Ok((ticket, board.subtract(seat, 0)))
}

/// Visits the chain's second node: its ticket, and whether the next is ready.
fn visit_second(
    rt: &impl Abort,
    alloc: Global,
    board: &Board<Number>,
    seat: &mut Seat<Number>,
) -> Result<(u64, bool), OutOfMemory>
    requires plan { plan_on_board board.now ≡ chain }
    requires seat { IsSeatOf board.now seat.old }
    requires idle { view_of seat.old ≡ one }
    ensures seat { IfOk result (λ told. IsSeatOf board.now seat.new) }
    ensures done { IfOk result (λ told. view_of seat.new ≡ second_done told.0) }
{
    take(rt, board, seat, 1);
    let _zero = board.fetch(seat, 0);
    let ticket = board.ticket(seat, NodeId(1));
    board.fill(seat, 1, published(alloc, 1)?);
    Ok((ticket, board.subtract(seat, 1)))
}

/// Visits the chain's third node, by the seat that visited the first: its ticket.
fn visit_third(rt: &impl Abort, board: &Board<Number>, seat: &mut Seat<Number>, first: u64) -> u64
    requires plan { plan_on_board board.now ≡ chain }
    requires seat { IsSeatOf board.now seat.old }
    requires done { view_of seat.old ≡ first_done first }
    ensures seat { IsSeatOf board.now seat.new }
    ensures done { view_of seat.new ≡ third_done first result }
{
    take(rt, board, seat, 2);
    let _one = board.fetch(seat, 1);
    board.ticket(seat, NodeId(2))
}

#[test]
fn chain_by_two_seats_in_turn(rt: HostRuntime) -> Result<(), Fail> {
    let alloc = rt.alloc();
    let plan = three_in_a_chain(alloc)?;
    let (board, mut seat) = Board::new(alloc, &plan, &Number)?;
    let mut other = board.split(&mut seat);
    take(&rt, &board, &mut seat, 0);
    miss(&rt, &board, &mut other, 0, Claim::Gone);
    miss(&rt, &board, &mut other, 1, Claim::NotReady(1));
    let (first, is_second_ready) = end_first(alloc, &board, &mut seat)?;
    let (second, is_third_ready) = visit_second(&rt, alloc, &board, &mut other)?;
    let third = visit_third(&rt, &board, &mut seat, first);
    assert!(rt; is_second_ready && is_third_ready);
    assert!(rt; first == 0 && second == 1 && third == 2);
    board.join(&mut seat, other);
    let order = vec![in alloc; NodeId(0), NodeId(1), NodeId(2)]?;
    let receipt = board.close(seat, &plan, order);
    assert_eq!(rt; receipt.order().len(), 3);
    Ok(())
}

/// Splits as many seats off, and then joins them.
fn split_and_join<V: Visit>(board: &Board<V>, seat: &mut Seat<V>, many: u32)
    requires seat { IsSeatOf board.now seat.old }
    requires heavy { many < (view_of seat.old).weight }
    ensures seat { IsSeatOf board.now seat.new }
    ensures weight { (view_of seat.new).weight ≡ (view_of seat.old).weight }
{
    if many > 0 {
        let other = board.split(seat);
        split_and_join(board, seat, many - 1);
        board.join(seat, other);
    }
}

#[test]
fn no_nodes_and_64_seats(rt: HostRuntime) -> Result<(), Fail> {
    laws::new_board_shows_beginning::<u32>();
    laws::steps_are_core_steps::<u32>();
    laws::done_board_shows_finished::<u32>();
    let alloc = rt.alloc();
    let plan = nothing_to_do(alloc);
    let (board, mut seat) = Board::new(alloc, &plan, &Number)?;
    split_and_join(&board, &mut seat, 64);
    let receipt = board.close(seat, &plan, Vec::new(alloc));
    assert_eq!(rt; receipt.order().len(), 0);
    Ok(())
}
