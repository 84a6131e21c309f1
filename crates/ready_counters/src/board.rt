ghost use Rattle.std.specs.Prelude.{◌≡◌, ◌<◌, ℕ, length};
ghost use Rattle.ready_counters.specs.Edges.{word_count, edge_targets};
ghost use Rattle.ready_counters.specs.Inside.{BeginInside, EndInside};

use crate::claim::Claim;
use crate::play::{
    Claiming, CutOff, Differing, Fetching, Filling, Opening, Pick, Returning, Subtracting,
    Ticketing, Together,
};
use crate::receipt::Receipt;
use crate::rule::{About, BoardRule, Slot};
use crate::seat::Seat;
use crate::view::View;
use crate::words::{count_of, first_words, free_all, targets_of_plan};
use atomic_table::Table;
use bp_faults::{NodeId, OutOfMemory};
use pass_core::{Plan, Published, Visit};
use std::alloc::Global;
use std::marker::{Brand, PhantomData};
use std::snapshot::Snapshot;
use std::sync::Arc;

const EMPTY: u64 = 0;

const WRITING: u64 = 1;

const FULL: u64 = 2;

const READING: u64 = 3;

const TAKEN: u64 = u64::MAX;

/// A counter for each node of a plan, and for each edge a slot in which the result of its source waits.
pub struct Board<V: Visit> {
    table: Table<Slot<V::Out>, View, About<V>, BoardRule<V>, Global>,
    count: u32,
    targets: Vec<u32>,
    pub ghost begins: { BeginInside table.shared.key.plan.value },
    pub ghost ends: { EndInside table.shared.key.plan.value },
    pub ghost counted: { count ≡ table.shared.key.plan.value.count },
    pub ghost targeted: { targets.items ≡ edge_targets table.shared.key.plan.value.edges },
    pub ghost sized: { table.shared.table_id.words ≡ word_count table.shared.key.plan.value },
    pub ghost small: { table.shared.key.plan.value.count < 4294967296 },
    pub ghost few: { length table.shared.key.plan.value.edges < 4294967296 },
}

impl<V: Visit> Drop for Board<V> {
    fn drop(self) {
        let Self {
            table: _table,
            count: _,
            targets: _targets,
        } = self;
    }
}

impl<V: Visit> Board<V> {
    ghost use Rattle.std.specs.Prelude.{◌≤◌, IfOk, [], ◌∷◌};
    ghost use Rattle.std.specs.Arc.{arc_value};
    ghost use Rattle.serial_pass.specs.Orders.{IsLegal, numbers};
    ghost use Rattle.serial_pass.specs.Plans.{IsPlan};
    ghost use Rattle.pass_core.specs.Shown.{published_result};
    ghost use Rattle.ready_counters.specs.Answers.{AnswersClaim, AnswersSubtract};
    ghost use Rattle.ready_counters.specs.Edges.{edge_source, edge_target, result_at, HasFetched};
    ghost use Rattle.ready_counters.specs.Ends.{IsByTicket, IsDoneBy};
    ghost use Rattle.ready_counters.specs.Inside.{Claims, Draws, Subtracts};
    ghost use Rattle.ready_counters.specs.Seen.{plan_on_board, visitor_of, view_of, IsSeatOf};
    ghost use Rattle.ready_counters.specs.Views.{whole, times, tickets_for, tickets_with, all_of_it, lighter, one};
    ghost use Rattle.ready_counters.specs.Views.{together, with_fetch, with_filled, with_subtract, with_ticket};

    /// A board on which nothing is done, and its whole seat.
    pub fn new(alloc: Global, plan: &Plan, v: &V) -> Result<(Board<V>, Seat<V>), OutOfMemory>
        requires plan { IsPlan plan.now }
        ensures plan { IfOk result (λ r. plan_on_board r.0 ≡ plan.now) }
        ensures visitor { IfOk result (λ r. visitor_of r.0 ≡ v.now) }
        ensures seat { IfOk result (λ r. IsSeatOf r.0 r.1) }
        ensures whole { IfOk result (λ r. view_of r.1 ≡ all_of_it) }
    {
        let count = count_of(plan);
        let words = first_words(alloc, plan)?;
        let targets = targets_of_plan(alloc, plan)?;
        let many = plan.edges.as_slice().len();
        let about = About {
            plan: Snapshot::of(plan),
            visitor: Snapshot::of(v),
        };
        let (table, seat) = Table::vacant(alloc, &words, many, &about)?;
        Ok((
            Board {
                table,
                count,
                targets,
            },
            Seat { seat },
        ))
    }

    /// Cuts a seat of weight 1 off.
    pub fn split(&self, seat: &mut Seat<V>) -> Seat<V>
        requires seat { IsSeatOf self.now seat.old }
        requires heavy { 2 ≤ (view_of seat.old).weight }
        ensures seat { IsSeatOf self.now seat.new }
        ensures left { view_of seat.new ≡ lighter (view_of seat.old) }
        ensures other { IsSeatOf self.now result }
        ensures right { view_of result ≡ one }
    {
        let other = self.table.shared.split_seat::<CutOff>(&mut seat.seat);
        Seat { seat: other }
    }

    /// Takes a seat in, with all that it did.
    pub fn join(&self, seat: &mut Seat<V>, other: Seat<V>)
        requires seat { IsSeatOf self.now seat.old }
        requires other { IsSeatOf self.now other }
        ensures seat { IsSeatOf self.now seat.new }
        ensures both { view_of seat.new ≡ together (view_of seat.old) (view_of other) }
    {
        let theirs = other.into_inner();
        self.table
            .shared
            .join_seat::<Together>(&mut seat.seat, theirs);
        self.table.shared.load::<Differing>(&mut seat.seat, 0);
    }

    /// Claims a node, if none of its in-edges is left and no seat has it.
    pub fn claim(&self, seat: &mut Seat<V>, n: NodeId) -> Claim
        requires seat { IsSeatOf self.now seat.old }
        requires node { n.0 < (plan_on_board self.now).count }
        ensures seat { IsSeatOf self.now seat.new }
        ensures told { AnswersClaim (plan_on_board self.now).edges n.0 (view_of seat.old) result (view_of seat.new) }
    {
        match self.claim_as::<Brand>(seat, n.0) {
            0 => Claim::Claimed,
            TAKEN => Claim::Gone,
            k => Claim::NotReady(k),
        }
    }

    /// Draws the ticket of a node that the seat claimed, and of which it fetched all in-edges.
    pub fn ticket(&self, seat: &mut Seat<V>, n: NodeId) -> u64
        requires seat { IsSeatOf self.now seat.old }
        requires node { n.0 < (plan_on_board self.now).count }
        requires claimed { 1 ≤ times n.0 (view_of seat.old).claimed }
        requires ready { HasFetched (plan_on_board self.now).edges n.0 (view_of seat.old) }
        requires fresh { tickets_for n.0 (view_of seat.old).tickets ≡ 0 }
        ensures seat { IsSeatOf self.now seat.new }
        ensures drawn { view_of seat.new ≡ with_ticket (view_of seat.old) n.0 result }
        ensures below { result < (plan_on_board self.now).count }
    {
        self.ticket_as::<Brand>(seat, n.0)
    }

    /// Puts the result of an edge's source into the edge.
    pub fn fill(&self, seat: &mut Seat<V>, e: u32, value: Arc<Published<V::Out>>)
        requires seat { IsSeatOf self.now seat.old }
        requires edge { e < length (plan_on_board self.now).edges }
        requires ticket { 1 ≤ tickets_for (edge_source (plan_on_board self.now).edges e) (view_of seat.old).tickets }
        requires fresh { times e (view_of seat.old).filled ≡ 0 }
        requires value { published_result (arc_value value)
            ≡ result_at (V.meaning (visitor_of self.now)) (plan_on_board self.now) e }
        ensures seat { IsSeatOf self.now seat.new }
        ensures filled { view_of seat.new ≡ with_filled (view_of seat.old) e }
    {
        self.fill_as::<Brand>(seat, e, value);
    }

    /// Lowers the counter of the target of an edge that the seat filled, and answers whether none of its
    /// in-edges is left.
    pub fn subtract(&self, seat: &mut Seat<V>, e: u32) -> bool
        requires seat { IsSeatOf self.now seat.old }
        requires edge { e < length (plan_on_board self.now).edges }
        requires filled { 1 ≤ times e (view_of seat.old).filled }
        requires fresh { times e (view_of seat.old).subtracted ≡ 0 }
        ensures seat { IsSeatOf self.now seat.new }
        ensures subtracted { view_of seat.new ≡ with_subtract (view_of seat.old) e }
        ensures ready { AnswersSubtract (plan_on_board self.now).edges e (view_of seat.new) result }
    {
        self.subtract_as::<Brand>(seat, e) == 1
    }

    /// Takes the result of its source out of an edge into a node that the seat claimed.
    pub fn fetch(&self, seat: &mut Seat<V>, e: u32) -> Arc<Published<V::Out>>
        requires seat { IsSeatOf self.now seat.old }
        requires edge { e < length (plan_on_board self.now).edges }
        requires claimed { 1 ≤ times (edge_target (plan_on_board self.now).edges e) (view_of seat.old).claimed }
        requires fresh { times e (view_of seat.old).fetched ≡ 0 }
        ensures seat { IsSeatOf self.now seat.new }
        ensures fetched { view_of seat.new ≡ with_fetch (view_of seat.old) e }
        ensures value { published_result (arc_value result)
            ≡ result_at (V.meaning (visitor_of self.now)) (plan_on_board self.now) e }
    {
        self.fetch_as::<Brand>(seat, e)
    }

    /// Ends a board, by a seat that has done all of it. `plan` is the board's plan once more, and `order` the nodes by
    /// ticket.
    pub fn close(self, seat: Seat<V>, plan: &Plan, order: Vec<NodeId>) -> Receipt<V>
        requires plan { plan.now ≡ plan_on_board self }
        requires seat { IsSeatOf self seat }
        requires all { (view_of seat).weight ≡ whole }
        requires ticketed { (n : ℕ) → n < (plan_on_board self).count → 1 ≤ tickets_for n (view_of seat).tickets }
        requires order { IsByTicket (plan_on_board self).count (view_of seat) (numbers order.items) }
        ensures done { IsDoneBy (plan_on_board self).count (plan_on_board self).edges (view_of seat) }
        ensures numbered { (k : ℕ) → k < (plan_on_board self).count → tickets_with k (view_of seat).tickets ≡ 1 }
        ensures plan { result.plan ≡ plan_on_board self }
        ensures order { result.order ≡ order.items }
        ensures legal { IsLegal (plan_on_board self) (numbers order.items) }
    {
        let table = self.into_table();
        let last = seat.into_inner();
        free_all(table.close_with(last));
        Receipt {
            plan: Snapshot::of(plan),
            order,
            marker: PhantomData,
        }
    }

    fn into_table(self) -> Table<Slot<V::Out>, View, About<V>, BoardRule<V>, Global>
        ensures { result ≡ self.table }
    {
        let Self {
            table,
            count: _,
            targets: _targets,
        } = self;
        table
    }

    fn claim_as<E: Pick<V::Out>>(&self, seat: &mut Seat<V>, n: u32) -> u64
        requires edges { (plan_on_board self.now).edges ≡ E.edges }
        requires named { n ≡ E.node }
        requires seat { IsSeatOf self.now seat.old }
        requires node { n < (plan_on_board self.now).count }
        ensures seat { IsSeatOf self.now seat.new }
        ensures told { Claims E.edges E.node seat.old.seat.me result seat.new.seat.me }
    {
        self.table
            .shared
            .compare_exchange::<Claiming<V::Out, E>>(&mut seat.seat, n as usize, 0, TAKEN)
    }

    fn ticket_as<E: Pick<V::Out>>(&self, seat: &mut Seat<V>, n: u32) -> u64
        requires count { (plan_on_board self.now).count ≡ E.count }
        requires named { n ≡ E.node }
        requires seat { IsSeatOf self.now seat.old }
        requires node { n < (plan_on_board self.now).count }
        requires claimed { 1 ≤ times n (view_of seat.old).claimed }
        requires ready { HasFetched (plan_on_board self.now).edges n (view_of seat.old) }
        requires fresh { tickets_for n (view_of seat.old).tickets ≡ 0 }
        ensures seat { IsSeatOf self.now seat.new }
        ensures told { Draws E.count E.node seat.old.seat.me result seat.new.seat.me }
    {
        let word = self.count as usize + self.targets.len();
        self.table
            .shared
            .fetch_add::<Ticketing<V::Out, E>>(&mut seat.seat, word, 1)
    }

    fn fill_as<E: Pick<V::Out>>(&self, seat: &mut Seat<V>, e: u32, value: Arc<Published<V::Out>>)
        requires named { e ≡ E.edge }
        requires seat { IsSeatOf self.now seat.old }
        requires edge { e < length (plan_on_board self.now).edges }
        requires ticket { 1 ≤ tickets_for (edge_source (plan_on_board self.now).edges e) (view_of seat.old).tickets }
        requires fresh { times e (view_of seat.old).filled ≡ 0 }
        requires value { published_result (arc_value value)
            ≡ result_at (V.meaning (visitor_of self.now)) (plan_on_board self.now) e }
        ensures seat { IsSeatOf self.now seat.new }
        ensures filled { view_of seat.new ≡ with_filled (view_of seat.old) e }
    {
        let word = self.count as usize + e as usize;
        self.table
            .shared
            .compare_exchange::<Opening<V::Out, E>>(&mut seat.seat, word, EMPTY, WRITING);
        let _before = self
            .table
            .shared
            .exchange(&mut seat.seat, e as usize, Some(value));
        self.table
            .shared
            .store::<Filling<V::Out, E>>(&mut seat.seat, word, FULL);
    }

    fn subtract_as<E: Pick<V::Out>>(&self, seat: &mut Seat<V>, e: u32) -> u64
        requires edges { (plan_on_board self.now).edges ≡ E.edges }
        requires named { e ≡ E.edge }
        requires seat { IsSeatOf self.now seat.old }
        requires edge { e < length (plan_on_board self.now).edges }
        requires filled { 1 ≤ times e (view_of seat.old).filled }
        requires fresh { times e (view_of seat.old).subtracted ≡ 0 }
        ensures seat { IsSeatOf self.now seat.new }
        ensures told { Subtracts E.edges E.edge seat.old.seat.me result seat.new.seat.me }
    {
        let target = self.targets[e as usize];
        self.table
            .shared
            .fetch_sub::<Subtracting<V::Out, E>>(&mut seat.seat, target as usize, 1)
    }

    fn fetch_as<E: Pick<V::Out>>(&self, seat: &mut Seat<V>, e: u32) -> Arc<Published<V::Out>>
        requires named { e ≡ E.edge }
        requires value { result_at (V.meaning (visitor_of self.now)) (plan_on_board self.now) e ≡ E.value }
        requires seat { IsSeatOf self.now seat.old }
        requires edge { e < length (plan_on_board self.now).edges }
        requires claimed { 1 ≤ times (edge_target (plan_on_board self.now).edges e) (view_of seat.old).claimed }
        requires fresh { times e (view_of seat.old).fetched ≡ 0 }
        ensures seat { IsSeatOf self.now seat.new }
        ensures fetched { view_of seat.new ≡ with_fetch (view_of seat.old) e }
        ensures value { published_result (arc_value result) ≡ E.value }
    {
        let word = self.count as usize + e as usize;
        self.table
            .shared
            .compare_exchange::<Fetching<V::Out, E>>(&mut seat.seat, word, FULL, READING);
        let full = self.table.shared.exchange(&mut seat.seat, e as usize, None);
        self.table.shared.load::<Returning>(&mut seat.seat, word);
        match full {
            Some(shared) => shared,
            None => unreachable!(),
        }
    }
}
