ghost use Rattle.std.specs.Prelude.{ℕ, List};
ghost use Rattle.serial_pass.specs.declared.plan.PlanEdge.{PlanEdge};
ghost use Rattle.serial_pass.specs.Results.{NodeResult};

use crate::rule::Slot;
use crate::view::View;
use atomic_table::{Join, Play, Split};
use std::marker::{Brand, PhantomData};

/// What a step is about: the number of nodes, the edges, a node, an edge, and the result that is expected there. Each
/// call picks them.
pub trait Pick<O> {
    ghost count: { ℕ };

    ghost edges: { List PlanEdge };

    ghost node: { ℕ };

    ghost edge: { ℕ };

    ghost value: { NodeResult O };
}

impl<O> Pick<O> for Brand {
    ghost use Rattle.std.specs.Prelude.{[]};
    ghost use Rattle.serial_pass.specs.Results.NodeResult.{Poisoned};

    ghost count = { 0 };

    ghost edges = { [] };

    ghost node = { 0 };

    ghost edge = { 0 };

    ghost value = { Poisoned };
}

/// A counter goes from 0 to taken.
pub struct Claiming<O, E> {
    marker: PhantomData<(O, E)>,
}

impl<O, E: Pick<O>> Play<Slot<O>, View> for Claiming<O, E> {
    ghost use Rattle.ready_counters.specs.Inside.{Claims};

    ghost then = { λ step me found after. Claims E.edges E.node me found after };
}

/// The ticket word is raised for a node.
pub struct Ticketing<O, E> {
    marker: PhantomData<(O, E)>,
}

impl<O, E: Pick<O>> Play<Slot<O>, View> for Ticketing<O, E> {
    ghost use Rattle.ready_counters.specs.Inside.{Draws};

    ghost then = { λ step me found after. Draws E.count E.node me found after };
}

/// An empty slot is taken, to be written.
pub struct Opening<O, E> {
    marker: PhantomData<(O, E)>,
}

impl<O, E: Pick<O>> Play<Slot<O>, View> for Opening<O, E> {
    ghost use Rattle.ready_counters.specs.Inside.{Opens};

    ghost then = { λ step me found after. Opens E.edge me after };
}

/// A written slot goes home.
pub struct Filling<O, E> {
    marker: PhantomData<(O, E)>,
}

impl<O, E: Pick<O>> Play<Slot<O>, View> for Filling<O, E> {
    ghost use Rattle.ready_counters.specs.Inside.{Fills};

    ghost then = { λ step me found after. Fills E.edge me after };
}

/// A counter is lowered for an edge.
pub struct Subtracting<O, E> {
    marker: PhantomData<(O, E)>,
}

impl<O, E: Pick<O>> Play<Slot<O>, View> for Subtracting<O, E> {
    ghost use Rattle.ready_counters.specs.Inside.{Subtracts};

    ghost then = { λ step me found after. Subtracts E.edges E.edge me found after };
}

/// A full slot is taken, to be read.
pub struct Fetching<O, E> {
    marker: PhantomData<(O, E)>,
}

impl<O, E: Pick<O>> Play<Slot<O>, View> for Fetching<O, E> {
    ghost use Rattle.ready_counters.specs.Inside.{Fetches};

    ghost then = { λ step me found after. Fetches E.edge E.value me after };
}

/// A slot that was read goes home.
pub struct Returning;

impl<O> Play<Slot<O>, View> for Returning {
    ghost use Rattle.ready_counters.specs.Inside.{Returns};

    ghost then = { λ step me found after. Returns me after };
}

/// The numbers of a seat's tickets are told apart.
pub struct Differing;

impl<O> Play<Slot<O>, View> for Differing {
    ghost use Rattle.ready_counters.specs.Inside.{Differs};

    ghost then = { λ step me found after. Differs me after };
}

/// A seat of weight 1 is cut off.
pub struct CutOff;

impl Split<View> for CutOff {
    ghost use Rattle.ready_counters.specs.Views.{lighter, one};

    ghost left = { lighter };

    ghost right = { λ v. one };
}

/// Two seats are put together.
pub struct Together;

impl Join<View> for Together {
    ghost use Rattle.ready_counters.specs.Views.{together, nothing};

    ghost both = { together };

    ghost spent = { nothing };
}
