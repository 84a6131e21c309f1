use crate::view::View;
use atomic_table::TableRule;
use pass_core::{Plan, Published, Visit};
use std::alloc::Global;
use std::marker::PhantomData;
use std::snapshot::Snapshot;
use std::sync::Arc;

/// The plan and the visitor of a board. It has no bytes.
pub struct About<V> {
    pub plan: Snapshot<Plan>,
    pub visitor: Snapshot<V>,
}

impl<V> Drop for About<V> {
    fn drop(self) {
        let Self {
            plan: _plan,
            visitor: _visitor,
        } = self;
    }
}

/// Where the result of an edge's source waits.
pub type Slot<O> = Option<Arc<Published<O>, Global>>;

/// What holds of the words, slots and views of a board between any two steps.
pub struct BoardRule<V> {
    marker: PhantomData<V>,
}

impl<V: Visit> TableRule<Slot<V::Out>, View, About<V>> for BoardRule<V> {
    ghost use Rattle.ready_counters.specs.Meaning.{IsBoardOf};
    ghost use Rattle.ready_counters.specs.Views.{all_of_it};

    ghost holds = { λ about s. IsBoardOf (V.meaning about.visitor.value) about.plan.value s };

    ghost first = { λ about. all_of_it };
}
