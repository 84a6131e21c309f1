ghost use Rattle.std.specs.Prelude.{◌≡◌};
ghost use Rattle.serial_pass.specs.Orders.{IsLegal, numbers};
ghost use Rattle.ready_counters.specs.Receipts.{ReceiptView};

use bp_faults::NodeId;
use pass_core::Plan;
use std::marker::{Model, PhantomData};
use std::snapshot::Snapshot;

/// A board of this plan, for this type of visitor, was done in this order.
pub struct Receipt<V> {
    pub(crate) plan: Snapshot<Plan>,
    pub(crate) order: Vec<NodeId>,
    pub(crate) marker: PhantomData<V>,
}

impl<V> Model for Receipt<V> {
    ghost use Rattle.serial_pass.specs.Orders.{IsLegal, numbers};
    ghost use Rattle.ready_counters.specs.Receipts.{ReceiptView};

    ghost Value = { ReceiptView };

    ghost view = { λ r. record { plan = r.plan.value; order = r.order.items } };

    ghost invariant = { λ r. IsLegal r.plan.value (numbers r.order.items) };
}

impl<V> Drop for Receipt<V> {
    fn drop(self) {
        let Self {
            plan: _plan,
            order: _order,
            marker: _,
        } = self;
    }
}

impl<V> Receipt<V> {
    /// The nodes in the order of their tickets.
    pub fn order(&self) -> &[NodeId]
        ensures order { result.now ≡ self.now.order }
        ensures legal { IsLegal self.now.plan (numbers result.now) }
    {
        &self.order
    }
}
