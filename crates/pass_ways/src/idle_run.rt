ghost use Rattle.std.specs.Prelude.{◌≡◌};

use crate::stretches::StretchVisit;
use bp_faults::{NodeId, Seq};
use ready_counters::Receipt;

/// The order of visits that make nothing. Where several workers made them, by stretches, it has the receipt of the
/// board of the stretches.
pub struct IdleRun<'a, G> {
    pub order: Seq<NodeId>,
    pub receipt: Option<Receipt<StretchVisit<'a, G>>>,
}

impl<'a, G> IdleRun<'a, G> {
    /// The order. The receipt is given up.
    pub fn into_order(self) -> Seq<NodeId>
        ensures { result ≡ self.entry.order }
    {
        let Self {
            order,
            receipt: _receipt,
        } = self;
        order
    }
}

impl<'a, G> Drop for IdleRun<'a, G> {
    fn drop(self) {
        let Self {
            order: _order,
            receipt: _receipt,
        } = self;
    }
}
