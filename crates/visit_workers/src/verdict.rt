ghost use Rattle.std.specs.Prelude.{◌≡◌, IfOk};
ghost use Rattle.std.specs.Arc.{arc_value};
ghost use Rattle.pass_core.specs.Shown.{published_result};
ghost use Rattle.visit_workers.specs.Verdicts.{verdict_result};

use bp_faults::{Fault, OutOfMemory, Payload};
use pass_core::Published;
use std::alloc::Global;
use std::sync::Arc;

/// What a worker finds of a node. It is as small as two pointers, since it is moved until all stand by node number.
#[derive(Drop)]
pub enum Verdict<O> {
    Done(Arc<O>),
    Bad(Box<Fault>),
    Poisoned,
}

impl<O: Drop> Verdict<O> {
    /// The same result, as a board holds it. An `Arc` is shared.
    pub fn publish(&self, alloc: Global) -> Result<Arc<Published<O>>, OutOfMemory>
        ensures { IfOk result (λ published. published_result (arc_value published) ≡ verdict_result self.now) }
    {
        let published = match self {
            Verdict::Done(out) => Published::Done(Arc::try_clone(out)?),
            Verdict::Bad(fault) => Published::Bad(fault.copy(alloc)?),
            Verdict::Poisoned => Published::Poisoned,
        };
        Ok(Arc::new(alloc, published)?)
    }
}
