ghost use Rattle.std.specs.Prelude.{◌≡◌, IfOk};
ghost use Rattle.pass_core.specs.Shown.{published_result};

use bp_faults::{Fault, OutOfMemory, Payload};
use std::alloc::Global;
use std::sync::Arc;

/// What became of a node.
#[derive(Debug, Drop)]
pub enum Published<O> {
    Done(Arc<O>),
    Bad(Fault),
    Poisoned,
}

impl<O: Drop> Published<O> {
    /// The same result, of which an `Arc` is shared.
    pub fn copy(&self, alloc: Global) -> Result<Published<O>, OutOfMemory>
        ensures { IfOk result (λ copy. published_result copy ≡ published_result self.now) }
    {
        match self {
            Published::Done(out) => Ok(Published::Done(Arc::try_clone(out)?)),
            Published::Bad(fault) => Ok(Published::Bad(fault.copy(alloc)?)),
            Published::Poisoned => Ok(Published::Poisoned),
        }
    }
}
