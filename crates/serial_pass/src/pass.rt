ghost use Rattle.std.specs.Prelude.{map};
ghost use Rattle.std.specs.Arc.{arc_value};
ghost use Rattle.bp_faults.specs.Answers.{Tells};
ghost use Rattle.serial_pass.specs.Outcomes.{PassMeans, TakesPlan};
ghost use Rattle.serial_pass.specs.Plans.{IsPlan, HasNoCycle};

use crate::error::PassError;
use crate::plan::Plan;
use crate::serial::run_serial;
use crate::visit::Visit;
use bp_faults::Refusal;
use std::alloc::Global;
use std::sync::Arc;

/// Visits each node of a plan after its predecessors, as a layer answers: with all that the visits make, by node
/// number, or with the fault of the first node in serial order that isn't done.
pub fn run_pass<V: Visit>(alloc: Global, plan: &Plan, v: &V) -> Result<Vec<Arc<V::Out>>, Refusal>
    requires plan { IsPlan plan.now }
    requires free { HasNoCycle plan.now.edges }
    requires takes { TakesPlan (V.takes v.now) plan.now }
    ensures { Tells (λ outs. map arc_value outs.items) (PassMeans (V.meaning v.now) plan.now) result }
{
    match run_serial(alloc, plan, v) {
        Ok(outs) => Ok(outs),
        Err(PassError::At(_, fault)) => Err(Refusal::Bad(fault)),
        Err(PassError::OutOfMemory) => Err(Refusal::OutOfMemory),
    }
}
