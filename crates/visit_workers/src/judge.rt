ghost use Rattle.std.specs.Prelude.{◌≡◌, ◌<◌, if◌then◌else◌, map, IfOk, None, Some};
ghost use Rattle.std.specs.Arc.{arc_value};
ghost use Rattle.serial_pass.specs.Plans.{predecessors};
ghost use Rattle.serial_pass.specs.Results.{all_outs};
ghost use Rattle.visit_workers.specs.Passes.{IsPass, result_of, AreInsOf};
ghost use Rattle.visit_workers.specs.Settled.{outcomes};
ghost use Rattle.visit_workers.specs.Verdicts.{verdict_result};

use crate::pass::Pass;
use crate::verdict::Verdict;
use bp_faults::{NodeId, OutOfMemory};
use bp_ports::Gate;
use pass_core::{Published, Visit, VisitError};
use serial_pass::laws::results_meet_their_equation;
use std::sync::Arc;

/// Puts what they made into a list, as far as they are done, and tells whether all of them are. What the list held
/// before is dropped, and its memory serves again.
fn all_done<O: Drop>(ins: &[Arc<Published<O>>], outs: &mut Vec<Arc<O>>) -> Result<bool, OutOfMemory>
    ensures { IfOk result (λ all. (if all then Some (map arc_value outs.new.items) else None)
        ≡ all_outs (outcomes ins.now)) }
{
    outs.clear();
    for published in ins {
        match &**published {
            Published::Done(shared) => outs.push(Arc::try_clone(shared)?)?,
            _ => return Ok(false),
        }
    }
    Ok(true)
}

/// The verdict on a node, by what its predecessors came to. The gate is entered before a visit that is made. The list
/// serves to hand over what they made, whatever it holds.
pub fn judge<V: Visit, G: Gate>(
    pass: &Pass<V, G>,
    n: NodeId,
    ins: &[Arc<Published<V::Out>>],
    outs: &mut Vec<Arc<V::Out>>,
) -> Result<Verdict<V::Out>, OutOfMemory>
    requires pass { IsPass (V.takes pass.now.visitor.now) pass.now }
    requires inside { n.0 < pass.now.plan.now.count }
    requires values { AreInsOf (V.meaning pass.now.visitor.now) pass.now n.0 ins.now }
    ensures { IfOk result (λ found. verdict_result found ≡ result_of (V.meaning pass.now.visitor.now) pass.now n.0) }
{
    results_meet_their_equation::<V::Out>();
    if !all_done(ins, outs)? {
        return Ok(Verdict::Poisoned);
    }
    pass.gate.enter(pass.number, n);
    match pass.visitor.visit(pass.alloc, n, outs.as_slice()) {
        Ok(out) => Ok(Verdict::Done(Arc::new(pass.alloc, out)?)),
        Err(VisitError::Bad(fault)) => Ok(Verdict::Bad(Box::new(pass.alloc, fault)?)),
        Err(VisitError::OutOfMemory) => Err(OutOfMemory),
    }
}
