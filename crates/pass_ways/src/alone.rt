ghost use Rattle.serial_pass.specs.Outcomes.{TakesPlan};
ghost use Rattle.serial_pass.specs.Plans.{IsPlan, HasNoCycle};
ghost use Rattle.pass_ways.specs.Inside.{AnswersAlone};

use crate::deep::deep_order;
use crate::error::WayError;
use crate::way_run::WayRun;
use bp_faults::{NodeId, Seq};
use bp_ports::Gate;
use pass_core::{
    OrderError, PassError, Plan, Visit, VisitError, run_order, run_serial, serial_order, starts_of,
};
use serial_pass::laws::serial_order_is_legal;
use std::alloc::Global;
use std::sync::Arc;

/// A visitor behind a gate, which is entered before each visit.
struct Gated<'a, 'b, V, G> {
    visitor: &'a V,
    gate: &'b G,
    pass: u32,
}

impl<'a, 'b, V, G> Drop for Gated<'a, 'b, V, G> {
    fn drop(self) {
        let Self {
            visitor: _,
            gate: _,
            pass: _,
        } = self;
    }
}

impl<'a, 'b, V: Visit, G: Gate> Visit for Gated<'a, 'b, V, G> {
    type Out = V::Out;

    ghost meaning = { λ v. V.meaning v.visitor.now };

    ghost takes = { λ v. V.takes v.visitor.now };

    fn visit(&self, alloc: Global, n: NodeId, ins: &[Arc<V::Out>]) -> Result<V::Out, VisitError> {
        self.gate.enter(self.pass, n);
        self.visitor.visit(alloc, n, ins)
    }
}

/// Visits the nodes in serial order.
fn run_in_serial_order<V: Visit>(
    alloc: Global,
    plan: &Plan,
    v: &V,
) -> Result<WayRun<V::Out>, WayError>
    requires plan { IsPlan plan.now }
    requires free { HasNoCycle plan.now.edges }
    requires takes { TakesPlan (V.takes v.now) plan.now }
    ensures { AnswersAlone (V.meaning v.now) plan.now result }
{
    serial_order_is_legal();
    let order = serial_order(alloc, plan)?;
    match run_serial(alloc, plan, v) {
        Ok(outs) => Ok(WayRun {
            outs,
            order: Seq::new(order),
        }),
        Err(PassError::At(n, fault)) => Err(WayError::At(n, fault)),
        Err(PassError::OutOfMemory) => Err(WayError::OutOfMemory),
    }
}

/// Visits the nodes one after another on the caller's thread, each behind the gate.
///
/// There is no board and no ticket. The order is made by a search in depth; the serial order stands in for one that
/// isn't legal, of which none is known.
pub fn run_alone<V: Visit, G: Gate>(
    alloc: Global,
    gate: &G,
    pass: u32,
    plan: &Plan,
    v: &V,
) -> Result<WayRun<V::Out>, WayError>
    requires plan { IsPlan plan.now }
    requires free { HasNoCycle plan.now.edges }
    requires takes { TakesPlan (V.takes v.now) plan.now }
    ensures { AnswersAlone (V.meaning v.now) plan.now result }
{
    let gated = Gated {
        visitor: v,
        gate,
        pass,
    };
    let starts = starts_of(alloc, plan)?;
    let order = deep_order(alloc, plan, &starts)?;
    match run_order(alloc, plan, &gated, &order) {
        Ok(outs) => Ok(WayRun {
            outs,
            order: Seq::new(order),
        }),
        Err(OrderError::At(n, fault)) => Err(WayError::At(n, fault)),
        Err(OrderError::OutOfMemory) => Err(WayError::OutOfMemory),
        Err(_) => run_in_serial_order(alloc, plan, &gated),
    }
}
