ghost use Rattle.std.specs.Prelude.{◌≡◌, ◌≤◌, ◌<◌, suc, length, drop, IfOk};
ghost use Rattle.serial_pass.specs.Outcomes.{TakesPlan};
ghost use Rattle.serial_pass.specs.Plans.{IsPlan, HasNoCycle};
ghost use Rattle.pass_ways.specs.Inside.{IsTaken, RefusesWith};
ghost use Rattle.pass_ways.specs.OrderFiles.{IsRefused, Say, stopped_at};
ghost use Rattle.pass_ways.specs.Ways.{AnswersBy};

use crate::error::WayError;
use crate::way::{OrderLine, OrderLines};
use crate::way_run::WayRun;
use bp_faults::{Fault, FaultKind, NodeId, OutOfMemory, Place, Seq};
use pass_core::{OrderError, Plan, Visit, run_order};
use std::alloc::Global;

/// The nodes that the first lines name of a pass, as many as are wanted.
pub fn nodes_of(
    alloc: Global,
    lines: &[OrderLine],
    pass: u32,
    most: u32,
) -> Result<Vec<NodeId>, OutOfMemory>
    ensures { IfOk result (λ order. IsTaken lines.now pass most order.items) }
{
    let mut order = Vec::new(alloc);
    for line in lines {
        if order.len() == most as usize {
            return Ok(order);
        }
        match line.entry {
            Some((other, n)) if other == pass => order.push(n)?,
            _ => return Ok(order),
        }
    }
    Ok(order)
}

/// The lines from an index on.
pub fn lines_from(lines: &[OrderLine], index: usize) -> &[OrderLine]
    requires { index ≤ length lines.now }
    ensures { result.now ≡ drop index lines.now }
{
    &lines[index..]
}

/// The refusal at a line that isn't legal, or behind the last.
pub fn refusal_at(alloc: Global, lines: &OrderLines<'_>, index: usize) -> WayError
    requires inside { index ≤ length lines.now.lines.now }
    requires few { length lines.now.lines.now < 4294967295 }
    ensures { RefusesWith (stopped_at lines.now.file (suc index) (drop index lines.now.lines.now)) result }
{
    let at = Place {
        file: lines.file,
        line: index as u32 + 1,
        col: 1,
    };
    let Some(line) = lines.lines.get(index) else {
        return WayError::Refused(Fault::at(alloc, FaultKind::OrderEnds, at));
    };
    match line.text.copy(alloc) {
        Ok(text) => WayError::Refused(Fault::on(alloc, FaultKind::NotReady, at, text)),
        Err(OutOfMemory) => WayError::OutOfMemory,
    }
}

/// Visits the nodes of a pass in the order in which the lines behind the visits before it name them.
pub fn run_along<V: Visit>(
    alloc: Global,
    lines: &OrderLines<'_>,
    before: &[(u32, NodeId)],
    pass: u32,
    plan: &Plan,
    v: &V,
) -> Result<WayRun<V::Out>, WayError>
    requires plan { IsPlan plan.now }
    requires free { HasNoCycle plan.now.edges }
    requires takes { TakesPlan (V.takes v.now) plan.now }
    requires few { length lines.now.lines.now < 4294967295 }
    requires follows { Say lines.now.lines.now before.now }
    ensures { AnswersBy (Say lines.now.lines.now) (IsRefused lines.now.lines.now lines.now.file)
        (V.meaning v.now) plan.now pass before.now result }
{
    let made = before.len();
    let order = nodes_of(alloc, lines_from(lines.lines, made), pass, plan.count)?;
    match run_order(alloc, plan, v, &order) {
        Ok(outs) => Ok(WayRun {
            outs,
            order: Seq::new(order),
        }),
        Err(OrderError::At(n, fault)) => Err(WayError::At(n, fault)),
        Err(OrderError::NotReady(index)) => Err(refusal_at(alloc, lines, made + index as usize)),
        Err(OrderError::Ends(index)) => Err(refusal_at(alloc, lines, made + index as usize)),
        Err(OrderError::OutOfMemory) => Err(WayError::OutOfMemory),
    }
}
