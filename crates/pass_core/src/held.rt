ghost use Rattle.std.specs.Prelude.{◌≡◌, ◌<◌, ◌≤◌, ◌+◌, ◌-◌, length, map, take, drop, slice_index};
ghost use Rattle.std.specs.Prelude.{IfOk, OnOk, OnErr, IsTrue};
ghost use Rattle.std.specs.Option.{option_map};
ghost use Rattle.std.specs.Arc.{arc_value};
ghost use Rattle.pass_core.specs.CoreKept.{held_outs, PublishesLast};
ghost use Rattle.serial_pass.specs.Results.{judged_result};
ghost use Rattle.pass_core.specs.Shown.{published_result};

use crate::published::Published;
use bp_faults::{NodeId, OutOfMemory};
use serial_pass::{Visit, VisitError};
use std::alloc::Global;
use std::sync::Arc;

/// What some edges hold, if each holds a result that is done.
fn gather_held<O: Drop>(
    alloc: Global,
    held: &[Option<Published<O>>],
) -> Result<Option<Vec<Arc<O>>>, OutOfMemory>
    ensures { IfOk result (λ r. option_map (λ ins. map arc_value ins.items) r ≡ held_outs held.now) }
{
    let mut ins = Vec::new(alloc);
    for result in held {
        let Some(published) = result else {
            return Ok(None);
        };
        match published {
            Published::Done(out) => ins.push(Arc::try_clone(out)?)?,
            Published::Bad(_) => return Ok(None),
            Published::Poisoned => return Ok(None),
        }
    }
    Ok(Some(ins))
}

/// What the edges into a node hold.
pub fn held_by<'a, 'b, T>(held: &'a [T], starts: &'b [u32], n: NodeId) -> &'a [T]
    requires rises { slice_index starts.now n.0 ≤ slice_index starts.now (n.0 + 1) }
    requires ends { slice_index starts.now (n.0 + 1) ≤ length held.now }
    requires inside { n.0 + 1 < length starts.now }
    ensures { result.now ≡ take (slice_index starts.now (n.0 + 1) - slice_index starts.now n.0)
        (drop (slice_index starts.now n.0) held.now) }
{
    let begin = starts[n.0 as usize] as usize;
    let end = starts[n.0 as usize + 1] as usize;
    &held[begin..end]
}

/// What the visit of a node makes of what its in-edges hold. It is poisoned where one of these isn't done.
pub fn visit_held<V: Visit>(
    alloc: Global,
    v: &V,
    n: NodeId,
    held: &[Option<Published<V::Out>>],
) -> Result<Published<V::Out>, OutOfMemory>
    requires { V.takes v.now n.0 (length held.now) }
    ensures { IfOk result (λ p. published_result p ≡ judged_result (V.meaning v.now n.0) (held_outs held.now)) }
{
    let Some(ins) = gather_held(alloc, held)? else {
        return Ok(Published::Poisoned);
    };
    match v.visit(alloc, n, &ins) {
        Ok(out) => Ok(Published::Done(Arc::new(alloc, out)?)),
        Err(VisitError::Bad(fault)) => Ok(Published::Bad(fault)),
        Err(VisitError::OutOfMemory) => Err(OutOfMemory),
    }
}

/// Publishes what the visit of a node makes, where its last in-edge is fetched.
pub fn publish_last<V: Visit>(
    alloc: Global,
    v: &V,
    n: NodeId,
    held: &[Option<Published<V::Out>>],
    last: bool,
    published: &mut Vec<Option<Published<V::Out>>>,
) -> Result<(), OutOfMemory>
    requires takes { V.takes v.now n.0 (length held.now) }
    requires inside { n.0 < length published.old.items }
    ensures done { OnOk result (PublishesLast (IsTrue last) n.0
        (judged_result (V.meaning v.now n.0) (held_outs held.now)) published.old.items published.new.items) }
    ensures unchanged { OnErr result (published.new.items ≡ published.old.items) }
{
    if last {
        published[n.0 as usize] = Some(visit_held(alloc, v, n, held)?);
    }
    Ok(())
}
