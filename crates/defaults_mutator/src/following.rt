ghost use Rattle.std.specs.Prelude.{◌≡◌, IfOk, OnOk, length, map, option_copied};
ghost use Rattle.std.specs.Arc.{arc_value};
ghost use Rattle.defaults_mutator.specs.Inside.{one_record_more};
ghost use Rattle.defaults_mutator.specs.Merged.{record_along, records_followed, defaults_given};

use bp_faults::OutOfMemory;
use bp_props::Props;
use module_graph::{Edge, EdgeKind};
use module_rules::{Record, first_record};
use mutator_rules::Split;
use std::alloc::Global;
use std::sync::Arc;

/// The record that an edge gives, if it is of kind Defaults.
fn record_along<'a, 'm>(edge: &Edge, made: &'a Split<Record<'m>>) -> Option<&'a Record<'m>>
    ensures { option_copied result ≡ record_along (edge.now, made.now) }
{
    match edge.kind {
        EdgeKind::Defaults => first_record(made),
        _ => None,
    }
}

/// Takes one record more.
fn join(alloc: Global, all: &mut Option<Props>, one: &Record<'_>) -> Result<(), OutOfMemory>
    ensures { OnOk result (all.new ≡ one_record_more all.old one.now) }
{
    match all {
        Some(first) => one.put_behind(alloc, first),
        None => {
            *all = Some(one.to_props(alloc)?);
            Ok(())
        }
    }
}

/// The first of the records that edges of kind Defaults give, followed by the others.
pub fn followed(
    alloc: Global,
    edges: &[Edge],
    ins: &[Arc<Split<Record<'_>>>],
) -> Result<Option<Props>, OutOfMemory>
    requires { length ins.now ≡ length edges.now }
    ensures { IfOk result (λ all. all ≡ records_followed (defaults_given edges.now (map arc_value ins.now))) }
{
    let mut all = None;
    for (index, edge) in edges.iter().enumerate() {
        if let Some(one) = record_along(edge, &ins[index]) {
            join(alloc, &mut all, one)?;
        }
    }
    Ok(all)
}
