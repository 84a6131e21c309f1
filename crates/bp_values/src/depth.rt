ghost use Rattle.std.specs.Prelude.{◌≡◌, map, nat_le};
ghost use Rattle.bp_faults.specs.Answers.{Answers};
ghost use Rattle.bp_values.specs.Values.{meaning, map_entry_of, map_entries_then, no_map_entry};
ghost use Rattle.bp_values.specs.Depths.{nested_entries, depth, depth_of_entries};

use crate::{Entry, EvalError, Value};
use bp_faults::limits::DEEPEST_NESTING;
use bp_faults::{Fault, FaultKind, Place};
use std::alloc::Global;

/// The entries, where their map is not too deep.
pub fn within_depth(alloc: Global, at: Place, entries: Vec<Entry>) -> Result<Vec<Entry>, EvalError>
    ensures { Answers (λ es. map map_entry_of es.items) result (nested_entries at (map map_entry_of entries.items)) }
{
    if are_within(entries.as_slice(), DEEPEST_NESTING - 1) {
        return Ok(entries);
    }
    Err(EvalError::Bad(Fault::at(alloc, FaultKind::TooNested, at)))
}

/// Whether a value's depth is within the limit.
#[cycle(depths)]
fn is_within(value: &Value, limit: usize) -> bool
    ensures { result ≡ nat_le (depth (meaning value.now)) limit }
{
    match value {
        Value::Map(entries) => limit > 0 && are_within(entries.as_slice(), limit - 1),
        _ => true,
    }
}

#[cycle(depths)]
fn are_within(entries: &[Entry], limit: usize) -> bool
    ensures { result ≡ nat_le (depth_of_entries (map_entries_then (map map_entry_of entries.now) no_map_entry)) limit }
{
    'entries: for entry in entries {
        if !is_within(&entry.value, limit) {
            return false;
        }
    }
    true
}
