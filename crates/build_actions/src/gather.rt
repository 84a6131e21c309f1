ghost use Rattle.std.specs.Prelude.{◌≡◌, [], ◌++◌, None, IfOk, OnOk, if◌then◌else◌, map, option_map, slice_get};
ghost use Rattle.std.specs.Arc.{arc_value};
ghost use Rattle.std.specs.List.{cons_option};

use crate::Actions;
use bp_faults::OutOfMemory;
use build_parts::push_some;
use std::sync::Arc;

// The result at an index, shared, where it is wanted and there.
fn shared(
    ins: &[Arc<Actions>],
    index: usize,
    wanted: bool,
) -> Result<Option<Arc<Actions>>, OutOfMemory>
    ensures { IfOk result (λ made. option_map arc_value made
        ≡ if wanted then option_map arc_value (slice_get ins.now index) else None) }
{
    if !wanted {
        return Ok(None);
    }
    match ins.get(index) {
        Some(made) => Ok(Some(made.clone()?)),
        None => Ok(None),
    }
}

/// Puts the result at an index at the end, where it is wanted and there.
pub fn push_result(
    given: &mut Vec<Arc<Actions>>,
    ins: &[Arc<Actions>],
    index: usize,
    wanted: bool,
) -> Result<(), OutOfMemory>
    ensures { OnOk result (map arc_value given.new.items
        ≡ map arc_value given.old.items
        ++ cons_option (if wanted then slice_get (map arc_value ins.now) index else None) []) }
{
    push_some(given, shared(ins, index, wanted)?)?;
    Ok(())
}
