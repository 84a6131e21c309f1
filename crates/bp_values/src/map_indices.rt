ghost use Rattle.std.specs.Prelude.{◌≡◌, ◌==◌, ℕ, None, OnOk, if◌then◌else◌};
ghost use Rattle.std.specs.BTreeMap.{get};
ghost use Rattle.std.specs.Ordering.{nat_cmp};

use crate::index_table::IndexTable;
use bp_faults::OutOfMemory;
use std::collections::BTreeMap;

/// The indices of the names of a map, and what is known of the maps that stand in it, by their indices.
#[derive(Drop)]
pub struct MapIndices {
    pub names: IndexTable,
    pub below: BTreeMap<usize, MapIndices>,
}

/// Keeps what is known of the value at an index, if anything is.
pub fn keep_below(
    below: &mut BTreeMap<usize, MapIndices>,
    index: usize,
    indices: Option<MapIndices>,
) -> Result<(), OutOfMemory>
    requires { get nat_cmp below.old index ≡ None }
    ensures { OnOk result
        ((i : ℕ) → get nat_cmp below.new i ≡ (if i == index then indices else get nat_cmp below.old i)) }
{
    if let Some(indices) = indices {
        below.insert(index, indices)?;
    }
    Ok(())
}
