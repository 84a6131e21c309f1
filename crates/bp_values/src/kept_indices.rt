ghost use Rattle.std.specs.Prelude.{◌≡◌, ℕ, List, None, IfOk, OnOk, if◌then◌else◌};
ghost use Rattle.std.specs.Str.{bytes_eq};
ghost use Rattle.bp_values.specs.KeptIndices.{kept_for};

use crate::map_indices::MapIndices;
use bp_faults::OutOfMemory;
use std::alloc::Global;
use std::collections::BTreeMap;

/// The indices of the names of maps and of the maps in them, by the variables that were extended.
#[derive(Drop)]
pub struct KeptIndices<'a> {
    known: BTreeMap<&'a str, Option<MapIndices>>,
}

impl<'a> KeptIndices<'a> {
    pub fn new(alloc: Global) -> KeptIndices<'a>
        ensures { (name : List ℕ) → kept_for result name ≡ None }
    {
        KeptIndices {
            known: BTreeMap::new(alloc),
        }
    }

    /// Keeps the indices for a variable, if there are any. Those that it had are handed back.
    pub fn keep(
        &mut self,
        variable: &'a str,
        indices: Option<MapIndices>,
    ) -> Result<Option<MapIndices>, OutOfMemory>
        ensures had { IfOk result (λ had. had ≡ kept_for self.old variable.now) }
        ensures kept { OnOk result ((name : List ℕ)
            → kept_for self.new name ≡ (if bytes_eq variable.now name then indices else kept_for self.old name)) }
    {
        match self.known.insert(variable, indices)? {
            Some(had) => Ok(had),
            None => Ok(None),
        }
    }
}
