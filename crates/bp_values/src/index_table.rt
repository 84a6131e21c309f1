ghost use Rattle.std.specs.Prelude.{◌≡◌, ℕ, List, None, Some, OnOk, if◌then◌else◌};
ghost use Rattle.std.specs.Str.{bytes_eq};
ghost use Rattle.bp_values.specs.IndexTable.{found_index};

use bp_faults::{OutOfMemory, Text};
use std::alloc::Global;
use std::collections::BTreeMap;

/// The indices of the names of a map.
#[derive(Drop)]
pub struct IndexTable {
    indices: BTreeMap<String, usize>,
}

impl IndexTable {
    pub fn new(alloc: Global) -> IndexTable
        ensures { (name : List ℕ) → found_index result name ≡ None }
    {
        IndexTable {
            indices: BTreeMap::new(alloc),
        }
    }

    pub fn index_of(&self, name: &Text) -> Option<usize>
        ensures { result ≡ found_index self.now name.now }
    {
        self.indices.get(name.as_str()).copied()
    }

    /// Puts a name at an index.
    pub fn put(&mut self, alloc: Global, name: &Text, index: usize) -> Result<(), OutOfMemory>
        ensures { OnOk result ((q : List ℕ)
            → found_index self.new q ≡ (if bytes_eq name.now q then Some index else found_index self.old q)) }
    {
        let key = String::from_str(alloc, name.as_str())?;
        self.indices.insert(key, index)?;
        Ok(())
    }
}
