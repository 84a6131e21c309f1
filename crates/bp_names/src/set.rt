ghost use Rattle.std.specs.Prelude.{◌≡◌, List, ℕ, [], length, not, IfOk, OnOk, OnErr};
ghost use Rattle.std.specs.Ordering.{nat_cmp};
ghost use Rattle.std.specs.Cmp.Lexicographic.{slice_cmp};
ghost use Rattle.std.specs.List.Sorted.{IsStrictlySortedBy};
ghost use Rattle.std.specs.BTreeSet.{insert_key};
ghost use Rattle.bp_names.specs.Meaning.{knows, Learns};

use bp_faults::OutOfMemory;
use std::alloc::Global;
use std::collections::BTreeSet;
use std::marker::Model;

/// A set of names. Contracts see it as the list of the names, which ascend by their bytes.
#[derive(Debug, Drop)]
pub struct NameSet<'a> {
    names: BTreeSet<&'a str>,
}

impl<'a> Model for NameSet<'a> {
    ghost use Rattle.std.specs.Prelude.{List, ℕ, map};

    ghost Value = { List (List ℕ) };

    ghost view = { λ s. map (λ name. name.now) s.names.keys };
}

impl<'a> NameSet<'a> {
    /// A set without names. It takes no memory.
    pub fn new(alloc: Global) -> NameSet<'a>
        ensures { result ≡ [] }
    {
        NameSet {
            names: BTreeSet::new(alloc),
        }
    }

    /// Adds a name. Whether it is new.
    pub fn learn(&mut self, name: &'a str) -> Result<bool, OutOfMemory>
        ensures new { IfOk result (λ new. new ≡ not (knows self.old name.now)) }
        ensures known { OnOk result (Learns self.old name.now self.new) }
        ensures placed { OnOk result (self.new ≡ insert_key (slice_cmp nat_cmp) self.old name.now) }
        ensures err { OnErr result (self.new ≡ self.old) }
    {
        Ok(self.names.insert(name)?)
    }

    /// Whether the set has the name.
    pub fn knows(&self, name: &str) -> bool
        ensures { result ≡ knows self.now name.now }
    {
        self.names.contains(name)
    }

    /// How many names the set has.
    pub fn len(&self) -> usize
        ensures count { result ≡ length self.now }
        ensures ascend { IsStrictlySortedBy (slice_cmp nat_cmp) self.now }
    {
        self.names.len()
    }
}
