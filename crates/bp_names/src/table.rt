ghost use Rattle.std.specs.Prelude.{◌≡◌, ◌<◌, ◌^◌, List, ℕ, [], map, length, IfOk, OnOk, OnErr, IsSome};
ghost use Rattle.std.specs.Ordering.{nat_cmp};
ghost use Rattle.std.specs.Cmp.Lexicographic.{slice_cmp};
ghost use Rattle.std.specs.List.Sorted.{IsStrictlySortedBy};
ghost use Rattle.bp_names.specs.Meaning.{number_of, LearnsNumber, NumbersFirst};

use crate::Named;
use bp_faults::OutOfMemory;
use std::alloc::Global;
use std::collections::BTreeMap;
use std::marker::Model;

/// A table of names. Contracts see it as the list of the names with their numbers, which ascend by the
/// bytes of the names.
#[derive(Debug, Drop)]
pub struct NameTable<'a> {
    numbers: BTreeMap<&'a str, u32>,
}

impl<'a> Model for NameTable<'a> {
    ghost use Rattle.std.specs.Prelude.{List, ℕ, map};

    ghost Value = { List (List ℕ × ℕ) };

    ghost view = { λ t. map (λ entry. (entry.0.now, entry.1)) t.numbers.entries };
}

impl<'a> NameTable<'a> {
    /// A table without names. It takes no memory.
    pub fn new(alloc: Global) -> NameTable<'a>
        ensures { result ≡ [] }
    {
        NameTable {
            numbers: BTreeMap::new(alloc),
        }
    }

    /// The table of some values: each name has the number of the first value with that name, from 0.
    pub fn of<T: Named>(alloc: Global, values: &'a [T]) -> Result<NameTable<'a>, OutOfMemory>
        requires { length values.now < 2 ^ 32 }
        ensures { IfOk result (λ table. NumbersFirst (map T.name values.now) table) }
    {
        let mut table = NameTable::new(alloc);
        for (number, value) in values.iter().enumerate() {
            table.learn(value.name(), number as u32)?;
        }
        Ok(table)
    }

    /// Gives a name a number, unless it has one. The number that it had.
    pub fn learn(&mut self, name: &'a str, number: u32) -> Result<Option<u32>, OutOfMemory>
        ensures had { IfOk result (λ had. had ≡ number_of self.old name.now) }
        ensures known { OnOk result (LearnsNumber self.old name.now number self.new) }
        ensures kept { IfOk result (λ had. IsSome had → self.new ≡ self.old) }
        ensures err { OnErr result (self.new ≡ self.old) }
    {
        let had = self.number_of(name);
        if had.is_none() {
            self.numbers.insert(name, number)?;
        }
        Ok(had)
    }

    /// The number of a name.
    pub fn number_of(&self, name: &str) -> Option<u32>
        ensures { result ≡ number_of self.now name.now }
    {
        self.numbers.get(name).copied()
    }

    /// How many names the table has.
    pub fn len(&self) -> usize
        ensures count { result ≡ length self.now }
        ensures ascend { IsStrictlySortedBy (slice_cmp nat_cmp) (map (λ entry. entry.0) self.now) }
    {
        self.numbers.len()
    }
}
