ghost use Rattle.std.specs.Prelude.{◌≡◌, ◌≤◌, ◌<◌, ℕ, [], length, option_map, is_some, IfOk, OnOk, None, Some, IsSome};
ghost use Rattle.bp_values.specs.Values.{meaning};
ghost use Rattle.bp_values.specs.Meaning.{with_new, with_other};
ghost use Rattle.bp_values.specs.Scopes.{pairs_of, value_in, count_of, outer_pairs, HasOuter};

use crate::Value;
use crate::seed::Seed;
use crate::value::{copy_value, weight_of, weight_of_text};
use bp_faults::{OutOfMemory, Text};
use indexmap::IndexMap;
use std::alloc::Global;
use std::hash::DefaultHasher;

/// Names and their values, in the order in which the names were first set: those that a file inherits, and its own
/// behind them. Contracts see the list of its pairs.
#[derive(Drop)]
pub struct Scope {
    values: IndexMap<Text, Value, Seed>,
}

impl Scope {
    /// A scope without names.
    pub fn empty(alloc: Global) -> Result<Scope, OutOfMemory>
        ensures { IfOk result (λ scope. pairs_of scope ≡ []) }
    {
        let hasher = DefaultHasher::new();
        Scope::seeded(alloc, Seed { hasher }, 0)
    }

    /// A scope without names, where those that are set will be found by a seed. It has room for so many names at once,
    /// so that their table needn't grow.
    pub fn seeded(alloc: Global, seed: Seed, room: usize) -> Result<Scope, OutOfMemory>
        ensures { IfOk result (λ scope. pairs_of scope ≡ []) }
    {
        Ok(Scope {
            values: IndexMap::with_capacity_and_hasher(alloc, room, seed)?,
        })
    }

    /// The value of a name.
    pub fn get(&self, name: &Text) -> Option<&Value>
        ensures { option_map (λ v. meaning v.now) result ≡ value_in (pairs_of self.now) name.now }
    {
        self.values.get(name)
    }

    /// How many names it has.
    pub fn len(&self) -> usize
        ensures { result ≡ count_of self.now }
    {
        self.values.len()
    }

    /// A copy is made in about the time in which so many bytes of files are evaluated.
    pub fn weight(&self) -> usize {
        let mut sum: usize = 0;
        for (name, value) in self.values.iter() {
            sum = sum
                .saturating_add(weight_of_text(name))
                .saturating_add(weight_of(value));
        }
        sum
    }

    /// A copy, in which names are found by the same seed.
    pub fn copy(&self, alloc: Global) -> Result<Scope, OutOfMemory>
        ensures { IfOk result (λ scope. pairs_of scope ≡ pairs_of self.now) }
    {
        let mut copy = Scope::seeded(alloc, *self.values.hasher(), self.values.len())?;
        for (name, value) in self.values.iter() {
            copy.set(alloc, name, copy_value(alloc, value)?)?;
        }
        Ok(copy)
    }

    /// The scope of the names that were set first, so many of them.
    pub fn outer(self, count: usize) -> Scope
        ensures pairs { pairs_of result ≡ outer_pairs count self }
        ensures outer { HasOuter count self result }
        ensures count { count ≤ count_of self → count_of result ≡ count }
    {
        let Scope { mut values } = self;
        values.truncate(count);
        Scope { values }
    }

    /// Whether a name is one of those that were set first, so many of them.
    pub(crate) fn has_outer(&self, name: &Text, count: usize) -> bool
        ensures { result ≡ is_some (value_in (outer_pairs count self.now) name.now) }
    {
        match self.values.get_index_of(name) {
            Some(index) => index < count,
            None => false,
        }
    }

    /// Sets a name that has no value.
    pub(crate) fn set(
        &mut self,
        alloc: Global,
        name: &Text,
        value: Value,
    ) -> Result<(), OutOfMemory>
        requires { value_in (pairs_of self.old) name.now ≡ None }
        ensures { OnOk result (pairs_of self.new ≡ with_new (pairs_of self.old) name.now (meaning value)) }
    {
        self.values.insert(name.copy(alloc)?, value)?;
        Ok(())
    }

    /// Gives a name that has a value another one. The old one is handed back.
    pub(crate) fn replace(
        &mut self,
        alloc: Global,
        name: &Text,
        value: Value,
    ) -> Result<Value, OutOfMemory>
        requires { IsSome (value_in (pairs_of self.old) name.now) }
        ensures pairs { OnOk result (pairs_of self.new ≡ with_other (pairs_of self.old) name.now (meaning value)) }
        ensures old { IfOk result (λ old. Some (meaning old) ≡ value_in (pairs_of self.old) name.now) }
    {
        match self.values.insert(name.copy(alloc)?, value)? {
            Some(old) => Ok(old),
            None => Ok(Value::Bool(false)),
        }
    }
}
