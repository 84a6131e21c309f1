ghost use Rattle.std.specs.Prelude.{◌≡◌, ◌∷◌, ◌++◌, [], IfOk, OnOk, OnErr, IsSome};
ghost use Rattle.bp_names.specs.Meaning.{number_of, LearnsNumber};
ghost use Rattle.name_index.specs.Keys.{key_of};

use crate::key::key_of;
use crate::slots::Slots;
use bp_faults::OutOfMemory;
use bp_names::NameTable;
use std::alloc::Global;
use std::marker::Model;

/// An index of names: all names with their numbers, and slots by which they are found. Contracts see it as the list of
/// the names with their numbers.
#[derive(Debug, Drop)]
pub struct NameIndex<'a> {
    alloc: Global,
    names: Vec<(&'a str, u32)>,
    slots: Slots<'a>,
}

impl<'a> Model for NameIndex<'a> {
    ghost use Rattle.std.specs.Prelude.{List, ℕ, length};
    ghost use Rattle.name_index.specs.Slots.{names_of, FindsBySlots, HasRoomFor};

    ghost Value = { List (List ℕ × ℕ) };

    ghost view = { λ t. names_of t.names.items };

    ghost invariant = { λ t. FindsBySlots t.slots.mask t.slots.marks.items (names_of t.names.items) t.slots.others
        × HasRoomFor (length t.names.items) t.slots.marks.items };
}

impl<'a> NameIndex<'a> {
    /// An index without names. It takes no memory.
    pub fn new(alloc: Global) -> NameIndex<'a>
        ensures { result ≡ [] }
    {
        NameIndex {
            alloc,
            names: Vec::new(alloc),
            slots: Slots {
                marks: Vec::new(alloc),
                mask: 0,
                others: NameTable::new(alloc),
            },
        }
    }

    /// Adds a name.
    fn add(&mut self, key: u64, name: &'a str, number: u32) -> Result<(), OutOfMemory>
        requires { key ≡ key_of name.now }
        ensures added { OnOk result (self.new ≡ self.old ++ (name.now, number) ∷ []) }
        ensures err { OnErr result (self.new ≡ self.old) }
    {
        self.slots.make_room(self.alloc, &self.names)?;
        self.names.reserve(1)?;
        self.slots.place(key, self.names.len(), name, number)?;
        self.names.push((name, number))?;
        Ok(())
    }

    /// The number of a name with a key.
    fn number_by(&self, key: u64, name: &str) -> Option<u32>
        requires { key ≡ key_of name.now }
        ensures { result ≡ number_of self.now name.now }
    {
        self.slots.number_of(&self.names, key, name)
    }

    /// Gives a name a number, unless it has one. The number that it had.
    pub fn learn(&mut self, name: &'a str, number: u32) -> Result<Option<u32>, OutOfMemory>
        ensures had { IfOk result (λ had. had ≡ number_of self.old name.now) }
        ensures known { OnOk result (LearnsNumber self.old name.now number self.new) }
        ensures kept { IfOk result (λ had. IsSome had → self.new ≡ self.old) }
        ensures err { OnErr result (self.new ≡ self.old) }
    {
        let key = key_of(name);
        let had = self.number_by(key, name);
        if had.is_none() {
            self.add(key, name, number)?;
        }
        Ok(had)
    }

    /// The number of a name.
    pub fn number_of(&self, name: &str) -> Option<u32>
        ensures { result ≡ number_of self.now name.now }
    {
        self.number_by(key_of(name), name)
    }
}
