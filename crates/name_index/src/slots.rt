ghost use Rattle.std.specs.Prelude.{◌≡◌, ℕ, ◌+◌, ◌∷◌, ◌++◌, List, [], length, IfOk, OnOk, OnErr, slice_get, bit_and};
ghost use Rattle.std.specs.Option.{option_map};
ghost use Rattle.name_index.specs.Keys.{key_of};
ghost use Rattle.name_index.specs.Slots.{is_free, names_of, by_owner, number_by, FindsBySlots, HasRoomFor};

use crate::key::key_of;
use bp_faults::OutOfMemory;
use bp_names::NameTable;
use std::alloc::Global;

/// How many slots there are at first.
const FIRST_SLOTS: usize = 64;

/// How many names can own slots.
const MOST_NAMES: usize = 4_294_967_295;

/// For each slot the name that owns it, and a table of the names whose slots are owned by others. The last bits of a
/// name's key are its slot.
#[derive(Debug, Drop)]
pub struct Slots<'a> {
    /// For each slot the index of its owner plus 1, or 0 where it is free.
    pub marks: Vec<u32>,
    /// The bits of a key that are its slot.
    pub mask: u64,
    pub others: NameTable<'a>,
}

fn name_at<'a>(names: &[(&'a str, u32)], index: usize) -> Option<(&'a str, u32)>
    ensures { result ≡ slice_get names.now index }
{
    names.get(index).copied()
}

/// The number of a name by the owner of its slot, if there is one.
fn by_owner(owner: Option<(&str, u32)>, others: &NameTable<'_>, name: &str) -> Option<u32>
    ensures { result ≡ by_owner (option_map (λ o. (o.0.now, o.1)) owner.entry) others.now name.now }
{
    match owner {
        None => others.number_of(name),
        Some((owner, number)) => {
            if name != owner {
                return others.number_of(name);
            }
            Some(number)
        }
    }
}

impl<'a> Slots<'a> {
    /// So many free slots, which are a power of two, or none. No slots take no memory.
    pub fn free(alloc: Global, count: usize) -> Result<Slots<'a>, OutOfMemory>
        ensures found { IfOk result (λ slots. FindsBySlots slots.mask slots.marks.items [] slots.others) }
        ensures many { IfOk result (λ slots. length slots.marks.items ≡ count) }
    {
        Ok(Slots {
            marks: vec![in alloc; 0; count]?,
            mask: (count as u64).saturating_sub(1),
            others: NameTable::new(alloc),
        })
    }

    /// So many slots for some names.
    pub fn of(
        alloc: Global,
        count: usize,
        names: &[(&'a str, u32)],
    ) -> Result<Slots<'a>, OutOfMemory>
        ensures found { IfOk result (λ slots. FindsBySlots slots.mask slots.marks.items (names_of names.now)
            slots.others) }
        ensures many { IfOk result (λ slots. length slots.marks.items ≡ count) }
    {
        let mut slots = Slots::free(alloc, count)?;
        for (index, (name, number)) in names.iter().enumerate() {
            slots.place(key_of(name), index, name, *number)?;
        }
        Ok(slots)
    }

    fn mark_at(&self, slot: usize) -> Option<u32>
        ensures { result ≡ slice_get self.now.marks.items slot }
    {
        self.marks.get(slot).copied()
    }

    fn is_free(&self, slot: usize) -> bool
        ensures { result ≡ is_free (slice_get self.now.marks.items slot) }
    {
        self.mark_at(slot) == Some(0)
    }

    /// Puts the name behind all others into its slot, or into the table where the slot isn't free.
    pub fn place(
        &mut self,
        key: u64,
        index: usize,
        name: &'a str,
        number: u32,
    ) -> Result<(), OutOfMemory>
        requires { key ≡ key_of name.now }
        ensures placed { (names : List (List ℕ × ℕ)) → index ≡ length names
            → FindsBySlots self.old.mask self.old.marks.items names self.old.others
            → OnOk result (FindsBySlots self.new.mask self.new.marks.items (names ++ (name.now, number) ∷ [])
            self.new.others) }
        ensures many { length self.new.marks.items ≡ length self.old.marks.items }
        ensures err { OnErr result (self.new ≡ self.old) }
    {
        if index >= MOST_NAMES {
            return Err(OutOfMemory);
        }
        let slot = (key & self.mask) as usize;
        if self.is_free(slot) {
            self.marks[slot] = index as u32 + 1;
        } else {
            self.others.learn(name, number)?;
        }
        Ok(())
    }

    /// There are at least four slots for each of the names and one more: where there are fewer, each name is put into
    /// its slot among four times as many.
    pub fn make_room(&mut self, alloc: Global, names: &[(&'a str, u32)]) -> Result<(), OutOfMemory>
        requires found { FindsBySlots self.old.mask self.old.marks.items (names_of names.now) self.old.others }
        requires room { HasRoomFor (length names.now) self.old.marks.items }
        ensures found { OnOk result (FindsBySlots self.new.mask self.new.marks.items (names_of names.now)
            self.new.others) }
        ensures room { OnOk result (HasRoomFor (length names.now + 1) self.new.marks.items) }
        ensures err { OnErr result (self.new ≡ self.old) }
    {
        let slots = self.marks.len();
        if names.len() >= slots / 4 {
            let more = slots.saturating_mul(4).max(FIRST_SLOTS);
            *self = Slots::of(alloc, more, names)?;
        }
        Ok(())
    }

    /// The number of a name, where the slots and the table have all of some names.
    pub fn number_of(&self, names: &[(&str, u32)], key: u64, name: &str) -> Option<u32>
        ensures { result ≡ number_by (slice_get self.now.marks.items (bit_and key self.now.mask)) (names_of names.now)
            self.now.others name.now }
    {
        match self.mark_at((key & self.mask) as usize) {
            None => self.others.number_of(name),
            Some(0) => None,
            Some(mark) => {
                let owner = name_at(names, (mark as usize).saturating_sub(1));
                by_owner(owner, &self.others, name)
            }
        }
    }
}
