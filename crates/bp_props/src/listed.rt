ghost use Rattle.std.specs.Prelude.{◌≡◌, OnOk, OnErr, IfOk, [], ◌∷◌, ◌++◌};
ghost use Rattle.std.specs.Option.{unwrap_or};
ghost use Rattle.bp_faults.specs.declared.place.Place.{Place};
ghost use Rattle.bp_props.specs.Meaning.{list_merged, list_empty, kept_list, with_items};

use bp_faults::{OutOfMemory, Payload, Place, Seq};
use std::alloc::Global;
use std::marker::Model;

/// What a list keeps where it has an item or is set.
#[derive(Debug, Drop)]
pub struct Placed<T> {
    items: Seq<T>,
    at: Option<Place>,
}

/// A list, with the place of its entry where it is set. One that isn't set takes two words: a tag, and a pointer that
/// leads nowhere. Contracts see `items` and `at`.
#[derive(Debug, Drop)]
pub struct Listed<T> {
    placed: Option<Box<Placed<T>>>,
}

impl<T> Model for Listed<T> {
    ghost use Rattle.std.specs.Option.{option_map_or};
    ghost use Rattle.std.specs.Prelude.{box_value, None, []};
    ghost use Rattle.bp_props.specs.declared.listed.Placed.{Placed};

    ghost Value = { Placed T };

    ghost view = { λ l. option_map_or box_value l.placed (record { items = []; at = None }) };
}

// Puts a copy of each item at the end.
fn add_copies<T: Payload + Drop>(
    items: &mut Seq<T>,
    alloc: Global,
    more: &[T],
) -> Result<(), OutOfMemory>
    ensures { OnOk result (items.new ≡ items.old ++ more.now) }
{
    for item in more {
        items.push(item.copy(alloc)?)?;
    }
    Ok(())
}

impl<T> Listed<T> {
    /// A list that isn't set. It takes no memory.
    pub fn empty() -> Listed<T>
        ensures { result ≡ list_empty }
    {
        Listed { placed: None }
    }

    /// The items, in order.
    pub fn items(&self) -> &[T]
        ensures { result.now ≡ self.now.items }
    {
        match &self.placed {
            Some(placed) => placed.items.as_slice(),
            None => &[],
        }
    }

    /// The place of the entry, where the list is set.
    pub fn at(&self) -> Option<Place>
        ensures { result ≡ self.now.at }
    {
        match &self.placed {
            Some(placed) => placed.at,
            None => None,
        }
    }
}

impl<T: Drop> Listed<T> {
    /// A list of items, set at a place or not.
    pub fn new(alloc: Global, items: Seq<T>, at: Option<Place>) -> Result<Listed<T>, OutOfMemory>
        ensures { IfOk result (λ list. list ≡ record { items = items; at = at }) }
    {
        Ok(Listed {
            placed: Some(Box::new(alloc, Placed { items, at })?),
        })
    }

    /// Puts other items in place of these. The place stays.
    pub fn put_items(&mut self, alloc: Global, items: Seq<T>) -> Result<(), OutOfMemory>
        ensures ok { OnOk result (self.new ≡ with_items items self.old) }
        ensures err { OnErr result (self.new ≡ self.old) }
    {
        match &mut self.placed {
            Some(placed) => placed.items = items,
            None => *self = Listed::new(alloc, items, None)?,
        }
        Ok(())
    }

    /// Takes another list in place of this one, where one is given.
    pub(crate) fn replace(&mut self, made: Option<Listed<T>>)
        ensures { self.new ≡ unwrap_or made self.old }
    {
        if let Some(list) = made {
            *self = list;
        }
    }

    pub(crate) fn keep_if(&mut self, keeps: bool)
        ensures { self.new ≡ kept_list keeps self.old }
    {
        if !keeps {
            self.placed = None;
        }
    }

    /// Puts an item behind. The place stays.
    pub fn push(&mut self, alloc: Global, item: T) -> Result<(), OutOfMemory>
        ensures ok { OnOk result (self.new ≡ with_items (self.old.items ++ item ∷ []) self.old) }
        ensures err { OnErr result (self.new ≡ self.old) }
    {
        match &mut self.placed {
            Some(placed) => placed.items.push(item),
            None => {
                let mut items = Seq::new(Vec::with_capacity(alloc, 1)?);
                items.push(item)?;
                *self = Listed::new(alloc, items, None)?;
                Ok(())
            }
        }
    }
}

impl<T: Payload + Drop> Listed<T> {
    /// This list with the items of the other behind. None where there is nothing to put behind.
    pub(crate) fn merged(
        &self,
        alloc: Global,
        other: &Listed<T>,
    ) -> Result<Option<Listed<T>>, OutOfMemory>
        ensures { IfOk result (λ made. unwrap_or made self.now ≡ list_merged self.now other.now) }
    {
        match (&self.placed, &other.placed) {
            (_, None) => Ok(None),
            (None, Some(_)) => Ok(Some(other.copy(alloc)?)),
            (Some(first), Some(more)) => {
                let count = first.items.as_slice().len();
                let count = count.saturating_add(more.items.as_slice().len());
                let mut items = Seq::new(Vec::with_capacity(alloc, count)?);
                add_copies(&mut items, alloc, first.items.as_slice())?;
                add_copies(&mut items, alloc, more.items.as_slice())?;
                Ok(Some(Listed::new(alloc, items, first.at.or(more.at))?))
            }
        }
    }
}

impl<T: Payload + Drop> Payload for Listed<T> {
    fn copy(&self, alloc: Global) -> Result<Self, OutOfMemory> {
        match &self.placed {
            Some(placed) => Listed::new(alloc, placed.items.copy(alloc)?, placed.at),
            None => Ok(Listed::empty()),
        }
    }
}
