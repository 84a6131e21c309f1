ghost use Rattle.std.specs.Prelude.{◌≡◌, List, IfOk, take};

use crate::{Fault, Item, ModuleId, NodeId, OutOfMemory, Path, Place, Seq, Text};
use std::alloc::Global;

/// A value that can be copied, where memory can be had.
pub trait Payload: Sized {
    fn copy(&self, alloc: Global) -> Result<Self, OutOfMemory>
        ensures { IfOk result (λ copy. copy ≡ self.now) };
}

/// Copies each item. The copies have no spare room.
pub fn copy_all<P: Payload + Drop>(alloc: Global, items: &[P]) -> Result<Vec<P>, OutOfMemory>
    ensures { IfOk result (λ copies. copies.items ≡ items.now) }
{
    let mut copies = Vec::with_capacity(alloc, items.len())?;
    for item in items {
        copies.push(item.copy(alloc)?)?;
    }
    Ok(copies)
}

impl Payload for Text {
    fn copy(&self, alloc: Global) -> Result<Self, OutOfMemory> {
        Text::copy(self, alloc)
    }
}

impl Payload for Path {
    fn copy(&self, alloc: Global) -> Result<Self, OutOfMemory> {
        Path::copy(self, alloc)
    }
}

impl<P: Payload + Drop> Payload for Seq<P> {
    fn copy(&self, alloc: Global) -> Result<Self, OutOfMemory> {
        Ok(Seq::new(copy_all(alloc, self.as_slice())?))
    }
}

impl Payload for NodeId {
    fn copy(&self, _alloc: Global) -> Result<Self, OutOfMemory> {
        Ok(*self)
    }
}

impl Payload for ModuleId {
    fn copy(&self, _alloc: Global) -> Result<Self, OutOfMemory> {
        Ok(*self)
    }
}

impl Payload for Place {
    fn copy(&self, _alloc: Global) -> Result<Self, OutOfMemory> {
        Ok(*self)
    }
}

impl Payload for Item {
    fn copy(&self, alloc: Global) -> Result<Self, OutOfMemory> {
        Ok(Item {
            text: self.text.copy(alloc)?,
            at: self.at,
        })
    }
}

impl Payload for Fault {
    fn copy(&self, alloc: Global) -> Result<Self, OutOfMemory> {
        Ok(Fault {
            kind: self.kind,
            at: self.at,
            subject: self.subject.copy(alloc)?,
            chain: self.chain.copy(alloc)?,
        })
    }
}
