ghost use Rattle.std.specs.Prelude.{◌≡◌};
ghost use Rattle.bp_props.specs.Meaning.{names_module};

use bp_faults::{Item, OutOfMemory, Payload};
use std::alloc::Global;

/// A source: a path, or the name of a module that gives its sources, as `:name` asks for it.
#[derive(Debug, Drop, PartialEq)]
pub struct Source {
    pub named: bool,
    pub item: Item,
}

impl Source {
    /// Whether it is the name of a module. Else it is a path.
    pub fn names_module(&self) -> bool
        ensures { result ≡ names_module self.now }
    {
        self.named
    }
}

impl Payload for Source {
    fn copy(&self, alloc: Global) -> Result<Self, OutOfMemory> {
        Ok(Source {
            named: self.names_module(),
            item: self.item.copy(alloc)?,
        })
    }
}
