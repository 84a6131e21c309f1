ghost use Rattle.std.specs.Prelude.{◌≡◌, IfOk};
ghost use Rattle.module_rules.specs.Found.{no_lists};

use bp_faults::{NodeId, OutOfMemory, Path, Payload, Seq};
use std::alloc::Global;

/// The lists that `info` gathers at a node.
#[derive(Debug, Drop)]
pub struct Lists {
    pub exports: Seq<Path>,
    pub includes: Seq<Path>,
    pub line: Seq<NodeId>,
    pub slibs: Seq<NodeId>,
}

impl Lists {
    /// Lists with nothing in them. They take no memory.
    pub fn empty(alloc: Global) -> Lists
        ensures { result ≡ no_lists }
    {
        Lists {
            exports: Seq::new(Vec::new(alloc)),
            includes: Seq::new(Vec::new(alloc)),
            line: Seq::new(Vec::new(alloc)),
            slibs: Seq::new(Vec::new(alloc)),
        }
    }
}

impl Payload for Lists {
    fn copy(&self, alloc: Global) -> Result<Self, OutOfMemory> {
        Ok(Lists {
            exports: self.exports.copy(alloc)?,
            includes: self.includes.copy(alloc)?,
            line: self.line.copy(alloc)?,
            slibs: self.slibs.copy(alloc)?,
        })
    }
}
