use bp_faults::{Fault, OutOfMemory, Text};
use std::alloc::{AllocError, AllocFailed};
use thiserror::Error;

/// Why modules aren't expanded: a pattern has a fault, a directory couldn't be read, or memory ran out.
#[derive(Debug, Drop, Error)]
pub enum ExpandError {
    #[error("a pattern has a fault")]
    Bad(Fault),
    #[error("cannot read a directory")]
    Failed(Text),
    #[error("out of memory")]
    OutOfMemory,
}

impl From<OutOfMemory> for ExpandError {
    ghost use Rattle.std.specs.Prelude.{◌≡◌};
    ghost use Rattle.source_patterns.specs.declared.error.ExpandError.TheVariants.{OutOfMemory as Want};

    ghost from_gives = { λ _ error. error ≡ Want };

    fn from(_: OutOfMemory) -> Self {
        ExpandError::OutOfMemory
    }
}
