use bp_faults::{Fault, NodeId, OutOfMemory};
use thiserror::Error;

/// Why a pass that is run some way has no results.
#[derive(Debug, Drop, Error)]
pub enum WayError {
    /// The first node in serial order whose result isn't done, and its fault.
    #[error("a node has a fault")]
    At(NodeId, Fault),
    /// The way can't end the pass.
    #[error("the pass is refused")]
    Refused(Fault),
    #[error("out of memory")]
    OutOfMemory,
}

impl From<OutOfMemory> for WayError {
    ghost use Rattle.std.specs.Prelude.{◌≡◌};
    ghost use Rattle.pass_ways.specs.declared.error.WayError.TheVariants.{OutOfMemory as Want};

    ghost from_gives = { λ _ error. error ≡ Want };

    fn from(_: OutOfMemory) -> Self {
        WayError::OutOfMemory
    }
}
