use bp_faults::{Fault, NodeId, OutOfMemory};
use std::alloc::{AllocError, AllocFailed};
use thiserror::Error;

/// Why a pass has no results.
#[derive(Debug, Drop, Error)]
pub enum PassError {
    /// The first node in serial order whose result isn't done, and its fault.
    #[error("a node has a fault")]
    At(NodeId, Fault),
    #[error("out of memory")]
    OutOfMemory,
}

impl From<OutOfMemory> for PassError {
    ghost use Rattle.std.specs.Prelude.{◌≡◌};
    ghost use Rattle.serial_pass.specs.declared.error.PassError.TheVariants.{OutOfMemory as Want};

    ghost from_gives = { λ _ error. error ≡ Want };

    fn from(_: OutOfMemory) -> Self {
        PassError::OutOfMemory
    }
}

impl From<AllocError> for PassError {
    ghost use Rattle.std.specs.Prelude.{◌≡◌};
    ghost use Rattle.serial_pass.specs.declared.error.PassError.TheVariants.{OutOfMemory as Want};

    ghost from_gives = { λ _ error. error ≡ Want };

    fn from(_: AllocError) -> Self {
        PassError::OutOfMemory
    }
}

impl<T: Drop> From<AllocFailed<T>> for PassError {
    ghost use Rattle.std.specs.Prelude.{◌≡◌};
    ghost use Rattle.serial_pass.specs.declared.error.PassError.TheVariants.{OutOfMemory as Want};

    ghost from_gives = { λ _ error. error ≡ Want };

    fn from(_: AllocFailed<T>) -> Self {
        PassError::OutOfMemory
    }
}
