use bp_faults::{Fault, NodeId, OutOfMemory};
use serial_pass::PassError;
use std::alloc::AllocError;
use thiserror::Error;

/// Why a run along a list of nodes has no results.
#[derive(Debug, Drop, Error)]
pub enum OrderError {
    /// The index from 0 of the first entry that is no node, was visited, or has an unvisited predecessor.
    #[error("an entry isn't ready")]
    NotReady(u32),
    /// The list ends before every node is visited. It has that many entries.
    #[error("the order ends early")]
    Ends(u32),
    /// The first node in serial order whose result isn't done, and its fault.
    #[error("a node has a fault")]
    At(NodeId, Fault),
    #[error("out of memory")]
    OutOfMemory,
}

impl From<OutOfMemory> for OrderError {
    ghost use Rattle.std.specs.Prelude.{◌≡◌};
    ghost use Rattle.pass_core.specs.declared.order_error.OrderError.TheVariants.{OutOfMemory as Want};

    ghost from_gives = { λ _ error. error ≡ Want };

    fn from(_: OutOfMemory) -> Self {
        OrderError::OutOfMemory
    }
}

impl From<AllocError> for OrderError {
    ghost use Rattle.std.specs.Prelude.{◌≡◌};
    ghost use Rattle.pass_core.specs.declared.order_error.OrderError.TheVariants.{OutOfMemory as Want};

    ghost from_gives = { λ _ error. error ≡ Want };

    fn from(_: AllocError) -> Self {
        OrderError::OutOfMemory
    }
}

impl From<PassError> for OrderError {
    ghost use Rattle.std.specs.Prelude.{◌≡◌};
    ghost use Rattle.pass_core.specs.PassAsOrder.{as_order};

    ghost from_gives = { λ given error. error ≡ as_order given };

    fn from(given: PassError) -> Self {
        match given {
            PassError::At(node, fault) => OrderError::At(node, fault),
            PassError::OutOfMemory => OrderError::OutOfMemory,
        }
    }
}
