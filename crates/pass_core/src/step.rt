use bp_faults::{NodeId, OutOfMemory};
use std::alloc::AllocError;
use thiserror::Error;

/// What may happen next in a pass. Edges are named by their indices in the plan, from 0.
#[derive(Clone, Copy, Debug, PartialEq, Eq)]
pub enum Step {
    /// The node is claimed. Without in-edges its visit is made.
    Claim(NodeId),
    /// The target of the edge takes what the edge holds. After its last in-edge its visit is made.
    Fetch(u32),
    /// The edge holds the result of its source.
    Fill(u32),
    /// The target of the edge waits for one edge less.
    Subtract(u32),
}

/// Why a step wasn't taken.
#[derive(Debug, Drop, Error, PartialEq)]
pub enum StepError {
    #[error("the step isn't allowed")]
    NotAllowed(Step),
    #[error("out of memory")]
    OutOfMemory,
}

impl From<OutOfMemory> for StepError {
    ghost use Rattle.std.specs.Prelude.{◌≡◌};
    ghost use Rattle.pass_core.specs.declared.step.StepError.TheVariants.{OutOfMemory as Want};

    ghost from_gives = { λ _ error. error ≡ Want };

    fn from(_: OutOfMemory) -> Self {
        StepError::OutOfMemory
    }
}

impl From<AllocError> for StepError {
    ghost use Rattle.std.specs.Prelude.{◌≡◌};
    ghost use Rattle.pass_core.specs.declared.step.StepError.TheVariants.{OutOfMemory as Want};

    ghost from_gives = { λ _ error. error ≡ Want };

    fn from(_: AllocError) -> Self {
        StepError::OutOfMemory
    }
}
