use crate::Fault;
use std::alloc::{AllocError, AllocFailed};
use thiserror::Error;

/// Memory could not be had.
#[derive(Clone, Copy, Debug, Error)]
#[error("out of memory")]
pub struct OutOfMemory;

impl From<AllocError> for OutOfMemory {
    fn from(_: AllocError) -> Self {
        OutOfMemory
    }
}

impl<T: Drop> From<AllocFailed<T>> for OutOfMemory {
    fn from(_: AllocFailed<T>) -> Self {
        OutOfMemory
    }
}

/// Why a layer gives no value: the input has a fault, or memory could not be had.
///
/// The layers hand it on under names of their own, as `LexError`.
#[derive(Debug, Drop, Error)]
pub enum Refusal {
    #[error("the input has a fault")]
    Bad(Fault),
    #[error("out of memory")]
    OutOfMemory,
}

impl From<OutOfMemory> for Refusal {
    ghost use Rattle.std.specs.Prelude.{◌≡◌};
    ghost use Rattle.bp_faults.specs.declared.refusal.Refusal.TheVariants.{OutOfMemory as Want};

    ghost from_gives = { λ _ refusal. refusal ≡ Want };

    fn from(_: OutOfMemory) -> Self {
        Refusal::OutOfMemory
    }
}

impl From<AllocError> for Refusal {
    ghost use Rattle.std.specs.Prelude.{◌≡◌};
    ghost use Rattle.bp_faults.specs.declared.refusal.Refusal.TheVariants.{OutOfMemory as Want};

    ghost from_gives = { λ _ refusal. refusal ≡ Want };

    fn from(_: AllocError) -> Self {
        Refusal::OutOfMemory
    }
}

impl<T: Drop> From<AllocFailed<T>> for Refusal {
    ghost use Rattle.std.specs.Prelude.{◌≡◌};
    ghost use Rattle.bp_faults.specs.declared.refusal.Refusal.TheVariants.{OutOfMemory as Want};

    ghost from_gives = { λ _ refusal. refusal ≡ Want };

    fn from(_: AllocFailed<T>) -> Self {
        Refusal::OutOfMemory
    }
}
