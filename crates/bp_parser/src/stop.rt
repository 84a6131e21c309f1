use crate::flaw::Flaw;
use bp_faults::OutOfMemory;
use std::alloc::{AllocError, AllocFailed};

/// Why the reading of words stops.
pub enum Stop {
    Bad(Flaw),
    OutOfMemory,
}

impl From<OutOfMemory> for Stop {
    ghost use Rattle.std.specs.Prelude.{◌≡◌};
    ghost use Rattle.bp_parser.specs.declared.stop.Stop.TheVariants.{OutOfMemory as Want};

    ghost from_gives = { λ _ stop. stop ≡ Want };

    fn from(_: OutOfMemory) -> Self {
        Stop::OutOfMemory
    }
}

impl From<AllocError> for Stop {
    ghost use Rattle.std.specs.Prelude.{◌≡◌};
    ghost use Rattle.bp_parser.specs.declared.stop.Stop.TheVariants.{OutOfMemory as Want};

    ghost from_gives = { λ _ stop. stop ≡ Want };

    fn from(_: AllocError) -> Self {
        Stop::OutOfMemory
    }
}

impl<T: Drop> From<AllocFailed<T>> for Stop {
    ghost use Rattle.std.specs.Prelude.{◌≡◌};
    ghost use Rattle.bp_parser.specs.declared.stop.Stop.TheVariants.{OutOfMemory as Want};

    ghost from_gives = { λ _ stop. stop ≡ Want };

    fn from(_: AllocFailed<T>) -> Self {
        Stop::OutOfMemory
    }
}
