use bp_faults::{Fault, OutOfMemory};
use mutator_rules::KindError;
use pass_ways::WayError;
use thiserror::Error;

/// Why a step that is run some way gives no graph.
#[derive(Debug, Drop, Error)]
pub enum StepError {
    /// The way doesn't fit the pass.
    #[error("the way of a pass is refused")]
    Refused(Fault),
    /// The rule gives no graph.
    #[error("a pass gives no graph")]
    Kind(KindError),
}

impl From<KindError> for StepError {
    ghost use Rattle.std.specs.Prelude.{◌≡◌};
    ghost use Rattle.variant_graphs.specs.declared.error.StepError.TheVariants.{Kind as OfKind};

    ghost from_gives = { λ was error. error ≡ OfKind was };

    fn from(was: KindError) -> Self {
        StepError::Kind(was)
    }
}

impl From<OutOfMemory> for StepError {
    ghost use Rattle.std.specs.Prelude.{◌≡◌};
    ghost use Rattle.mutator_rules.specs.declared.error.KindError.TheVariants.{OutOfMemory as Want};
    ghost use Rattle.variant_graphs.specs.declared.error.StepError.TheVariants.{Kind as OfKind};

    ghost from_gives = { λ _ error. error ≡ OfKind Want };

    fn from(_: OutOfMemory) -> Self {
        StepError::Kind(KindError::OutOfMemory)
    }
}

impl From<WayError> for StepError {
    ghost use Rattle.std.specs.Prelude.{◌≡◌};
    ghost use Rattle.variant_graphs.specs.Steps.{step_error};

    ghost from_gives = { λ was error. error ≡ step_error was };

    fn from(was: WayError) -> Self {
        match was {
            WayError::At(n, fault) => StepError::Kind(KindError::At(n, fault)),
            WayError::Refused(fault) => StepError::Refused(fault),
            WayError::OutOfMemory => StepError::Kind(KindError::OutOfMemory),
        }
    }
}
