use bp_faults::{Fault, OutOfMemory, Refusal, Text};

/// Why a job gives no text.
#[derive(Debug, Drop)]
pub enum Stop {
    /// The input has a fault.
    Fault(Fault),
    /// The file of this path can't be read.
    Read(Text),
    OutOfMemory,
}

impl From<OutOfMemory> for Stop {
    ghost use Rattle.std.specs.Prelude.{◌≡◌};
    ghost use Rattle.bp_run.specs.declared.stop.Stop.TheVariants.{OutOfMemory as Want};

    ghost from_gives = { λ _ stop. stop ≡ Want };

    fn from(_: OutOfMemory) -> Self {
        Stop::OutOfMemory
    }
}

impl From<Refusal> for Stop {
    ghost use Rattle.std.specs.Prelude.{◌≡◌};
    ghost use Rattle.bp_run.specs.Steps.{stop_of};

    ghost from_gives = { λ refusal stop. stop ≡ stop_of refusal };

    fn from(refusal: Refusal) -> Self {
        match refusal {
            Refusal::Bad(fault) => Stop::Fault(fault),
            Refusal::OutOfMemory => Stop::OutOfMemory,
        }
    }
}
