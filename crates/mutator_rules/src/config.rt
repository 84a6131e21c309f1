use bp_faults::{Seq, Target};

/// The targets for which modules are built, in order. `TargetsDiffer` of `specs/Configs.antt` is a condition of the
/// calls that take one.
#[derive(Debug, Drop)]
pub struct Config {
    pub targets: Seq<Target>,
}
