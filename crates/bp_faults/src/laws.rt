//! What holds of places, of targets and of the limits: each law is the contract of a function that does nothing.
//!
//! The laws of phases hold of every relation, which no contract can say: `proofs/Phases.antt` has them.

ghost use Rattle.bp_faults.specs.Laws.{PlacesAreOrdered, TargetsAreOrdered};
ghost use Rattle.bp_faults.specs.Limits.{LimitsAreThese};

/// Places are ordered by file, line and column.
pub fn places_are_ordered()
    ensures { PlacesAreOrdered }
{}

/// Targets are ordered by their ranks.
pub fn targets_are_ordered()
    ensures { TargetsAreOrdered }
{}

/// Each constant of `limits` is the number that `specs/Limits.antt` writes out.
pub fn limits_are_these()
    ensures { LimitsAreThese }
{}
