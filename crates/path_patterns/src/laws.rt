//! What holds of the limits: the law is the contract of a function that does nothing.

ghost use Rattle.path_patterns.specs.Laws.{LimitsAreThese};

/// Each constant of `limits` is the number that `specs/Laws.antt` writes out.
pub fn limits_are_these()
    ensures { LimitsAreThese }
{}
