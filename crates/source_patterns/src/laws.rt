//! What makes the definition believable: the law is the contract of a function that does nothing.

ghost use Rattle.source_patterns.specs.Laws.{OneExpansion};

/// Modules expand to their expansion or a first fault, and that alone.
pub fn one_expansion()
    ensures { OneExpansion }
{}
