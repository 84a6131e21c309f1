//! What holds of fault lines: each law is the contract of a function that does nothing.

ghost use Rattle.fault_view.specs.Laws.{FaultLinesSayFaults};

/// What bp_faults prints of a fault says that fault, where the path has no colon.
pub fn fault_lines_say_faults()
    ensures { FaultLinesSayFaults }
{}
