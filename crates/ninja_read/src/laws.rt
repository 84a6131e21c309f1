//! What follows from the definition of reading: each law is the contract of a function without a body.
ghost use Rattle.ninja_read.specs.Laws.{OutsDiffer};

/// A text that is read names no out twice.
pub fn a_text_names_no_output_twice()
    ensures { OutsDiffer }
{}
