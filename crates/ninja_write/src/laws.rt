//! What makes the definition of the text believable: each law is the contract of a function without a body.
ghost use Rattle.ninja_write.specs.Laws.{LinesAreLines, PathsAreGuarded, PathsStayApart, RuleValuesStayApart};
ghost use Rattle.ninja_write.specs.Laws.{ValuesStayApart};

/// No two paths have the same written form.
pub fn different_paths_are_written_differently()
    ensures { PathsStayApart }
{}

/// No two values of a variable have the same written form.
pub fn different_values_are_written_differently()
    ensures { ValuesStayApart }
{}

/// No two values of a rule's key have the same written form.
pub fn different_rule_values_are_written_differently()
    ensures { RuleValuesStayApart }
{}

/// The written form of a path holds no space, colon or dollar that isn't escaped.
pub fn written_paths_are_guarded()
    ensures { PathsAreGuarded }
{}

/// Each line of a text ends with LF, and no other LF is in it.
pub fn lines_hold_no_line_feed()
    ensures { LinesAreLines }
{}
