//! What holds of every rule of a form: each law is the contract of a function that does nothing.

ghost use Rattle.module_rules.specs.Laws.{UnsplitResultsDiffer, AskersDoNotSplit, RenewalsDoNotSplit};
ghost use Rattle.module_rules.specs.Laws.{SplitResultsDiffer};
ghost use Rattle.module_rules.specs.Idle.{LeavesAllByEach};

/// A result of a rule without an axis has one variant, so its variations differ.
pub fn unsplit_results_differ()
    ensures { UnsplitResultsDiffer }
{}

/// The variations differ of what a rule answers that asks.
pub fn askers_do_not_split()
    ensures { AskersDoNotSplit }
{}

/// The variations differ of what a rule answers that makes a new record.
pub fn renewals_do_not_split()
    ensures { RenewalsDoNotSplit }
{}

/// The variations differ of what a rule answers that splits, where those that it makes of each node do.
pub fn split_results_differ()
    ensures { SplitResultsDiffer }
{}

/// A rule that leaves each node as it is leaves all of a graph.
pub fn leaves_all_by_each()
    ensures { LeavesAllByEach }
{}
