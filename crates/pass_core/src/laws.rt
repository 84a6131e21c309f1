//! What holds of every legal order and of the core machine: each law is the contract of a function that does nothing.

ghost use Rattle.pass_core.specs.OrderLaws.{LegalOrdersAgree, OneOrderOutcome};
ghost use Rattle.pass_core.specs.CoreLaws.{FilledHoldResults, NoStepTwice, ClaimedAfterInEdges, StepsAreEntries};
ghost use Rattle.pass_core.specs.CoreLaws.{FinishedByCount, NeverStuck, FinishedHasResults};

use serial_pass::laws::{
    at_most_one_outcome, predecessors_are_less, predecessors_are_nodes, results_meet_their_equation,
};

/// In the core machine each filled edge holds the result of its source.
pub fn filled_edges_hold_results<O>()
    ensures { FilledHoldResults O }
{
    results_meet_their_equation::<O>();
}

/// The core machine takes no step twice.
pub fn no_step_twice<O>()
    ensures { NoStepTwice O }
{}

/// The core machine claims a node after all its in-edges are subtracted.
pub fn claimed_after_in_edges<O>()
    ensures { ClaimedAfterInEdges O }
{
    results_meet_their_equation::<O>();
}

/// Every step of the core machine adds one entry.
pub fn steps_are_entries<O>()
    ensures { StepsAreEntries O }
{
    results_meet_their_equation::<O>();
}

/// The core machine is finished after n + 3 m steps and not before.
pub fn finished_by_count<O>()
    ensures { FinishedByCount O }
{
    results_meet_their_equation::<O>();
}

/// Where the core machine isn't finished some step is allowed.
pub fn never_stuck<O>()
    ensures { NeverStuck O }
{
    predecessors_are_nodes();
    predecessors_are_less();
    results_meet_their_equation::<O>();
}

/// A finished core machine has made the node results, whatever the order of its steps.
pub fn finished_has_results<O>()
    ensures { FinishedHasResults O }
{
    results_meet_their_equation::<O>();
}

/// Runs along any two legal orders come to the same.
pub fn legal_orders_agree<O>()
    ensures { LegalOrdersAgree O }
{
    at_most_one_outcome::<O>();
}

/// A run along a list of nodes comes to one thing alone.
pub fn one_order_outcome<O>()
    ensures { OneOrderOutcome O }
{
    at_most_one_outcome::<O>();
}
