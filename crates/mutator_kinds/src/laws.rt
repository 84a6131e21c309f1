//! What holds of both kinds, whatever the rule is: each law is the contract of a function that does nothing.

ghost use Rattle.mutator_kinds.specs.Laws.{OneTopDownOutcome, OneBottomUpOutcome};
ghost use Rattle.mutator_kinds.specs.Laws.{SomeTopDownOutcome, SomeBottomUpOutcome, TopDownKeeps, BottomUpKeeps};

use module_graph::Variation;
use module_graph::laws::{plans_of_graphs_are_plans, valid_plans_have_no_cycle};
use mutator_rules::Split;
use serial_pass::laws::{
    at_most_one_outcome, one_outcome, outs_are_many, outs_meet_their_equation,
};
use variant_graphs::laws::{
    limits_tell, new_payloads_keep_modules, new_payloads_leave_axes_free, new_payloads_stay_valid,
    other_axes_stay_free, splits_keep_modules, splits_stay_valid,
};

/// A rule from the top down makes one thing of a graph, and no other.
pub fn one_top_down_outcome<P>()
    ensures { OneTopDownOutcome P }
{
    at_most_one_outcome::<P>();
}

/// A rule from the bottom up makes one thing of a graph, and no other.
pub fn one_bottom_up_outcome<P>()
    ensures { OneBottomUpOutcome P }
{
    at_most_one_outcome::<Split<P>>();
}

/// A rule from the top down makes something of every valid graph.
pub fn some_top_down_outcome<P>()
    ensures { SomeTopDownOutcome P }
{
    one_outcome::<P>();
    plans_of_graphs_are_plans::<P>();
    valid_plans_have_no_cycle::<P>();
}

/// A rule from the bottom up makes something of every valid graph.
pub fn some_bottom_up_outcome<P>()
    ensures { SomeBottomUpOutcome P }
{
    one_outcome::<Split<P>>();
    plans_of_graphs_are_plans::<P>();
    valid_plans_have_no_cycle::<P>();
    limits_tell::<P>();
}

/// The graph that a rule from the top down makes is fit for the next rule.
pub fn top_down_keeps<P>()
    ensures { TopDownKeeps P }
{
    new_payloads_stay_valid::<P>();
    new_payloads_keep_modules::<P>();
    new_payloads_leave_axes_free::<P>();
}

/// The graph that a rule from the bottom up makes is fit for the next rule.
pub fn bottom_up_keeps<P>()
    ensures { BottomUpKeeps P }
{
    outs_are_many::<Split<P>>();
    outs_meet_their_equation::<Split<P>>();
    plans_of_graphs_are_plans::<P>();
    valid_plans_have_no_cycle::<P>();
    splits_stay_valid::<P, (Variation, P)>();
    splits_keep_modules::<P, (Variation, P)>();
    other_axes_stay_free::<P, (Variation, P)>();
    new_payloads_stay_valid::<P>();
    new_payloads_keep_modules::<P>();
    new_payloads_leave_axes_free::<P>();
}
