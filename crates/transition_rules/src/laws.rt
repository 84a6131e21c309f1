//! What holds of every transition: each law is the contract of a function that does nothing.

ghost use Rattle.transition_rules.specs.Laws.{WantsMeetTheirEquation, WantsSplit, OneTransition};
ghost use Rattle.transition_rules.specs.Laws.{OneMutateOutcome, OneWantsOutcome};
ghost use Rattle.transition_rules.specs.Laws.{SomeMutateOutcome, SomeWantsOutcome, MutateKeeps, WantsKeep};
ghost use Rattle.transition_rules.specs.Laws.{OthersAreThoseWanted, OthersRise, OthersStandBySpelling, SpellingsDiffer};

use bp_faults::Seq;
use module_graph::Variation;
use module_graph::laws::{plans_of_graphs_are_plans, same_means_equal, valid_plans_have_no_cycle};
use mutator_rules::laws::predecessors_are_arrivals;
use serial_pass::laws::{
    at_most_one_outcome, one_outcome, outs_are_many, outs_meet_their_equation,
};
use variant_graphs::laws::{
    limits_tell, new_payloads_keep_modules, new_payloads_leave_axes_free, new_payloads_stay_valid,
    other_axes_stay_free, splits_keep_modules, splits_stay_valid,
};

/// The variations of a node by those of its dependents.
pub fn wants_meet_their_equation<P>()
    ensures { WantsMeetTheirEquation P }
{
    outs_meet_their_equation::<Seq<Variation>>();
    plans_of_graphs_are_plans::<P>();
    valid_plans_have_no_cycle::<P>();
    predecessors_are_arrivals::<P>();
}

/// The variants of the nodes are a split, and no edge is dropped.
pub fn wants_split<P>()
    ensures { WantsSplit P }
{
    outs_are_many::<Seq<Variation>>();
    wants_meet_their_equation::<P>();
    same_means_equal();
}

/// The first step of a transition comes to at most one thing.
pub fn one_wants_outcome<P>()
    ensures { OneWantsOutcome P }
{
    at_most_one_outcome::<Seq<Variation>>();
}

/// The second step of a transition comes to at most one thing.
pub fn one_mutate_outcome<P>()
    ensures { OneMutateOutcome P }
{
    at_most_one_outcome::<P>();
}

/// A transition rule makes at most one thing of a graph.
pub fn one_transition<P>()
    ensures { OneTransition P }
{
    at_most_one_outcome::<P>();
    at_most_one_outcome::<Seq<Variation>>();
}

/// The first step of a transition comes to something for every valid graph.
pub fn some_wants_outcome<P>()
    ensures { SomeWantsOutcome P }
{
    one_outcome::<Seq<Variation>>();
    plans_of_graphs_are_plans::<P>();
    valid_plans_have_no_cycle::<P>();
    limits_tell::<P>();
}

/// So does the second step.
pub fn some_mutate_outcome<P>()
    ensures { SomeMutateOutcome P }
{
    one_outcome::<P>();
    plans_of_graphs_are_plans::<P>();
    valid_plans_have_no_cycle::<P>();
}

/// The graph of the variants is fit for the next rule.
pub fn wants_keep<P>()
    ensures { WantsKeep P }
{
    wants_split::<P>();
    splits_stay_valid::<P, Variation>();
    splits_keep_modules::<P, Variation>();
    other_axes_stay_free::<P, Variation>();
}

/// The graph with the new payloads is fit for the next rule.
pub fn mutate_keeps<P>()
    ensures { MutateKeeps P }
{
    new_payloads_stay_valid::<P>();
    new_payloads_keep_modules::<P>();
    new_payloads_leave_axes_free::<P>();
}

/// The wanted variations of a node stand by their spelling.
pub fn others_stand_by_spelling()
    ensures { OthersStandBySpelling }
{}

/// The wanted variations of a node are those that it doesn't have by itself.
pub fn others_are_those_wanted()
    ensures { OthersAreThoseWanted }
{
    same_means_equal();
}

/// A spelling tells variations apart.
pub fn spellings_differ()
    ensures { SpellingsDiffer }
{}

/// Each of the wanted variations is spelled before the later ones.
pub fn others_rise()
    ensures { OthersRise }
{
    same_means_equal();
}
