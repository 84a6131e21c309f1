//! What holds of all modules and configurations: each law is the contract of a function that does nothing.

ghost use Rattle.bp_pipeline.specs.Laws.{OneCourse, OneGraph, OneText, OneReplay, JournalsAreReplayed};
ghost use Rattle.bp_pipeline.specs.Laws.{FaultsAreReplayed, OneOrder, JournalTextsAreReplayed};
ghost use Rattle.bp_pipeline.specs.Laws.{EarlierGraphs, GraphsAreValid, SomeGraph, SomeOrder, SomeReplay, SomeText};
ghost use Rattle.bp_pipeline.specs.Ready.{SomeStep};

use bp_props::Props;
use build_actions::Actions;
use info_mutators::laws::own_variations_differ;
use linkage_mutator::laws::{link_variants_differ, source_variants_differ};
use module_graph::laws::{plans_of_graphs_are_plans, valid_plans_have_no_cycle};
use mutator_kinds::laws::{
    bottom_up_keeps, one_bottom_up_outcome, one_top_down_outcome, some_bottom_up_outcome,
    some_top_down_outcome, top_down_keeps,
};
use mutator_rules::Split;
use order_text::laws::{journals_are_read_back, one_lines, some_lines};
use pass_ways::laws::{lines_say_one_order, one_refusal, parts_are_short, refused_have_no_order};
use reverse_deps::laws::{applied_keeps, one_outcome, some_outcome};
use serial_pass::laws::{at_most_one_outcome, outs_are_many};
use target_mutators::laws::{image_variants_differ, target_variants_differ};
use transition_rules::laws::{
    mutate_keeps, one_mutate_outcome, one_wants_outcome, some_mutate_outcome, some_wants_outcome,
    wants_keep,
};

/// The first passes come to one graph or one fault, since each pass does.
pub fn one_course()
    ensures { OneCourse }
{
    one_bottom_up_outcome::<Props>();
    one_top_down_outcome::<Props>();
    one_wants_outcome::<Props>();
    one_mutate_outcome::<Props>();
    one_outcome::<Props>();
}

/// The first mutators come to one graph or one fault.
pub fn one_graph()
    ensures { OneGraph }
{
    one_course();
}

/// Modules have one text or one fault.
pub fn one_text()
    ensures { OneText }
{
    one_course();
    at_most_one_outcome::<Actions>();
}

/// Lines are replayed to one text or one fault.
pub fn one_replay()
    ensures { OneReplay }
{
    one_course();
    at_most_one_outcome::<Actions>();
    lines_say_one_order();
    refused_have_no_order();
    one_refusal();
}

/// A legal journal is replayed to the text of the job, and to nothing else.
pub fn journals_are_replayed()
    ensures { JournalsAreReplayed }
{
    one_replay();
}

/// Lines that end a pass with a fault are replayed to that fault, and to nothing else.
pub fn faults_are_replayed()
    ensures { FaultsAreReplayed }
{
    one_replay();
}

/// An order file is replayed to one text or one fault.
pub fn one_order()
    ensures { OneOrder }
{
    one_lines();
    one_replay();
}

/// The text of a legal journal is replayed to the text of the job, and to nothing else.
pub fn journal_texts_are_replayed()
    ensures { JournalTextsAreReplayed }
{
    journals_are_read_back();
    journals_are_replayed();
}

/// Each pass makes of a graph that is ready for it a fault, or a graph that is ready for the next pass.
fn some_step()
    ensures { SomeStep }
{
    some_bottom_up_outcome::<Props>();
    bottom_up_keeps::<Props>();
    some_top_down_outcome::<Props>();
    top_down_keeps::<Props>();
    some_wants_outcome::<Props>();
    wants_keep::<Props>();
    some_mutate_outcome::<Props>();
    mutate_keeps::<Props>();
    some_outcome::<Props>();
    applied_keeps::<Props>();
    outs_are_many::<Split<Props>>();
    target_variants_differ();
    image_variants_differ();
    link_variants_differ();
    source_variants_differ();
    own_variations_differ();
}

/// The first mutators come to a graph or a fault, since each pass does. The graph is valid.
pub fn some_graph()
    ensures some { SomeGraph }
    ensures valid { GraphsAreValid }
{
    one_graph();
    some_step();
}

/// Where the first mutators come to a graph, fewer of them do.
pub fn earlier_graphs()
    ensures { EarlierGraphs }
{}

/// All mutators and actions come to a text or a fault, since each pass does.
pub fn some_text()
    ensures { SomeText }
{
    some_graph();
    plans_of_graphs_are_plans::<Props>();
    valid_plans_have_no_cycle::<Props>();
    serial_pass::laws::one_outcome::<Actions>();
}

/// Lines are replayed to a text or a fault, since they say a legal order of each pass or are refused in it.
pub fn some_replay()
    ensures { SomeReplay }
{
    parts_are_short();
    some_step();
    plans_of_graphs_are_plans::<Props>();
    valid_plans_have_no_cycle::<Props>();
    serial_pass::laws::one_outcome::<Actions>();
}

/// An order file is replayed to a text or a fault.
pub fn some_order()
    ensures { SomeOrder }
{
    some_lines();
    some_replay();
}
