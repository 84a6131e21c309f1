//! What holds of all commands and files: each law is the contract of a function that does nothing.

ghost use Rattle.bp_run.specs.Laws.{OneOutcome, SomeListed, SomeOutcome, SomeEdited, HeadIsText};

use bp_format::laws::{one_edit, one_format};
use bp_load::laws::{one_list, one_load};
use bp_pipeline::laws::{earlier_graphs, one_graph, one_order, some_graph, some_order, some_text};
use build_actions::Actions;
use serial_pass::laws::at_most_one_outcome;
use synthetic_tree::laws::{one_tree, some_tree};

/// A command comes to one outcome, since each of its phases does.
pub fn one_outcome()
    ensures { OneOutcome }
{
    one_list();
    one_load();
    one_tree();
    one_graph();
    one_order();
    one_format();
    one_edit();
    at_most_one_outcome::<Actions>();
}

/// A sound command comes to an outcome, since each of its phases does: a text or a fault, over all files. Words give no
/// other configuration than a sound one, which is a clause of `configure`.
pub fn some_outcome()
    ensures listed { SomeListed }
    ensures outcome { SomeOutcome }
    ensures edited { SomeEdited }
{
    one_list();
    one_load();
    some_tree();
    some_graph();
    earlier_graphs();
    some_text();
    some_order();
    one_format();
    one_edit();
}

/// Every written text begins with the literal lines of the head.
pub fn head_is_text()
    ensures { HeadIsText }
{}
