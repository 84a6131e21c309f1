//! What holds of every file: each law is the contract of a function that does nothing.

ghost use Rattle.build_actions.specs.Laws.{PassesMake, NoOutputTwice, NamesTellVariations, FilesAreWellFormed};

use crate::Actions;
use bp_props::Props;
use module_graph::laws::{predecessors_are_targets, variant_names_are_plain};
use serial_pass::laws::{
    outs_are_many, outs_meet_their_equation, predecessors_are_less, predecessors_are_nodes,
};

/// No output is named twice in the file of a graph whose nodes are told apart by their names.
pub fn no_output_twice()
    ensures { NoOutputTwice }
{
    variant_names_are_plain();
}

/// Two variants of a module have different names.
pub fn names_tell_variations()
    ensures { NamesTellVariations }
{}

/// A pass over a graph makes what is made at its nodes.
pub fn passes_make()
    ensures { PassesMake }
{
    outs_are_many::<Actions>();
    outs_meet_their_equation::<Actions>();
    predecessors_are_targets::<Props>();
}

/// The file of a graph is well formed.
pub fn files_are_well_formed()
    ensures { FilesAreWellFormed }
{
    no_output_twice();
    variant_names_are_plain();
    predecessors_are_nodes();
    predecessors_are_less();
    predecessors_are_targets::<Props>();
}
