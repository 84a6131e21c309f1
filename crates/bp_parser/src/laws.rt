//! What makes the meaning of words believable: each law is the contract of a function that does nothing.

ghost use Rattle.bp_parser.specs.Laws.{OneTree, SomeTreeOrFault, NotTreeAndFault, OneFault, OneMeaning};
ghost use Rattle.bp_parser.specs.Laws.{TreesHaveDistinctNames};
ghost use Rattle.bp_parser.specs.Laws.{SpelledDefinitionsAreTrees};

/// The words of a file have at most one tree.
pub fn one_tree()
    ensures { OneTree }
{}

/// Words have a tree or a first fault, and never both.
pub fn tree_or_fault()
    ensures either { SomeTreeOrFault }
    ensures never_both { NotTreeAndFault }
{}

/// Words have at most one first fault.
pub fn one_fault()
    ensures { OneFault }
{}

/// A text with its tokens has at most one meaning: its tree or its first fault.
pub fn one_meaning()
    ensures { OneMeaning }
{}

/// In the tree of words no map has a name twice, however deep it is.
pub fn names_of_a_map_differ()
    ensures { TreesHaveDistinctNames }
{}

/// Words that spell definitions have them as their tree, where the names of each map differ and no bracket is
/// nested too deeply.
pub fn spelled_definitions_are_trees()
    ensures { SpelledDefinitionsAreTrees }
{}
