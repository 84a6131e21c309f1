//! What holds of all nodes, variations, names of variants and numbered items: each law is the contract of a function
//! that does nothing.

ghost use Rattle.graph_nodes.specs.Laws.{OneMoreItem, EdgesStandAtTheirNode, VariantNamesArePlain, SameMeansEqual};

/// One item more adds its own piece.
pub fn one_more_item<X, A>()
    ensures { OneMoreItem X A }
{}

/// The edges at a node's number are the node's.
pub fn edges_stand_at_their_node<P>()
    ensures { EdgesStandAtTheirNode P }
{}

/// A variant's name holds no `/`, no space and no other special character.
pub fn variant_names_are_plain()
    ensures { VariantNamesArePlain }
{}

/// The test of two variations tells whether they are equal.
pub fn same_means_equal()
    ensures { SameMeansEqual }
{}
