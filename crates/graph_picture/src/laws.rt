//! What holds of every picture: each law is the contract of a function that does nothing.

ghost use Rattle.graph_picture.specs.Laws.{EachEdgeIsShownOnce, EachModuleHasOneCluster};
ghost use Rattle.graph_picture.specs.Laws.{EachVariantStandsOnce, OneReading, PrintedGraphsAreGraphs};

use module_graph::laws::variant_names_are_plain;

/// Each variant that is kept stands in the clusters once, and no other stands there.
pub fn each_variant_stands_once()
    ensures { EachVariantStandsOnce }
{}

/// A cluster shows variants of one module, and no two clusters show the same module.
pub fn each_module_has_one_cluster()
    ensures { EachModuleHasOneCluster }
{}

/// The edges of a graph are those of its variants, in order, and its whole picture shows them all.
pub fn each_edge_is_shown_once()
    ensures { EachEdgeIsShownOnce }
{}

/// A text is the text of at most one graph.
pub fn one_reading()
    ensures { OneReading }
{}

/// What is printed of a module graph is the text of its nodes as variants, and these are a graph.
pub fn printed_graphs_are_graphs<P>()
    ensures { PrintedGraphsAreGraphs P }
{
    // A law: the names of variants are plain.
    variant_names_are_plain();
}
