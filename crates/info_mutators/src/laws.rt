//! What holds of every answer of the rules: each law is the contract of a function that does nothing.

ghost use Rattle.info_mutators.specs.Laws.{InfoDoesNotSplit, OwnVariationsDiffer, InfoHoldsNodes, ExportsAreIncluded};

use module_rules::laws::unsplit_results_differ;

/// The variations differ of what `info` answers, since there is one.
pub fn info_does_not_split()
    ensures { InfoDoesNotSplit }
{
    unsplit_results_differ();
}

/// The variations that a node has by itself under `sanitize` differ.
pub fn own_variations_differ()
    ensures { OwnVariationsDiffer }
{}

/// Where the records of a node's dependencies hold nodes of the graph, so does its own.
pub fn info_holds_nodes()
    ensures { InfoHoldsNodes }
{}

/// Each directory that a module exports is one that its sources are compiled with.
pub fn exports_are_included()
    ensures { ExportsAreIncluded }
{}
