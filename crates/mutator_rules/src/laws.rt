//! What holds of the edges that lead to a node: each law is the contract of a function that does nothing.

ghost use Rattle.mutator_rules.specs.Laws.{PredecessorsAreArrivals, ArrivalsComeFromNodes};

use module_graph::laws::predecessors_are_sources;

/// From the top down a node's predecessors are the sources of its arrivals.
pub fn predecessors_are_arrivals<P>()
    ensures { PredecessorsAreArrivals P }
{
    predecessors_are_sources::<P>();
}

/// The sources of arrivals are nodes.
pub fn arrivals_come_from_nodes<P>()
    ensures { ArrivalsComeFromNodes P }
{}
