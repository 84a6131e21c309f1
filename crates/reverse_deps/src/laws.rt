//! What holds of all requests: each law is the contract of a function that does nothing.

ghost use Rattle.reverse_deps.specs.Laws.{OneOutcome, SomeOutcome, AppliedKeeps, NodesForAreLeast};
ghost use Rattle.reverse_deps.specs.Laws.{NothingAskedKeeps};

use module_graph::laws::{at_most_one_cycle_meaning, one_cycle_meaning, same_means_equal};

/// Requests make one thing of a graph, and no other.
pub fn one_outcome<P>()
    ensures { OneOutcome P }
{
    at_most_one_cycle_meaning::<P>();
}

/// Whatever the nodes of a graph ask for makes something of it.
pub fn some_outcome<P>()
    ensures { SomeOutcome P }
{
    one_cycle_meaning::<P>();
}

/// The graph that it makes of a valid one is fit for the next mutator.
pub fn applied_keeps<P>()
    ensures { AppliedKeeps P }
{}

/// The node that is found is the least of its module with the wanted variations, and none is found where there is none.
pub fn nodes_for_are_least<P>()
    ensures { NodesForAreLeast P }
{
    same_means_equal();
}

/// Where nothing is asked, a valid graph within the limit on edges stays as it is.
pub fn nothing_asked_keeps<P>()
    ensures { NothingAskedKeeps P }
{}
