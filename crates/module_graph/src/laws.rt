//! What holds of every graph and its plans, and the laws of `graph_nodes`: each law is the contract of a function that
//! does nothing.

ghost use Rattle.module_graph.specs.Laws.{NoneReturnsWhereNumberingRises, NoneReturnsWherePlansHaveNoCycle};
ghost use Rattle.module_graph.specs.Laws.{ValidPlansHaveNoCycle, PlansOfGraphsArePlans};
ghost use Rattle.module_graph.specs.Laws.{PredecessorsAreTargets, PredecessorsAreSources, InEdgesStayByTarget};
ghost use Rattle.module_graph.specs.Laws.{EdgesJoinNodes, OneMoreNode, TheCycleIsShortest};
ghost use Rattle.module_graph.specs.Laws.{ReportedWhereAWalkReturns, OneCycleMeaning, AtMostOneCycleMeaning};

use crate::Node;
pub use graph_nodes::laws::{
    edges_stand_at_their_node, one_more_item, same_means_equal, variant_names_are_plain,
};
use pass_core::PlanEdge;

/// No walk along some edges returns exactly where a numbering of the nodes rises along each of them.
pub fn none_returns_where_numbering_rises()
    ensures { NoneReturnsWhereNumberingRises }
{}

/// No walk in a graph returns exactly where its plans have no cycle.
pub fn none_returns_where_plans_have_no_cycle<P>()
    ensures { NoneReturnsWherePlansHaveNoCycle P }
{}

/// The plans of a valid graph have no cycle.
pub fn valid_plans_have_no_cycle<P>()
    ensures { ValidPlansHaveNoCycle P }
{}

/// From the bottom up a node's predecessors are the targets of its edges.
pub fn predecessors_are_targets<P>()
    ensures { PredecessorsAreTargets P }
{}

/// From the top down a node's predecessors are the sources of the edges that lead to it.
pub fn predecessors_are_sources<P>()
    ensures { PredecessorsAreSources P }
{}

/// A cycle is reported of a graph exactly where a walk returns.
pub fn reported_where_a_walk_returns<P>()
    ensures { ReportedWhereAWalkReturns P }
{}

/// The cycle rule says one thing of a graph.
pub fn one_cycle_meaning<P>()
    ensures { OneCycleMeaning P }
{}

/// No walk from the start of the reported cycle and back is shorter than the cycle.
pub fn the_cycle_is_shortest<P>()
    ensures { TheCycleIsShortest P }
{}

/// The cycle rule says at most one thing of any list of nodes.
pub fn at_most_one_cycle_meaning<P>()
    ensures { AtMostOneCycleMeaning P }
{}

/// The plan of a graph is a plan.
pub fn plans_of_graphs_are_plans<P>()
    ensures { PlansOfGraphsArePlans P }
{}

/// A node receives the same edges after a sort by target.
pub fn in_edges_stay_by_target()
    ensures { InEdgesStayByTarget }
{}

/// The edges of a graph join its nodes.
pub fn edges_join_nodes<P>()
    ensures { EdgesJoinNodes P }
{}

/// One node more adds its own edges.
pub fn one_more_node<P>()
    ensures { OneMoreNode P }
{
    one_more_item::<Node<P>, PlanEdge>();
}
