//! What holds of splits, of new payloads, of passes that make what is there and of the limits: each law is the
//! contract of a function that does nothing.

ghost use Rattle.variant_graphs.specs.Laws.{SplitsStayValid, SplitsKeepModules, OtherAxesStayFree, SplitsOfOneKeep};
ghost use Rattle.variant_graphs.specs.Laws.{NewPayloadsKeepPlans, NewPayloadsStayValid};
ghost use Rattle.variant_graphs.specs.Laws.{NewPayloadsKeepModules, NewPayloadsLeaveAxesFree};
ghost use Rattle.variant_graphs.specs.Laws.{IdlePassesMake, LimitsTell};

use module_graph::laws::{
    edges_join_nodes, none_returns_where_numbering_rises, plans_of_graphs_are_plans,
    valid_plans_have_no_cycle,
};
use serial_pass::laws::{one_solution, predecessors_are_nodes};

/// The graph after a split is valid where the old one was.
pub fn splits_stay_valid<P, B>()
    ensures { SplitsStayValid P B }
{
    edges_join_nodes::<P>();
    none_returns_where_numbering_rises();
}

/// The graph after a split is numbered, and its nodes are of the old modules.
pub fn splits_keep_modules<P, B>()
    ensures { SplitsKeepModules P B }
{}

/// A split along one axis leaves another as free as it was.
pub fn other_axes_stay_free<P, B>()
    ensures { OtherAxesStayFree P B }
{}

/// A split in which each node has one variant, as it was itself, keeps the graph.
pub fn splits_of_one_keep<P, B>()
    ensures { SplitsOfOneKeep P B }
{}

/// Where each node's meaning is what the node itself has, a pass makes that of each node.
pub fn idle_passes_make<P, O>()
    ensures { IdlePassesMake P O }
{
    one_solution::<O>();
    predecessors_are_nodes();
    plans_of_graphs_are_plans::<P>();
    valid_plans_have_no_cycle::<P>();
}

/// New payloads change no plan.
pub fn new_payloads_keep_plans<P>()
    ensures { NewPayloadsKeepPlans P }
{}

/// A valid graph is valid with new payloads.
pub fn new_payloads_stay_valid<P>()
    ensures { NewPayloadsStayValid P }
{}

/// With new payloads a graph is numbered, and its nodes are of the same modules.
pub fn new_payloads_keep_modules<P>()
    ensures { NewPayloadsKeepModules P }
{}

/// New payloads leave a free axis free.
pub fn new_payloads_leave_axes_free<P>()
    ensures { NewPayloadsLeaveAxesFree P }
{}

/// A graph is within the limits, or there is a first node or edge beyond.
pub fn limits_tell<P>()
    ensures { LimitsTell P }
{}
