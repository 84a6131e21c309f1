use bp_faults::{NodeId, Seq};
use module_graph::Graph;
use mutator_rules::Request;

/// The graph after a pass, the order in which the pass visited the nodes of the old graph, and what the nodes of the
/// new graph ask for.
#[derive(Drop)]
pub struct PassGraph<P> {
    pub graph: Graph<P>,
    pub order: Seq<NodeId>,
    pub asked: Seq<(NodeId, Request)>,
}
