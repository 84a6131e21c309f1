use bp_faults::{NodeId, Seq};

/// An edge of a plan: `from` is visited before `to`.
#[derive(Clone, Copy, Debug, PartialEq, Eq)]
pub struct PlanEdge {
    pub from: NodeId,
    pub to: NodeId,
}

/// The nodes of a pass, numbered from 0, and what must be visited before what.
///
/// The edges stand by target, and those of one target in the order in which it receives them.
#[derive(Debug, Drop)]
pub struct Plan {
    pub count: u32,
    pub edges: Seq<PlanEdge>,
}
