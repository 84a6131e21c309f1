use crate::sizes::Sizes;
use bp_faults::NodeId;
use build_actions::Actions;
use module_rules::Record;
use std::sync::Arc;

/// What all passes made: what is done at the nodes of the last graph, by node number, the visits, the size of the graph
/// after each mutator, and the records of the last graph, which nobody needs any more.
#[derive(Drop)]
pub struct Ran<'m> {
    pub made: Vec<Arc<Actions>>,
    pub journal: Vec<(u32, NodeId)>,
    pub sizes: Vec<Sizes>,
    pub records: Vec<Record<'m>>,
}
