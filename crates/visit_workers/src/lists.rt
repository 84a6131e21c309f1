use pass_core::Published;
use std::alloc::Global;
use std::sync::Arc;

/// The lists that a worker fills for a node and whose memory serves again for the next: what it fetched, and what the
/// predecessors made. What they hold between two nodes says nothing.
#[derive(Drop)]
pub struct Lists<O> {
    pub fetched: Vec<Arc<Published<O>>>,
    pub outs: Vec<Arc<O>>,
}

impl<O: Drop> Lists<O> {
    /// Lists without memory. The first nodes with predecessors make it.
    pub fn new(alloc: Global) -> Lists<O> {
        Lists {
            fetched: Vec::new(alloc),
            outs: Vec::new(alloc),
        }
    }
}
