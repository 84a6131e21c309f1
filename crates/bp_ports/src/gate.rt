use bp_faults::NodeId;

/// What stands before each visit of a pass. It answers nothing and changes nothing that the run sees.
pub trait Gate {
    /// Called before the visit of node `n` in the pass with this number.
    fn enter(&self, pass: u32, n: NodeId);
}

/// A gate that lets everything in at once.
#[derive(Clone, Copy, Debug)]
pub struct OpenGate;

impl Gate for OpenGate {
    fn enter(&self, _pass: u32, _n: NodeId) {}
}
