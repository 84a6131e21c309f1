use bp_faults::{Seq, Text};
use module_graph::EdgeKind;

/// An edge to the variant of this number.
#[derive(Clone, Copy, Debug)]
pub struct Arrow {
    pub kind: EdgeKind,
    pub to: u32,
}

/// A variant of a module: both names as they are printed, and its edges in order.
#[derive(Debug, Drop)]
pub struct Variant {
    pub module: Text,
    pub variation: Text,
    pub edges: Seq<Arrow>,
}
