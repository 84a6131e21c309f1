use crate::Variations;
use bp_faults::{ModuleId, NodeId, Place, Seq};

/// Why a node depends on another.
#[derive(Clone, Copy, Debug, PartialEq, Eq)]
pub enum EdgeKind {
    Defaults,
    Whole,
    Static,
    Shared,
    Header,
    DataBin,
    Sources,
}

/// An edge to the node `to`, asked for at a place in a file.
#[derive(Clone, Copy, Debug, PartialEq, Eq)]
pub struct Edge {
    pub kind: EdgeKind,
    pub to: NodeId,
    pub at: Place,
}

/// A variant of a module, and what it depends on, in order.
#[derive(Debug, Drop)]
pub struct Node<P> {
    pub module: ModuleId,
    pub vars: Variations,
    pub payload: P,
    pub edges: Seq<Edge>,
}

/// The nodes, numbered from 0.
#[derive(Debug, Drop)]
pub struct Graph<P> {
    pub nodes: Seq<Node<P>>,
}
