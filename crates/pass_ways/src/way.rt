use bp_faults::{NodeId, Text};

/// A line of an order file: the pass and the node that it names, if it is in the form, and its text.
#[derive(Debug, Drop)]
pub struct OrderLine {
    pub entry: Option<(u32, NodeId)>,
    pub text: Text,
}

/// The lines of an order file, and the number that its places have.
#[derive(Clone, Copy, Debug)]
pub struct OrderLines<'a> {
    pub lines: &'a [OrderLine],
    pub file: u32,
}

/// How each pass visits its nodes.
pub enum Way<'a, G> {
    /// On so many workers, each visit behind the gate.
    Workers { workers: u32, gate: &'a G },
    /// One visit after another, as the lines name them.
    Lines(OrderLines<'a>),
}

impl<'a, G> Drop for Way<'a, G> {
    fn drop(self) {
        match self {
            Way::Workers {
                workers: _workers,
                gate: _gate,
            } => {}
            Way::Lines(_lines) => {}
        }
    }
}
