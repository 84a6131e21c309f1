/// What a claim of a node answers.
#[derive(Clone, Copy, PartialEq, Eq, Debug, Drop)]
pub enum Claim {
    /// The seat has the node now.
    Claimed,
    /// So many in-edges of the node were left.
    NotReady(u64),
    /// Some seat has the node already.
    Gone,
}
