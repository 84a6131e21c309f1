//! A board of ready counters: a pass over a plan by several seats at once, on atomic words.
//!
//! A board has a counter for each node, of the in-edges that are left, and a slot for each edge, in which
//! the result of its source waits. A seat claims a node whose counter is 0, fetches what waits in its
//! in-edges, draws the node's ticket once it is visited, fills its out-edges, and subtracts them from the
//! counters of their targets. A plan and a visitor flow in; a receipt flows out, which holds a legal order
//! of the nodes.
//!
//! It is measured by `IsBoard` in `specs/Meaning.antt`, which holds between any two steps, and by `core_of`
//! in `specs/Shows.antt`, the core state that a board shows: each step of a seat is one step of pass_core's
//! `Core`, or none.
#![tactic(auto)]

mod board;
mod claim;
pub mod laws;
mod play;
mod receipt;
mod rule;
mod seat;
mod view;
mod words;

pub use board::Board;
pub use claim::Claim;
pub use receipt::Receipt;
pub use seat::Seat;
