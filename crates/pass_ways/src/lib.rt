//! The way in which a pass visits its nodes: on several workers, or along the lines of an order file.
//!
//! A way, a plan and a visitor flow in, with the visits of the passes before; the visitor's results by node number and
//! the order of the visits flow out, or the fault of the first node in serial order that has none, or the way's own
//! refusal. It is measured by `AnswersWay` in `specs/Ways.antt`, over the outcome of a pass in pass_core. Where nothing
//! is made of the nodes, the order alone flows out, with the receipt of a board where several workers went; by
//! `AnswersIdle` in `specs/Idle.antt`.
#![tactic(auto)]

mod alone;
mod along;
mod deep;
mod error;
mod idle;
mod idle_run;
pub mod laws;
mod stretches;
mod way;
mod way_run;

pub use error::WayError;
pub use idle::order_by_way;
pub use idle_run::IdleRun;
pub use way::{OrderLine, OrderLines, Way};
pub use way_run::{WayRun, run_by_way};
