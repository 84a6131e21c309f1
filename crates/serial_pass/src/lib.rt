//! A pass by one worker: a plan of nodes is visited one after another, each node after its predecessors.
//!
//! A plan and a visitor flow in; the visitor's results by node number flow out, or the fault of the
//! first node in serial order that has none. It is measured by `node_result` in `specs/Results.antt`
//! and by `PassOutcomeMeans` in `specs/Outcomes.antt`. `laws` says what holds of these for every plan.
#![tactic(auto)]

mod error;
mod height;
mod in_edges;
pub mod laws;
mod order;
mod pass;
mod plan;
mod serial;
mod slots;
mod visit;

pub use error::PassError;
pub use height::heights;
pub use in_edges::{edges_into, in_degrees, starts_of};
pub use order::serial_order;
pub use pass::run_pass;
pub use plan::{Plan, PlanEdge};
pub use serial::{run_serial, visit_along};
pub use slots::{empty_slots, no_marks, unwrapped};
pub use visit::{Visit, VisitError};
