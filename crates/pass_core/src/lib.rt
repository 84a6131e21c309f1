//! The core of a pass: its nodes are visited in any order that the edges allow, and every such order
//! comes to one outcome.
//!
//! Steps or a list of nodes flow in, with a plan and a visitor; the visitor's results flow out, which are
//! those of the pass by one worker. It is measured by `specs/CoreStates.antt`, the states and steps of the
//! core machine, and by `OrderOutcome` in `specs/OrderOutcomes.antt`. `laws` says what holds of these for
//! every plan. Plans, visits and the pass by one worker are those of `serial_pass`.
#![tactic(auto)]

mod held;
pub mod laws;
mod machine;
mod order_error;
mod order_run;
mod published;
mod step;

pub use machine::Core;
pub use order_error::OrderError;
pub use order_run::{check_order, run_order};
pub use published::Published;
pub use serial_pass::{
    PassError, Plan, PlanEdge, Visit, VisitError, edges_into, heights, run_pass, run_serial,
    serial_order, starts_of,
};
pub use step::{Step, StepError};
