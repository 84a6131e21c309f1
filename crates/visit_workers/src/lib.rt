//! Workers over a board: a pass over a plan in several threads, which comes to what the serial pass does.
//!
//! A plan and a visitor flow in; the visitor's results by node number, the order in which the nodes were visited
//! and the board's receipt for it flow out, or the fault of the first node in serial order that has none. It is
//! measured by `AnswersRun` in `specs/Runs.antt`, over the outcome of a pass in pass_core.
#![tactic(auto)]

mod attempt;
mod completeness;
mod crew;
mod dealing;
mod finish;
mod judge;
mod links;
mod lists;
mod made;
mod node;
mod pass;
mod pass_run;
mod task;
mod verdict;
mod work;

pub use pass_run::{PassRun, visit_all};
