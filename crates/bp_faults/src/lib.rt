//! The types that every layer shares: texts, paths, lists, ids, places, limits and faults, and the line
//! that a fault is printed as.
//!
//! Every other crate uses this one. It is measured by `specs/Line.antt`, the fault line. The layers say
//! what their calls answer in the words of `specs/Answers.antt`, `specs/Phases.antt` and `specs/Order.antt`.
#![tactic(auto)]

mod characters;
mod fault;
mod ids;
mod kind;
pub mod laws;
pub mod limits;
mod line;
mod path;
mod payload;
mod place;
mod refusal;
mod same;
mod seq;
mod target;
mod text;

pub use characters::{is_barred_in_paths, is_control};
pub use fault::Fault;
pub use ids::{ModuleId, NodeId};
pub use kind::FaultKind;
pub use line::fault_line;
pub use path::Path;
pub use payload::{Payload, copy_all};
pub use place::{Item, Place};
pub use refusal::{OutOfMemory, Refusal};
pub use same::{Same, same_each, same_shared};
pub use seq::Seq;
pub use target::Target;
pub use text::Text;
