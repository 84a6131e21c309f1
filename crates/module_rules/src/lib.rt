//! What the rules of the mutators have in common: what a rule sees at a node, what it answers there, and how it
//! asks for edges.
//!
//! A graph and the modules flow in; what a rule sees, the results that rules make, and their requests flow out. It is
//! measured by the forms of rules of `specs/Rules.antt` and by `requests` of `specs/Asking.antt`.
#![tactic(auto)]

mod asking;
mod found;
mod given;
mod graphs;
mod groups;
pub mod laws;
mod merging;
mod record;
mod results;
mod seen;
mod variants;

pub use asking::{COMMON, NO_VARIATIONS, ask, request};
pub use found::Lists;
pub use graphs::{with_own_records, with_records};
pub use groups::append_group;
pub use record::Record;
pub use results::{first_record, one_variant};
pub use seen::Seen;
pub use variants::{add_if_enabled, is_enabled, is_true_or};
