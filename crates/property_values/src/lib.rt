//! The values of properties: what the value of an entry stands for, its type, its items and its paths,
//! and the field of a record that it sets.
//!
//! The row of a property, an entry and the directory of its module flow in; what the value stands for
//! flows out, or the first fault in it. A record takes it into its field. The layer is measured by
//! `fit_of`, `group_set` and `props_set` in `specs/Fits.antt`.
#![tactic(auto)]

mod entry_values;
mod fields;
mod fit;
pub mod laws;
mod list_items;
mod path_item;
mod row;

pub use bp_faults::Refusal as LoadError;
pub use entry_values::{entries, entry_fault};
pub use fields::{set_group, set_props};
pub use fit::{Fit, fitted};
pub use row::{PropKind, Row};
