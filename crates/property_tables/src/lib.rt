//! The property tables: which properties the modules of each type have, and what typing makes of a
//! module.
//!
//! The raw modules of a file and its directory flow in; modules with their records flow out, or the
//! first fault. The layer is measured by `specs/Meaning.antt`, what a module is typed as, over
//! `specs/Tables.antt`, one list of all properties with the kinds of module that have them. What a value
//! stands for is said in `property_values`.
#![tactic(auto)]

mod group_entries;
pub mod laws;
mod lookup;
mod module_entries;
mod module_name;
mod module_type;
mod offer;
mod prop_table;
mod tables;
mod typing;

pub use bp_faults::Refusal as LoadError;
pub use module_type::type_names;
pub use prop_table::PropTable;
pub use property_values::{PropKind, Row};
pub use tables::{arch, group, multilib, of_modules, sanitize, target};
pub use typing::typed;
