//! The record of a module's properties: its fields, how two records are merged, and which kind of
//! module has which of them.
//!
//! Typing makes the records, the mutators merge and change them, and the build actions read them. The
//! layer is measured by `specs/Meaning.antt`, which says what merging makes of a scalar and of a list,
//! and by `specs/Kinds.antt`, the table of the kinds.
#![tactic(auto)]

mod fields;
mod given;
mod group;
mod group_id;
mod groups;
mod kind;
pub mod laws;
mod listed;
mod merge;
mod module;
mod multi;
mod pairs;
mod props;
mod same;
mod source;
mod table;

pub use fields::{Field, GroupProps};
pub use given::Given;
pub use group_id::GroupId;
pub use groups::Groups;
pub use kind::ModuleKind;
pub use listed::Listed;
pub use module::Module;
pub use multi::Multi;
pub use props::Props;
pub use source::Source;
