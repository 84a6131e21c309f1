//! The two rules of defaults: a module asks for the modules that its `defaults` names, and then takes over their
//! records.
//!
//! A node, its module and the results of its edges' targets flow in; requests, or a record, flow out. The rules are
//! measured by `defaults_asked` of `specs/Asked.antt` and `defaults_merged` of `specs/Merged.antt`.
#![tactic(auto)]

mod defaults_deps;
mod defaults_merge;
mod following;
mod leaving;

pub use defaults_deps::DefaultsDeps;
pub use defaults_merge::DefaultsMerge;
