//! The rules of linking: a library is split into what is linked static and what is linked shared, each variant asks for
//! the modules that it needs and for those whose plugin it is, and a test may be split by its sources.
//!
//! A node and its module flow in; variants, or requests, flow out. The rules are measured by `link_variants`,
//! `deps_asked`, `plugins_asked` and `source_variants` of `specs/`.
#![tactic(auto)]

mod deps_ask;
pub mod laws;
mod leaving;
mod link_split;
mod names;
mod per_source;
mod plugins_ask;
mod wanting;

pub use deps_ask::DepsAsk;
pub use link_split::LinkSplit;
pub use names::module_names;
pub use per_source::PerSource;
pub use plugins_ask::PluginsAsk;
