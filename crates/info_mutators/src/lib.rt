//! The rules that run last over the graph of variants: `sanitize`, `sdk` and `info`, by which a module takes over what
//! its dependencies or its dependents hand it.
//!
//! A graph and the records made of a node's neighbours flow in; the node's own record flows out, or the fault that one
//! of its lists is too long. It is measured by `info_meant` of `specs/Info.antt`, by `level_meant` of
//! `specs/SdkLevel.antt` and by `sanitize_meant` of `specs/Sanitize.antt`.
#![tactic(auto)]

mod asan;
mod dependency;
mod exports;
mod info;
pub mod laws;
mod leaving;
mod nodes;
mod notes;
mod paths;
mod sanitize;
mod sdk_level;

pub use info::Info;
pub use sanitize::Sanitize;
pub use sdk_level::SdkLevel;
