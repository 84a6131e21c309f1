//! The rules `arch` and `image`: for which targets a module is built, and on which images of a device it is installed.
//!
//! A graph, the modules and a configuration flow in; the variants of a node flow out, each with the record that the
//! groups of its target or image make. It is measured by `arch_variants` of `specs/Arch.antt` and by `image_variants`
//! of `specs/Images.antt`. The table of targets and the order of their groups stand in `specs/Targets.antt`.
#![tactic(auto)]

mod arch_split;
mod groups;
mod image_split;
mod images;
pub mod laws;
mod leaving;
mod targets;

pub use arch_split::ArchSplit;
pub use image_split::ImageSplit;
