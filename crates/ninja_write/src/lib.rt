//! The text of files for Ninja.
//!
//! A `NinjaFile` flows in. Its text flows out, in UTF-8 and of at most 2^29 bytes, with every escape
//! that Ninja needs. It is measured by `specs/Meaning.antt`: the text of a file is its lines one after
//! another. `laws` has what makes that text believable.
#![tactic(auto)]

mod escaped;
pub mod laws;
mod output;
mod part;
mod parts;
mod text;
mod weights;

pub use output::WriteError;
pub use text::{write, write_in};
