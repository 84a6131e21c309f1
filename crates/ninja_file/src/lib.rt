//! Files for Ninja, as data.
//!
//! Rules, build statements and defaults flow through, from the pass that makes them to the writer, and
//! from the reader. It is measured by `specs/Meaning.antt`: the files that are well formed. The names,
//! paths and escapes that the writer and the reader share are in `specs/Names.antt` and
//! `specs/Escapes.antt`.
#![tactic(auto)]

mod copy;
mod escape;
mod file;
mod listing;
mod names;
mod well_formed;

pub use escape::{Escape, is_escaped_byte};
pub use file::{NinjaFile, NinjaRule, Piece, Statement};
pub use names::{is_name, is_name_byte, is_path, is_rule_key};
pub use well_formed::is_well_formed;
