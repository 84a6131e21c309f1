//! The text of files for Ninja, written and read.
//!
//! A `NinjaFile` flows in and its text out (`write`, of `ninja_write`), or a text in and its file out
//! (`read`, of `ninja_read`). It is measured by `specs/Meaning.antt`: what was written for a well-formed
//! file is read back, which `laws` says of the two calls.
#![tactic(auto)]

pub mod laws;

pub use ninja_file::{NinjaFile, NinjaRule, Piece, Statement, is_well_formed};
pub use ninja_read::{NinjaError, read};
pub use ninja_write::{WriteError, write, write_in};
