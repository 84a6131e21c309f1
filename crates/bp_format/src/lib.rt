//! The formatter and the editor: lays out the text of a file, and sets a list in it.
//!
//! It takes the text of a file and its number, and for an edit a module's name, a property and the new
//! items; it gives the new text, or the first fault. It is measured by `specs/Meaning.antt`, the layout,
//! which is the texts of the tokens, comments among them, with a gap behind each, and by
//! `specs/Editing.antt`, an edited text, of which one span alone has changed.
#![tactic(auto)]

mod brackets;
mod edit;
mod ends;
mod file;
mod gap;
mod identifier;
mod kinds;
pub mod laws;
mod layout;
mod quote;
mod spans;
mod spot;

pub use bp_faults::{Refusal as EditError, Refusal as FormatError};
pub use edit::set_list;
pub use file::format;
pub use identifier::is_identifier;
